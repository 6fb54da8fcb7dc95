// Lists, tests, sums that stop at a limit, stretches and recurring times, as the definitions of every layer speak of them: definitions and
// laws alone (specs/), and no code.

#![tactic(auto)]
