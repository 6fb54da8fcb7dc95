// Where the guarantee meets the code: its theorem is about the definitions of the calls; `play` makes the calls themselves, from a table
// on. Its contract says that it reports what the definitions say, and that a table it reports admitted keeps the guarantee.
#![tactic(auto)]

ghost use Rattle.std.specs.Prelude.{◌≤◌, ◌≡◌, [], ◌∷◌, length, map, sum};
ghost use Rattle.server.specs.Limits.{last_clock};
ghost use Rattle.rules.specs.Block.{block_ticks, idle_entries};
ghost use Rattle.guarantee.specs.Calls.{request, tick, run};
ghost use Rattle.play.specs.Numbers.{call_of, calls_of};
ghost use Rattle.play.specs.Calls.{meant};
ghost use Rattle.play.specs.Report.{made_at, made, reported};
ghost use Rattle.play.specs.Promise.{Promise};

use rules::Entry;
use table::{State, Table};

// A call of a list.
#[derive(Debug, Clone, Copy, PartialEq, Eq)]
enum Call {
    Request { id: u32, work: u32 },
    Tick,
    Run { ticks: u32 },
}

impl Call {
    // The call that three numbers say. what: 0 is a request, 1 a tick, any other number a run. first is the request's id or the run's number of
    // ticks, second the request's work; where the call has no such number, it is not read. Numbers, since `play` takes every list of numbers.
    fn of(what: u32, first: u32, second: u32) -> Call
        ensures { meant result ≡ call_of what first second }
    {
        match what {
            0 => Call::Request {
                id: first,
                work: second,
            },
            1 => Call::Tick,
            _ => Call::Run { ticks: first },
        }
    }
}

// How many ticks calls ran, and the sum of the drops of these ticks.
#[derive(Debug, Clone, Copy, PartialEq, Eq, Default)]
struct Tally {
    ticks: u32,
    drops: u64,
}

// What is reported of a table and a list of calls: whether the table is admitted, what the calls leave and report, and what the waiting call
// tells after them, 0 where it refuses, as the definition `reported` says.
#[derive(Debug, Clone, Copy, PartialEq, Eq)]
pub struct Report {
    pub admitted: bool,
    pub ticks: u32,
    pub drops: u64,
    pub waiting: u32,
    pub state: State,
}

// The drops that a run has written into its entries.
fn sum_drops(entries: &[Entry]) -> u64
    requires { length entries.now ≤ block_ticks }
    ensures { result ≡ sum (map (λ entry. entry.drops) entries.now) }
{
    entries.iter().map(|entry| u64::from(entry.drops)).sum()
}

// A request: no tick runs.
fn make_request(state: &mut State, id: u32, work: u32) -> Tally
    ensures { made_at state.new result.ticks result.drops ≡ made state.old (request id work ∷ []) }
{
    let _ = scheduler::request(state, id, work);
    Tally::default()
}

// A tick, with the drops that it returned; a refused one did not run.
fn make_tick(state: &mut State) -> Tally
    ensures { made_at state.new result.ticks result.drops ≡ made state.old (tick ∷ []) }
{
    match scheduler::tick(state) {
        Ok(ticked) => Tally {
            ticks: 1,
            drops: u64::from(ticked.drops),
        },
        Err(_) => Tally::default(),
    }
}

// A run of a block of k ticks (`run_block`: a list of idle entries is lent), with the drops that it wrote there. So k may be 0 to 32; a
// longer run is refused, by 10 where not by 11 or 6.
fn make_run(state: &mut State, k: u32) -> Tally
    ensures { made_at state.new result.ticks result.drops ≡ made state.old (run k idle_entries ∷ []) }
{
    let block = scheduler::run_block(state, k);
    match block.answer {
        Ok(()) => Tally {
            ticks: k,
            drops: sum_drops(&block.entries[..k as usize]),
        },
        Err(_) => Tally { ticks: 0, drops: 0 },
    }
}

// One call.
fn make(state: &mut State, call: Call) -> Tally
    ensures { made_at state.new result.ticks result.drops ≡ made state.old (meant call ∷ []) }
{
    match call {
        Call::Request { id, work } => make_request(state, id, work),
        Call::Tick => make_tick(state),
        Call::Run { ticks } => make_run(state, ticks),
    }
}

// The calls of a list, three numbers to a call, made one after the other. The sums fit: a tick raises the clock, which ends at
// 4,000,000,000, and drops no more jobs than there are tasks.
fn make_all(state: &mut State, calls: &[u32]) -> Tally
    requires { state.old.progress.clock ≤ last_clock }
    ensures { made_at state.new result.ticks result.drops ≡ made state.old (calls_of calls.now) }
{
    let mut tally = Tally::default();
    for numbers in calls.chunks_exact(3) {
        let one = make(state, Call::of(numbers[0], numbers[1], numbers[2]));
        tally.ticks += one.ticks;
        tally.drops += one.drops;
    }
    tally
}

// Admission and set-up of a table, and then the calls of a list, three numbers to a call. A table that is not admitted is played
// too. One that breaks its limits has an unfit fresh state: every call is refused and leaves it as it was, and no tick runs. The table comes by value,
// as the clauses speak of it: a reference would only make them say `table.now`.
pub fn play(table: Table, calls: &[u32]) -> Report
    ensures reports { result ≡ reported table (calls_of calls.now) }
    ensures keeps { Promise table (calls_of calls.now) result }
{
    let mut state = table.set_up().unwrap_or(table.fresh());
    let tally = make_all(&mut state, calls);
    Report {
        admitted: admission::bounds_of(&table).admitted,
        ticks: tally.ticks,
        drops: tally.drops,
        waiting: scheduler::waiting(&state).unwrap_or(0),
        state,
    }
}
