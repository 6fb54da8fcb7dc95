// The calls that move a state, a request, a tick, a run of ticks, and the one that tells the work that waits; `session` has ticks and
// requests of one state, one after the other. A file for each step of a tick has that step's code: `opening` has steps 1 and 2, `choice`
// step 4, `work` step 5, and `ticking` puts them together with steps 3 and 6.
#![tactic(auto)]

ghost use Rattle.std.specs.Prelude.{length, ◌+◌, ◌≤◌, ◌≡◌, true, OnOk, OnErr};
ghost use Rattle.server.specs.Limits.{last_clock};
ghost use Rattle.server.specs.Returns.{max_held};
ghost use Rattle.queue.specs.Queue.{max_waiting};
ghost use Rattle.table.specs.Limits.{max_tasks};
ghost use Rattle.table.specs.Refusal.{figures};
ghost use Rattle.table.specs.State.{fit};
ghost use Rattle.rules.specs.Calls.{request_call, tick_call, run_call, run_list, run_state, run_entries, waiting_call};
ghost use Rattle.rules.specs.Laws.{Sized};
ghost use Rattle.rules.specs.Block.{block_ticks};
ghost use Rattle.rules.specs.Figures.{request_figures, answer_figures, tick_figures, run_figures, waiting_figures};
ghost use Rattle.scheduler.specs.Allowance.{allowance, block_call};
ghost use Rattle.scheduler.specs.Opening.{calm_of};
ghost use Rattle.scheduler.specs.Known.{Known};

use queue::{Queue, Request};
use rules::{Entry, Ticked};
use server::{Returns, Stretch};
pub use session::Session;
use table::{Refusal, State, Table, Task};
use ticking::advance;

mod choice;
mod opening;
mod session;
mod ticking;
mod work;

// The tick call: one tick at the state's clock, or refusal 11 or 6. Each call begins with the same test: a function for it would hide which refusal
// comes first.
pub fn tick(state: &mut State) -> Result<Ticked, Refusal>
    ensures answer { result ≡ (tick_call state.old).answer }
    ensures next { state.new ≡ (tick_call state.old).state }
    ensures in_figures { answer_figures result ≡ tick_figures state.old }
{
    know_sizes(state);
    if !state.fit() {
        return Err(Refusal::UnfitState);
    }
    let mut calm = 0;
    fit_tick(state, &mut calm)
}

// The tick call of a fit state. A refused one leaves the calm as it is.
fn fit_tick(state: &mut State, calm: &mut u32) -> Result<Ticked, Refusal>
    requires { Known state.old true calm.old }
    ensures answer { result ≡ (tick_call state.old).answer }
    ensures next { state.new ≡ (tick_call state.old).state }
    ensures in_figures { answer_figures result ≡ tick_figures state.old }
    ensures calm { OnOk result (calm.new ≡ calm_of state.old calm.old) }
    ensures calm_kept { OnErr result (calm.new ≡ calm.old) }
    ensures known { Known state.new true calm.new }
{
    if Table::LAST_CLOCK <= state.progress.clock {
        return Err(Refusal::ClockSpent);
    }
    Ok(advance(state, calm))
}

// The request call: a request presented at the state's clock, or refusal 11, 4 or 5. C passes its id and its work as two numbers, and a
// struct of them would be made at each call for nothing.
pub fn request(state: &mut State, id: u32, work: u32) -> Result<(), Refusal>
    ensures answer { result ≡ (request_call state.old id work).answer }
    ensures next { state.new ≡ (request_call state.old id work).state }
    ensures in_figures { figures result ≡ request_figures state.old work }
{
    know_sizes(state);
    if !state.fit() {
        return Err(Refusal::UnfitState);
    }
    fit_request(state, id, work)
}

// The request call of a fit state.
fn fit_request(state: &mut State, id: u32, work: u32) -> Result<(), Refusal>
    requires fits { fit state.old ≡ true }
    requires sized { Sized state.old }
    ensures answer { result ≡ (request_call state.old id work).answer }
    ensures next { state.new ≡ (request_call state.old id work).state }
    ensures in_figures { figures result ≡ request_figures state.old work }
{
    if work < 1 || Table::MAX_WORK < work {
        return Err(Refusal::BadWork);
    }
    if Table::MAX_WAITING <= state.queue.n {
        return Err(Refusal::QueueFull);
    }
    state.queue.push(id, work, state.progress.clock);
    Ok(())
}

// The waiting call: the ticks of work that wait, as the state holds them, or refusal 11.
pub fn waiting(state: &State) -> Result<u32, Refusal>
    ensures answer { result ≡ waiting_call state.now }
    ensures in_figures { figures result ≡ waiting_figures state.now }
{
    if !state.fit() {
        return Err(Refusal::UnfitState);
    }
    Ok(state.queue.backlog)
}

// What a run of a block of ticks at most answers, and the record of its ticks.
#[derive(Debug, Clone, Copy, PartialEq, Eq)]
pub struct Recording {
    pub answer: Result<(), Refusal>,
    pub entries: [Entry; Recording::TICKS],
}

impl Recording {
    // How many ticks a block has.
    pub const TICKS: usize = 32;
}

// The run call with a list of idle entries, as many as a block has: a caller that lends none has the record of the ticks all the same. A
// refused run leaves the state as it is, and all entries idle.
#[tactic(auto, unfolding(crate::specs::Allowance::block_call))]
pub fn run_block(state: &mut State, k: u32) -> Recording
    ensures answer { result.answer ≡ (block_call state.old k).answer }
    ensures record { result.entries ≡ (block_call state.old k).entries }
    ensures next { state.new ≡ (block_call state.old k).state }
    ensures in_figures { figures result.answer ≡ run_figures state.old k block_ticks }
{
    let mut entries = [Entry {
        kind: 0,
        id: 0,
        drops: 0,
    }; Recording::TICKS];
    let answer = run(state, k, &mut entries);
    Recording { answer, entries }
}

// The run call: k ticks, the record of each in the lent list, or refusal 11, 6 or 10. Fitness is looked at once, and the tasks only where
// the calm ends.
#[tactic(auto, unfolding(crate::specs::Allowance::allowance))]
pub fn run(state: &mut State, k: u32, entries: &mut [Entry]) -> Result<(), Refusal>
    ensures answer { result ≡ (run_call state.old k (length entries.old)).answer }
    ensures next { state.new ≡ (run_call state.old k (length entries.old)).state }
    ensures record { entries.new ≡ run_list state.old k entries.old }
    ensures in_figures { figures result ≡ run_figures state.old k (length entries.old) }
{
    know_sizes(state);
    check_run(state, k, entries.len())?;
    run_ticks(state, &mut entries[..k as usize]);
    Ok(())
}

// A tick for each entry.
fn run_ticks(state: &mut State, entries: &mut [Entry])
    requires known { Known state.old true 0 }
    requires clock { state.old.progress.clock + length entries.old ≤ last_clock }
    ensures next { state.new ≡ run_state (length entries.old) state.old }
    ensures record { entries.new ≡ run_entries (length entries.old) state.old }
{
    let mut calm = 0;
    for entry in entries.iter_mut() {
        *entry = advance(state, &mut calm).entry();
    }
}

// Refusals 11, 6 and 10, in this order, of a run of k ticks with so many entries lent.
#[tactic(auto, unfolding(crate::specs::Allowance::allowance))]
fn check_run(state: &State, k: u32, lent: usize) -> Result<(), Refusal>
    ensures { result ≡ (allowance state.now k lent).answer }
{
    if !state.fit() {
        return Err(Refusal::UnfitState);
    }
    if u64::from(Table::LAST_CLOCK) < u64::from(state.progress.clock) + u64::from(k) {
        return Err(Refusal::ClockSpent);
    }
    if lent < k as usize {
        return Err(Refusal::ShortRecord);
    }
    Ok(())
}

// For the proofs: the arrays have the lengths of their types. Of another crate's struct behind a reference they do not know it till an
// array is lent.
fn know_sizes(state: &State)
    ensures { Sized state.now }
{
    know_lengths(
        &state.table.tasks,
        &state.progress.left,
        &state.queue.requests,
        &state.returns.stretches,
    );
}

fn know_lengths(
    tasks: &[Task; Table::MAX_TASKS as usize],
    left: &[u32; Table::MAX_TASKS as usize],
    requests: &[Request; Queue::CAPACITY as usize],
    stretches: &[Stretch; Returns::CAPACITY as usize],
)
    ensures tasks { length tasks.now ≡ max_tasks }
    ensures left { length left.now ≡ max_tasks }
    ensures requests { length requests.now ≡ max_waiting }
    ensures stretches { length stretches.now ≡ max_held }
{
    // no code: the types say it
}
