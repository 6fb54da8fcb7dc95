// The calls as C and Rust callers have them: structs by value, numbers for enums. Each function hands its arguments to the library's own
// call and turns the answer into document 01's numbers. The crate `capi_c` exports them; include/pilqandur.h is the other side.
#![tactic(auto)]

ghost use Rattle.std.specs.Prelude.{◌≡◌, length};
ghost use Rattle.table.specs.Refusal.{number_of, value_of};
ghost use Rattle.table.specs.State.{fresh_state, table_figures};
ghost use Rattle.bounds.specs.Admission.{admission_of};
ghost use Rattle.rules.specs.Calls.{request_call, tick_call, run_call, waiting_call, told};
ghost use Rattle.rules.specs.Figures.{request_figures, run_figures, answer_figures, tick_figures, waiting_figures};
ghost use Rattle.capi.specs.Boundary.{state_from, handed_back};
ghost use Rattle.capi.specs.Results.{version, set_up_result, admission_result, moved_at, moved_result, lent_after, tick_at, tick_result, waiting_result};

pub use boundary::CState;
use rules::{Entry, Occupant, Ticked};
use table::{Refusal, State, Table};

mod boundary;

// The number of this header and archive: it rises with each change of a struct, a number or a meaning. include/pilqandur.h says the same.
const VERSION: u32 = 5;

// ---- what a call answers: number is 0 or document 01's number of the refusal; index belongs to refusal 2
// The C interface: a refusal is a number there, each call has a function and a struct of its own, and tables and states go by value.

// Of set-up.
#[repr(C)]
#[derive(Debug, Clone, Copy, PartialEq, Eq)]
pub struct SetUpResult {
    pub number: u32,
    pub index: u32,
    pub state: CState,
}

// Of admission. admitted is 1 or 0.
#[repr(C)]
#[derive(Debug, Clone, Copy, PartialEq, Eq)]
pub struct AdmissionResult {
    pub number: u32,
    pub index: u32,
    pub bounds: [u32; Table::MAX_TASKS as usize],
    pub serverbound: u32,
    pub admitted: u32,
}

// Of a request and of a run.
#[repr(C)]
#[derive(Debug, Clone, Copy, PartialEq, Eq)]
pub struct MovedResult {
    pub number: u32,
    pub state: CState,
}

// The C interface: C has no Option, so `finished` is a flag beside its two numbers, and no generic struct, so this one stands beside MovedResult.
// Of a tick. kind, id and drops are the tick's record. finished is 1 where the tick finished a request: then request is its id and response
// its response; they are 0 otherwise. Of a refused tick all but number and state is 0.
#[repr(C)]
#[derive(Debug, Clone, Copy, PartialEq, Eq)]
pub struct TickResult {
    pub number: u32,
    pub kind: u32,
    pub id: u32,
    pub drops: u32,
    pub finished: u32,
    pub request: u32,
    pub response: u32,
    pub state: CState,
}

// Of the waiting call. work: the ticks of work that wait; 0 where the call refuses.
#[repr(C)]
#[derive(Debug, Clone, Copy, PartialEq, Eq)]
pub struct WaitingResult {
    pub number: u32,
    pub work: u32,
}

// ---- enums as numbers

// The number of a refusal; 0 where there is none.
fn number_of(answer: Result<(), Refusal>) -> u32
    ensures { result ≡ number_of answer }
{
    match answer {
        Ok(()) => 0,
        Err(refusal) => refusal.number(),
    }
}

// The index of refusal 2; 0 of every other answer.
fn value_of(answer: Result<(), Refusal>) -> u32
    ensures { result ≡ value_of answer }
{
    match answer {
        Err(Refusal::BadTask(i)) => i,
        _ => 0,
    }
}

// ---- answers as numbers

// A request's or a run's answer, of the state that was given, and the state after it.
fn moved_result(state: &CState, answer: Result<(), Refusal>, next: &State) -> MovedResult
    ensures { result ≡ moved_at (number_of answer) (handed_back state.now next.now) }
{
    MovedResult {
        number: number_of(answer),
        state: state.handed_back(next),
    }
}

// A tick's answer, of the state that was given, and the state after it. The state is written once, which keeps the call's stack small.
fn tick_result(state: &CState, answer: Result<Ticked, Refusal>, next: &State) -> TickResult
    ensures { result ≡ tick_at (answer_figures answer) (handed_back state.now next.now) }
{
    let (number, ran, finished) = match answer {
        Ok(ticked) => (0, ticked.entry(), ticked.finished),
        Err(refusal) => (refusal.number(), Occupant::Idle.entry(0), None),
    };
    let (finished, request, response) = match finished {
        Some(done) => (1, done.id, done.response),
        None => (0, 0, 0),
    };
    TickResult {
        number,
        kind: ran.kind,
        id: ran.id,
        drops: ran.drops,
        finished,
        request,
        response,
        state: state.handed_back(next),
    }
}

// ---- the calls

// The number of the header that the archive belongs to.
pub fn pilqandur_version() -> u32
    ensures { result ≡ version }
{
    VERSION
}

// What set-up answers, in numbers: its refusal, and the index of refusal 2; both are 0 where the table passes.
// inline(never): to keep the stack of the C call for set-up small.
#[inline(never)]
fn set_up_numbers(table: &Table) -> (u32, u32)
    ensures number { result.0 ≡ (table_figures table.now).number }
    ensures index { result.1 ≡ (table_figures table.now).value }
{
    match table.set_up() {
        Ok(_) => (0, 0),
        Err(refusal) => (refusal.number(), value_of(Err(refusal))),
    }
}

// Set-up: the fresh state of a table, or refusal 1, 2 or 3. The state that set-up gives is the fresh one, which stands beside a refusal too: it
// is written once, which keeps the call's stack small.
pub fn pilqandur_set_up(table: Table) -> SetUpResult
    ensures { result ≡ set_up_result (table_figures table) (fresh_state table) }
{
    let (number, index) = set_up_numbers(&table);
    SetUpResult {
        number,
        index,
        state: CState::from(&table.fresh()),
    }
}

// Admission: the bounds of a table, or refusal 1, 2 or 3.
pub fn pilqandur_admit(table: Table) -> AdmissionResult
    ensures { result ≡ admission_result (table_figures table) (admission_of table) }
{
    match admission::admit(&table) {
        Ok(admission) => {
            let bounds = admission.bounds;
            AdmissionResult {
                number: 0,
                index: 0,
                bounds,
                serverbound: admission.serverbound,
                admitted: u32::from(admission.admitted),
            }
        }
        Err(refusal) => AdmissionResult {
            number: refusal.number(),
            index: value_of(Err(refusal)),
            bounds: [0; Table::MAX_TASKS as usize],
            serverbound: 0,
            admitted: 0,
        },
    }
}

// A request presented at the state's clock, or refusal 11, 4 or 5.
pub fn pilqandur_request(state: CState, id: u32, work: u32) -> MovedResult
    ensures { result ≡ moved_result state (request_figures (state_from state) work) (request_call (state_from state) id work).state }
{
    let mut moved = state.taken();
    let answer = scheduler::request(&mut moved, id, work);
    moved_result(&state, answer, &moved)
}

// One tick, or refusal 11 or 6.
pub fn pilqandur_tick(state: CState) -> TickResult
    ensures { result ≡ tick_result state (tick_figures (state_from state)) (tick_call (state_from state)).state }
{
    let mut moved = state.taken();
    let answer = scheduler::tick(&mut moved);
    tick_result(&state, answer, &moved)
}

// k ticks, the record of each in the lent list, or refusal 11, 6 or 10. The list is lent on.
pub fn pilqandur_run(state: CState, k: u32, entries: &mut [Entry]) -> MovedResult
    ensures answer { result ≡ moved_result state (run_figures (state_from state) k (length entries.old)) (run_call (state_from state) k (length entries.old)).state }
    ensures record { entries.new ≡ lent_after state k entries.old }
{
    let mut moved = state.taken();
    let answer = scheduler::run(&mut moved, k, entries);
    moved_result(&state, answer, &moved)
}

// The ticks of work that wait, as the state holds them, or refusal 11. It moves no state, so none comes back.
pub fn pilqandur_waiting(state: CState) -> WaitingResult
    ensures { result ≡ waiting_result state (waiting_figures (state_from state)) (told (waiting_call (state_from state))) }
{
    match scheduler::waiting(&state.taken()) {
        Ok(work) => WaitingResult { number: 0, work },
        Err(refusal) => WaitingResult {
            number: refusal.number(),
            work: 0,
        },
    }
}
