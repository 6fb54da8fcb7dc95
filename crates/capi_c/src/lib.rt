// The calls as C and Rust callers link them: the crate `capi` under C's names, with the same clauses,
// since a static library exports its own functions alone. include/pilqandur.h is the other side.
#![tactic(auto)]

ghost use Rattle.std.specs.Prelude.{◌≡◌, length};
ghost use Rattle.table.specs.State.{fresh_state, table_figures};
ghost use Rattle.bounds.specs.Admission.{admission_of};
ghost use Rattle.rules.specs.Calls.{request_call, tick_call, run_call, waiting_call, told};
ghost use Rattle.rules.specs.Figures.{request_figures, run_figures, tick_figures, waiting_figures};
ghost use Rattle.capi.specs.Boundary.{state_from};
ghost use Rattle.capi.specs.Results.{version, set_up_result, admission_result, moved_result, lent_after, tick_result, waiting_result};

use capi::{AdmissionResult, CState, MovedResult, SetUpResult, TickResult, WaitingResult};
use rules::Entry;
use table::Table;

// The number of the header that this archive belongs to.
#[unsafe(no_mangle)]
pub extern "C" fn pilqandur_version() -> u32
    ensures { result ≡ version }
{
    capi::pilqandur_version()
}

// Set-up: the fresh state of a table, or refusal 1, 2 or 3.
#[unsafe(no_mangle)]
pub extern "C" fn pilqandur_set_up(table: Table) -> SetUpResult
    ensures { result ≡ set_up_result (table_figures table) (fresh_state table) }
{
    capi::pilqandur_set_up(table)
}

// Admission: the bounds of a table, or refusal 1, 2 or 3.
#[unsafe(no_mangle)]
pub extern "C" fn pilqandur_admit(table: Table) -> AdmissionResult
    ensures { result ≡ admission_result (table_figures table) (admission_of table) }
{
    capi::pilqandur_admit(table)
}

// A request presented at the state's clock, or refusal 11, 4 or 5.
#[unsafe(no_mangle)]
pub extern "C" fn pilqandur_request(state: CState, id: u32, work: u32) -> MovedResult
    ensures { result ≡ moved_result state (request_figures (state_from state) work) (request_call (state_from state) id work).state }
{
    capi::pilqandur_request(state, id, work)
}

// One tick, or refusal 11 or 6.
#[unsafe(no_mangle)]
pub extern "C" fn pilqandur_tick(state: CState) -> TickResult
    ensures { result ≡ tick_result state (tick_figures (state_from state)) (tick_call (state_from state)).state }
{
    capi::pilqandur_tick(state)
}

// k ticks, the record of each in the lent list, or refusal 11, 6 or 10. The list is lent on.
#[unsafe(no_mangle)]
pub extern "C" fn pilqandur_run(state: CState, k: u32, entries: &mut [Entry]) -> MovedResult
    ensures answer { result ≡ moved_result state (run_figures (state_from state) k (length entries.old)) (run_call (state_from state) k (length entries.old)).state }
    ensures record { entries.new ≡ lent_after state k entries.old }
{
    capi::pilqandur_run(state, k, entries)
}

// The ticks of work that wait, as the state holds them, or refusal 11. It moves no state, so none comes back.
#[unsafe(no_mangle)]
pub extern "C" fn pilqandur_waiting(state: CState) -> WaitingResult
    ensures { result ≡ waiting_result state (waiting_figures (state_from state)) (told (waiting_call (state_from state))) }
{
    capi::pilqandur_waiting(state)
}
