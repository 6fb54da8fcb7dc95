// What `schedule` prints of the ticks, piece by piece, in a lent buffer: it cannot fail.
ghost use Rattle.std.specs.Prelude.{ℕ, ◌≡◌, ◌+◌, ◌*◌, ◌<◌, ◌≤◌, List, length};
ghost use Rattle.text.specs.Buffer.{Wrote, if_room};
ghost use Rattle.text.specs.Lines.{line_room, line_bytes};
ghost use Rattle.plan.specs.Text.{max_number};
ghost use Rattle.queue.specs.Queue.{waiting_of};
ghost use Rattle.rules.specs.Laws.{Sized};
ghost use Rattle.scheduler.specs.Allowance.{block_call};
ghost use Rattle.output.specs.Rooms.{step_room};
ghost use Rattle.output.specs.Totals.{closing_text};
ghost use Rattle.output.specs.Output.{answer_text, occupant_line, finish_text, tick_text};
ghost use Rattle.output.specs.Steps.{first_place, presented, tick_run, Taken, Stepped, NotDue};
ghost use Rattle.output.specs.Blocks.{entry_line, block_text, Unfinished, Undisturbed, Free};
ghost use Rattle.output.specs.Pieces.{Filled};

use crate::totals::Totals;
use plan::Arrival;
use queue::{Finished, Queue};
use rules::{Entry, Occupant, Ticked};
use scheduler::Recording;
use table::{Refusal, State, Table};
use text::Line;

// Where the printing stands: the next tick, the next A line with where the line after it starts, the state, and the totals of the ticks before.
#[derive(Debug, Clone, Copy, PartialEq, Eq)]
pub struct Place {
    pub tick: u32,
    pub next: Option<(Arrival, usize)>,
    pub state: State,
    pub totals: Totals,
}

// The room that must be there for a step to begin: an X line and an F line.
pub const STEP_ROOM: usize = 2 * text::LINE_ROOM;

// The most ticks that are run at once.
const BLOCK: u32 = Recording::TICKS as u32;

// Where the printing of an accepted plan starts.
pub fn first(plan: &[u8], table: &Table) -> Place
    ensures { result ≡ first_place plan.now table.now }
{
    Place {
        tick: 0,
        next: plan::first_arrival(plan, 0),
        state: table.fresh(),
        totals: Totals::default(),
    }
}

// Fills the buffer from its start with what is printed from a place on, step by step as far as it has room. Moves the place behind that, and says how far
// the buffer is filled.
pub fn fill(plan: &[u8], ticks: u32, out: &mut [u8], place: &mut Place) -> usize
    ensures { Filled plan.now ticks out.old place.old out.new result place.new }
{
    let mut at = 0;
    while place.tick < ticks && STEP_ROOM <= out.len() - at {
        at = step(plan, ticks, out, at, place);
    }
    at
}

// The E line of ticks and their totals, from the buffer's start, and where it ends: nothing where LINE_ROOM bytes are not there.
pub fn closing(out: &mut [u8], ticks: u32, totals: Totals) -> usize
    ensures room { result ≤ line_room }
    ensures written { Wrote out.old 0 (if_room line_room out.old 0 (closing_text ticks totals)) out.new result }
{
    let line = lines::totals_line(
        ticks,
        totals.idle,
        totals.tasks,
        totals.requests,
        totals.drops,
    );
    text::write_line(out, 0, line)
}

// Goes on by some steps, one at least: an A line that is due, or else ticks.
fn step(plan: &[u8], ticks: u32, out: &mut [u8], at: usize, place: &mut Place) -> usize
    requires room { at + step_room ≤ length out.old }
    requires early { place.old.tick < ticks }
    ensures { Stepped plan.now ticks out.old at place.old out.new result place.new }
{
    if let Some((arrival, behind)) = place.next {
        if arrival.tick == place.tick {
            return present(plan, out, at, place, arrival, behind);
        }
    }
    run_on(ticks, out, at, place)
}

// Presents an A line, which is due; behind it starts the line after it.
fn present(
    plan: &[u8],
    out: &mut [u8],
    at: usize,
    place: &mut Place,
    arrival: Arrival,
    behind: usize,
) -> usize
    requires { at + step_room ≤ length out.old }
    ensures { Taken (presented plan.now place.old arrival behind) out.old at out.new result place.new }
{
    let answer = scheduler::request(&mut place.state, arrival.id, arrival.work);
    place.next = plan::first_arrival(plan, behind);
    answer_line(out, at, place.tick, arrival.id, answer)
}

// Runs ticks that no A line is due for any more: as many at once as can be, or one.
fn run_on(ticks: u32, out: &mut [u8], at: usize, place: &mut Place) -> usize
    requires room { at + step_room ≤ length out.old }
    requires early { place.old.tick < ticks }
    requires none_due { NotDue place.old.next place.old.tick }
    ensures { (bytes : List ℕ) → Stepped bytes ticks out.old at place.old out.new result place.new }
{
    let k = with_room(free_ticks(ticks, place), out.len(), at);
    if 1 < k {
        let (block, moved) = run_copy(place.state, k);
        match block.answer {
            Ok(()) => {
                let entries = &block.entries[..k as usize];
                let end = block_lines(out, at, place.tick, entries);
                place.tick += k;
                place.state = moved;
                place.totals = place.totals.count_block(entries);
                return end;
            }
            Err(_) => {}
        }
    }
    run_tick(out, at, place)
}

// A run of a block on a copy of a state: where it is refused, the place stays as it is. By value: behind a reference the check does not know the lengths of
// the state's arrays.
fn run_copy(state: State, k: u32) -> (Recording, State)
    ensures sized { Sized state }
    ensures answer { result.0.answer ≡ (block_call state k).answer }
    ensures record { result.0.entries ≡ (block_call state k).entries }
    ensures next { result.1 ≡ (block_call state k).state }
{
    let mut moved = state;
    let block = scheduler::run_block(&mut moved, k);
    (block, moved)
}

// Runs a tick that no A line is due for any more.
fn run_tick(out: &mut [u8], at: usize, place: &mut Place) -> usize
    requires room { at + step_room ≤ length out.old }
    requires early { place.old.tick < max_number }
    ensures { Taken (tick_run place.old) out.old at out.new result place.new }
{
    let t = place.tick;
    let answer = scheduler::tick(&mut place.state);
    place.tick = t + 1;
    place.totals = place.totals.count(answer);
    tick_lines(out, at, t, answer)
}

// How many ticks can be run at once: no A line is due before the last, and none of them finishes a request.
fn free_ticks(ticks: u32, place: &Place) -> u32
    requires { place.now.tick < ticks }
    ensures { 0 < result → Free ticks place.now result }
{
    let few = BLOCK.min(ticks - place.tick);
    let quiet = undisturbed(place.next, place.tick).min(unfinished(&place.state.queue));
    few.min(quiet)
}

// How many ticks there are before the next A line is due.
fn undisturbed(next: Option<(Arrival, usize)>, tick: u32) -> u32
    ensures { 0 < result → Undisturbed next (tick + result) }
{
    match next {
        Some((arrival, _)) => arrival.tick.saturating_sub(tick),
        None => BLOCK,
    }
}

// How many ticks the head can be served and still wait; as many as are run at once where none waits.
fn unfinished(queue: &Queue) -> u32
    ensures { 0 < result → Unfinished (waiting_of queue.now) result }
{
    match queue.waiting().first() {
        Some(head) => head.work.saturating_sub(1),
        None => BLOCK,
    }
}

// The same, or fewer: as many as have room for their X lines behind `at` in a buffer of n bytes.
fn with_room(k: u32, n: usize, at: usize) -> u32
    requires { at ≤ n }
    ensures few { result ≤ k }
    ensures room { at + result * line_room ≤ n }
{
    let lines = (n - at) / text::LINE_ROOM;
    if lines < k as usize {
        return lines as u32;
    }
    k
}

// Writes the X lines of ticks from t on, from their record.
fn block_lines(out: &mut [u8], at: usize, t: u32, entries: &[Entry]) -> usize
    requires ticks { t + length entries.now ≤ max_number }
    requires room { at + length entries.now * line_room ≤ length out.old }
    ensures room { result ≤ at + length entries.now * line_room }
    ensures written { Wrote out.old at (block_text t entries.now) out.new result }
{
    let mut end = at;
    for (i, entry) in entries.iter().enumerate() {
        end = text::write_line(out, end, entry_line(t + i as u32, *entry));
    }
    end
}

// Writes what a request's answer prints: the N line of one that was refused.
fn answer_line(out: &mut [u8], at: usize, t: u32, id: u32, answer: Result<(), Refusal>) -> usize
    requires { at + line_room ≤ length out.old }
    ensures room { result ≤ at + line_room }
    ensures written { Wrote out.old at (answer_text t id answer) out.new result }
{
    match answer {
        Ok(()) => at,
        Err(refusal) => text::write_line(out, at, lines::refused_line(t, id, refusal.number())),
    }
}

// Writes the lines of a tick: X, then F if a request finished.
fn tick_lines(out: &mut [u8], at: usize, t: u32, answer: Result<Ticked, Refusal>) -> usize
    requires { at + step_room ≤ length out.old }
    ensures room { result ≤ at + step_room }
    ensures written { Wrote out.old at (tick_text t answer) out.new result }
{
    match answer {
        Ok(ticked) => {
            let behind = text::write_line(out, at, occupant_line(t, ticked.occupant, ticked.drops));
            finish_line(out, behind, t, ticked.finished)
        }
        Err(_) => at,
    }
}

// Writes the F line of a tick that finished a request.
fn finish_line(out: &mut [u8], at: usize, t: u32, finished: Option<Finished>) -> usize
    requires { at + line_room ≤ length out.old }
    ensures room { result ≤ at + line_room }
    ensures written { Wrote out.old at (finish_text t finished) out.new result }
{
    match finished {
        None => at,
        Some(finished) => {
            text::write_line(
                out,
                at,
                lines::finish_line(t, finished.id, finished.response),
            )
        }
    }
}

// The X line of a tick.
fn occupant_line(t: u32, who: Occupant, drops: u32) -> Line
    ensures { result ≡ line_bytes (occupant_line t who drops) }
{
    match who {
        Occupant::Idle => lines::tick_line(t, b'I', 0, drops),
        Occupant::Task(row) => lines::tick_line(t, b'T', row, drops),
        Occupant::Request(id) => lines::tick_line(t, b'A', id, drops),
    }
}

// The X line of a tick, from its record.
fn entry_line(t: u32, entry: Entry) -> Line
    ensures { result ≡ line_bytes (entry_line t entry) }
{
    match entry.kind {
        0 => lines::tick_line(t, b'I', entry.id, entry.drops),
        1 => lines::tick_line(t, b'T', entry.id, entry.drops),
        _ => lines::tick_line(t, b'A', entry.id, entry.drops),
    }
}
