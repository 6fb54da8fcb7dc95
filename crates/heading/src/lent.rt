// What `schedule` prints before the ticks, and of a refused plan, in a lent buffer: it cannot fail, and where a line has no room it writes nothing.
ghost use Rattle.std.specs.Prelude.{◌*◌, ◌≤◌, length};
ghost use Rattle.bounds.specs.Admission.{admission_of};
ghost use Rattle.text.specs.Buffer.{Wrote, if_room};
ghost use Rattle.text.specs.Lines.{line_room, line_bytes};
ghost use Rattle.lines.specs.Lines.{plan_refused_line};
ghost use Rattle.plan.specs.Refusal.{number};
ghost use Rattle.table.specs.Limits.{max_tasks};
ghost use Rattle.heading.specs.Rooms.{head_room};
ghost use Rattle.heading.specs.Heading.{bounds_text, head_text};

use plan::PlanRefusal;
use table::Table;

// The room that must be there for the head: a B line for each task, the server's, and the V line.
pub const HEAD_ROOM: usize = (Table::MAX_TASKS as usize + 2) * text::LINE_ROOM;

// Writes the Z line of a refused plan from the buffer's start, and says where it ends.
pub fn refused(out: &mut [u8], refusal: PlanRefusal, line: u32) -> usize
    ensures room { result ≤ line_room }
    ensures written { Wrote out.old 0
        (if_room line_room out.old 0 (line_bytes (plan_refused_line (number refusal) line))) out.new result }
{
    text::write_line(out, 0, lines::plan_refused_line(refusal.number(), line))
}

// Writes the head of an accepted plan's output from the buffer's start, and says where it ends: nothing where HEAD_ROOM bytes are not there.
pub fn head(out: &mut [u8], table: &Table) -> usize
    ensures room { result ≤ head_room }
    ensures written { Wrote out.old 0
        (if_room head_room out.old 0 (head_text table.now.n (admission_of table.now))) out.new result }
{
    if out.len() < HEAD_ROOM {
        return 0;
    }
    let admission = admission::bounds_of(table);
    let n = table.n.min(Table::MAX_TASKS) as usize;
    let at = bounds_lines(out, &admission.bounds[..n]);
    let behind = text::write_line(out, at, lines::server_bound_line(admission.serverbound));
    text::write_line(out, behind, lines::admitted_line(admission.admitted))
}

// Writes the B line of each task from the buffer's start, and says where they end.
fn bounds_lines(out: &mut [u8], bounds: &[u32]) -> usize
    requires few { length bounds.now ≤ max_tasks }
    requires room { head_room ≤ length out.old }
    ensures room { result ≤ length bounds.now * line_room }
    ensures written { Wrote out.old 0 (bounds_text 0 bounds.now) out.new result }
{
    let mut at = 0;
    for (row, bound) in bounds.iter().enumerate() {
        at = text::write_line(out, at, lines::task_bound_line(row as u32, *bound));
    }
    at
}
