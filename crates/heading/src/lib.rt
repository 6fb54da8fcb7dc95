// What `schedule` prints before the ticks.
#![tactic(auto)]

ghost use Rattle.bounds.specs.Admission.{admission_of};
ghost use Rattle.text.specs.Printing.{Prints};
ghost use Rattle.heading.specs.Heading.{head_text};

pub use lent::{HEAD_ROOM, head, refused};
use std::io;
use std::io::Write;
use table::Table;

mod lent;

// Prints a B line for each task, the server's, and the V line. The bounds in use are counted as the tasks are, of a refused table too.
pub fn print_head<W: Write>(table: &Table, out: &mut W) -> io::Result<()>
    ensures { Prints (W.contents out.old) (W.contents out.new) result (head_text table.now.n (admission_of table.now)) }
{
    let admission = admission::bounds_of(table);
    let n = table.n.min(Table::MAX_TASKS) as usize;
    for (row, bound) in admission.bounds[..n].iter().enumerate() {
        lines::task_bound_line(row as u32, *bound).print(out)?;
    }
    lines::server_bound_line(admission.serverbound).print(out)?;
    lines::admitted_line(admission.admitted).print(out)
}
