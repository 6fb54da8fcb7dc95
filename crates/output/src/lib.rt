// What `schedule` prints.
#![tactic(auto)]

ghost use Rattle.std.specs.Prelude.{◌≤◌, length};
ghost use Rattle.text.specs.Printing.{Prints};
ghost use Rattle.heading.specs.Rooms.{head_room};
ghost use Rattle.output.specs.Steps.{first_place};
ghost use Rattle.output.specs.Rest.{text_from};
ghost use Rattle.output.specs.Output.{schedule_text};

pub use lent::{Place, STEP_ROOM, closing, fill, first};
use plan::Plan;
use std::io;
use std::io::Write;
use text::print;
pub use totals::Totals;

mod lent;
mod totals;

// The buffer that is filled again and again.
const BUFFER: usize = 65536;

// Prints all that `schedule` prints of a plan's bytes: the Z line of a refused plan, or the head and the ticks of an accepted one.
pub fn schedule<W: Write>(text: &[u8], out: &mut W) -> io::Result<()>
    ensures { Prints (W.contents out.old) (W.contents out.new) result (schedule_text text.now) }
{
    let mut buffer = [0; BUFFER];
    match plan::check(text) {
        Err(rejection) => {
            let end = heading::refused(&mut buffer, rejection.refusal, rejection.line);
            print(out, &buffer[..end])
        }
        Ok(plan) => {
            let end = heading::head(&mut buffer, &plan.table);
            print(out, &buffer[..end])?;
            print_ticks(text, plan, &mut buffer, out)
        }
    }
}

// Prints the ticks of a plan, a buffer at a time, and then their totals.
fn print_ticks<W: Write>(text: &[u8], plan: Plan, buffer: &mut [u8], out: &mut W) -> io::Result<()>
    requires { head_room ≤ length buffer.old }
    ensures { Prints (W.contents out.old) (W.contents out.new) result
        (text_from text.now plan.ticks (first_place text.now plan.table)) }
{
    let mut place = first(text, &plan.table);
    while place.tick < plan.ticks {
        let end = fill(text, plan.ticks, buffer, &mut place);
        print(out, &buffer[..end])?;
    }
    let last = closing(buffer, place.tick, place.totals);
    print(out, &buffer[..last])
}
