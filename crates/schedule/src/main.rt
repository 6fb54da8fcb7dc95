// `schedule`: a plan on standard input, what it prints on standard output. The reading and the printing are the library's.
#![tactic(auto)]

ghost use Rattle.std.specs.Prelude.{IfSome};
ghost use Rattle.text.specs.Printing.{Prints};
ghost use Rattle.output.specs.Output.{schedule_text};

use std::io;
use std::io::{Read, Write};
use text::read_full;

// How many bytes are read: one more than a plan may have. A longer one prints the same.
const READ_BYTES: usize = plan::MAX_BYTES + 1;

// Reads a plan, and prints what it prints. An array and no Vec: that asks for memory, and could fail.
fn schedule<R: Read, W: Write>(from: &mut R, out: &mut W) -> io::Result<()>
    ensures { IfSome (R.remaining from.old)
        (λ input. Prints (W.contents out.old) (W.contents out.new) result (schedule_text input)) }
{
    let mut bytes = [0; READ_BYTES];
    let n = read_full(from, &mut bytes)?;
    output::schedule(&bytes[..n], out)
}

fn main(rt: HostRuntime) -> io::Result<()> {
    schedule(&mut rt.stdin(), &mut rt.stdout())
}
