// Plans and what they print: standard input holds cases, each a name, a colon, a plan's bytes and a semicolon, and a line feed after it.
// Prints each name on a line of its own, then what `schedule` prints of the plan, as far as it fits into a buffer.
#![tactic(auto)]

ghost use Rattle.std.specs.Prelude.{◌+◌, ◌<◌, ◌≤◌, length, IfSome};
ghost use Rattle.heading.specs.Rooms.{head_room};

use std::io;
use std::io::{Read, Write};
use text::{print, read_full};

// The buffers for the cases and for what one of them prints.
const CASES_BYTES: usize = 65536;

const OUT_BYTES: usize = 65536;

// The bytes of a plan that is too long.
const LONG: [u8; plan::MAX_BYTES + 1] = [10; plan::MAX_BYTES + 1];

// Prints of a plan's ticks what fits into the buffer, and the totals of that.
fn print_plan<W: Write>(text: &[u8], buffer: &mut [u8], out: &mut W) -> io::Result<()>
    requires { head_room ≤ length buffer.old }
{
    match plan::check(text) {
        Err(rejection) => {
            let end = heading::refused(buffer, rejection.refusal, rejection.line);
            print(out, &buffer[..end])
        }
        Ok(plan) => {
            let end = heading::head(buffer, &plan.table);
            print(out, &buffer[..end])?;
            let mut place = output::first(text, &plan.table);
            let end = output::fill(text, plan.ticks, buffer, &mut place);
            print(out, &buffer[..end])?;
            let end = output::closing(buffer, place.tick, place.totals);
            print(out, &buffer[..end])
        }
    }
}

fn print_cases<W: Write>(cases: &[u8], buffer: &mut [u8], out: &mut W) -> io::Result<()>
    requires { head_room ≤ length buffer.old }
{
    let mut rest = cases;
    while let Some((name, behind)) = split_once(rest, b':') {
        let (plan, behind) = split_once(behind, b';').unwrap_or((behind, &[]));
        print(out, name)?;
        out.write_all(b"\n")?;
        print_plan(plan, buffer, out)?;
        rest = behind.get(1..).unwrap_or(&[]);
    }
    Ok(())
}

// What stands before the first `byte`, and what stands behind it.
fn split_once(bytes: &[u8], byte: u8) -> Option<(&[u8], &[u8])>
    ensures { IfSome result (λ parts. length parts.0.now + length parts.1.now < length bytes.now) }
{
    let at = bytes.iter().position(|b| *b == byte)?;
    Some((&bytes[..at], &bytes[at + 1..]))
}

// Prints the cases that are read, and two plans that are made here: one too long, and one as long as a plan may be.
fn print_all<R: Read, W: Write>(from: &mut R, out: &mut W) -> io::Result<()> {
    let mut cases = [0; CASES_BYTES];
    let mut buffer = [0; OUT_BYTES];
    let n = read_full(from, &mut cases)?;
    print_cases(&cases[..n], &mut buffer, out)?;
    out.write_all(b"65537 bytes\n")?;
    print_plan(&LONG, &mut buffer, out)?;
    out.write_all(b"65536 bytes\n")?;
    print_plan(&LONG[1..], &mut buffer, out)
}

fn main(rt: HostRuntime) -> io::Result<()> {
    print_all(&mut rt.stdin(), &mut rt.stdout())
}
