// Numbers and lines as bytes, into a lent buffer or a writer; and the bytes of a reader into a lent buffer.
#![tactic(auto)]

ghost use Rattle.std.specs.Prelude.{◌≡◌, ℕ, ◌+◌, ◌<◌, ◌≤◌, List, ◌∷◌, ◌++◌, length, take, drop};
ghost use Rattle.text.specs.Decimal.{decimal};
ghost use Rattle.text.specs.Buffer.{Wrote, if_room};
ghost use Rattle.text.specs.Lines.{most_parts, part_room, line_room, part_bytes, line_bytes};
ghost use Rattle.text.specs.Ends.{EndsAt, array_of, start_of, array-back, start-back};
ghost use Rattle.text.specs.Printing.{Prints};

pub use input::read_full;
use std::io;
use std::io::{ErrorKind, Write};
use std::marker::Model;

mod input;

// "A number is 1 to 10 digits."
pub const MAX_DIGITS: usize = 10;

// The most parts of a line.
pub const MAX_PARTS: usize = 5;

// One part of a line, after its comma.
#[derive(Debug, Clone, Copy, PartialEq, Eq)]
pub enum Part {
    Number(u32),
    Letter(u8),
}

// The most bytes a line has: its letter, five parts of a comma and a number, and the line feed.
pub const LINE_ROOM: usize = 2 + MAX_PARTS * (1 + MAX_DIGITS);

// A line that is printed. Its bytes stand at the end of the array, since it is written from its end on: of a number the last digit
// comes first. An array and where the line starts in it: nothing here may allocate.
#[derive(Clone, Copy)]
pub struct Line {
    bytes: [u8; LINE_ROOM],
    start: usize,
}

impl Model for Line {
    ghost Value = { List ℕ };

    ghost view = { λ line. drop line.start line.bytes };

    // What stands before the line is 0, so its bytes give the fields back.
    ghost invariant = { λ line. EndsAt line.bytes line.start };

    ghost inverse = { λ line. record { bytes = array_of line; start = start_of line } };

    ghost inverse_ok = { λ line ends i. record { bytes = array-back ends i; start = start-back ends i } };
}

impl Line {
    // A line: its letter, its parts, each after a comma, and the line feed. It has five parts at most: of more the first five.
    #[tactic(auto, unfolding(crate::specs::Lines::line_bytes))]
    pub fn new(letter: u8, parts: &[Part]) -> Line
        ensures { result ≡ line_bytes (record { letter = letter; parts = take most_parts parts.now }) }
    {
        let mut line = Line {
            bytes: [0; LINE_ROOM],
            start: LINE_ROOM,
        };
        line.put(b'\n');
        for part in parts[..parts.len().min(MAX_PARTS)].iter().rev() {
            line.part(*part);
        }
        line.put(letter);
        line
    }

    // Prints the line.
    pub fn print<W: Write>(&self, out: &mut W) -> io::Result<()>
        ensures { Prints (W.contents out.old) (W.contents out.new) result self.now }
    {
        print(out, self.as_bytes())
    }

    // Its bytes, for a caller that keeps them in a buffer of its own.
    pub fn as_bytes(&self) -> &[u8]
        ensures bytes { result.now ≡ self.now }
        ensures room { length result.now ≤ line_room }
    {
        &self.bytes[self.start..]
    }

    // Puts a byte in front.
    fn put(&mut self, byte: u8)
        requires { length self.old < line_room }
        ensures { self.new ≡ byte ∷ self.old }
    {
        self.start -= 1;
        self.bytes[self.start] = byte;
    }

    // Puts the digits of x in front, the last one first: each digit's power of ten is ten times that of the one behind it.
    // A loop, by a rule of the project: powers of ten are worked out by repeated multiplication.
    fn number(&mut self, x: u32)
        requires { length self.old + part_room ≤ line_room }
        ensures text { self.new ≡ decimal x ++ self.old }
        ensures short { length self.new < length self.old + part_room }
    {
        let mut power: u32 = 1;
        loop {
            self.put(b'0' + (x / power % 10) as u8);
            if x / 10 < power {
                return;
            }
            power = power * 10;
        }
    }

    // Puts a part in front, and its comma.
    fn part(&mut self, part: Part)
        requires { length self.old + part_room ≤ line_room }
        ensures text { self.new ≡ part_bytes part ++ self.old }
        ensures short { length self.new ≤ length self.old + part_room }
    {
        match part {
            Part::Number(x) => self.number(x),
            Part::Letter(letter) => self.put(letter),
        }
        self.put(b',');
    }
}

// Writes a line from a place on, and says where the next one goes: nothing, and the same place, where LINE_ROOM bytes are not left.
pub fn write_line(out: &mut [u8], at: usize, line: Line) -> usize
    ensures room { result ≤ at + line_room }
    ensures written { Wrote out.old at (if_room line_room out.old at line) out.new result }
{
    if out.len() < at || out.len() - at < LINE_ROOM {
        return at;
    }
    let bytes = line.as_bytes();
    let end = at + bytes.len();
    out[at..end].copy_from_slice(bytes);
    end
}

// Prints bytes, by as many writes as the writer takes. Not std's write_all: of an error that says nothing, and `Prints` does. The loop counts, since every
// loop has to end.
pub fn print<W: Write>(out: &mut W, bytes: &[u8]) -> io::Result<()>
    ensures { Prints (W.contents out.old) (W.contents out.new) result bytes.now }
{
    let mut rest = bytes;
    for _ in 0..u64::MAX {
        if rest.is_empty() {
            return Ok(());
        }
        match out.write(rest) {
            Ok(0) => {
                return Err(io::Error::new(ErrorKind::WriteZero, "failed to write whole buffer"))
            }
            Ok(n) => rest = &rest[n..],
            Err(e) => {
                if e.kind() != ErrorKind::Interrupted {
                    return Err(e);
                }
            }
        }
    }
    Err(io::Error::new(
        ErrorKind::TimedOut,
        "gave up reading or writing after 2^64 tries",
    ))
}
