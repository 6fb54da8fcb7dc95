// Why a plan is refused, and at which line.
ghost use Rattle.std.specs.Prelude.{◌≡◌, Some};
ghost use Rattle.plan.specs.Refusal.{number};
ghost use Rattle.plan.specs.Words.{word, words};
ghost use Rattle.plan.specs.declared.refusal.PlanRefusal.TheVariants.{Call};

use std::error::Error;
use std::fmt;
use table::Refusal;

// A plan's own refusals 7, 8 and 9, or one that a call has too (4, and 1 to 3 of its table).
#[derive(Debug, Clone, Copy, PartialEq, Eq)]
pub enum PlanRefusal {
    TooLong,
    BadLine,
    Misplaced,
    Call(Refusal),
}

// A refusal, and the line that it was met at: 0 where it is none's, as the Z line prints it.
#[derive(Debug, Clone, Copy, PartialEq, Eq)]
pub struct Rejection {
    pub refusal: PlanRefusal,
    pub line: u32,
}

impl PlanRefusal {
    // Document 01's number of a plan's refusal.
    pub fn number(self) -> u32
        ensures { result ≡ number self }
    {
        match self {
            PlanRefusal::TooLong => 7,
            PlanRefusal::BadLine => 8,
            PlanRefusal::Misplaced => 9,
            PlanRefusal::Call(refusal) => refusal.number(),
        }
    }

    // This refusal, met at a line.
    pub fn at(self, line: u32) -> Rejection
        ensures { result ≡ record { refusal = self; line = line } }
    {
        Rejection {
            refusal: self,
            line,
        }
    }
}

impl From<Refusal> for PlanRefusal {
    ghost from_gives = { λ refusal result. result ≡ Call refusal };

    fn from(refusal: Refusal) -> PlanRefusal {
        PlanRefusal::Call(refusal)
    }
}

// A refusal of the table is met after the last line: "then 1, 2, 3 with line 0".
impl From<Refusal> for Rejection {
    ghost from_gives = { λ refusal result. result ≡ record { refusal = Call refusal; line = 0 } };

    fn from(refusal: Refusal) -> Rejection {
        PlanRefusal::Call(refusal).at(0)
    }
}

// The words of the table of refusals.
impl fmt::Display for PlanRefusal {
    ghost output = { λ refusal. Some (word refusal) };

    fn fmt<W: fmt::Write>(&self, f: &mut fmt::Formatter<W>) -> fmt::Result {
        match self {
            PlanRefusal::TooLong => f.write_str("plan too long"),
            PlanRefusal::BadLine => f.write_str("bad line"),
            PlanRefusal::Misplaced => f.write_str("line misplaced"),
            PlanRefusal::Call(refusal) => write!(f, "{refusal}"),
        }
    }
}

impl fmt::Display for Rejection {
    ghost output = { λ rejection. Some (words rejection) };

    fn fmt<W: fmt::Write>(&self, f: &mut fmt::Formatter<W>) -> fmt::Result {
        let Rejection { refusal, line } = self;
        if *line == 0 {
            write!(f, "{refusal}")
        } else {
            write!(f, "line {line}: {refusal}")
        }
    }
}

impl Error for PlanRefusal {}

impl Error for Rejection {}
