// The reader of a plan's A lines, and the end of a line.
ghost use Rattle.std.specs.Prelude.{◌≡◌, option_map};
ghost use Rattle.std.specs.Iterator.{YieldsFirst, item_count};
ghost use Rattle.plan.specs.Text.{end_from};
ghost use Rattle.plan.specs.Lines.{line_of};
ghost use Rattle.plan.specs.Plan.{arrival_of, next_from, behind};
ghost use Rattle.plan.specs.Reader.{arrivals_left};

use crate::line::{Arrival, Line, find_byte, parse};

// Where the line that starts at `from` ends, if a line feed closes it.
pub(crate) fn line_end(plan: &[u8], from: usize) -> Option<usize>
    ensures { result ≡ end_from 10 plan.now from }
{
    let length = find_byte(plan.get(from..)?, b'\n')?;
    Some(from + length)
}

// What an A line says.
fn parse_arrival(line: &[u8]) -> Option<Arrival>
    ensures { result ≡ arrival_of (line_of line.now) }
{
    match parse(line) {
        Some(Line::Arrival(arrival)) => Some(arrival),
        _ => None,
    }
}

// The first A line from a place on, and where the line after it starts.
pub fn first_arrival(plan: &[u8], from: usize) -> Option<(Arrival, usize)>
    ensures { result ≡ next_from plan.now from }
{
    let mut at = from;
    // By places and not by std's split: a rule of the project passes each line as `&plan[a..b]`, and the place behind it is part of the answer.
    while let Some(end) = line_end(plan, at) {
        if let Some(arrival) = parse_arrival(&plan[at..end]) {
            return Some((arrival, end + 1));
        }
        at = end + 1;
    }
    None
}

// "The plan reader keeps the lent bytes and a position": the A lines from there on, one after the other.
#[derive(Debug, Clone, Copy)]
pub struct Reader<'a> {
    pub plan: &'a [u8],
    pub at: usize,
}

impl<'a> Reader<'a> {
    // A reader of a whole plan.
    pub fn new(plan: &'a [u8]) -> Self
        ensures { result ≡ record { plan = plan.entry; at = 0 } }
    {
        Reader::starting_at(plan, 0)
    }

    // A reader of a plan's lines from a place on.
    pub fn starting_at(plan: &'a [u8], at: usize) -> Self
        ensures { result ≡ record { plan = plan.entry; at = at } }
    {
        Reader { plan, at }
    }

    // The next A line, and the reader behind it; where there is none it stays.
    pub fn next_arrival(&mut self) -> Option<Arrival>
        ensures item { result ≡ option_map (λ f. f.0) (next_from self.old.plan.now self.old.at) }
        ensures place { self.new ≡ record self.old { at = behind (next_from self.old.plan.now self.old.at) self.old.at } }
    {
        let (arrival, after) = first_arrival(self.plan, self.at)?;
        self.at = after;
        Some(arrival)
    }
}

impl Iterator for Reader<'_> {
    type Item = Arrival;

    ghost next_gives = { YieldsFirst arrivals_left };

    ghost remaining = { item_count arrivals_left };

    #[tactic(auto, using(crate::proofs::Yields::yields, crate::proofs::Yields::goes_on))]
    fn next(&mut self) -> Option<Arrival> {
        self.next_arrival()
    }
}
