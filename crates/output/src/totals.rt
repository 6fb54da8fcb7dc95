// The totals of the ticks, counted tick by tick or by the record of a block.
ghost use Rattle.std.specs.Prelude.{◌≡◌};
ghost use Rattle.output.specs.Totals.{answered, counted};
ghost use Rattle.output.specs.Blocks.{block_totals};

use rules::{Entry, Ticked};
use table::Refusal;

// How many ticks were idle, a task's (document 02's rows) and a request's, and how many jobs they dropped.
#[derive(Debug, Clone, Copy, PartialEq, Eq, Default)]
pub struct Totals {
    pub idle: u32,
    pub tasks: u32,
    pub requests: u32,
    pub drops: u32,
}

impl Totals {
    // With the tick of an answer more; one that was refused counts for nothing. By value: behind a `&mut` the check does not know that fields which it does
    // not read keep to 32 bits.
    pub fn count(self, answer: Result<Ticked, Refusal>) -> Totals
        ensures { result ≡ answered self answer }
    {
        match answer {
            Ok(ticked) => self.count_entry(ticked.entry()),
            Err(_) => self,
        }
    }

    // With the ticks of a record more.
    pub fn count_block(self, entries: &[Entry]) -> Totals
        ensures { result ≡ block_totals self entries.now }
    {
        let mut totals = self;
        for entry in entries {
            totals = totals.count_entry(*entry);
        }
        totals
    }

    // With a tick more, by its record.
    fn count_entry(self, entry: Entry) -> Totals
        ensures { result ≡ counted self entry }
    {
        Totals {
            idle: self.idle.saturating_add(u32::from(entry.kind == 0)),
            tasks: self.tasks.saturating_add(u32::from(entry.kind == 1)),
            requests: self.requests.saturating_add(u32::from(entry.kind > 1)),
            drops: self.drops.saturating_add(entry.drops),
        }
    }
}
