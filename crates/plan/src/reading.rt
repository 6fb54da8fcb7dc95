// The check of a whole plan: its lines in order, through a small state.
ghost use Rattle.std.specs.Prelude.{◌≡◌, OnOk, OnErr};
ghost use Rattle.plan.specs.Figures.{answer_figures, plan_figures};
ghost use Rattle.plan.specs.Lines.{line_of};
ghost use Rattle.plan.specs.Plan.{fresh_reading, judged, with_task, moved, closing, plan_of};

use crate::line::{Line, parse};
use crate::reader::line_end;
use crate::refusal::{PlanRefusal, Rejection};
use server::Server;
use table::{Refusal, Table, Task};

// "plan too long: above 65,536 bytes"
pub const MAX_BYTES: usize = 65_536;

// What a plan's text says.
#[derive(Debug, Clone, Copy, PartialEq, Eq)]
pub struct Plan {
    pub table: Table,
    pub ticks: u32,
}

// How far the lines have come: before the S line; after it, with the tick of the last A line; after the R line, with its ticks.
#[derive(Debug, Clone, Copy, PartialEq, Eq)]
enum Stage {
    Tasks,
    Arrivals { tick: u32 },
    Complete { ticks: u32 },
}

// What the lines so far say.
#[derive(Debug, Clone, Copy, PartialEq, Eq)]
struct Reading {
    table: Table,
    stage: Stage,
}

// One task more; a seventeenth only makes the count 17, which refusal 1 meets in its turn.
#[tactic(auto, unfolding(crate::specs::Plan::with_task))]
fn add_task(table: &mut Table, task: Task)
    ensures { table.new ≡ with_task table.old task }
{
    if table.n < Table::MAX_TASKS {
        table.tasks[table.n as usize] = task;
        table.n += 1;
    } else {
        table.n = Table::MAX_TASKS + 1;
    }
}

impl Reading {
    // The reading before the first line.
    #[tactic(auto, unfolding(crate::specs::Plan::blank, crate::specs::Plan::fresh_reading))]
    fn new() -> Self
        ensures { result ≡ fresh_reading }
    {
        Reading {
            table: Table::default(),
            stage: Stage::Tasks,
        }
    }

    // Takes the next line: "line by line from 1: 8, 9, 4".
    #[tactic(auto, unfolding(crate::specs::Plan::judged, crate::specs::Plan::moved))]
    fn take(&mut self, line: &[u8]) -> Result<(), PlanRefusal>
        ensures answer { result ≡ judged self.old.stage (line_of line.now) }
        ensures taken { OnOk result (self.new ≡ moved self.old (line_of line.now)) }
        ensures refused { OnErr result (self.new ≡ self.old) }
    {
        let line = parse(line).ok_or(PlanRefusal::BadLine)?;
        match (self.stage, line) {
            (Stage::Tasks, Line::Task(task)) => add_task(&mut self.table, task),
            (Stage::Tasks, Line::Server(server)) => {
                self.table.server = server;
                self.stage = Stage::Arrivals { tick: 0 };
            }
            (Stage::Arrivals { tick }, Line::Arrival(arrival)) if tick <= arrival.tick => {
                if !(1..=Table::MAX_WORK).contains(&arrival.work) {
                    return Err(Refusal::BadWork.into());
                }
                self.stage = Stage::Arrivals { tick: arrival.tick };
            }
            (Stage::Arrivals { .. }, Line::Run(ticks)) => {
                self.stage = Stage::Complete { ticks };
            }
            _ => return Err(PlanRefusal::Misplaced),
        }
        Ok(())
    }

    // The plan after its last line: "no R is 9 at the line after the last; then 1, 2, 3 with line 0".
    #[tactic(auto, unfolding(crate::specs::Plan::closed, crate::specs::Plan::tabled))]
    fn close(&self, line: u32) -> Result<Plan, Rejection>
        ensures { result ≡ closing self.now line }
    {
        let Stage::Complete { ticks } = self.stage else {
            return Err(PlanRefusal::Misplaced.at(line));
        };
        self.table.check()?;
        Ok(Plan {
            table: self.table,
            ticks,
        })
    }
}

// What plan the bytes are, or why and at which line they are none.
pub fn check(plan: &[u8]) -> Result<Plan, Rejection>
    ensures plan { result ≡ plan_of plan.now }
    ensures figures { answer_figures result ≡ plan_figures plan.now }
{
    if plan.len() > MAX_BYTES {
        return Err(PlanRefusal::TooLong.at(0));
    }
    let mut reading = Reading::new();
    let mut line = 1;
    let mut at = 0;
    // By places and not by std's split: a rule of the project passes each line as `&plan[a..b]`.
    while let Some(end) = line_end(plan, at) {
        if let Err(refusal) = reading.take(&plan[at..end]) {
            return Err(refusal.at(line));
        }
        at = end + 1;
        line += 1;
    }
    if at < plan.len() {
        return Err(PlanRefusal::BadLine.at(line));
    }
    reading.close(line)
}
