// The table of tasks with its server, its limits, and the state that the calls move.
#![tactic(auto)]

ghost use Rattle.std.specs.Prelude.{◌≡◌, ◌&&◌, false, leb, not, position, Some, OnErr};
ghost use Rattle.std.specs.List.{zip, list_all};
ghost use Rattle.lists.specs.Tests.{every};
ghost use Rattle.queue.specs.Queue.{max_waiting};
ghost use Rattle.table.specs.Limits.{task_fits, budget_tests, background_tests, server_fits};
ghost use Rattle.table.specs.Model.{task_set_of, model_of};
ghost use Rattle.table.specs.Refusal.{number, figures};
ghost use Rattle.table.specs.Words.{word};
ghost use Rattle.table.specs.State.{fresh_state, table_check, table_figures, left_fits, server_state_fits, state_returns_fit, model_fits, fit, set_up_call};

use queue::Queue;
use server::{Returns, Server, ServerState};
use std::error::Error;
use std::fmt;

// A periodic task (document 01's row): phase f, period p, execution e, deadline D, in ticks.
#[repr(C)]
#[derive(Debug, Clone, Copy, PartialEq, Eq, Default)]
pub struct Task {
    pub phase: u32,
    pub period: u32,
    pub exec: u32,
    pub deadline: u32,
}

impl Task {
    // "1 ≤ e ≤ D ≤ p ≤ 60,000 and f ≤ 60,000."
    fn fits(self) -> bool
        ensures { result ≡ task_fits self }
    {
        1 <= self.exec
            && self.exec <= self.deadline
            && self.deadline <= self.period
            && self.period <= Table::MAX_TIME
            && self.phase <= Table::MAX_TIME
    }
}

// The first n tasks are in use, highest priority first: C has the same layout, so the count stands beside the slots, and `tasks` answers those in use.
#[repr(C)]
#[derive(Debug, Clone, Copy, PartialEq, Eq, Default)]
pub struct Table {
    pub tasks: [Task; Table::MAX_TASKS as usize],
    pub n: u32,
    pub server: Server,
}

// What every tick changes: the execution left of each task's job, the server's state and the clock. `left` is an array beside the tasks: C has this
// layout, and the table never changes.
#[repr(C)]
#[derive(Debug, Clone, Copy, PartialEq, Eq)]
pub struct Progress {
    pub left: [u32; Table::MAX_TASKS as usize],
    pub server: ServerState,
    pub clock: u32,
}

// The state is split by what changes: the table never, the progress in every tick, the queue when a request comes or is served, the
// returns under kind 4 alone.
#[repr(C)]
#[derive(Debug, Clone, Copy, PartialEq, Eq)]
pub struct State {
    pub table: Table,
    pub progress: Progress,
    pub queue: Queue,
    pub returns: Returns,
}

// Why a call refuses, by document 01's words.
#[derive(Debug, Clone, Copy, PartialEq, Eq)]
pub enum Refusal {
    TaskCount,
    // The first task that breaks its limits.
    BadTask(u32),
    BadServer,
    BadWork,
    QueueFull,
    ClockSpent,
    ShortRecord,
    UnfitState,
}

impl Refusal {
    // Document 01's number of a refusal.
    pub fn number(self) -> u32
        ensures { result ≡ number self }
    {
        match self {
            Refusal::TaskCount => 1,
            Refusal::BadTask(_) => 2,
            Refusal::BadServer => 3,
            Refusal::BadWork => 4,
            Refusal::QueueFull => 5,
            Refusal::ClockSpent => 6,
            Refusal::ShortRecord => 10,
            Refusal::UnfitState => 11,
        }
    }
}

// The word of a refusal, as the table of refusals has it; the index of a bad row comes with it.
impl fmt::Display for Refusal {
    ghost output = { λ refusal. Some (word refusal) };

    fn fmt<W: fmt::Write>(&self, f: &mut fmt::Formatter<W>) -> fmt::Result {
        match self {
            Refusal::TaskCount => f.write_str("row count"),
            Refusal::BadTask(i) => write!(f, "bad row {i}"),
            Refusal::BadServer => f.write_str("bad server"),
            Refusal::BadWork => f.write_str("bad work"),
            Refusal::QueueFull => f.write_str("queue full"),
            Refusal::ClockSpent => f.write_str("clock spent"),
            Refusal::ShortRecord => f.write_str("short record"),
            Refusal::UnfitState => f.write_str("unfit state"),
        }
    }
}

impl Error for Refusal {}

impl Table {
    pub const MAX_TASKS: u32 = 16;

    pub const MAX_WAITING: u32 = Queue::CAPACITY;

    pub const MAX_WORK: u32 = Queue::MAX_WORK;
    // The longest phase, period, execution or deadline.
    pub const MAX_TIME: u32 = 60000;
    // The last value of the clock: at it no tick runs.
    pub const LAST_CLOCK: u32 = 4000000000;
    // The highest next replenishment of a sporadic server.
    pub const LAST_NR: u32 = 4000060000;

    // The tasks in use; of a count past the slots, all slots. `Queue::waiting` and `Returns::held` are its like: each over its own slots, with its
    // own contract. A trait for the three is no plainer, nor one generic struct of slots and count: definitions and C name these fields.
    pub fn tasks(&self) -> &[Task]
        ensures { result.now ≡ (task_set_of self.now).tasks }
    {
        &self.tasks[..self.n.min(Table::MAX_TASKS) as usize]
    }

    // The fresh state of a table: the clock at 0, nothing open, nothing waiting.
    pub fn fresh(&self) -> State
        ensures { result ≡ fresh_state self.now }
    {
        State {
            table: *self,
            progress: Progress {
                left: [0; Table::MAX_TASKS as usize],
                server: self.server.fresh(),
                clock: 0,
            },
            queue: Queue::fresh(),
            returns: Returns::fresh(),
        }
    }

    // "Kind 0: s = n, P = B = 0."
    fn background_fits(&self) -> bool
        ensures { result ≡ every (background_tests self.now.server self.now.n) }
    {
        let server = self.server;
        server.place == self.n && server.period == 0 && server.budget == 0
    }

    // "Kinds 1 to 3: s ≤ n, 1 ≤ B ≤ P ≤ 60,000." 3/13: kind 4 too.
    fn budget_fits(&self) -> bool
        ensures { result ≡ every (budget_tests self.now.server self.now.n) }
    {
        let server = self.server;
        server.place <= self.n
            && 1 <= server.budget
            && server.budget <= server.period
            && server.period <= Table::MAX_TIME
    }

    // The server's limits, by kind; there is no other kind.
    fn server_fits(&self) -> bool
        ensures { result ≡ server_fits self.now.server self.now.n }
    {
        match self.server.kind {
            0 => self.background_fits(),
            1..=4 => self.budget_fits(),
            _ => false,
        }
    }

    // Refusals 1, 2 with the first bad index, and 3, in this order.
    #[tactic(auto, using(crate::proofs::Laws::bad_position))]
    pub fn check(&self) -> Result<(), Refusal>
        ensures answer { result ≡ table_check self.now }
        ensures in_figures { figures result ≡ table_figures self.now }
    {
        if self.n < 1 || Table::MAX_TASKS < self.n {
            return Err(Refusal::TaskCount);
        }
        if let Some(i) = first_bad(self.tasks()) {
            return Err(Refusal::BadTask(i as u32));
        }
        if !self.server_fits() {
            return Err(Refusal::BadServer);
        }
        Ok(())
    }

    // Set-up: the fresh state, of a table that passes. That of a refused table (`fresh`) is unfit, so that every later call on it refuses.
    // inline(always): a caller that wants the answer alone then makes no state.
    #[inline(always)]
    pub fn set_up(&self) -> Result<State, Refusal>
        ensures answer { result ≡ set_up_call self.now }
        ensures in_figures { figures result ≡ table_figures self.now }
        ensures unfit { OnErr result (fit (fresh_state self.now) ≡ false) }
    {
        self.check()?;
        Ok(self.fresh())
    }
}

// The index of the first task that breaks its limits.
fn first_bad(tasks: &[Task]) -> Option<usize>
    ensures { result ≡ position (λ x. not (task_fits x)) tasks.now }
{
    tasks.iter().position(|task| !task.fits())
}

impl State {
    // Refusal 11 is given where this is false.
    pub fn fit(&self) -> bool
        ensures { result ≡ fit self.now }
    {
        self.table.check().is_ok() && self.parts_fit()
    }

    // What a state has to keep besides its table's limits.
    #[tactic(auto, using(crate::proofs::Laws::lefts_of))]
    fn parts_fit(&self) -> bool
        ensures { result ≡ (leb self.now.queue.n max_waiting && state_returns_fit self.now && model_fits (task_set_of self.now.table) (model_of self.now)) }
    {
        self.progress.clock <= Table::LAST_CLOCK
            && self.server_state_fits()
            && self.queue.fits(self.progress.clock)
            && self.returns_fit()
            && lefts_fit(self.table.tasks(), &self.progress.left)
    }

    // No "b above B", no "tr or begin after the clock, or nr above 4,000,060,000".
    fn server_state_fits(&self) -> bool
        ensures { result ≡ server_state_fits self.now.table.server self.now.progress.clock self.now.progress.server }
    {
        let x = self.progress.server.sporadic;
        self.progress.server.budget <= self.table.server.budget
            && x.tr <= self.progress.clock
            && x.begin <= self.progress.clock
            && x.nr <= Table::LAST_NR
    }

    // Kind 4's further limits; of the other kinds nothing is asked.
    fn returns_fit(&self) -> bool
        ensures { result ≡ state_returns_fit self.now }
    {
        let server = self.table.server;
        let clock = self.progress.clock;
        let budget = self.progress.server.budget;
        match server.kind {
            4 => self.returns.fits(server, clock, budget),
            _ => true,
        }
    }
}

// No "row's work above e".
fn lefts_fit(tasks: &[Task], left: &[u32]) -> bool
    ensures { result ≡ list_all (λ p. left_fits p.0 p.1) (zip tasks.now left.now) }
{
    tasks
        .iter()
        .zip(left)
        .all(|(task, left)| *left <= task.exec)
}
