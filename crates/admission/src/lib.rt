// Admission: the worst-case response-time bound of each task and of the server, and whether the table is admitted.
#![tactic(auto)]

ghost use Rattle.std.specs.Prelude.{◌≡◌, true, length, nat_lt, nat_le, ◌*◌, ◌/◌, ◌≤◌, if◌then◌else◌};
ghost use Rattle.lists.specs.Lists.{overlay, all};
ghost use Rattle.lists.specs.Time.{ceil};
ghost use Rattle.server.specs.Limits.{max_time};
ghost use Rattle.server.specs.Kind.{kind_of};
ghost use Rattle.table.specs.Facts.{TableFacts};
ghost use Rattle.table.specs.Limits.{max_tasks};
ghost use Rattle.table.specs.Model.{task_set_of};
ghost use Rattle.table.specs.Refusal.{passed, figures};
ghost use Rattle.table.specs.State.{table_check, table_figures};
ghost use Rattle.bounds.specs.Demand.{bounds, own_bound, server_bound, server_admitted};
ghost use Rattle.bounds.specs.Admission.{admission_for, admission_call, admission_of, no_bounds, no_admission};
ghost use Rattle.admission.specs.Jumps.{Asked, demanded, whole, max_turns, TaskParts, ServerPart, ServerLead, ServerTurns, ServerTerm, Room, Counted, DemandAt, NextOpen, OpenFrom, FirstMet};

use bounds::Admission;
use server::Server;
use table::{Refusal, Table, Task};

// A length past every limit.
const PAST: u32 = Table::MAX_TIME + 1;
// The load of every tick. What recurs with period p takes floor(WHOLE / p) of it for each tick that it takes in a period.
const WHOLE: u64 = 1 << 40;
// A term that grows again within so many ticks is always counted by its part of the load. The bounds are the same with any number
// here; this one makes the jumps few.
const NEAR: u64 = 8;
// Every term grows again within so many ticks.
const FAR: u64 = 2 * (PAST as u64);

// A demand: own work, the terms of the first `above` tasks, and the server's where `beside`.
#[derive(Clone, Copy)]
struct Demand {
    own: u32,
    above: u32,
    beside: bool,
}

// One term of a demand at a length: `exec` ticks in each of so many turns, one a period, with the period's part of the load and
// what is sure beside it.
#[derive(Clone, Copy)]
struct Term {
    turns: u64,
    period: u32,
    exec: u32,
    part: u64,
    lead: u64,
}

// What is demanded of a length l, and what is sure of every length x from l on: fixed + (extra + rate × x) / WHOLE.
#[derive(Clone, Copy)]
struct Work {
    all: u64,
    fixed: u64,
    extra: u64,
    rate: u64,
}

impl Work {
    // One term more: by its part of the load and its lead if it grows again before `until`, else as it stands.
    fn with(self, term: Term, until: u64) -> Work
        requires { Room self term }
        ensures { Counted self term result }
    {
        let exec = u64::from(term.exec);
        let ticks = term.turns * exec;
        let all = self.all + ticks;
        if term.turns * u64::from(term.period) < until {
            return Work {
                all,
                extra: self.extra + term.lead,
                rate: self.rate + exec * term.part,
                ..self
            };
        }
        Work {
            all,
            fixed: self.fixed + ticks,
            ..self
        }
    }

    // The next length to try: none before it meets its demand, since what is sure of it is longer.
    fn next_length(self) -> u32
        requires some { 1 ≤ self.fixed }
        requires extra { self.extra ≤ max_time * whole }
        ensures { NextOpen self result }
    {
        if u64::from(Table::MAX_TIME) < self.fixed || WHOLE <= self.rate {
            return PAST;
        }
        let open = (self.fixed * WHOLE + self.extra).div_ceil(WHOLE - self.rate);
        self.all.max(open).min(u64::from(PAST)) as u32
    }
}

// floor(WHOLE / p), or 0 where there is no period.
fn part(period: u32) -> u64
    ensures { result ≡ whole / period }
{
    WHOLE.checked_div(u64::from(period)).unwrap_or(0)
}

// The parts of the first n tasks. The array and n, not a slice of it: only so the proofs learn the array's length.
fn task_parts(tasks: &[Task; Table::MAX_TASKS as usize], n: u32) -> [u64; Table::MAX_TASKS as usize]
    requires { n ≤ max_tasks }
    ensures known { TaskParts tasks.now n result }
    ensures sized { length tasks.now ≡ max_tasks }
{
    let mut parts = [0; Table::MAX_TASKS as usize];
    for (i, task) in tasks[..n as usize].iter().enumerate() {
        parts[i] = part(task.period);
    }
    parts
}

// The server's part: kind 0 has none.
fn server_part(server: Server) -> u64
    ensures { ServerPart server result }
{
    match server.kind {
        0 => 0,
        _ => part(server.period),
    }
}

// ceil(L/p), by the period's part: no division. That L keeps to the longest time stands here and at two callers: a type for such a length
// would be taken apart at each sum.
fn turns(l: u32, period: u32, part: u64) -> u64
    requires span { l ≤ max_time }
    requires some { 1 ≤ period }
    requires short { period ≤ max_time }
    requires known { part ≡ whole / period }
    ensures count { result ≡ ceil l period }
    ensures most { result ≤ max_turns }
{
    u64::from(l + (period - 1)) * (part + 1) / WHOLE
}

// A bound: a length up to the limit, or 0 for none, as Admission has it.
fn within(l: u32, limit: u32) -> u32
    ensures { result ≡ (if nat_le l limit then l else 0) }
{
    if l <= limit { l } else { 0 }
}

// A table that passes, with the parts of its tasks and of its server, and what the server is sure to take beside its part. The parts are an array
// beside the tasks: the table is lent as it is, and nothing may allocate.
#[derive(Drop)]
struct Load<'a> {
    table: &'a Table,
    parts: [u64; Table::MAX_TASKS as usize],
    server_part: u64,
    lead: u64,
    ghost sized: { length table.now.tasks ≡ max_tasks },
    ghost facts: { TableFacts table.now },
    ghost tasks_known: { TaskParts table.now.tasks table.now.n parts },
    ghost server_known: { ServerPart table.now.server server_part },
    ghost leads: { ServerLead table.now.server server_part lead },
}

impl<'a> Load<'a> {
    // The load of a table that passes.
    fn of(table: &'a Table) -> Self
        requires { passed (table_check table.now) ≡ true }
        ensures { result.table.now ≡ table.now }
    {
        let server_part = server_part(table.server);
        Load {
            table,
            parts: task_parts(&table.tasks, table.n),
            server_part,
            lead: Load::server_lead(table, server_part),
        }
    }

    // What the server is sure to take beside its part: the deferrable one's extra budget B, less its part of B ticks.
    fn server_lead(table: &Table, part: u64) -> u64
        requires facts { TableFacts table.now }
        requires known { ServerPart table.now.server part }
        ensures { ServerLead table.now.server part result }
    {
        let budget = u64::from(table.server.budget);
        match table.server.kind {
            2 => budget * (WHOLE - budget * part),
            _ => 0,
        }
    }

    // How often the server may have its budget in L ticks, by kind.
    fn server_turns(&self, l: u32) -> u64
        requires { l ≤ max_time }
        ensures { ServerTurns self.now.table.now.server l result }
    {
        let server = self.table.server;
        match server.kind {
            1 | 3 | 4 => turns(l, server.period, self.server_part),
            2 => {
                let beyond = l.saturating_sub(server.budget);
                1 + turns(beyond, server.period, self.server_part)
            }
            _ => 0,
        }
    }

    // The server's term at a length.
    fn server_term(&self, l: u32) -> Term
        requires { l ≤ max_time }
        ensures { ServerTerm self.now.table.now.server l result }
    {
        let server = self.table.server;
        Term {
            turns: self.server_turns(l),
            period: server.period,
            exec: server.budget,
            part: self.server_part,
            lead: self.lead,
        }
    }

    // What is demanded of a length, and what is sure of the longer ones. Terms that grow again before `until` are counted by their parts.
    fn work_at(&self, demand: Demand, l: u32, until: u64) -> Work
        requires { Asked self.now.table.now demand l }
        ensures { DemandAt (demanded self.now.table.now demand) l result }
    {
        let above = demand.above as usize;
        let mut work = Work {
            all: u64::from(demand.own),
            fixed: u64::from(demand.own),
            extra: 0,
            rate: 0,
        };
        for (task, part) in self.table.tasks[..above].iter().zip(&self.parts[..above]) {
            let term = Term {
                turns: turns(l, task.period, *part),
                period: task.period,
                exec: task.exec,
                part: *part,
                lead: 0,
            };
            work = work.with(term, until);
        }
        if demand.beside {
            return work.with(self.server_term(l), until);
        }
        work
    }

    // The first length that meets its demand, or one past the limit. No length before `from` does. A length that does not becomes the
    // next that is open. The first time every term is counted by its part, then those that grow within another jump like the last.
    fn first_met(&self, demand: Demand, limit: u32, from: u32) -> u32
        requires asked { Asked self.now.table.now demand limit }
        requires ruled { OpenFrom (demanded self.now.table.now demand) from }
        ensures { FirstMet (demanded self.now.table.now demand) limit result }
    {
        let mut l = from;
        let mut near = FAR;
        // A `while`, since it jumps from length to length.
        while l <= limit {
            let work = self.work_at(demand, l, u64::from(l) + near);
            if work.all <= u64::from(l) {
                return l;
            }
            let next = work.next_length();
            near = NEAR.max(u64::from(next - l));
            l = next;
        }
        l
    }

    // The bounds of the tasks in use. A length that fails a task fails the next one. Each is written by its place, which is also how many tasks stand above; the
    // tasks are those of the count, since over `tasks()` the proof did not close.
    fn task_bounds(&self) -> [u32; Table::MAX_TASKS as usize]
        ensures { result ≡ overlay (bounds (task_set_of self.now.table.now)) no_bounds }
    {
        let place = self.table.server.place;
        let mut bounds = [0; Table::MAX_TASKS as usize];
        let mut from: u32 = 1;
        for (i, task) in self.table.tasks[..self.table.n as usize].iter().enumerate() {
            let above = i as u32;
            let demand = Demand {
                own: task.exec,
                above,
                beside: place <= above,
            };
            from = self.first_met(demand, task.deadline, from);
            bounds[i] = within(from, task.deadline);
        }
        bounds
    }

    // The bound of a server of kinds 1 to 4.
    fn own_bound(&self) -> u32
        requires { 1 ≤ self.now.table.now.server.kind }
        ensures { result ≡ own_bound (task_set_of self.now.table.now) }
    {
        let server = self.table.server;
        let demand = Demand {
            own: server.budget,
            above: server.place,
            beside: false,
        };
        within(self.first_met(demand, server.period, 1), server.period)
    }

    // The server's own bound: kinds 1 to 4 have one.
    fn server_bound(&self) -> u32
        ensures { result ≡ server_bound (task_set_of self.now.table.now) }
    {
        match self.table.server.kind {
            1..=4 => self.own_bound(),
            _ => 0,
        }
    }

    // Every bound, the server's bound, and whether the table is admitted.
    fn admission(&self) -> Admission
        ensures { result ≡ admission_for (task_set_of self.now.table.now) }
    {
        let bounds = self.task_bounds();
        let serverbound = self.server_bound();
        let every = all_bounded(&bounds[..self.table.n as usize]);
        let own = server_admitted(self.table.server.kind, serverbound);
        Admission {
            bounds,
            serverbound,
            admitted: every & own,
        }
    }
}

// "for kinds 1 to 3, the server's too"; 3/13: and for kind 4. By a rule of the project the kind is a number that is matched.
fn server_admitted(kind: u32, bound: u32) -> bool
    ensures { result ≡ server_admitted (kind_of kind) bound }
{
    match kind {
        1..=4 => 0 < bound,
        _ => true,
    }
}

// Every bound is above 0.
fn all_bounded(bounds: &[u32]) -> bool
    ensures { result ≡ all (nat_lt 0) bounds.now }
{
    bounds.iter().all(|bound| 0 < *bound)
}

// Admission: refusals 1, 2 and 3, or every bound, the server's bound, and whether the table is admitted.
pub fn admit(table: &Table) -> Result<Admission, Refusal>
    ensures answer { result ≡ admission_call table.now }
    ensures in_figures { figures result ≡ table_figures table.now }
{
    table.check()?;
    Ok(Load::of(table).admission())
}

// No bounds, and not admitted.
fn no_admission() -> Admission
    ensures { result ≡ no_admission }
{
    Admission::default()
}

// The same; of a refused table no bounds.
pub fn bounds_of(table: &Table) -> Admission
    ensures { result ≡ admission_of table.now }
{
    admit(table).unwrap_or(no_admission())
}
