// The server: its parameters, its state, and what a tick shows it and does to it. A file for each kind has that kind's rules.
#![tactic(auto)]

ghost use Rattle.std.specs.Prelude.{◌≡◌};
ghost use Rattle.server.specs.Kind.{kind_of};
ghost use Rattle.server.specs.Server.{fresh_server};
ghost use Rattle.server.specs.Consumed.{consumed};
ghost use Rattle.server.specs.Advanced.{delay_by, replenished_by};

mod deferrable;
mod periodic;
mod polling;
mod returning;
mod simple_sporadic;

// The server of a table. kind: 0 background, 1 polling, 2 deferrable, 3 simple sporadic, 4 returning (tick by tick). place (document 01's s): how many
// tasks stand above it. period is document 01's P, budget its B. The kind is a number: C has this layout, and by a rule of the project each step
// matches on it.
#[repr(C)]
#[derive(Debug, Clone, Copy, PartialEq, Eq, Default)]
pub struct Server {
    pub kind: u32,
    pub place: u32,
    pub period: u32,
    pub budget: u32,
}

// What only a simple sporadic server keeps. Marks, and kept beside every kind: C has these fields, and refusal 11 looks at tr, begin and nr of every
// kind.
#[repr(C)]
#[derive(Debug, Clone, Copy, PartialEq, Eq, Default)]
pub struct Sporadic {
    // The last replenishment.
    pub tr: u32,
    // The first tick of the current or latest unbroken stretch in which a task above was open.
    pub begin: u32,
    // The next replenishment; it counts once the server has served since tr.
    pub nr: u32,
    // The mark "served since tr".
    pub served: bool,
    // nr had passed when the first service since tr fixed it.
    pub late: bool,
    // Whether a task above the server, and whether any task, was open in the last tick.
    pub above: bool,
    pub busy: bool,
}

// What a tick changes of a server. budget is document 01's b: what is left to serve now.
#[repr(C)]
#[derive(Debug, Clone, Copy, PartialEq, Eq)]
pub struct ServerState {
    pub budget: u32,
    pub sporadic: Sporadic,
}

// An unbroken stretch of ticks that a server of kind 4 served.
#[repr(C)]
#[derive(Debug, Clone, Copy, PartialEq, Eq, Default)]
pub struct Stretch {
    pub start: u32,
    pub length: u32,
}

// What only a server of kind 4 keeps, beside its budget: the first n slots hold the stretches that have not come back, oldest first.
// An array and its count: C has this layout too, and nothing may allocate.
#[repr(C)]
#[derive(Debug, Clone, Copy, PartialEq, Eq)]
pub struct Returns {
    pub stretches: [Stretch; Returns::CAPACITY as usize],
    pub n: u32,
}

// All that a tick reads of the returns: whether a held tick comes back at step 3, whether a served tick can be held after it, and
// whether served ticks are held at all, as under kind 4 alone. A flag and no Option: each tick reads the other two under every kind, and the promise
// (`edge_within`) says them of every kind.
#[derive(Debug, Clone, Copy, PartialEq, Eq)]
pub struct Edge {
    pub back: bool,
    pub room: bool,
    pub holds: bool,
}

// Where a server of kind 4 holds a tick: a slot, the stretch that it then has, and how many are held.
#[derive(Debug, Clone, Copy, PartialEq, Eq)]
pub struct Slot {
    pub at: usize,
    pub stretch: Stretch,
    pub n: u32,
}

// What a tick shows the server at step 5: its number, whether a task above the server is open in it, whether any task is,
// whether the server serves it by its budget, whether a request waited at step 4, and whether none waits after the tick's work.
#[derive(Debug, Clone, Copy, PartialEq, Eq)]
pub struct Seen {
    pub t: u32,
    pub above: bool,
    pub busy: bool,
    pub serves: bool,
    pub waited: bool,
    pub emptied: bool,
}

impl Server {
    // The server's state in a fresh state: a full budget, but none for kind 0.
    pub fn fresh(self) -> ServerState
        ensures { result ≡ fresh_server (kind_of self.kind) self }
    {
        let kind = self.kind;
        let budget = match kind {
            1..=4 => self.budget,
            _ => 0,
        };
        ServerState {
            budget,
            sporadic: Sporadic::default(),
        }
    }

    // How many ticks after its service a tick comes back: none does but under kind 4, and this is 0. 0 and no Option: what this function promises
    // (`delay_by`) says 0.
    pub fn delay(self) -> u32
        ensures { result ≡ delay_by self }
    {
        if self.kind == 4 {
            return self.period;
        }
        0
    }
}

impl Returns {
    // How many stretches may be held.
    pub const CAPACITY: u32 = 32;
}

// By a rule of the project both steps take the server's state by value and hand back the next one. The server, the tick and what it shows are passed
// on apart: each kind's file takes those that it reads, and a struct of them would be made for nothing else.
impl ServerState {
    // Step 3, at tick t; busy: some task is open; back: a held tick comes back, as its `Edge` says.
    pub fn replenish(self, server: Server, t: u32, busy: bool, back: bool) -> ServerState
        ensures { result ≡ replenished_by server self t busy back }
    {
        let kind = server.kind;
        match kind {
            1 | 2 => periodic::replenish(self, server, t),
            3 => simple_sporadic::replenish(self, server, t, busy),
            4 => returning::regain(self, server.budget, back),
            _ => self,
        }
    }

    // Step 5. Where the next replenishment would pass 32 bits, which no fit state's does, the state stays as it is. Arms 2 and 4 are alike and stand
    // apart: the wrong answer `returning_code_paid_as_polling` changes one of them alone.
    pub fn consume(self, server: Server, seen: Seen) -> ServerState
        ensures { result ≡ consumed server self seen }
    {
        let kind = server.kind;
        match kind {
            1 => polling::consume(self, seen),
            2 => deferrable::consume(self, seen),
            3 => simple_sporadic::consume(self, server, seen),
            4 => deferrable::consume(self, seen),
            _ => self,
        }
    }
}
