// The server that gives back tick by tick (kind 4 of document 02): what it served is held, as stretches of ticks, and each tick comes
// back one period later.
ghost use Rattle.std.specs.Prelude.{◌≡◌, ◌≤◌, ◌<◌};
ghost use Rattle.server.specs.Consumed.{last32};
ghost use Rattle.server.specs.Returns.{max_held, end_of, held_of, returns_with, comes_back, returned, goes_on, room_at, held_with, stretch_fits, fresh_returns, returns_fit};
ghost use Rattle.server.specs.Advanced.{no_edge, edge_within, regained, slot_for, last_of, advanced};

use crate::periodic::with_budget;
use crate::{Edge, Returns, Server, ServerState, Slot, Stretch};

impl Returns {
    // Nothing is held, and every slot is 0. Written out, as `Queue::fresh` is.
    pub fn fresh() -> Returns
        ensures { result ≡ fresh_returns }
    {
        Returns {
            stretches: [Stretch::default(); Returns::CAPACITY as usize],
            n: 0,
        }
    }

    // The stretches that have not come back, oldest first: the slots in use, or all of them where the count passes them. `Table::tasks` and
    // `Queue::waiting` are its like: each over its own slots, with its own contract: `Table::tasks` says why no type serves all three.
    pub fn held(&self) -> &[Stretch]
        ensures { result.now ≡ held_of self.now }
    {
        &self.stretches[..self.n.min(Returns::CAPACITY) as usize]
    }
}

// Step 3: one budget tick more if a held tick comes back. A budget that is full, which no fit state's is then, stays.
pub fn regain(state: ServerState, full: u32, back: bool) -> ServerState
    ensures { result ≡ regained full back state }
{
    if back && state.budget < full {
        return with_budget(state, state.budget + 1);
    }
    state
}

// Of a server of another kind, and of an array whose count passes its slots, nothing comes back, blocks or is held.
fn no_edge() -> Edge
    ensures { result ≡ no_edge }
{
    Edge {
        back: false,
        room: true,
        holds: false,
    }
}

// ---- reading
impl Stretch {
    // The tick after it.
    fn end(self) -> u64
        ensures { result ≡ end_of self }
    {
        u64::from(self.start) + u64::from(self.length)
    }

    // It begins at `earliest` or later, is not empty, and ends at the clock or before.
    fn fits(self, earliest: u64, clock: u32) -> bool
        ensures { result ≡ stretch_fits earliest clock self }
    {
        earliest <= u64::from(self.start) && 1 <= self.length && self.end() <= u64::from(clock)
    }
}

impl Returns {
    // Whether the oldest held tick comes back at step 3 of tick t, and whether t can be held after it: a stretch that is emptied frees
    // its place. period: the server's delay. It and the tick are passed side by side, here and below: a struct of the two would be made for each call.
    pub fn edge(&self, period: u32, t: u32) -> Edge
        ensures { result ≡ edge_within period t self.now }
    {
        if period < 1 || Returns::CAPACITY < self.n {
            return no_edge();
        }
        let back = self.comes_back(period, t);
        Edge {
            back,
            room: (back && self.stretches[0].length <= 1) || self.room_at(t),
            holds: true,
        }
    }

    // Whether a served tick t can be held: there is a place, or it goes on the last stretch. That the count keeps to the slots is no invariant of the
    // type: a state from C may break it, and refusal 11 has to see it.
    fn room_at(&self, t: u32) -> bool
        requires { self.now.n ≤ max_held }
        ensures { result ≡ room_at t (held_of self.now) }
    {
        self.n < Returns::CAPACITY || self.goes_on(t)
    }

    // Whether tick t goes on the last stretch.
    #[tactic(auto, using(crate::proofs::Slots::on_back))]
    fn goes_on(&self, t: u32) -> bool
        ensures { result ≡ goes_on t (held_of self.now) }
    {
        self.held()
            .last()
            .is_some_and(|last| last.end() == u64::from(t))
    }

    // Whether the oldest held tick comes back at tick t.
    fn comes_back(&self, period: u32, t: u32) -> bool
        ensures { result ≡ comes_back period t (held_of self.now) }
    {
        self.held()
            .first()
            .is_some_and(|oldest| oldest.start.checked_add(period) == Some(t))
    }
}

// ---- moving
impl Returns {
    // Steps 3 and 5 of kind 4: what comes back at tick t is gone, and a served tick is held. What passes its limits, which no fit
    // state's does, stays as it is, and so does a tick that there is no room for, which no eligible one is.
    pub fn advance(&mut self, period: u32, t: u32, serves: bool)
        ensures { self.new ≡ advanced period t serves self.old }
    {
        if Returns::CAPACITY < self.n || period < 1 || t == u32::MAX {
            return;
        }
        self.give_back(period, t);
        if serves {
            self.hold(t);
        }
    }

    // The oldest held tick is gone, if it comes back at tick t. Where it was its stretch's last, the others move up by one slot, and the
    // last slot in use keeps what it held.
    fn give_back(&mut self, period: u32, t: u32)
        requires few { self.old.n ≤ max_held }
        requires later { 1 ≤ period }
        ensures { self.new ≡ returns_with self.old (returned period t (held_of self.old)) }
    {
        if !self.comes_back(period, t) {
            return;
        }
        let oldest = self.stretches[0];
        if oldest.length <= 1 {
            self.stretches.copy_within(1..self.n as usize, 0);
            self.n -= 1;
        } else {
            self.stretches[0] = Stretch {
                start: oldest.start + 1,
                length: oldest.length - 1,
            };
        }
    }

    // Tick t is held, in its slot; where there is no room nothing changes.
    fn hold(&mut self, t: u32)
        requires few { self.old.n ≤ max_held }
        requires early { t < last32 }
        ensures { self.new ≡ held_with self.old t }
    {
        let held = self.slot_for(t);
        self.stretches[held.at] = held.stretch;
        self.n = held.n;
    }

    // Where a served tick t is held: on the last stretch, or as one of its own; and where there is no room, the last as it is.
    fn slot_for(&self, t: u32) -> Slot
        requires few { self.now.n ≤ max_held }
        requires early { t < last32 }
        ensures { result ≡ slot_for (last_of self.now) self.now.n t }
    {
        let n = self.n;
        if self.goes_on(t) {
            let last = self.stretches[n as usize - 1];
            return Slot {
                at: n as usize - 1,
                stretch: Stretch {
                    start: last.start,
                    length: last.length + 1,
                },
                n,
            };
        }
        if Returns::CAPACITY <= n {
            return Slot {
                at: n as usize - 1,
                stretch: self.stretches[n as usize - 1],
                n,
            };
        }
        Slot {
            at: n as usize,
            stretch: Stretch {
                start: t,
                length: 1,
            },
            n: n + 1,
        }
    }
}

// ---- refusal 11
impl Returns {
    // Kind 4's clauses: no more than 32, none empty, in order, apart, within the last P ticks, and held + b = B.
    pub fn fits(&self, server: Server, clock: u32, budget: u32) -> bool
        ensures { result ≡ returns_fit server clock budget self.now }
    {
        if Returns::CAPACITY < self.n {
            return false;
        }
        let mut earliest = u64::from(clock.saturating_sub(server.period));
        let mut held: u64 = 0;
        for stretch in self.held() {
            if !stretch.fits(earliest, clock) {
                return false;
            }
            earliest = stretch.end() + 1;
            held += u64::from(stretch.length);
        }
        held + u64::from(budget) == u64::from(server.budget)
    }
}
