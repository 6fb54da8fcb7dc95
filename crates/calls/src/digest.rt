// One number for a whole state, slots that are not in use included: a refused call hands back a state with the same number, and
// an accepted call one with the number of the state that it has to hand back.
use queue::{Queue, Request};
use rules::Entry;
use server::{Returns, Server, ServerState, Sporadic, Stretch};
use table::{Progress, State, Table, Task};

const MODULUS: u64 = 1000003;

// What has a part in such a number: each number in it is mixed in, in turn. It is no derived Hash: what wrote `stdout` takes the counts of queue
// and returns before their slots and no length of an array, and that file stays. Each type mixes its own fields.
pub trait Mix {
    fn mix(&self, sum: &mut u64);
}

fn mix_all<T: Mix>(items: &[T], sum: &mut u64) {
    for item in items {
        item.mix(sum);
    }
}

// The number of a list.
pub fn digest_all<T: Mix>(items: &[T]) -> u64 {
    let mut sum = 0;
    mix_all(items, &mut sum);
    sum
}

// The number of a state.
pub fn digest(state: &State) -> u64 {
    let mut sum = 0;
    state.mix(&mut sum);
    sum
}

impl Mix for u32 {
    fn mix(&self, sum: &mut u64) {
        *sum = (*sum % MODULUS * 31 + u64::from(*self)) % MODULUS;
    }
}

impl Mix for bool {
    fn mix(&self, sum: &mut u64) {
        u32::from(*self).mix(sum);
    }
}

impl Mix for Task {
    fn mix(&self, sum: &mut u64) {
        mix_all(&[self.phase, self.period, self.exec, self.deadline], sum);
    }
}

impl Mix for Server {
    fn mix(&self, sum: &mut u64) {
        mix_all(&[self.kind, self.place, self.period, self.budget], sum);
    }
}

impl Mix for Table {
    fn mix(&self, sum: &mut u64) {
        mix_all(&self.tasks, sum);
        self.n.mix(sum);
        self.server.mix(sum);
    }
}

impl Mix for Sporadic {
    fn mix(&self, sum: &mut u64) {
        mix_all(&[self.tr, self.begin, self.nr], sum);
        mix_all(&[self.served, self.late, self.above, self.busy], sum);
    }
}

impl Mix for ServerState {
    fn mix(&self, sum: &mut u64) {
        self.budget.mix(sum);
        self.sporadic.mix(sum);
    }
}

impl Mix for Progress {
    fn mix(&self, sum: &mut u64) {
        mix_all(&self.left, sum);
        self.server.mix(sum);
        self.clock.mix(sum);
    }
}

impl Mix for Request {
    fn mix(&self, sum: &mut u64) {
        mix_all(&[self.id, self.work, self.arrival], sum);
    }
}

impl Mix for Queue {
    fn mix(&self, sum: &mut u64) {
        self.n.mix(sum);
        self.backlog.mix(sum);
        mix_all(&self.requests, sum);
    }
}

impl Mix for Stretch {
    fn mix(&self, sum: &mut u64) {
        mix_all(&[self.start, self.length], sum);
    }
}

impl Mix for Returns {
    fn mix(&self, sum: &mut u64) {
        self.n.mix(sum);
        mix_all(&self.stretches, sum);
    }
}

impl Mix for State {
    fn mix(&self, sum: &mut u64) {
        self.table.mix(sum);
        self.progress.mix(sum);
        self.queue.mix(sum);
        self.returns.mix(sum);
    }
}

impl Mix for Entry {
    fn mix(&self, sum: &mut u64) {
        mix_all(&[self.kind, self.id, self.drops], sum);
    }
}
