// The queue of requests, first come first served.
#![tactic(auto)]

ghost use Rattle.std.specs.Prelude.{◌≡◌, ◌≤◌, drop};
ghost use Rattle.queue.specs.Queue.{max_waiting, fresh_queue, waiting_of, queue_with, request_fits};
ghost use Rattle.queue.specs.Steps.{pushed_queue, served_queue, queue_fits};

// Work that comes when it likes: an id, the ticks of work left, and the tick at which it was presented.
#[repr(C)]
#[derive(Debug, Clone, Copy, PartialEq, Eq, Default)]
pub struct Request {
    pub id: u32,
    pub work: u32,
    pub arrival: u32,
}

impl Request {
    // The limits of a request that waits when the clock stands at `clock`.
    fn fits(self, clock: u32) -> bool
        ensures { result ≡ request_fits clock self }
    {
        (1 <= self.work) & (self.work <= Queue::MAX_WORK) & (self.arrival <= clock)
    }
}

// The first n slots hold the requests that wait, the head first. backlog: the ticks of work that wait (document 02's figure), which a
// request adds to and a served tick takes from. An array and its count: C has this layout too, and nothing may allocate.
#[repr(C)]
#[derive(Debug, Clone, Copy, PartialEq, Eq)]
pub struct Queue {
    pub requests: [Request; Queue::CAPACITY as usize],
    pub n: u32,
    pub backlog: u32,
}

impl Queue {
    // How many may wait.
    pub const CAPACITY: u32 = 24;
    // The longest work of a request.
    pub const MAX_WORK: u32 = 60000;

    // Nothing waits, and every slot is 0. Written out: of a struct with an array of structs a derived default opened in no proof here.
    pub fn fresh() -> Queue
        ensures { result ≡ fresh_queue }
    {
        Queue {
            requests: [Request::default(); Queue::CAPACITY as usize],
            n: 0,
            backlog: 0,
        }
    }

    // The requests that wait, the head first: the slots in use, or all of them where the count passes them. `Table::tasks` and `Returns::held` are
    // its like: each over its own slots, with its own contract: `Table::tasks` says why no type serves all three.
    pub fn waiting(&self) -> &[Request]
        ensures { result.now ≡ waiting_of self.now }
    {
        &self.requests[..self.n.min(Queue::CAPACITY) as usize]
    }

    // A request more, at the end, and its work more. A full queue stays as it is.
    pub fn push(&mut self, id: u32, work: u32, arrival: u32)
        ensures { self.new ≡ pushed_queue self.old id work arrival }
    {
        if self.n < Queue::CAPACITY {
            self.requests[self.n as usize] = Request { id, work, arrival };
            self.n += 1;
            self.backlog = self.backlog.saturating_add(work);
        }
    }

    // Step 5: the head loses one tick of work, and at zero it leaves; one tick less waits. An empty queue stays as it is, and one whose
    // count passes its slots.
    pub fn serve(&mut self)
        ensures { self.new ≡ served_queue self.old }
    {
        if self.n < 1 || Queue::CAPACITY < self.n {
            return;
        }
        if self.requests[0].work <= 1 {
            self.remove_head();
        } else {
            self.requests[0].work -= 1;
        }
        self.backlog = self.backlog.saturating_sub(1);
    }

    // Refusal 11, of the queue: no more wait than there are slots, each request that waits keeps its limits, and the backlog is the sum of
    // their work.
    pub fn fits(&self, clock: u32) -> bool
        ensures { result ≡ queue_fits clock self.now }
    {
        if Queue::CAPACITY < self.n {
            return false;
        }
        let mut sum: u32 = 0;
        for request in self.waiting() {
            if !request.fits(clock) {
                return false;
            }
            sum += request.work;
        }
        self.backlog == sum
    }

    // The others move up by one slot; the last slot in use keeps what it held.
    fn remove_head(&mut self)
        requires low { 1 ≤ self.old.n }
        requires high { self.old.n ≤ max_waiting }
        ensures { self.new ≡ queue_with self.old (drop 1 (waiting_of self.old)) self.old.backlog }
    {
        self.requests.copy_within(1..self.n as usize, 0);
        self.n -= 1;
    }
}

// A request that a tick finishes, and its response: the ticks from its arrival to the end of the tick.
#[derive(Debug, Clone, Copy, PartialEq, Eq)]
pub struct Finished {
    pub id: u32,
    pub response: u32,
}
