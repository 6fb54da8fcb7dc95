// The states that the cases start from, and one field of them put to another value.
use queue::{Queue, Request};
use server::{Returns, Server, ServerState, Sporadic, Stretch};
use table::{Progress, State, Table, Task};

// Two tasks in use; the other slots hold tasks that keep their limits. Kind 0 stands below both tasks and has no budget; every
// other kind has one task above it.
fn table(kind: u32) -> Table {
    let other = Task {
        phase: 1,
        period: 10,
        exec: 3,
        deadline: 8,
    };
    let mut tasks = [other; Table::MAX_TASKS as usize];
    tasks[1] = Task {
        phase: 0,
        period: 20,
        exec: 4,
        deadline: 20,
    };
    let (place, period, budget) = if kind == 0 { (2, 0, 0) } else { (1, 10, 4) };
    Table {
        tasks,
        n: 2,
        server: Server {
            kind,
            place,
            period,
            budget,
        },
    }
}

// What is left of task 0 and task 1; slot 2 is not in use, and holds more than any task may.
fn progress(kind: u32) -> Progress {
    let mut left = [0; Table::MAX_TASKS as usize];
    left[0] = 2;
    left[1] = 4;
    left[2] = 60001;
    let budget = match kind {
        0 => 0,
        4 => 1,
        _ => 3,
    };
    Progress {
        left,
        server: ServerState {
            budget,
            sporadic: Sporadic {
                tr: 90,
                begin: 95,
                nr: 0,
                served: false,
                late: false,
                above: false,
                busy: true,
            },
        },
        clock: 100,
    }
}

// Three requests wait; the other slots hold requests that keep their limits.
fn queue() -> Queue {
    let other = Request {
        id: 6,
        work: 5,
        arrival: 50,
    };
    let mut requests = [other; Table::MAX_WAITING as usize];
    requests[0] = Request {
        id: 7,
        work: 2,
        arrival: 90,
    };
    requests[1] = Request {
        id: 8,
        work: 60000,
        arrival: 100,
    };
    requests[2] = Request {
        id: 7,
        work: 1,
        arrival: 95,
    };
    Queue {
        requests,
        n: 3,
        backlog: 60003,
    }
}

// Two stretches are held, of two ticks and of one, in the last ten before the clock; the slot after them ends past it.
fn returns() -> Returns {
    let other = Stretch {
        start: 99,
        length: 9,
    };
    let mut stretches = [other; Returns::CAPACITY as usize];
    stretches[0] = Stretch {
        start: 92,
        length: 2,
    };
    stretches[1] = Stretch {
        start: 96,
        length: 1,
    };
    Returns { stretches, n: 2 }
}

// The state that the cases of a kind start from.
pub fn state(kind: u32) -> State {
    State {
        table: table(kind),
        progress: progress(kind),
        queue: queue(),
        returns: returns(),
    }
}

// A field of a state that is put to a value. It goes by a letter, since it is printed so, and by a slot where it stands in an array (0 where it does not):
//   tasks     f phase, p period, e exec, D deadline (each with a slot), n how many are in use
//   server    k kind, s place, P period, B budget
//   progress  l left (with a slot), b budget, t tr, g begin, r nr, c clock
//   queue     i id, w work, a arrival (each with a slot), q how many wait, F the figure of their work
//   returns   S start, L length (each with a slot), h how many stretches are held
#[derive(Clone, Copy)]
pub struct Edit {
    pub letter: char,
    pub slot: usize,
    pub value: u32,
}

// A field put to a value.
pub fn put(letter: char, slot: usize, value: u32) -> Edit {
    Edit {
        letter,
        slot,
        value,
    }
}

impl Edit {
    // A field that a struct does not have changes nothing, here and below. One function a struct: each has fields of its own.
    fn edit_task(self, task: &mut Task) {
        match self.letter {
            'f' => task.phase = self.value,
            'p' => task.period = self.value,
            'e' => task.exec = self.value,
            'D' => task.deadline = self.value,
            _ => {}
        }
    }

    fn edit_server(self, server: &mut Server) {
        match self.letter {
            'k' => server.kind = self.value,
            's' => server.place = self.value,
            'P' => server.period = self.value,
            'B' => server.budget = self.value,
            _ => {}
        }
    }

    fn edit_table(self, table: &mut Table) {
        if let Some(task) = table.tasks.get_mut(self.slot) {
            self.edit_task(task);
        }
        self.edit_server(&mut table.server);
        if self.letter == 'n' {
            table.n = self.value;
        }
    }

    fn edit_server_state(self, server: &mut ServerState) {
        match self.letter {
            'b' => server.budget = self.value,
            't' => server.sporadic.tr = self.value,
            'g' => server.sporadic.begin = self.value,
            'r' => server.sporadic.nr = self.value,
            _ => {}
        }
    }

    fn edit_left(self, left: &mut u32) {
        if self.letter == 'l' {
            *left = self.value;
        }
    }

    fn edit_progress(self, progress: &mut Progress) {
        if let Some(left) = progress.left.get_mut(self.slot) {
            self.edit_left(left);
        }
        self.edit_server_state(&mut progress.server);
        if self.letter == 'c' {
            progress.clock = self.value;
        }
    }

    fn edit_request(self, request: &mut Request) {
        match self.letter {
            'i' => request.id = self.value,
            'w' => request.work = self.value,
            'a' => request.arrival = self.value,
            _ => {}
        }
    }

    // Each case has the figure that belongs to its queue, but for those that change the figure itself.
    fn edit_queue(self, queue: &mut Queue) {
        if let Some(request) = queue.requests.get_mut(self.slot) {
            self.edit_request(request);
        }
        if self.letter == 'q' {
            queue.n = self.value;
        }
        queue.backlog = if self.letter == 'F' {
            self.value
        } else {
            work_of(queue)
        };
    }

    fn edit_stretch(self, stretch: &mut Stretch) {
        match self.letter {
            'S' => stretch.start = self.value,
            'L' => stretch.length = self.value,
            _ => {}
        }
    }

    fn edit_returns(self, returns: &mut Returns) {
        if let Some(stretch) = returns.stretches.get_mut(self.slot) {
            self.edit_stretch(stretch);
        }
        if self.letter == 'h' {
            returns.n = self.value;
        }
    }

    // Puts the field of a state to its value.
    pub fn apply(self, state: &mut State) {
        self.edit_table(&mut state.table);
        self.edit_progress(&mut state.progress);
        self.edit_queue(&mut state.queue);
        self.edit_returns(&mut state.returns);
    }
}

// The work of the slots in use.
fn work_of(queue: &Queue) -> u32 {
    let mut sum: u32 = 0;
    for request in queue.waiting() {
        sum = sum.saturating_add(request.work);
    }
    sum
}
