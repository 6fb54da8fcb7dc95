// The public calls on tables and states that no plan can reach: each limit of refusals 1, 2, 3 and 11 at its edge and past it,
// one field at a time, and the orders of the refusals. Each line is a case: what was put where, then what each call answers and a
// number for the state that it hands back. The file `stdout` is not what this program wrote: a second computation wrote it.
#![tactic(auto)]

mod digest;
mod print;
mod states;

use print::{field, text};
use states::{Edit, put, state};
use std::io;
use table::{State, Table};

// ---- a line for a case

// Each of these calls stands alone, with a state of its own that it may change: the check of a function grows with its steps times the states
// that it holds.
fn tick_call(rt: &impl Print, mut state: State) -> io::Result<()> {
    let answer = scheduler::tick(&mut state);
    print::ticked(rt, answer, &state)
}

fn request_call(
    rt: &impl Print,
    word: &str,
    mut state: State,
    id: u32,
    work: u32,
) -> io::Result<()> {
    let answer = scheduler::request(&mut state, id, work);
    print::answered(rt, word, answer, &state)
}

// A run of k ticks, with a list of 32 idle entries.
fn run_call(rt: &impl Print, mut state: State, k: u32) -> io::Result<()> {
    let block = scheduler::run_block(&mut state, k);
    print::answered(rt, "; run ", block.answer, &state)?;
    print::entries(rt, &block.entries)
}

// What the calls on a table answer.
fn table_calls(rt: &impl Print, table: &Table) -> io::Result<()> {
    print::answer(rt, "; check ", &table.check())?;
    print::set_up(rt, table.set_up(), table)?;
    print::admission(rt, admission::admit(table))
}

// What the calls answer on a state, and on its table too where a case is of the table. A flag: what differs is one part of the line.
fn answers(rt: &impl Print, state: State, of_table: bool) -> io::Result<()> {
    print::fit(rt, &state)?;
    tick_call(rt, state)?;
    request_call(rt, "; request ", state, 5, 1)?;
    run_call(rt, state, 0)?;
    run_call(rt, state, 32)?;
    run_call(rt, state, 33)?;
    print::waiting(rt, scheduler::waiting(&state))?;
    if of_table {
        table_calls(rt, &state.table)?;
    }
    text(rt, "\n")
}

// The cases of one kind of server. The kind is a number here and in `states`, as it is in a table, which may hold any.
#[derive(Drop)]
struct Cases<'a, P> {
    rt: &'a P,
    kind: u32,
}

impl<'a, P: Print> Cases<'a, P> {
    // The start of a line: the kind, and the fields that the case changes. What is handed back is the state with them.
    fn edited(&self, edits: &[Edit]) -> io::Result<State> {
        let mut state = state(self.kind);
        field(self.rt, "server ", self.kind)?;
        for edit in edits {
            print::edit(self.rt, *edit)?;
            edit.apply(&mut state);
        }
        Ok(state)
    }

    fn case(&self, edits: &[Edit], of_table: bool) -> io::Result<()> {
        let state = self.edited(edits)?;
        answers(self.rt, state, of_table)
    }

    // Two fields at once: the order of the refusals.
    fn pair(&self, edit: Edit, other: Edit) -> io::Result<()> {
        self.case(&[edit, other], true)
    }

    // Requests of each work, where so many wait.
    fn request_case(&self, waiting: u32, work: u32) -> io::Result<()> {
        let state = self.edited(&[put('q', 0, waiting)])?;
        field(self.rt, " work ", work)?;
        request_call(self.rt, ": request ", state, u32::MAX, work)?;
        text(self.rt, "\n")
    }

    // ---- a case for each value

    fn fields(&self, letter: char, slot: usize, of_table: bool, values: &[u32]) -> io::Result<()> {
        for value in values {
            self.case(&[put(letter, slot, *value)], of_table)?;
        }
        Ok(())
    }

    fn works(&self, waiting: u32, works: &[u32]) -> io::Result<()> {
        for work in works {
            self.request_case(waiting, *work)?;
        }
        Ok(())
    }

    // ---- the limits of a table

    // A task in use has 1 ≤ e ≤ D ≤ p ≤ 60,000 and f ≤ 60,000. Task 0 stands at 1, 10, 3, 8; task 1, the last in use, at 0, 20, 4, 20;
    // the slot after it is not looked at.
    fn tasks(&self) -> io::Result<()> {
        self.fields('f', 0, true, &[0, 60000, 60001, u32::MAX])?;
        self.fields('p', 0, true, &[0, 7, 8, 60000, 60001])?;
        self.fields('e', 0, true, &[0, 1, 2, 8, 9])?;
        self.fields('D', 0, true, &[0, 2, 3, 10, 11])?;
        self.fields('f', 1, true, &[60000, 60001])?;
        self.fields('e', 1, true, &[0, 4, 20, 21])?;
        self.fields('D', 1, true, &[3, 4, 20, 21])?;
        self.fields('e', 2, true, &[0, 9])
    }

    fn server(&self) -> io::Result<()> {
        self.fields('n', 0, true, &[0, 1, 2, 3, 16, 17, u32::MAX])?;
        self.fields('k', 0, true, &[0, 1, 2, 3, 4, 5, u32::MAX])?;
        self.fields('s', 0, true, &[0, 1, 2, 3])?;
        self.fields('P', 0, true, &[0, 3, 4, 60000, 60001])?;
        self.fields('B', 0, true, &[0, 1, 2, 3, 10, 11])
    }

    // 1 before 2, 2 before 3, and the first bad index of two.
    fn table_orders(&self) -> io::Result<()> {
        self.pair(put('n', 0, 0), put('e', 0, 0))?;
        self.pair(put('n', 0, 17), put('k', 0, 5))?;
        self.pair(put('e', 1, 0), put('k', 0, 5))?;
        self.pair(put('e', 1, 0), put('f', 0, 60001))?;
        self.pair(put('n', 0, 3), put('e', 2, 0))?;
        self.pair(put('n', 0, 16), put('e', 15, 9))
    }

    // ---- the limits of a state

    fn progress(&self) -> io::Result<()> {
        self.fields('l', 0, false, &[0, 3, 4])?;
        self.fields('l', 1, false, &[0, 4, 5, u32::MAX])?;
        self.fields('l', 2, false, &[0, u32::MAX])?;
        self.fields('c', 0, false, &[99, 100, 3999999999, 4000000000])?;
        self.fields('c', 0, false, &[4000000001, u32::MAX])?;
        self.fields('b', 0, false, &[0, 1, 4, 5])?;
        self.fields('t', 0, false, &[0, 100, 101])?;
        self.fields('g', 0, false, &[0, 100, 101])?;
        self.fields('r', 0, false, &[100, 4000060000, 4000060001])
    }

    // Slots 0 to 2 are in use, slot 3 is not. 64 might wait before 6/13.
    fn queue(&self) -> io::Result<()> {
        self.fields('q', 0, false, &[0, 1, 23, 24, 25, 64, u32::MAX])?;
        self.fields('w', 0, false, &[0, 1, 60000, 60001])?;
        self.fields('w', 2, false, &[0, 60000, 60001])?;
        self.fields('w', 3, false, &[0, 60001])?;
        self.fields('a', 0, false, &[0, 100, 101])?;
        self.fields('a', 2, false, &[100, 101])?;
        self.fields('a', 3, false, &[101])?;
        self.fields('i', 0, false, &[0, u32::MAX])
    }

    // 2, 60,000 and 1 ticks of work wait; where the other slots count too, and where less do.
    fn backlog(&self) -> io::Result<()> {
        self.fields('F', 0, false, &[0, 1, 60002, 60003, 60004, 60108])?;
        self.fields('F', 0, false, &[125539, 2147543651, u32::MAX])?;
        self.pair(put('q', 0, 0), put('F', 0, 1))?;
        self.pair(put('q', 0, 2), put('F', 0, 60003))?;
        self.pair(put('q', 0, 4), put('F', 0, 60003))?;
        self.pair(put('w', 0, 3), put('F', 0, 60003))?;
        self.pair(put('w', 3, 6), put('F', 0, 60003))
    }

    // Kind 4's further limits, which the others do not ask: ticks 92, 93 and 96 are held, and one budget tick is left of four.
    fn returns(&self) -> io::Result<()> {
        self.fields('h', 0, false, &[0, 1, 3, 32, 33, u32::MAX])?;
        self.fields('S', 0, false, &[89, 90, 93, 94, 95, 97])?;
        self.fields('S', 1, false, &[94, 95, 99, 100, u32::MAX])?;
        self.fields('L', 0, false, &[0, 1, 3])?;
        self.fields('L', 1, false, &[0, 2, u32::MAX])?;
        self.fields('L', 2, false, &[0])
    }

    // The held ticks and the budget together.
    fn returns_orders(&self) -> io::Result<()> {
        self.pair(put('b', 0, 0), put('L', 0, 3))?;
        self.pair(put('b', 0, 2), put('L', 1, 0))?;
        self.pair(put('b', 0, 2), put('h', 0, 1))?;
        self.pair(put('b', 0, 4), put('h', 0, 0))?;
        self.pair(put('c', 0, 97), put('P', 0, 5))?;
        self.pair(put('c', 0, 97), put('P', 0, 4))
    }

    // 11 before 6.
    fn state_orders(&self) -> io::Result<()> {
        self.pair(put('c', 0, 4000000000), put('l', 0, 4))?;
        self.pair(put('c', 0, 4000000000), put('q', 0, 24))?;
        self.pair(put('c', 0, 4000000000), put('t', 0, 4000000000))?;
        self.pair(put('c', 0, 4000000000), put('t', 0, 4000000001))?;
        self.pair(put('c', 0, 3999999999), put('b', 0, 0))
    }

    // 11 before 4, and 4 before 5.
    fn requests(&self) -> io::Result<()> {
        self.works(0, &[0, 1, 60000, 60001, u32::MAX])?;
        self.works(23, &[0, 1, 60000, 60001])?;
        self.works(24, &[0, 1, 60000, 60001])?;
        self.works(25, &[0, 1])?;
        self.works(64, &[0, 1])
    }

    fn limits(&self) -> io::Result<()> {
        self.tasks()?;
        self.server()?;
        self.table_orders()?;
        self.progress()?;
        self.queue()?;
        self.backlog()?;
        self.returns()?;
        self.returns_orders()?;
        self.state_orders()?;
        self.requests()
    }
}

fn main(rt: HostRuntime) -> io::Result<()> {
    for kind in 0..=4 {
        Cases { rt: &rt, kind }.limits()?;
    }
    Ok(())
}
