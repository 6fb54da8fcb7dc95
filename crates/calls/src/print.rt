// Answers as text on standard output. A call's answer is document 01's number of the refusal, 0 for none, with the index of a 2.
use crate::digest::{digest, digest_all};
use crate::states::Edit;
use bounds::Admission;
use queue::Finished;
use rules::{Entry, Occupant, Ticked};
use std::fmt::Display;
use std::io;
use table::{Refusal, State, Table};

pub fn text(rt: &impl Print, words: &str) -> io::Result<()> {
    print!(rt; "{words}")
}

// A word and a number after it.
pub fn field(rt: &impl Print, word: &str, number: impl Display + Drop) -> io::Result<()> {
    print!(rt; "{word}{number}")
}

fn flag(rt: &impl Print, word: &str, b: bool) -> io::Result<()> {
    field(rt, word, u32::from(b))
}

fn refusal(rt: &impl Print, word: &str, refusal: Refusal) -> io::Result<()> {
    field(rt, word, refusal.number())?;
    if let Refusal::BadTask(i) = refusal {
        field(rt, " at ", i)?;
    }
    Ok(())
}

// Whether a call refused.
pub fn answer<T>(rt: &impl Print, word: &str, answer: &Result<T, Refusal>) -> io::Result<()> {
    match answer {
        Ok(_) => field(rt, word, 0),
        Err(r) => refusal(rt, word, *r),
    }
}

// The number of a state that a call leaves.
fn handed(rt: &impl Print, state: &State) -> io::Result<()> {
    field(rt, " state ", digest(state))
}

pub fn answered(
    rt: &impl Print,
    word: &str,
    moved: Result<(), Refusal>,
    after: &State,
) -> io::Result<()> {
    answer(rt, word, &moved)?;
    handed(rt, after)
}

pub fn fit(rt: &impl Print, state: &State) -> io::Result<()> {
    flag(rt, ": fit ", state.fit())?;
    handed(rt, state)
}

// Of a refused table, the fresh state that it would have.
pub fn set_up(rt: &impl Print, set_up: Result<State, Refusal>, table: &Table) -> io::Result<()> {
    answer(rt, "; set-up ", &set_up)?;
    handed(rt, &set_up.unwrap_or(table.fresh()))
}

// Of a refused table, no bounds.
pub fn admission(rt: &impl Print, admission: Result<Admission, Refusal>) -> io::Result<()> {
    answer(rt, "; admission ", &admission)?;
    let Admission {
        bounds,
        serverbound,
        admitted,
    } = admission.unwrap_or_default();
    flag(rt, " admitted ", admitted)?;
    field(rt, " server ", serverbound)?;
    field(rt, " bounds ", digest_all(&bounds))
}

fn occupant(rt: &impl Print, occupant: Occupant) -> io::Result<()> {
    match occupant {
        Occupant::Idle => text(rt, " idle"),
        Occupant::Task(i) => field(rt, " row ", i),
        Occupant::Request(id) => field(rt, " request ", id),
    }
}

fn finish(rt: &impl Print, finished: Option<Finished>) -> io::Result<()> {
    if let Some(request) = finished {
        field(rt, " finished ", request.id)?;
        field(rt, " response ", request.response)?;
    }
    Ok(())
}

fn ran(rt: &impl Print, ticked: Ticked) -> io::Result<()> {
    occupant(rt, ticked.occupant)?;
    field(rt, " drops ", ticked.drops)?;
    finish(rt, ticked.finished)
}

pub fn ticked(rt: &impl Print, ticked: Result<Ticked, Refusal>, after: &State) -> io::Result<()> {
    answer(rt, "; tick ", &ticked)?;
    if let Ok(ticked) = ticked {
        ran(rt, ticked)?;
    }
    handed(rt, after)
}

pub fn entries(rt: &impl Print, entries: &[Entry]) -> io::Result<()> {
    field(rt, " entries ", digest_all(entries))
}

// Beside a refusal the work is 0.
pub fn waiting(rt: &impl Print, work: Result<u32, Refusal>) -> io::Result<()> {
    answer(rt, "; waiting ", &work)?;
    field(rt, " work ", work.unwrap_or(0))
}

// The field that a case changes, and the value that it puts there.
pub fn edit(rt: &impl Print, edit: Edit) -> io::Result<()> {
    let Edit {
        letter,
        slot,
        value,
    } = edit;
    print!(rt; " {letter} {slot} = {value}")
}
