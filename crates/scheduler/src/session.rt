// Calls on one state, one after the other.
ghost use Rattle.std.specs.Prelude.{◌≡◌};
ghost use Rattle.table.specs.Refusal.{figures};
ghost use Rattle.rules.specs.Calls.{request_call, tick_call};
ghost use Rattle.rules.specs.Figures.{request_figures, answer_figures, tick_figures};

use crate::{fit_request, fit_tick, know_sizes};
use rules::Ticked;
use std::marker::Model;
use table::{Refusal, State};

// A state that ticks and requests move one after the other: its fitness is looked at once, and the tasks' times only where the calm ends.
#[derive(Drop)]
pub struct Session {
    state: State,
    fit: bool,
    // No release and no deadline falls in the ticks before this one.
    calm: u32,
}

impl Model for Session {
    ghost use Rattle.table.specs.declared.State.{State};

    ghost Value = { State };

    ghost use Rattle.scheduler.specs.Known.{Known};

    ghost view = { λ a. a.state };

    ghost invariant = { λ a. Known a.state a.fit a.calm };
}

impl Session {
    // The session takes the state over: it is moved in once, and no call copies it.
    pub fn new(state: State) -> Session
        ensures { result ≡ state }
    {
        know_sizes(&state);
        let fit = state.fit();
        Session {
            state,
            fit,
            calm: 0,
        }
    }

    // The session's state, handed back.
    pub fn into_state(self) -> State
        ensures { result ≡ self }
    {
        self.state
    }

    // The tick call.
    pub fn tick(&mut self) -> Result<Ticked, Refusal>
        ensures answer { result ≡ (tick_call self.old).answer }
        ensures next { self.new ≡ (tick_call self.old).state }
        ensures in_figures { answer_figures result ≡ tick_figures self.old }
    {
        if !self.fit {
            return Err(Refusal::UnfitState);
        }
        fit_tick(&mut self.state, &mut self.calm)
    }

    // The request call.
    pub fn request(&mut self, id: u32, work: u32) -> Result<(), Refusal>
        ensures answer { result ≡ (request_call self.old id work).answer }
        ensures next { self.new ≡ (request_call self.old id work).state }
        ensures in_figures { figures result ≡ request_figures self.old work }
    {
        if !self.fit {
            return Err(Refusal::UnfitState);
        }
        fit_request(&mut self.state, id, work)
    }
}
