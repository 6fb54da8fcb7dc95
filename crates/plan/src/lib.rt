// Plans: what a line of a plan's text says, whether a whole text is a plan, and the reader of its A lines.
#![tactic(auto)]

mod line;
mod reader;
mod reading;
mod refusal;

pub use line::{Arrival, Line, MAX_TICKS, parse};
pub use reader::{Reader, first_arrival};
pub use reading::{MAX_BYTES, Plan, check};
pub use refusal::{PlanRefusal, Rejection};
