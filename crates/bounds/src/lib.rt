// The time demand and the bounds that it gives, as definitions with their laws; no code but the type of the answer. The code that computes
// them is the crate `admission`.
#![tactic(auto)]

use table::Table;

// What admission says of a table that passes. bounds and serverbound are 0 where there is no bound; slots past the tasks in use are 0. The default
// has no bounds and does not admit. 0 and no Option, in an array beside the tasks: C and the B lines have these numbers.
#[derive(Debug, Clone, Copy, PartialEq, Eq, Default)]
pub struct Admission {
    pub bounds: [u32; Table::MAX_TASKS as usize],
    pub serverbound: u32,
    pub admitted: bool,
}
