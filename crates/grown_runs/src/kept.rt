//! What is kept of runs.
ghost use Rattle.std.specs.Prelude.{◌*◌, ◌≤◌, ◌^◌, length};

use crate::outcomes::Outcomes;
use grown_plans::Child;

/// What plans that were run one after another came to.
#[derive(Drop)]
pub struct Growth {
    /// What their runs came to.
    pub outcomes: Outcomes,
    /// The children of a level that isn't the last one, in the order of the plans and of the hits of each.
    pub children: Vec<Child>,
    /// How many children the plans have.
    pub child_count: u64,
    /// The plans of the last level with their last fault sticky, if that makes another run.
    pub onward: Vec<Child>,
    ghost bounded: { child_count ≤ length outcomes.verdicts.items * 2 ^ 33 },
}
