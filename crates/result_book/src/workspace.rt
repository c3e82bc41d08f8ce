//! What serves plan after plan.
ghost use Rattle.std.specs.Prelude.{◌≡◌, []};
ghost use Rattle.action_eval.specs.RiggedScenario.{rigged_as};

use grown_plans::RigLists;
use std::alloc::Global;
use target_trait::RiggedRuns;

/// What a worker's plans are run in, one after another, so that they needn't take memory of their own. What it holds before a plan makes no
/// difference to the plan.
#[derive(Drop)]
pub struct Workspace {
    /// The table of the next plan's rigged hits, and the memory of its run.
    pub runs: RiggedRuns,
    /// The lists into which a plan's rigged hits are put, and the faults of a plan that grew.
    pub lists: RigLists,
}

impl Workspace {
    /// A workspace that has taken no memory yet.
    pub fn new(alloc: Global) -> Self
        ensures table { result.runs.table ≡ rigged_as [] [] }
        ensures buffers { result.runs.buffers ≡ [] }
        ensures rigs { result.lists.rigs.items ≡ [] }
        ensures faults { result.lists.faults.items ≡ [] }
        ensures ordered { result.lists.ordered.items ≡ [] }
    {
        Workspace {
            runs: RiggedRuns::new(alloc),
            lists: RigLists::new(alloc),
        }
    }
}
