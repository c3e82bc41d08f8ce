//! The lists into which plan after plan is rigged.
ghost use Rattle.std.specs.Prelude.{◌≡◌, ◌<◌, [], length, slice_index_or, OnOk};
ghost use Rattle.grown_plans.specs.GrownPlans.{rigs_of};

use crate::{GrownPlans, rigs_of};
use action_eval::Rig;
use std::alloc::{AllocError, Global};

/// The lists into which the rigged hits of plans are put, one plan after another. What stood there before makes no difference.
#[derive(Debug, Drop)]
pub struct RigLists {
    /// The hits that are rigged.
    pub rigs: Vec<Rig>,
    /// The faults of a plan that grew, the last one to act first.
    pub faults: Vec<Rig>,
    /// The same faults in the order of points, and of the hits of each.
    pub ordered: Vec<Rig>,
}

impl RigLists {
    /// Lists that have taken no memory yet.
    pub fn new(alloc: Global) -> Self
        ensures rigs { result.rigs.items ≡ [] }
        ensures faults { result.faults.items ≡ [] }
        ensures ordered { result.ordered.items ≡ [] }
    {
        RigLists {
            rigs: Vec::new(alloc),
            faults: Vec::new(alloc),
            ordered: Vec::new(alloc),
        }
    }

    /// Puts the faults of the plan of this number and its rigged hits into their lists. An error means that memory was refused.
    pub fn put(&mut self, plans: &GrownPlans, number: usize) -> Result<(), AllocError>
        requires { number < length plans.now }
        ensures rigs { OnOk result (self.new.rigs.items ≡ rigs_of (slice_index_or plans.now number [])) }
        ensures faults { OnOk result (self.new.faults.items ≡ slice_index_or plans.now number []) }
    {
        plans.faults_of(number, &mut self.faults)?;
        rigs_of(&mut self.rigs, &mut self.ordered, self.faults.as_slice())
    }
}
