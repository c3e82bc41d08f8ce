//! How a target's plans grow, and what is expected of that.
ghost use Rattle.std.specs.Prelude.{◌≤◌};

use grown_runs::{Conditions, Grown, Limits, grow};
use plan_gen::PlanFault;
use std::alloc::Global;
use std::process::Abort;
use std::sync::Wait;
use std::test::Fail;
use std::thread::Threads;
use target_trait::{Target, Verdict};
use work_gate::FreeGate;

/// What the plans of a depth come to, if they grow on this many workers and are at most this many.
pub fn grown_on<T: Target + Send, R: Threads + Wait + Sync>(
    rt: &R,
    alloc: Global,
    target: &T,
    workload: &T::Workload,
    limits: Limits,
) -> Result<Grown, PlanFault>
where
    T::Workload: Sync,
{
    grow(&Conditions {
        rt,
        alloc,
        gate: &FreeGate,
        target,
        workload,
        limits,
    })
}

/// A depth, with room for all plans.
pub fn to_depth(depth: u32, workers: u32) -> Limits
    requires { (depth ≤ 64) × (1 ≤ workers) }
{
    Limits {
        seed: 7,
        max_hits: 2000,
        depth,
        most_plans: 65536,
        workers,
    }
}

/// What is expected of plans that grew.
#[derive(Drop)]
pub struct Wanted<'a> {
    /// How many plans each level has.
    pub levels: &'a [u32],
    pub onward: u32,
    pub beyond: u64,
    /// The numbers of the causes, with their codes.
    pub causes: &'a [(u32, u32)],
}

/// They grew as expected, and there are as many plans and verdicts as that makes.
pub fn have_grown(rt: &impl Abort, grown: &Grown, wanted: &Wanted<'_>) {
    assert_eq!(rt; grown.list.levels.as_slice(), wanted.levels);
    assert_eq!(rt; grown.list.onward, wanted.onward);
    assert_eq!(rt; grown.list.beyond, wanted.beyond);
    assert_eq!(rt; grown.outcomes.causes.as_slice(), wanted.causes);
    let mut plans = wanted.onward as usize;
    for level in wanted.levels {
        plans = plans.saturating_add(*level as usize);
    }
    assert_eq!(rt; grown.list.plans.len(), plans);
    assert_eq!(rt; grown.outcomes.verdicts.len(), plans);
}

/// The number and the code of the first plan that fails with this code.
pub fn first_with(grown: &Grown, code: u32) -> Option<usize> {
    grown
        .outcomes
        .verdicts
        .as_slice()
        .iter()
        .position(|verdict| *verdict == Verdict::Fail(code))
}
