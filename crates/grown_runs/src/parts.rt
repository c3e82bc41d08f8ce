//! A part of a list, run on workers.
ghost use Rattle.std.specs.Prelude.{◌≡◌, ℕ, ◌-◌, ◌≤◌, ◌<◌, length, slice_index_or, [], All, IfOk};
ghost use Rattle.action_eval.specs.RiggedScenario.{CanBeRigged};
ghost use Rattle.grown_plans.specs.GrownPlans.{rigs_of};
ghost use Rattle.grown_runs.specs.Grown.{subject_in};
ghost use Rattle.grown_runs.specs.inside.Beginnings.{AskLikeParents};
ghost use Rattle.grown_runs.specs.inside.Growths.{subject_on, IsGrowth};

use crate::grower::Grower;
use crate::growth::Workspace;
use crate::input::{GrownRunInput, Limits, Part};
use crate::kept::Growth;
use crate::ranges::{RangeGate, range_count, ranges_in_order};
use grown_plans::{GrownPlans, Kinds};
use std::alloc::{AllocError, Global};
use std::sync::Wait;
use std::thread::Threads;
use target_trait::Target;
use work_gate::{Gate, Stage};

/// What plans are run with: the threads of the workers, the memory, the gate at which workers arrive, the target, of which twins are run, and the
/// workload of each run.
#[derive(Drop)]
pub struct Conditions<'a, T: Target, G: Gate, R: Threads + Wait + Sync> {
    pub rt: &'a R,
    pub alloc: Global,
    pub gate: &'a G,
    pub target: &'a T,
    pub workload: &'a T::Workload,
    pub limits: Limits,
}

/// So many jobs, each with a twin of the target. An error means that memory was refused.
fn growers<'a, T: Target + Send, G: Gate>(
    alloc: Global,
    gate: &'a G,
    target: &T,
    input: &'a GrownRunInput<'a, T>,
    workers: u32,
) -> Result<Vec<Grower<'a, T, G>>, AllocError>
where
    T::Workload: Sync,
    requires { AskLikeParents (subject_on T.Target target.now input.now) input.now.plans.now }
    ensures many { IfOk result (λ growers. length growers.items ≡ workers) }
    ensures same { IfOk result (λ growers. All (λ g. (g.target ≡ target.now) × (g.input.now ≡ input.now)) growers.items) }
{
    let mut all = Vec::new(alloc);
    for _ in 0..workers {
        let target = target.twin()?;
        all.push(Grower {
            gate,
            target,
            input,
            workspace: Workspace::new(alloc),
            alloc,
        })?;
    }
    Ok(all)
}

/// Runs the plans of a part of a list, from `first` on, with a thread for each worker but for those that would have no range to run, and names the
/// stage to the gate. The plans come to the same as with one thread. An error means that memory was refused.
pub fn run_part<T: Target + Send, G: Gate, R: Threads + Wait + Sync>(
    on: &Conditions<'_, T, G, R>,
    plans: &GrownPlans,
    part: Part,
    stage: Stage,
    first: usize,
) -> Result<Growth, AllocError>
where
    T::Workload: Sync,
    requires within { first ≤ length plans.now }
    requires few { length plans.now ≤ 65536 }
    requires rigs { (n : ℕ) → n < length plans.now → CanBeRigged (rigs_of (slice_index_or plans.now n [])) }
    requires alike { AskLikeParents (subject_in T.Target on.now) plans.now }
    ensures { IfOk result (λ growth. IsGrowth (subject_in T.Target on.now) on.now.limits.seed part plans.now first (length plans.now - first) growth) }
{
    let end = plans.len();
    let input = GrownRunInput {
        workload: on.workload,
        plans,
        kinds: Kinds::of(T::catalogue()),
        limits: on.limits,
        part,
        first,
        end,
    };
    let alloc = on.alloc;
    let count = (end - first) as u32;
    let workers = on.limits.workers.min(range_count(count)).max(1);
    let jobs = growers(alloc, on.gate, on.target, &input, workers)?;
    let gate = RangeGate {
        gate: on.gate,
        first: first as u32,
        plans: count,
    };
    on.gate.expect(stage, count);
    let ranges = ranges_in_order(on.rt, alloc, &gate, jobs)?;
    let mut whole = Growth::none(alloc, T::catalogue().len())?;
    for growth in ranges {
        whole.absorb(growth)?;
    }
    Ok(whole)
}
