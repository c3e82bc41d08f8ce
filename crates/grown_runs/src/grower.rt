//! Runs of the plans of a part of a list, range by range, as a job of workers.
ghost use Rattle.std.specs.Prelude.{◌≡◌, ℕ, ◌+◌, ◌-◌, List, length};
ghost use Rattle.grown_plans.specs.GrownPlans.{usual_subject};
ghost use Rattle.grown_runs.specs.ranges.Ranges.{range_count, range_start};
ghost use Rattle.std.proofs.Props.{props};
ghost use Rattle.grown_runs.specs.inside.Beginnings.{AskLikeParents};
ghost use Rattle.grown_runs.specs.inside.Growths.{subject_on, IsGrowth};

use crate::growth::Workspace;
use crate::input::{GrownRunInput, Part};
use crate::kept::Growth;
use crate::ranges::{ended_of, range_bounds};
use action_eval::Rig;
use std::alloc::{AllocError, Global};
use std::collections::LinkedList;
use target_trait::Target;
use work_gate::Gate;
use worker_pool::Job;

/// What a grower's answers depend on. It is for contracts: no value of it is made.
pub struct Setup<T: Target> {
    pub target: T,
    pub workload: T::Workload,
    pub seed: u64,
    pub max_hits: u32,
    pub part: Part,
    pub first: usize,
    pub end: usize,
    pub plans: LinkedList<LinkedList<Rig>>,
}

/// A target, and the input whose plans it runs. Each run takes over the workspace from the run before. After each range the grower reports to the
/// gate what its plans came to.
#[derive(Drop)]
pub struct Grower<'a, T: Target, G: Gate> {
    pub gate: &'a G,
    pub target: T,
    pub input: &'a GrownRunInput<'a, T>,
    pub workspace: Workspace,
    pub alloc: Global,
    ghost alike: { AskLikeParents (subject_on T.Target target input.now) input.now.plans.now } by { Prim.hlevel props },
}

impl<'a, T: Target + Send, G: Gate> Job for Grower<'a, T, G>
where
    T::Workload: Sync,
{
    type Answer = Growth;

    type Setup = Setup<T>;

    ghost setup = { λ grower. record {
      target = grower.target;
      workload = grower.input.now.workload.now;
      seed = grower.input.now.limits.seed;
      max_hits = grower.input.now.limits.max_hits;
      part = grower.input.now.part;
      first = grower.input.now.first;
      end = grower.input.now.end;
      plans = grower.input.now.plans.now;
    } };

    ghost limit = { λ s. range_count (s.end - s.first) };

    ghost answers = { λ s range growth. IsGrowth (usual_subject (T.asks s.target s.workload) T.names s.max_hits) s.seed s.part s.plans
        (s.first + range_start (s.end - s.first) range) (range_start (s.end - s.first) (range + 1) - range_start (s.end - s.first) range) growth };

    ghost becomes = { λ _ _ _. Unit {0} };

    fn perform(&mut self, number: u32) -> Result<Growth, AllocError> {
        let input = self.input;
        let (first, end) = range_bounds((input.end - input.first) as u32, number);
        let growth = Growth::run_over(
            self.alloc,
            &mut self.target,
            &mut self.workspace,
            input,
            input.first + first as usize..input.first + end as usize,
        )?;
        if self.gate.is_watched() {
            let verdicts = growth.outcomes.verdicts.as_slice();
            self.gate
                .ended(ended_of(verdicts, growth.child_count as usize));
        }
        Ok(growth)
    }
}
