//! Runs of an input's plans, range by range, as a job of workers.
ghost use Rattle.std.specs.Prelude.{◌≡◌, ◌≤◌, ℕ, List, length};
ghost use Rattle.campaign_given.specs.Given.{verdict_on};
ghost use Rattle.result_book.specs.Runs.{run_on};
ghost use Rattle.campaign_core.specs.inside.Ranges.{range_limit, range_of};

use campaign_given::CampaignSettings;
use grown_runs::{ended_of, range_bounds};
use result_book::{PlanRange, RunInput, Workspace};
use scenario_values::Scenario;
use std::alloc::{AllocError, Global};
use std::collections::LinkedList;
use target_trait::Target;
use work_gate::Gate;
use worker_pool::Job;

/// What a runner's answers depend on. It is for contracts: no value of it is made.
pub struct Setup<T: Target> {
    pub target: T,
    pub workload: T::Workload,
    pub settings: CampaignSettings,
    pub plans: LinkedList<Scenario>,
    /// The points that are watched.
    pub watched: LinkedList<u32>,
    /// The number of the first plan that is run. The plans before it have their verdicts.
    pub first: u32,
}

/// A target, and the input whose plans it runs. Each run takes over the workspace from the run before. After each range the runner reports to the
/// gate what its plans came to.
#[derive(Drop)]
pub struct Runner<'a, 'g, T: Target, G: Gate> {
    pub gate: &'g G,
    pub target: T,
    pub input: &'a RunInput<'a, T>,
    /// The number of the first plan that is run.
    pub first: u32,
    pub workspace: Workspace,
    pub alloc: Global,
    ghost within: { first ≤ length input.now.plans.now },
}

impl<'a, 'g, T: Target + Send, G: Gate> Job for Runner<'a, 'g, T, G>
where
    T::Workload: Sync,
{
    type Answer = PlanRange<'a, T>;

    type Setup = Setup<T>;

    ghost setup = { λ runner. record {
      target = runner.target;
      workload = runner.input.now.workload.now;
      settings = runner.input.now.settings.now;
      plans = runner.input.now.plans.now;
      watched = runner.input.now.watched.now;
      first = runner.first;
    } };

    ghost limit = { λ setup. range_limit (length setup.plans) setup.first };

    ghost answers = { λ setup n range. range ≡ range_of
        (verdict_on (T.asks setup.target setup.workload) T.names setup.settings) (run_on (T.asks setup.target setup.workload) T.names setup.settings)
        setup.plans setup.watched setup.first n };

    ghost becomes = { λ _ _ _. Unit {0} };

    fn perform(&mut self, number: u32) -> Result<PlanRange<'a, T>, AllocError> {
        let count = self.input.plans.len() as u32 - self.first;
        let (begin, end) = range_bounds(count, number);
        let range = PlanRange::run_over(
            self.alloc,
            &mut self.target,
            &mut self.workspace,
            self.input,
            self.first + begin..self.first + end,
        )?;
        if self.gate.is_watched() {
            self.gate.ended(ended_of(range.verdicts(), 0));
        }
        Ok(range)
    }
}
