//! Plans, and the settings of their list.
ghost use Rattle.std.specs.Prelude.{◌≡◌, ◌<◌, length, IfOk};

use crate::list::PlanList;
use scenario_values::Scenario;
use std::alloc::{AllocError, Global};
use std::marker::Model;

/// A plan of a list: a scenario under which a component is run. Contracts see the scenario.
#[derive(Debug, Drop)]
pub struct Plan<'a> {
    pub(crate) list: &'a PlanList<'a>,
    pub(crate) number: usize,
}

impl<'a> Model for Plan<'a> {
    ghost use Rattle.std.specs.Prelude.{[], ◌<◌, length, slice_index_or};
    ghost use Rattle.scenario_values.specs.Scenario.{Entries};

    ghost Value = { Entries };

    ghost view = { λ p. slice_index_or p.list.now p.number [] };

    ghost invariant = { λ p. p.number < length p.list.now };
}

impl<'a> Plan<'a> {
    /// Makes the plan's scenario. An error means that memory was refused.
    pub fn scenario(&self, alloc: Global) -> Result<Scenario, AllocError>
        ensures { IfOk result (λ scenario. scenario ≡ self.now) }
    {
        self.list.scenario(alloc, self.number)
    }
}

/// The settings of a list of plans.
#[derive(Debug, Drop)]
pub struct PlanSettings<'a> {
    /// Whether each two sites make two plans: in one both fail once; in the other the first fails once, and at the second the component stops.
    pub pairs: bool,
    /// How many storms there are.
    pub storms: u32,
    /// A storm takes a site if the site's random word modulo 1000 is below this; from 1000 on it takes each site, up to 64.
    pub rate: u32,
    /// The listed scenarios, each of which makes a plan.
    pub listed: &'a [Scenario],
    /// The seed of the storms' random words.
    pub seed: u64,
}

impl<'a> Model for PlanSettings<'a> {
    ghost use Rattle.plan_gen.specs.PlanList.{Asked};

    ghost Value = { Asked };

    ghost view = { λ s. record {
      pairs = s.pairs;
      storms = s.storms;
      rate = s.rate;
      listed = s.listed.now;
      seed = s.seed;
    } };
}
