//! Plans of a campaign, rigged over the points of a target.
ghost use Rattle.std.specs.Prelude.{◌≡◌, ◌++◌, true, [], slice_index_or, IfOk, option_copied};
ghost use Rattle.action_eval.specs.Answers.{texts};
ghost use Rattle.action_eval.specs.RiggedScenario.{rigged_as};
ghost use Rattle.grown_plans.specs.numbered.inside.Parts.{first_part};

use crate::numbered::grown::GrownPart;
use crate::numbered::lists::RigLists;
use action_eval::FaultTable;
use plan_gen::{PlanList, Rigger};
use std::alloc::AllocError;
use std::marker::Model;

/// Rigs the plans of a campaign over the points of a catalogue. It compares the catalogue's names with the plans' own once, for all plans. Contracts
/// see the plans, and the names of the points.
#[derive(Debug, Drop)]
pub struct CampaignRigger<'a, 'c> {
    grown_part: Option<&'a GrownPart<'a>>,
    listed: Rigger<'a, 'c>,
    catalogue: &'c [&'c str],
    /// Whether the plans that grew are of the points of this catalogue.
    is_same: bool,
}

impl<'a, 'c> Model for CampaignRigger<'a, 'c> {
    ghost use Rattle.std.specs.Prelude.{◌≡◌, ◌++◌, true, option_copied};
    ghost use Rattle.action_eval.specs.Answers.{texts};
    ghost use Rattle.plan_gen.specs.Rigs.{Rigs};
    ghost use Rattle.grown_plans.specs.numbered.inside.Parts.{first_part, AreOver};

    ghost Value = { Rigs };

    ghost view = { λ r. record {
      plans = first_part (option_copied r.grown_part) ++ r.listed.plans;
      names = texts r.catalogue.now;
    } };

    ghost invariant = { λ r. (r.listed.names ≡ texts r.catalogue.now)
        × (r.is_same ≡ true → AreOver (texts r.catalogue.now) (option_copied r.grown_part)) };
}

impl<'a, 'c> CampaignRigger<'a, 'c> {
    /// Rigs the plans that grew, if there are any, and those of a list behind them.
    pub(crate) fn new(
        grown_part: Option<&'a GrownPart<'a>>,
        listed: &'a PlanList<'a>,
        catalogue: &'c [&'c str],
    ) -> Self
        ensures plans { result.plans ≡ first_part (option_copied grown_part.entry) ++ listed.now }
        ensures names { result.names ≡ texts catalogue.now }
    {
        let is_same = match grown_part {
            Some(grown) => grown.is_over(catalogue),
            None => false,
        };
        CampaignRigger {
            grown_part,
            listed: listed.rigger(catalogue),
            catalogue,
            is_same,
        }
    }

    /// Rigs the hits of the plan with this number, and returns true. It returns false, and rigs nothing, if the plan is a listed scenario or the
    /// plans are over another catalogue's points: use `CampaignPlan::scenario` then, which serves each plan.
    ///
    /// The plan's hits are put into the lists, in place of what stood there. The lists and the fault table serve plan after plan. An error means that
    /// memory was refused.
    pub fn load(
        &self,
        number: usize,
        table: &mut FaultTable<'c>,
        lists: &mut RigLists,
    ) -> Result<bool, AllocError>
        ensures { IfOk result (λ is_loaded. is_loaded ≡ true → table.new ≡ rigged_as self.now.names (slice_index_or self.now.plans number [])) }
    {
        let Some(grown) = self.grown_part else {
            return self.listed.load(number, table, &mut lists.rigs);
        };
        let many = grown.len();
        if number >= many {
            return self.listed.load(number - many, table, &mut lists.rigs);
        }
        if !self.is_same {
            return Ok(false);
        }
        grown.load(number, table, lists, self.catalogue)?;
        Ok(true)
    }
}
