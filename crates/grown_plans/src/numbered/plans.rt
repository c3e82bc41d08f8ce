//! The plans of a campaign, by their numbers.
ghost use Rattle.std.specs.Prelude.{◌≡◌, ◌<◌, ◌≤◌, ◌+◌, ◌++◌, [], length, slice_index_or, option_copied, IfOk};
ghost use Rattle.std.specs.List.{AllByRecursion};
ghost use Rattle.action_eval.specs.Answers.{texts};
ghost use Rattle.action_eval.specs.Catalogue.{IsCatalogue};
ghost use Rattle.action_eval.specs.RiggedScenario.{CanBeRigged};
ghost use Rattle.plan_gen.specs.PlanList.{most_plans};
ghost use Rattle.grown_plans.specs.GrownPlans.{rigs_of};
ghost use Rattle.grown_plans.specs.numbered.GrownScenarios.{grown_among, grown_scenarios};

use crate::GrownPlans;
use crate::numbered::grown::GrownPart;
use crate::numbered::rigger::CampaignRigger;
use plan_gen::PlanList;
use scenario_values::Scenario;
use std::alloc::{AllocError, Global};
use std::marker::Model;

/// The plans of a campaign, at most 65536: those of a list that a census gives, or those that grew, with the plans of a list behind them. A plan's
/// number is its place, from 0. Contracts see the list of their scenarios.
///
/// It borrows the lists of the plans. A plan's scenario is made when it is asked for.
#[derive(Debug, Drop)]
pub struct CampaignPlans<'a> {
    grown_part: Option<GrownPart<'a>>,
    listed: &'a PlanList<'a>,
}

impl<'a> Model for CampaignPlans<'a> {
    ghost use Rattle.std.specs.Prelude.{◌≤◌, ◌++◌, List, length};
    ghost use Rattle.scenario_values.specs.Scenario.{Entries};
    ghost use Rattle.plan_gen.specs.PlanList.{most_plans};
    ghost use Rattle.grown_plans.specs.numbered.inside.Parts.{first_part};

    ghost Value = { List Entries };

    ghost view = { λ p. first_part p.grown_part ++ p.listed.now };

    ghost invariant = { λ p. length (first_part p.grown_part ++ p.listed.now) ≤ most_plans };
}

impl<'a> CampaignPlans<'a> {
    /// The plans of a list, and no others.
    pub fn by_census(plans: &'a PlanList<'a>) -> Self
        ensures { result ≡ plans.now }
    {
        // Called for its contract: there are few.
        let _ = plans.len();
        CampaignPlans {
            grown_part: None,
            listed: plans,
        }
    }

    /// The plans that grew over the points of a catalogue, if any grew, and behind them those of a list: at most 65536 together. Plans that grew to a
    /// depth of at most 64 can be rigged, as `crate::each_plan_can_be_rigged` says.
    pub fn grown(
        plans: Option<&'a GrownPlans>,
        catalogue: &'a [&'a str],
        further: &'a PlanList<'a>,
    ) -> Self
        requires lawful { IsCatalogue (texts catalogue.now) }
        requires rigs { AllByRecursion (λ plan. CanBeRigged (rigs_of plan)) (grown_among (option_copied plans)) }
        requires few { length (grown_among (option_copied plans)) + length further.now ≤ most_plans }
        ensures { result ≡ grown_scenarios (texts catalogue.now) (grown_among (option_copied plans.entry)) ++ further.now }
    {
        let grown_part = match plans {
            Some(plans) => Some(GrownPart::new(plans, catalogue)),
            None => None,
        };
        CampaignPlans {
            grown_part,
            listed: further,
        }
    }

    /// How many plans there are.
    pub fn len(&self) -> usize
        ensures many { result ≡ length self.now }
        ensures few { result ≤ most_plans }
    {
        match &self.grown_part {
            Some(grown) => grown.len() + self.listed.len(),
            None => self.listed.len(),
        }
    }

    /// The plan of this number.
    pub fn plan(&self, number: usize) -> CampaignPlan<'_>
        requires { number < length self.now }
        ensures { result ≡ slice_index_or self.now number [] }
    {
        CampaignPlan {
            plans: self,
            number,
        }
    }

    /// Makes the scenario of the plan of this number. An error means that memory was refused.
    fn scenario(&self, alloc: Global, number: usize) -> Result<Scenario, AllocError>
        requires { number < length self.now }
        ensures { IfOk result (λ scenario. scenario ≡ slice_index_or self.now number []) }
    {
        let Some(grown) = &self.grown_part else {
            return self.listed.plan(number).scenario(alloc);
        };
        let many = grown.len();
        if number < many {
            return grown.scenario(alloc, number);
        }
        self.listed.plan(number - many).scenario(alloc)
    }

    /// What rigs these plans over the points of a catalogue.
    pub fn rigger<'c>(&self, catalogue: &'c [&'c str]) -> CampaignRigger<'_, 'c>
        ensures plans { result.plans ≡ self.now }
        ensures names { result.names ≡ texts catalogue.now }
    {
        CampaignRigger::new(self.grown_part.as_ref(), self.listed, catalogue)
    }
}

/// A plan of a campaign: a scenario under which a component is run. Contracts see the scenario.
#[derive(Debug, Drop)]
pub struct CampaignPlan<'a> {
    plans: &'a CampaignPlans<'a>,
    number: usize,
}

impl<'a> Model for CampaignPlan<'a> {
    ghost use Rattle.std.specs.Prelude.{[], ◌<◌, length, slice_index_or};
    ghost use Rattle.scenario_values.specs.Scenario.{Entries};

    ghost Value = { Entries };

    ghost view = { λ p. slice_index_or p.plans.now p.number [] };

    ghost invariant = { λ p. p.number < length p.plans.now };
}

impl<'a> CampaignPlan<'a> {
    /// Makes the plan's scenario. An error means that memory was refused.
    pub fn scenario(&self, alloc: Global) -> Result<Scenario, AllocError>
        ensures { IfOk result (λ scenario. scenario ≡ self.now) }
    {
        self.plans.scenario(alloc, self.number)
    }
}
