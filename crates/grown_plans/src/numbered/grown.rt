//! Plans that grew, over the points of a catalogue.
ghost use Rattle.std.specs.Prelude.{◌≡◌, ◌<◌, true, [], length, slice_index_or, IfOk, OnOk};
ghost use Rattle.std.specs.List.{AllByRecursion};
ghost use Rattle.action_eval.specs.Answers.{texts};
ghost use Rattle.action_eval.specs.Catalogue.{IsCatalogue};
ghost use Rattle.action_eval.specs.RiggedScenario.{CanBeRigged, rigged_as};
ghost use Rattle.grown_plans.specs.GrownPlans.{rigs_of};
ghost use Rattle.grown_plans.specs.numbered.GrownScenarios.{grown_scenario};
ghost use Rattle.grown_plans.specs.numbered.inside.Parts.{over};

use crate::GrownPlans;
use crate::numbered::lists::RigLists;
use action_eval::FaultTable;
use plan_gen::{have_same_names, scenario_of};
use scenario_values::Scenario;
use std::alloc::{AllocError, Global};
use std::marker::Model;

/// Plans that grew, each of which can be rigged, and the catalogue of the points of their faults.
#[derive(Debug, Drop)]
pub struct GrownPart<'a> {
    plans: &'a GrownPlans,
    catalogue: &'a [&'a str],
}

impl<'a> Model for GrownPart<'a> {
    ghost use Rattle.std.specs.List.{AllByRecursion};
    ghost use Rattle.action_eval.specs.Answers.{texts};
    ghost use Rattle.action_eval.specs.Catalogue.{IsCatalogue};
    ghost use Rattle.action_eval.specs.RiggedScenario.{CanBeRigged};
    ghost use Rattle.grown_plans.specs.GrownPlans.{rigs_of};
    ghost use Rattle.grown_plans.specs.numbered.inside.Parts.{Over};

    ghost Value = { Over };

    ghost view = { λ g. record { names = texts g.catalogue.now; plans = g.plans.now } };

    ghost invariant = { λ g. IsCatalogue (texts g.catalogue.now) × AllByRecursion (λ plan. CanBeRigged (rigs_of plan)) g.plans.now };
}

impl<'a> GrownPart<'a> {
    /// These plans, over this catalogue, whose points those of their faults are.
    pub fn new(plans: &'a GrownPlans, catalogue: &'a [&'a str]) -> Self
        requires lawful { IsCatalogue (texts catalogue.now) }
        requires rigs { AllByRecursion (λ plan. CanBeRigged (rigs_of plan)) plans.now }
        ensures { result ≡ over (texts catalogue.now) plans.now }
    {
        GrownPart { plans, catalogue }
    }

    /// How many plans there are.
    pub fn len(&self) -> usize
        ensures { result ≡ length self.now.plans }
    {
        self.plans.len()
    }

    /// Whether a catalogue has the names of the points.
    pub fn is_over(&self, catalogue: &[&str]) -> bool
        ensures { result ≡ true → self.now.names ≡ texts catalogue.now }
    {
        have_same_names(self.catalogue, catalogue)
    }

    /// Rigs the hits of the plan of this number over a catalogue of the same names. An error means that memory was refused.
    pub fn load<'c>(
        &self,
        number: usize,
        table: &mut FaultTable<'c>,
        lists: &mut RigLists,
        catalogue: &'c [&'c str],
    ) -> Result<(), AllocError>
        requires within { number < length self.now.plans }
        requires names { self.now.names ≡ texts catalogue.now }
        ensures { OnOk result (table.new ≡ rigged_as self.now.names (grown_scenario self.now.names (slice_index_or self.now.plans number []))) }
    {
        lists.put(self.plans, number)?;
        table.load(catalogue, lists.rigs.as_slice())
    }

    /// Makes the scenario of the plan of this number. An error means that memory was refused.
    pub fn scenario(&self, alloc: Global, number: usize) -> Result<Scenario, AllocError>
        requires { number < length self.now.plans }
        ensures { IfOk result (λ scenario. scenario ≡ grown_scenario self.now.names (slice_index_or self.now.plans number [])) }
    {
        let mut lists = RigLists::new(alloc);
        lists.put(self.plans, number)?;
        scenario_of(alloc, self.catalogue, lists.rigs.as_slice())
    }
}
