//! Plans of a list, rigged over the points of a target.
ghost use Rattle.std.specs.Prelude.{◌≡◌, true, [], slice_index_or, IfOk};
ghost use Rattle.action_eval.specs.Answers.{texts};
ghost use Rattle.action_eval.specs.RiggedScenario.{rigged_as};
ghost use Rattle.plan_gen.specs.inside.Drawn.{plans_of};

use crate::drawing::{Drawing, Source};
use action_eval::{FaultTable, Rig};
use scenario_values::Scenario;
use std::alloc::AllocError;
use std::marker::Model;

/// Rigs the plans of a list over the points of a catalogue. It compares the catalogue's names with the list's own once, for all plans. Contracts see
/// the plans, and the names of the points.
#[derive(Debug, Drop)]
pub struct Rigger<'a, 'c> {
    drawing: &'a Drawing<'a>,
    sources: &'a [Source],
    listed: &'a [Scenario],
    catalogue: &'c [&'c str],
    is_same: bool,
}

impl<'a, 'c> Model for Rigger<'a, 'c> {
    ghost use Rattle.std.specs.Prelude.{◌≡◌, true};
    ghost use Rattle.action_eval.specs.Answers.{texts};
    ghost use Rattle.plan_gen.specs.Rigs.{Rigs};
    ghost use Rattle.plan_gen.specs.inside.Drawn.{plans_of};

    ghost Value = { Rigs };

    ghost view = { λ r. record {
      plans = plans_of r.drawing.now r.sources.now r.listed.now;
      names = texts r.catalogue.now;
    } };

    ghost invariant = { λ r. r.is_same ≡ true → r.drawing.now.names ≡ texts r.catalogue.now };
}

impl<'a, 'c> Rigger<'a, 'c> {
    /// Rigs the plans of these parts of a list.
    pub(crate) fn new(
        drawing: &'a Drawing<'a>,
        sources: &'a [Source],
        listed: &'a [Scenario],
        catalogue: &'c [&'c str],
    ) -> Self
        ensures plans { result.plans ≡ plans_of drawing.now sources.now listed.now }
        ensures names { result.names ≡ texts catalogue.now }
    {
        Rigger {
            drawing,
            sources,
            listed,
            catalogue,
            is_same: drawing.is_over(catalogue),
        }
    }

    /// Rigs the hits of the plan with this number, and returns true. It returns false, and rigs nothing, if the plan is a listed scenario or the list
    /// is over another catalogue's points: use `Plan::scenario` then, which serves each plan.
    ///
    /// The hits of a storm are drawn into the list `rigs`, in place of what stood there. The list and the fault table serve plan after plan. An error
    /// means that memory was refused.
    pub fn load(
        &self,
        number: usize,
        table: &mut FaultTable<'c>,
        rigs: &mut Vec<Rig>,
    ) -> Result<bool, AllocError>
        ensures { IfOk result (λ is_loaded. is_loaded ≡ true → table.new ≡ rigged_as self.now.names (slice_index_or self.now.plans number [])) }
    {
        match self.sources.get(number) {
            Some(source) if self.is_same => {
                self.drawing.load(*source, table, rigs, self.catalogue)?;
                Ok(true)
            }
            _ => Ok(false),
        }
    }
}
