//! The scenarios of rigged hits, and of plans that grow.
ghost use Rattle.std.specs.Prelude.{◌≡◌, ◌<◌, ◌≤◌, ◌^◌, length, IfOk};
ghost use Rattle.std.specs.List.{AllByRecursion};
ghost use Rattle.action_eval.specs.Answers.{texts};
ghost use Rattle.action_eval.specs.Catalogue.{IsCatalogue};
ghost use Rattle.action_eval.specs.RiggedScenario.{rigged_scenario};
ghost use Rattle.grown_plans.specs.numbered.GrownScenarios.{grown_scenario};

use action_eval::{Rig, have_lawful_texts};
use grown_plans::rigs_of;
use plan_gen::scenario_of;
use scenario_values::Scenario;
use std::alloc::{AllocError, Global};

/// Whether the number of each rigged hit fits its type. It does.
fn fit(rigs: &[Rig]) -> bool
    ensures { AllByRecursion (λ r. r.site.hit < 2 ^ 32) rigs.now }
{
    rigs.iter().all(|rig| rig.site.hit <= u32::MAX)
}

/// The scenario of at most 64 rigged hits over the names of the points. An error means that memory was refused.
pub fn rigged_scenario(alloc: Global, points: &[&str], rigs: &[Rig]) -> Result<Scenario, AllocError>
    requires lawful { IsCatalogue (texts points.now) }
    requires few { length rigs.now ≤ 64 }
    ensures { IfOk result (λ scenario. scenario ≡ rigged_scenario (texts points.now) rigs.now) }
{
    let _ = fit(rigs);
    have_lawful_texts(rigs);
    scenario_of(alloc, points, rigs)
}

/// The scenario of a plan of at most 64 faults over the names of the points. The fault that acts last comes first in the list. An error means that
/// memory was refused.
pub fn plan_scenario(alloc: Global, points: &[&str], faults: &[Rig]) -> Result<Scenario, AllocError>
    requires lawful { IsCatalogue (texts points.now) }
    requires few { length faults.now ≤ 64 }
    ensures { IfOk result (λ scenario. scenario ≡ grown_scenario (texts points.now) faults.now) }
{
    let mut rigs = Vec::new(alloc);
    let mut ordered = Vec::new(alloc);
    rigs_of(&mut rigs, &mut ordered, faults)?;
    rigged_scenario(alloc, points, rigs.as_slice())
}
