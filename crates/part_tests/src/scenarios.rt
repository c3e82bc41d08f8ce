//! Scenarios of tests, and the plans of them.
ghost use Rattle.std.specs.Prelude.{◌≡◌, [], ◌∷◌, codes, None};

use crate::one_step::OneStep;
use plan_gen::{Census, PlanList, PlanSettings};
use scenario_values::{Scenario, Task, Term, build};
use std::alloc::{AllocError, Global};
use std::test::Fail;
use target_trait::Target;

/// The scenario without entries.
#[tactic(auto, unfolding(scenario_values::specs::Printed::printed))]
fn nothing(alloc: Global) -> Result<Scenario, AllocError> {
    build(alloc, &[])
}

/// The scenario that refuses the step.
fn refusing(alloc: Global) -> Result<Scenario, AllocError> {
    let term = Term {
        share: 1_000_000,
        count: None,
        task: Task::Return(None),
    };
    build(alloc, &[("one::step", &[term])])
}

/// This many scenarios; those of the numbers listed refuse the step, and the others do nothing.
pub fn scenarios(alloc: Global, count: u32, refused: &[u32]) -> Result<Vec<Scenario>, AllocError> {
    let mut all = Vec::new(alloc);
    for number in 0..count {
        let scenario = if refused.contains(&number) {
            refusing(alloc)?
        } else {
            nothing(alloc)?
        };
        all.push(scenario)?;
    }
    Ok(all)
}

/// The plan without faults, and then one of each scenario.
pub fn plans<'a>(alloc: Global, scenarios: &'a [Scenario]) -> Result<PlanList<'a>, Fail> {
    let census = Census {
        counts: Vec::from_slice(alloc, &[0])?,
    };
    let settings = PlanSettings {
        pairs: false,
        storms: 0,
        rate: 0,
        listed: scenarios,
        seed: 7,
    };
    match plan_gen::plans(alloc, &census, OneStep::catalogue(), &settings) {
        Ok(plans) => Ok(plans),
        Err(_) => Err(Fail::from("no plans")),
    }
}
