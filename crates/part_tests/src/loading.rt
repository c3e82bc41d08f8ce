//! Which plans are rigged, and which are run by their scenario. Both come to the same verdict, so no contract makes a difference between them:
//! rigging is for speed, and only a test sees it.

use crate::one_step::OneStep;
use crate::scenarios::{plans as with_scenarios, scenarios};
use action_eval::FaultTable;
use plan_gen::{Census, PlanList, PlanSettings, plans};
use std::alloc::Global;
use std::process::Abort;
use std::test::Fail;
use target_trait::Target;

/// Whether the plan of this number is rigged over the points of the target with one step.
fn is_rigged(alloc: Global, plans: &PlanList<'_>, number: usize) -> Result<bool, Fail> {
    let mut table = FaultTable::new(alloc);
    let rigger = plans.rigger(OneStep::catalogue());
    let is_rigged = rigger.load(number, &mut table, &mut Vec::new(alloc))?;
    Ok(is_rigged)
}

/// The plans of two hits of the only point: that without faults, six of one hit, two of both, and a storm that takes each hit.
fn two_hit_plans(alloc: Global) -> Result<PlanList<'static>, Fail> {
    let census = Census {
        counts: Vec::from_slice(alloc, &[2])?,
    };
    let settings = PlanSettings {
        pairs: true,
        storms: 1,
        rate: 1000,
        listed: &[],
        seed: 7,
    };
    match plans(alloc, &census, OneStep::catalogue(), &settings) {
        Ok(plans) => Ok(plans),
        Err(_) => Err(Fail::from("no plans")),
    }
}

#[test]
fn plans_of_hits_and_storms_are_rigged(rt: HostRuntime) -> Result<(), Fail> {
    let plans = two_hit_plans(rt.alloc())?;
    assert_eq!(rt; plans.len(), 10);
    for number in 0..plans.len() {
        assert!(rt; is_rigged(rt.alloc(), &plans, number)?);
    }
    Ok(())
}

#[test]
fn a_listed_plan_is_run_by_its_scenario(rt: HostRuntime) -> Result<(), Fail> {
    let scenarios = scenarios(rt.alloc(), 1, &[0])?;
    let plans = with_scenarios(rt.alloc(), &scenarios)?;
    assert!(rt; is_rigged(rt.alloc(), &plans, 0)?);
    assert!(rt; !is_rigged(rt.alloc(), &plans, 1)?);
    Ok(())
}
