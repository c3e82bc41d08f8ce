//! Whether a target keeps its promise under each single fault.
ghost use Rattle.std.specs.Prelude.{◌≡◌, ◌<◌, length, IfOk, IsErrOf};
ghost use Rattle.plan_gen.specs.PlanList.{most_plans};
ghost use Rattle.target_checks.specs.Singles.{first_failing, passes, single_faults};

use crate::outcomes::SEED;
use plan_gen::{PlanFault, PlanList, PlanSettings, by_census, plans};
use scenario_values::Scenario;
use std::alloc::{AllocError, Global};
use target_trait::{Case, Target, Verdict, run_verdict};

// How many hits of a run are answered.
const MAX_HITS: u32 = 1000;

// Whether the target passes under a scenario.
fn passes<T: Target>(
    alloc: Global,
    target: &mut T,
    workload: &T::Workload,
    scenario: &Scenario,
) -> Result<bool, AllocError>
    ensures ok { IfOk result (λ yes. yes ≡ passes (T.asks target.old workload.now) T.names scenario.now) }
    ensures setup { target.new ≡ target.old }
{
    let case = Case {
        scenario,
        seed: SEED,
        stream: 0,
        max_hits: MAX_HITS,
    };
    let verdict = run_verdict(alloc, target, workload, &case)?;
    Ok(matches!(verdict, Verdict::Pass))
}

// The first plan under which the target doesn't pass.
fn first_of<T: Target>(
    alloc: Global,
    target: &mut T,
    workload: &T::Workload,
    plans: &PlanList<'_>,
) -> Result<Option<Scenario>, AllocError>
    ensures ok { IfOk result (λ found. found ≡ first_failing (T.asks target.old workload.now) T.names plans.now) }
    ensures setup { target.new ≡ target.old }
{
    for number in 0..plans.len() {
        let scenario = plans.plan(number).scenario(alloc)?;
        if !passes(alloc, target, workload, &scenario)? {
            return Ok(Some(scenario));
        }
    }
    Ok(None)
}

/// The first scenario under which a target doesn't pass: the one without faults, or one with a single fault, by which a hit of the run without faults
/// fails, or it and all later hits of its point do, or the run halts there. `None` if the target passes under all of them.
///
/// Runs have seed 7 and stream number 0, and at most 1000 of their hits are answered: a run that asks on is unresolved, and does not pass.
///
/// # Errors
///
/// There are more than 65536 such scenarios (then only the one without faults was run), or memory was refused. The target keeps its setup.
pub fn first_failure<T: Target>(
    alloc: Global,
    target: &mut T,
    workload: &T::Workload,
) -> Result<Option<Scenario>, PlanFault>
    ensures ok { IfOk result (λ found. found ≡ first_failing (T.asks target.old workload.now) T.names
        (single_faults (T.asks target.old workload.now) T.names)) }
    ensures many { IsErrOf result PlanFault.TooManyPlans → most_plans < length (single_faults (T.asks target.old workload.now) T.names) }
    ensures setup { target.new ≡ target.old }
{
    let settings = PlanSettings {
        pairs: false,
        storms: 0,
        rate: 0,
        listed: &[],
        seed: SEED,
    };
    let Ok(census) = by_census(alloc, target, workload, SEED, MAX_HITS) else {
        return Err(PlanFault::Memory);
    };
    let plans = match plans(alloc, &census, T::catalogue(), &settings) {
        Ok(plans) => plans,
        Err(fault) => return Err(fault),
    };
    match first_of(alloc, target, workload, &plans) {
        Ok(found) => Ok(found),
        Err(_) => Err(PlanFault::Memory),
    }
}
