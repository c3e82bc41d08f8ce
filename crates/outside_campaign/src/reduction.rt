//! Reductions by what is known.
ghost use Rattle.std.specs.Prelude.{◌≡◌, IfOk, OnOk};
ghost use Rattle.scenario_values.specs.Scenario.{all_faults};
ghost use Rattle.outside_campaign.specs.Reached.{IsReached};
ghost use Rattle.outside_campaign.specs.inside.Tests.{IsTested, IsSettled, IsEnded};

use crate::table::VerdictTable;
use campaign_core::{fails_with, fault_count};
use ddmin_parallel::{Core, Reduction, TestRequest};
use scenario_values::{Scenario, are_faults, keep, tidy};
use std::alloc::{AllocError, Global};

/// How far a reduction comes by what is known.
#[derive(Drop)]
pub enum Reached {
    /// To its end.
    Reduced(Reduction),
    /// To a round that isn't decided yet: all candidates that it waits for, as tidied scenarios; at least one. Two of them may be equal.
    Open(Vec<Scenario>),
}

/// What is known of the test of a set of faults.
#[derive(Drop)]
enum Test {
    /// Whether the scenario with these faults alone fails with the code.
    Told(bool),
    /// The scenario, tidied, isn't answered.
    Untold(Scenario),
}

/// What is known of the scenario with these faults alone. A list that isn't faults of the scenario in ascending order doesn't fail.
fn look_up<K: VerdictTable>(
    alloc: Global,
    known: &K,
    scenario: &Scenario,
    faults: u32,
    code: u32,
    set: &[u32],
) -> Result<Test, AllocError>
    requires { faults ≡ all_faults scenario.now }
    ensures { IfOk result (IsTested (K.verdicts known.now) code scenario.now set.now) }
{
    let _ = scenario.entries();
    if !are_faults(faults, set) {
        return Ok(Test::Told(false));
    }
    let kept = keep(alloc, scenario, set)?;
    match known.look_up(alloc, &kept)? {
        Some(verdict) => Ok(Test::Told(fails_with(code, verdict))),
        None => Ok(Test::Untold(tidy(alloc, &kept)?)),
    }
}

/// Gives the core the answer to a request, or adds its scenario to those that are to be tried, if the answer isn't known.
fn settle(
    alloc: Global,
    core: &mut Core,
    untried: &mut Vec<Scenario>,
    request: TestRequest,
    test: Test,
) -> Result<(), AllocError>
    ensures { OnOk result (IsSettled core.old core.new untried.old.items untried.new.items request test) }
{
    match test {
        Test::Told(fails) => match core.put(alloc, request, fails) {
            Ok(()) => Ok(()),
            Err(_) => Err(AllocError),
        },
        Test::Untold(tidied) => {
            untried.push(tidied)?;
            Ok(())
        }
    }
}

/// What a core has come to that hands out no further request.
fn ended(alloc: Global, core: &Core, untried: Vec<Scenario>) -> Result<Reached, AllocError>
    ensures { IfOk result (IsEnded core.now untried.items) }
{
    match core.finished() {
        Some(reduction) => Ok(Reached::Reduced(reduction.copied(alloc)?)),
        None => Ok(Reached::Open(untried)),
    }
}

/// Reduces a scenario that fails with this code, as far as what is known decides: to its end, which is that of each component that agrees with what
/// is known, or to scenarios that are still to be tried.
///
/// Each answer is looked up, and no component is run. A verdict other than a failure with this code counts as no failure. An error means that memory
/// was refused.
pub fn reduce_known<K: VerdictTable>(
    alloc: Global,
    known: &K,
    scenario: &Scenario,
    code: u32,
) -> Result<Reached, AllocError>
    ensures { IfOk result (IsReached (K.verdicts known.now) code scenario.now) }
{
    let faults = fault_count(alloc, scenario)?;
    let mut core = Core::start(alloc, faults);
    let mut untried = Vec::new(alloc);
    for _ in 0..u64::MAX {
        let Some(request) = core.take(alloc, false)? else {
            return ended(alloc, &core, untried);
        };
        let test = look_up(alloc, known, scenario, faults, code, request.set())?;
        settle(alloc, &mut core, &mut untried, request, test)?;
    }
    // no memory holds so many requests
    Err(AllocError)
}
