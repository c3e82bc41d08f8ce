//! Plans that pass without meeting all of their faults.
ghost use Rattle.std.specs.Prelude.{◌≡◌, ◌<◌, length, option_map, IfOk, if◌then◌else◌};
ghost use Rattle.scenario_values.specs.Tidied.{tidied};
ghost use Rattle.action_eval.specs.Answers.{texts};
ghost use Rattle.answer_text.specs.Runs.{told_in};
ghost use Rattle.outside_campaign.specs.Unmet.{is_unmet, leaves_idle, unmet_count};

use answer_text::{Hits, Runs, ToldRun};
use grown_plans::{CampaignPlan, CampaignPlans};
use report::has_idle;
use scenario_values::{Scenario, tidy};
use std::alloc::{AllocError, Global};
use target_trait::Verdict;

/// Whether a fault of the scenario, once it is tidied, never acts in a run with these hits, if they are recorded.
fn leaves_idle(
    alloc: Global,
    points: &[&str],
    scenario: &Scenario,
    hits: &Option<Hits>,
) -> Result<bool, AllocError>
    ensures { IfOk result (λ idle. idle ≡ leaves_idle (texts points.now) (tidied scenario.now) hits.now) }
{
    let Some(hits) = hits else {
        return Ok(false);
    };
    let mut asked = Vec::new(alloc);
    hits.push_points(&mut asked)?;
    has_idle(alloc, points, &tidy(alloc, scenario)?, asked.as_slice())
}

/// Whether a scenario's run is recorded as passing, and a fault of the scenario never acts in it.
fn is_unmet(
    alloc: Global,
    points: &[&str],
    scenario: &Scenario,
    told: Option<&ToldRun>,
) -> Result<bool, AllocError>
    ensures { IfOk result (λ unmet. unmet ≡ is_unmet (texts points.now) (tidied scenario.now) (option_map (λ t. t.now) told.entry)) }
{
    let Some(told) = told else {
        return Ok(false);
    };
    match told.verdict {
        Verdict::Pass => leaves_idle(alloc, points, scenario, &told.hits),
        Verdict::Fail(_) | Verdict::Unresolved => Ok(false),
    }
}

/// 1 if a plan passes without meeting all of its faults, else 0.
fn unmet_of(
    alloc: Global,
    runs: &Runs,
    points: &[&str],
    plan: &CampaignPlan<'_>,
) -> Result<u32, AllocError>
    ensures { IfOk result (λ n. n ≡ if is_unmet (texts points.now) (tidied plan.now) (told_in runs.now (tidied plan.now)) then 1 else 0) }
{
    let scenario = plan.scenario(alloc)?;
    let told = runs.told(alloc, &scenario)?;
    if is_unmet(alloc, points, &scenario, told)? {
        Ok(1)
    } else {
        Ok(0)
    }
}

/// How many of the plans pass without meeting all of their faults, by the recorded hits of their runs. An error means that memory was refused.
pub fn count_unmet(
    alloc: Global,
    runs: &Runs,
    points: &[&str],
    plans: &CampaignPlans<'_>,
) -> Result<u32, AllocError>
    ensures { IfOk result (λ n. n ≡ unmet_count (texts points.now) (told_in runs.now) plans.now) }
{
    let mut count = 0;
    for number in 0..plans.len() {
        count += unmet_of(alloc, runs, points, &plans.plan(number))?;
    }
    Ok(count)
}
