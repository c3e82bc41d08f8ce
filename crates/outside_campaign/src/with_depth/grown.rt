//! The plans of a campaign with a depth that are known by recorded runs, with their verdicts, and why a campaign can't be reported yet.
ghost use Rattle.std.specs.Prelude.{◌≡◌, ◌≤◌, ◌<◌, ◌+◌, ◌++◌, [], length, slice_index_or, IfErr, IfOk, OnOk};
ghost use Rattle.std.specs.List.{AllByRecursion};
ghost use Rattle.scenario_values.specs.Scenario.{IsScenario};
ghost use Rattle.scenario_values.specs.Tidied.{tidied};
ghost use Rattle.grown_plans.specs.numbered.GrownScenarios.{grown_scenario, grown_scenarios};
ghost use Rattle.answered_runs.specs.Agreement.{AreOfOne};
ghost use Rattle.answered_runs.specs.Answered.{runs_in};
ghost use Rattle.answered_runs.specs.WholeList.{AreAllTold};
ghost use Rattle.outside_campaign.specs.Asked.{plan_verdicts};
ghost use Rattle.plan_gen.specs.PlanList.{Asked, most_plans};
ghost use Rattle.outside_campaign.specs.with_depth.Grown.{BeginsWith, known as known_verdicts};
ghost use Rattle.outside_campaign.specs.with_depth.Questions.{RefusesAsks};
ghost use Rattle.outside_campaign.specs.with_depth.inside.Outcomes.{IsGapFault};

use crate::with_depth::fault::QuestionFault;
use crate::with_depth::table::KnownByRuns;
use crate::{OutsideFault, VerdictTable};
use answered_runs::{AnsweredRuns, KnownPlans, contradiction, plan_scenario};
use grown_plans::CampaignPlans;
use plan_gen::PlanList;
use scenario_values::{Scenario, tidy};
use std::alloc::{AllocError, Global};
use target_trait::Verdict;

/// The plans that are known by now. Answers are refused if two recorded runs contradict each other, so that no component has both.
pub fn known_plans<'a>(
    alloc: Global,
    runs: &'a AnsweredRuns<'a>,
    depth: u32,
) -> Result<KnownPlans<'a>, QuestionFault>
    requires { depth ≤ 64 }
    ensures known { IfOk result (λ known. (known.answered ≡ runs.now) × (known.depth ≡ depth)) }
    ensures agree { OnOk result (AreOfOne runs.now) }
    ensures fault { IfErr result (λ why. (asked : Asked) → RefusesAsks runs.now depth asked why) }
{
    let known = KnownPlans::of(alloc, runs, depth)?;
    let Some(found) = contradiction(alloc, &known)? else {
        return Ok(known);
    };
    Err(QuestionFault::Broken(found))
}

/// The tidied scenario of the plan of this number.
fn scenario_of(alloc: Global, known: &KnownPlans<'_>, number: usize) -> Result<Scenario, AllocError>
    requires { number < length known.now.list.plans }
    ensures { IfOk result (λ s. s ≡ tidied (grown_scenario known.now.answered.points (slice_index_or known.now.list.plans number []))) }
{
    let mut faults = Vec::new(alloc);
    known.list().plans.faults_of(number, &mut faults)?;
    let scenario = plan_scenario(alloc, known.runs().points(), faults.as_slice())?;
    tidy(alloc, &scenario)
}

/// Refuses a list if the run of one of its plans isn't recorded.
pub fn refuse_gap(alloc: Global, known: &KnownPlans<'_>) -> Result<(), QuestionFault>
    ensures ok { OnOk result (AreAllTold (runs_in known.now.answered) known.now.list.plans) }
    ensures fault { IfErr result (IsGapFault known.now.answered known.now.list.plans) }
{
    match known.gap() {
        None => Ok(()),
        Some(number) => {
            let scenario = scenario_of(alloc, known, number)?;
            Err(QuestionFault::Outside(OutsideFault::NotAnswered(scenario)))
        }
    }
}

/// The plans that are known, and behind them the storms and listed scenarios.
pub fn all_plans<'p>(known: &'p KnownPlans<'_>, further: &'p PlanList<'_>) -> CampaignPlans<'p>
    requires { length known.now.list.plans + length further.now ≤ most_plans }
    ensures { result ≡ grown_scenarios known.now.answered.points known.now.list.plans ++ further.now }
{
    let grown = &known.list().plans;
    CampaignPlans::grown(Some(grown), known.runs().points(), further)
}

/// The verdict of the plan of this number, if it is known. The recorded verdict of a plan that grew is read by its number.
fn verdict_at(
    alloc: Global,
    known: &KnownPlans<'_>,
    plans: &CampaignPlans<'_>,
    number: usize,
) -> Result<Option<Verdict>, AllocError>
    requires within { number < length plans.now }
    requires plans { BeginsWith (grown_scenarios known.now.answered.points known.now.list.plans) plans.now }
    ensures verdict { IfOk result (λ verdict. verdict
        ≡ known_verdicts known.now.answered known.now.depth (tidied (slice_index_or plans.now number []))) }
    ensures lawful { OnOk result (IsScenario (slice_index_or plans.now number [])) }
{
    let list = known.list();
    let _ = known.runs().points();
    if number < list.plans.len() {
        if let Some(verdict) = known.verdict_told(number) {
            return Ok(Some(verdict));
        }
    }
    let scenario = plans.plan(number).scenario(alloc)?;
    let _ = scenario.entries();
    KnownByRuns { known }.look_up(alloc, &scenario)
}

/// The verdict of each plan, if it is known. The first plans are those that grew. An error means that memory was refused.
pub fn verdicts_of(
    alloc: Global,
    known: &KnownPlans<'_>,
    plans: &CampaignPlans<'_>,
) -> Result<Vec<Option<Verdict>>, AllocError>
    requires { BeginsWith (grown_scenarios known.now.answered.points known.now.list.plans) plans.now }
    ensures verdicts { IfOk result (λ verdicts. verdicts.items ≡ plan_verdicts (known_verdicts known.now.answered known.now.depth) plans.now) }
    ensures lawful { OnOk result (AllByRecursion (λ s. IsScenario s) plans.now) }
    ensures few { OnOk result (length plans.now ≤ most_plans) }
{
    let mut verdicts = Vec::with_capacity(alloc, plans.len())?;
    for number in 0..plans.len() {
        let verdict = verdict_at(alloc, known, plans, number)?;
        verdicts.push(verdict)?;
    }
    Ok(verdicts)
}
