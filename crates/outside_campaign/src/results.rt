//! The verdicts and findings of a campaign, by answers.
ghost use Rattle.std.specs.Prelude.{◌≡◌, ◌<◌, length, IfOk};
ghost use Rattle.std.specs.List.{AllByRecursion};
ghost use Rattle.scenario_values.specs.Scenario.{IsScenario};
ghost use Rattle.answer_text.specs.Known.{KnownVerdicts};
ghost use Rattle.outside_campaign.specs.Asked.{plan_verdicts};
ghost use Rattle.outside_campaign.specs.inside.ToldPlans.{AreResults};
ghost use Rattle.outside_campaign.specs.inside.Results.{IsFirst, AreWithVerdicts};

use crate::findings::{Findings, findings_known};
use crate::table::VerdictTable;
use crate::verdicts::{Verdicts, plan_verdicts, verdicts_known};
use grown_plans::CampaignPlans;
use report::Finding;
use result_book::first_failures_of;
use scenario_values::Scenario;
use std::alloc::{AllocError, Global};
use target_trait::Verdict;

/// What the plans of a list come to, or what has to be tried first.
#[derive(Drop)]
pub enum Results {
    /// The verdict of each plan, in the plans' order, and the first failure of each code.
    Told(Vec<Verdict>, Vec<Finding>),
    /// The first scenario that is still to be tried, tidied.
    NotAnswered(Scenario),
}

/// The first of the open candidates, as still to be tried.
fn first_request(requests: Vec<Scenario>) -> Result<Results, AllocError>
    requires { 0 < length requests.items }
    ensures { IfOk result (IsFirst requests.items) }
{
    match requests.into_iter().next() {
        Some(request) => Ok(Results::NotAnswered(request)),
        None => Err(AllocError),
    }
}

/// The results if no candidate is open: the verdicts of the plans with these findings, or the first plan that isn't answered.
fn with_verdicts(
    alloc: Global,
    plans: &CampaignPlans<'_>,
    verdicts: &[Option<Verdict>],
    findings: Vec<Finding>,
) -> Result<Results, AllocError>
    requires many { length verdicts.now ≡ length plans.now }
    requires lawful { AllByRecursion (λ s. IsScenario s) plans.now }
    ensures { IfOk result (λ r. (known : KnownVerdicts) → verdicts.now ≡ plan_verdicts known plans.now → AreWithVerdicts known plans.now findings.items r) }
{
    match verdicts_known(alloc, plans, verdicts)? {
        Verdicts::All(verdicts) => Ok(Results::Told(verdicts, findings)),
        Verdicts::NotAnswered(scenario) => Ok(Results::NotAnswered(scenario)),
    }
}

/// What these plans come to by what is known: the results of each component that agrees with it, or the first scenario that is still to be tried. An
/// error means that memory was refused.
pub fn results_known<K: VerdictTable>(
    alloc: Global,
    known: &K,
    plans: &CampaignPlans<'_>,
) -> Result<Results, AllocError>
    ensures { IfOk result (AreResults (K.verdicts known.now) plans.now) }
{
    let verdicts = plan_verdicts(alloc, known, plans)?;
    let failures = first_failures_of(alloc, verdicts.as_slice())?;
    match findings_known(alloc, known, plans, failures.as_slice())? {
        Findings::Open(requests) => first_request(requests),
        Findings::Told(findings) => with_verdicts(alloc, plans, verdicts.as_slice(), findings),
    }
}
