//! The scenarios that are still to be tried.
ghost use Rattle.std.specs.Prelude.{◌≡◌, ◌<◌, ◌∷◌, ◌++◌, [], All, length, IfOk, OnOk, string_bytes};
ghost use Rattle.answered_runs.specs.asked.Lines.{lines_behind, lines_for};
ghost use Rattle.report.specs.ReportText.{text_of};
ghost use Rattle.outside_campaign.specs.Asked.{asked, open_plans};
ghost use Rattle.outside_campaign.specs.Campaigns.{untried};

use crate::findings::{Findings, findings_known};
use crate::table::VerdictTable;
use crate::verdicts::plan_verdicts;
use answered_runs::AskedLines;
use grown_plans::{CampaignPlan, CampaignPlans};
use result_book::first_failures_of;
use scenario_values::{Scenario, tidy};
use std::alloc::{AllocError, Global};

/// Adds the texts of these tidied scenarios, unless they are there.
fn add_requests(
    alloc: Global,
    lines: &mut AskedLines,
    requests: &[Scenario],
) -> Result<(), AllocError>
    ensures { OnOk result (lines.new ≡ lines_behind lines.old requests.now) }
{
    for request in requests {
        lines.add(alloc, request)?;
    }
    Ok(())
}

/// Adds a plan, tidied, if it isn't answered.
fn add_plan<K: VerdictTable>(
    alloc: Global,
    lines: &mut AskedLines,
    known: &K,
    plan: &CampaignPlan<'_>,
) -> Result<(), AllocError>
    ensures { OnOk result (lines.new ≡ lines_behind lines.old (open_plans (K.verdicts known.now) (plan.now ∷ []))) }
{
    let scenario = plan.scenario(alloc)?;
    match known.look_up(alloc, &scenario)? {
        Some(_) => Ok(()),
        None => {
            let tidied = tidy(alloc, &scenario)?;
            lines.add(alloc, &tidied)
        }
    }
}

/// Adds each plan that isn't answered, in the plans' order.
fn add_plans<K: VerdictTable>(
    alloc: Global,
    lines: &mut AskedLines,
    known: &K,
    plans: &CampaignPlans<'_>,
) -> Result<(), AllocError>
    ensures { OnOk result (lines.new ≡ lines_behind lines.old (open_plans (K.verdicts known.now) plans.now)) }
{
    for number in 0..plans.len() {
        add_plan(alloc, lines, known, &plans.plan(number))?;
    }
    Ok(())
}

/// The texts of these requests, and then of each plan that isn't answered.
fn asked<K: VerdictTable>(
    alloc: Global,
    known: &K,
    requests: &[Scenario],
    plans: &CampaignPlans<'_>,
) -> Result<AskedLines, AllocError>
    ensures { IfOk result (λ lines. lines ≡ lines_for (requests.now ++ open_plans (K.verdicts known.now) plans.now)) }
{
    let mut lines = AskedLines::new(alloc);
    add_requests(alloc, &mut lines, requests)?;
    add_plans(alloc, &mut lines, known, plans)?;
    Ok(lines)
}

/// The texts of the scenarios that are still to be tried, tidied, and each once; the scenario without entries is `none`. First come the open
/// candidates of the reductions of these failures, each of which is the number of a plan and its code. Then comes each plan that isn't answered, in
/// the plans' order.
///
/// Any of them may be tried, in any order. An error means that memory was refused.
pub fn asks<K: VerdictTable>(
    alloc: Global,
    known: &K,
    plans: &CampaignPlans<'_>,
    failures: &[(u32, u32)],
) -> Result<AskedLines, AllocError>
    requires { All (λ f. f.0 < length plans.now) failures.now }
    ensures { IfOk result (λ lines. lines ≡ asked (K.verdicts known.now) plans.now failures.now) }
{
    match findings_known(alloc, known, plans, failures)? {
        Findings::Told(_) => asked(alloc, known, &[], plans),
        Findings::Open(requests) => asked(alloc, known, requests.as_slice(), plans),
    }
}

/// The lines that ask for what is still to be tried of these plans. The reductions are those of the first failures known. An error means that memory
/// was refused.
pub(crate) fn asks_text<K: VerdictTable>(
    alloc: Global,
    known: &K,
    plans: &CampaignPlans<'_>,
) -> Result<String, AllocError>
    ensures { IfOk result (λ text. string_bytes text ≡ text_of (lines_for (untried (K.verdicts known.now) plans.now))) }
{
    let verdicts = plan_verdicts(alloc, known, plans)?;
    let failures = first_failures_of(alloc, verdicts.as_slice())?;
    let lines = asks(alloc, known, plans, failures.as_slice())?;
    lines.text(alloc)
}
