//! What is still to be tried of a campaign with a depth.
ghost use Rattle.std.specs.Prelude.{◌≡◌, IfErr, IfOk};
ghost use Rattle.answered_runs.specs.asked.Lines.{lines_for};
ghost use Rattle.outside_campaign.specs.with_depth.Grown.{candidates};
ghost use Rattle.outside_campaign.specs.with_depth.Questions.{RefusesAsks, grown_lines};

use crate::with_depth::candidates::{Outcome, outcome_known};
use crate::with_depth::fault::QuestionFault;
use crate::with_depth::grown::{all_plans, verdicts_of};
use answered_runs::{AskedLines, KnownPlans, asks, further_behind};
use campaign_given::CampaignSettings;
use std::alloc::Global;

/// The lines that ask for the scenarios that still decide causes and reductions, once each plan is answered.
fn candidates(
    alloc: Global,
    known: &KnownPlans<'_>,
    settings: &CampaignSettings,
) -> Result<AskedLines, QuestionFault>
    ensures lines { IfOk result (λ lines. lines ≡ lines_for (candidates known.now.answered known.now.depth settings.now.plans)) }
    ensures fault { IfErr result (RefusesAsks known.now.answered known.now.depth settings.now.plans) }
{
    let _ = known.list();
    let further = further_behind(alloc, known, &settings.plan_settings())?;
    let plans = all_plans(known, &further);
    let verdicts = verdicts_of(alloc, known, &plans)?;
    match outcome_known(alloc, known, &plans, verdicts.as_slice())? {
        Outcome::Told(_) => Ok(AskedLines::new(alloc)),
        Outcome::Open(requests) => Ok(AskedLines::of(alloc, requests.as_slice())?),
    }
}

/// The lines that ask for what is still to be tried: first the plans that are known by now and aren't answered, which are those that grow, in the order
/// of the list, each known once the hits of the plans that it grew from are recorded; then the storms and the listed scenarios. Once every plan has an
/// answer, only the candidates of the reductions and of the test for causes are requested. What follows from recorded runs is never requested. If all
/// is known, and only then, there is no line. Any of the lines may be tried, in any order.
///
/// `TooManyPlans` comes only if more than 65536 plans are known, or the run without faults has at least as many hits. Any other fault means that
/// memory was refused.
pub(crate) fn grown_lines(
    alloc: Global,
    known: &KnownPlans<'_>,
    settings: &CampaignSettings,
) -> Result<AskedLines, QuestionFault>
    ensures lines { IfOk result (λ lines. lines ≡ grown_lines settings.now known.now.depth known.now.answered) }
    ensures fault { IfErr result (RefusesAsks known.now.answered known.now.depth settings.now.plans) }
{
    let plans = asks(alloc, known, &settings.plan_settings())?;
    if !plans.is_empty() {
        return Ok(plans);
    }
    candidates(alloc, known, settings)
}
