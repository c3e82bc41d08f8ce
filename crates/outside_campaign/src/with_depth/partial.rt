//! What is known so far of a campaign with a depth.
ghost use Rattle.std.specs.Prelude.{ℕ, List, string_bytes, IfErr, IfOk};
ghost use Rattle.answered_runs.specs.Agreement.{AreOfOne};
ghost use Rattle.outside_campaign.specs.Partial.{partial_text};
ghost use Rattle.outside_campaign.specs.with_depth.Questions.{IsPartialText, RefusesAsks, Tells};

use crate::OutsideCampaign;
use crate::partial::partial_text;
use crate::with_depth::fault::QuestionFault;
use crate::with_depth::grown::all_plans;
use crate::with_depth::table::KnownByRuns;
use answered_runs::{KnownPlans, further_behind};
use std::alloc::Global;

/// The text of the interim report of a campaign with a depth, on the plans that are known by now, and whether one of them is known to fail. A plan is
/// known once the hits of the plans that it grew from are recorded. Its number isn't known by then, so the lines have scenarios in place of numbers.
///
/// The faults are those of [`grown_report`](crate::with_depth::grown_report), without `NotAnswered`.
pub(crate) fn grown_partial(
    alloc: Global,
    campaign: &OutsideCampaign<'_>,
    known: &KnownPlans<'_>,
) -> Result<(String, bool), QuestionFault>
    requires { AreOfOne known.now.answered }
    ensures text { IfOk result (λ r. (answers : List ℕ) → Tells campaign.now.outside.now answers known.now.answered
        → IsPartialText campaign.now.outside.now campaign.now.settings.now known.now.depth answers (string_bytes r.0) r.1) }
    ensures fault { IfErr result (RefusesAsks known.now.answered known.now.depth campaign.now.settings.now.plans) }
{
    let settings = campaign.settings;
    let _ = known.list();
    let further = further_behind(alloc, known, &settings.plan_settings())?;
    let plans = all_plans(known, &further);
    Ok(partial_text(alloc, campaign, &KnownByRuns { known }, &plans, true)?)
}
