//! The report of a campaign without a depth on a component that somebody else runs, by what is recorded of its runs.
ghost use Rattle.std.specs.Prelude.{◌≡◌, ◌<◌, [], length, IfErr, IfOk, OnOk};
ghost use Rattle.answer_text.specs.Known.{Agrees, verdicts_in};
ghost use Rattle.answer_text.specs.Runs.{told_in};
ghost use Rattle.outside_campaign.specs.Outside.{Component};
ghost use Rattle.outside_campaign.specs.Campaigns.{IsUnreported, first_failure, plans as listed, report_in, untried_by};

use crate::campaign::OutsideCampaign;
use crate::planned::borrowed;
use crate::refusal::OutsideFault;
use crate::results::{Results, results_known};
use crate::telling::{first_number, report_of, reported_text};
use crate::unmet::count_unmet;
use answer_text::Runs;
use grown_plans::CampaignPlans;
use report::Form;
use std::alloc::Global;

/// The text of the report in a form, and the number of the first plan that fails. For every component that agrees with what is recorded, a function
/// from tidied scenarios to verdicts, it is the report on all plans, with the first failure of each code reduced by that component's verdicts.
///
/// The plans are those that [`outside_plans`](crate::outside_plans) lists for this campaign. `NotAnswered` has the first scenario that is still to
/// be tried, if there is one. Any other fault means that memory was refused.
pub(crate) fn report_text(
    alloc: Global,
    form: &Form<'_>,
    campaign: &OutsideCampaign<'_>,
    known: &Runs,
    plans: &CampaignPlans<'_>,
) -> Result<(Vec<u8>, Option<u32>), OutsideFault>
    requires plans { plans.now ≡ listed campaign.now.outside.now campaign.now.settings.now }
    requires some { 0 < length plans.now }
    // The promise: for every component that agrees with what is recorded.
    ensures text { IfOk result (λ r. (component : Component) → Agrees component (verdicts_in (told_in known.now))
        → r.0.items ≡ report_in form.now campaign.now.outside.now campaign.now.settings.now (told_in known.now) component) }
    ensures first { IfOk result (λ r. (component : Component) → Agrees component (verdicts_in (told_in known.now))
        → r.1 ≡ first_failure campaign.now.outside.now campaign.now.settings.now component) }
    // Nothing is still to be tried.
    ensures all { OnOk result (untried_by campaign.now.outside.now campaign.now.settings.now (told_in known.now) ≡ []) }
    ensures fault { IfErr result (IsUnreported campaign.now.outside.now campaign.now.settings.now (told_in known.now)) }
{
    let outside = campaign.outside;
    let settings = campaign.settings;
    let points = borrowed(alloc, outside.points.as_slice())?;
    match results_known(alloc, known, plans)? {
        Results::NotAnswered(scenario) => Err(OutsideFault::NotAnswered(scenario)),
        Results::Told(verdicts, findings) => {
            let first = first_number(&findings);
            let unmet = count_unmet(alloc, known, points.as_slice(), plans)?;
            let report = report_of(outside, settings.seed, verdicts.as_slice(), unmet, findings);
            let text = reported_text(alloc, form, campaign, known, &report, plans)?;
            Ok((text, first))
        }
    }
}
