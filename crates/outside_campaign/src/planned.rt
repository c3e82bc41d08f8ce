//! The plans of a campaign on a component that somebody else runs.
ghost use Rattle.std.specs.Prelude.{◌≡◌, ◌<◌, ◌≤◌, false, length, IfOk, IfErr, OnOk, IsErrOf};
ghost use Rattle.std.specs.Io.KnownBytes.{Appends};
ghost use Rattle.action_eval.specs.Answers.{texts};
ghost use Rattle.plan_gen.specs.PlanList.{most_plans};
ghost use Rattle.outside_campaign.specs.Campaigns.{plans, plans_text, IsCut, IsUnwritten};

use crate::campaign::OutsideCampaign;
use campaign_core::{CampaignFault, plans_text};
use grown_plans::CampaignPlans;
use plan_gen::{Census, PlanFault, PlanList, plans};
use report::write_report;
use scenario_values::Text;
use std::alloc::{AllocError, Global};
use target_trait::Sink;

/// The texts, as borrowed strings.
pub fn borrowed(alloc: Global, from: &[Text]) -> Result<Vec<&str>, AllocError>
    ensures { IfOk result (λ names. texts names.items ≡ from.now) }
{
    let mut names = Vec::with_capacity(alloc, from.len())?;
    for name in from {
        names.push(name.as_str())?;
    }
    Ok(names)
}

/// The list of plans over the names of the points in the settings.
pub fn planned<'a>(
    alloc: Global,
    points: &'a [&'a str],
    campaign: &OutsideCampaign<'a>,
) -> Result<PlanList<'a>, PlanFault>
    requires { texts points.now ≡ campaign.now.outside.now.points }
    ensures plans { IfOk result (λ r. r ≡ plans campaign.now.outside.now campaign.now.settings.now) }
    ensures few { OnOk result (length (plans campaign.now.outside.now campaign.now.settings.now) ≤ most_plans) }
    ensures some { IfOk result (λ r. 0 < length r) }
    ensures many { IsErrOf result PlanFault.TooManyPlans → most_plans < length (plans campaign.now.outside.now campaign.now.settings.now) }
{
    let outside = campaign.outside;
    let settings = campaign.settings;
    let Ok(counts) = Vec::from_slice(alloc, outside.hits.as_slice()) else {
        return Err(PlanFault::Memory);
    };
    plans(alloc, &Census { counts }, points, &settings.plan_settings())
}

/// Writes the list of plans of a campaign on a component that somebody else runs, a line for each: its number and its scenario.
///
/// Nothing is written before the whole text is made. `TooManyPlans` comes only if the list has more than 65536 plans. Then, and if memory was
/// refused, the sink is as it was and hasn't failed. `Write` says how many bytes of the text, fewer than all, went out before the sink failed.
pub fn list_plans<W: Sink>(
    alloc: Global,
    campaign: &OutsideCampaign<'_>,
    sink: &mut W,
) -> Result<(), CampaignFault>
    requires { W.has_failed sink.old ≡ false }
    ensures text { OnOk result (Appends (W.told sink.old) (W.told sink.new) (plans_text campaign.now.outside.now campaign.now.settings.now)) }
    ensures few { OnOk result (length (plans campaign.now.outside.now campaign.now.settings.now) ≤ most_plans) }
    ensures sound { OnOk result (W.has_failed sink.new ≡ false) }
    ensures fault { IfErr result (IsUnwritten (plans campaign.now.outside.now campaign.now.settings.now)
        (IsCut (W.told sink.old) (W.told sink.new) (plans_text campaign.now.outside.now campaign.now.settings.now))
        (W.told sink.old) (W.told sink.new) (W.has_failed sink.new)) }
{
    let outside = campaign.outside;
    let points = borrowed(alloc, outside.points.as_slice())?;
    let plans = planned(alloc, points.as_slice(), campaign)?;
    let text = plans_text(alloc, &CampaignPlans::by_census(&plans))?;
    write_report(text.as_bytes(), sink)?;
    Ok(())
}
