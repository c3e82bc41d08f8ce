//! A whole campaign.
ghost use Rattle.std.specs.Prelude.{◌≡◌, ◌≤◌, false, length, option_map, IfOk, IfErr, OnOk};
ghost use Rattle.plan_gen.specs.PlanList.{most_plans};
ghost use Rattle.campaign_core.specs.Headline.{campaign_in, plans, first_failure, EachIsMinimal, EachIsTried};
ghost use Rattle.campaign_core.specs.CommandTexts.{IsFault, LeavesOnly};
ghost use Rattle.campaign_core.specs.Forms.{report_in};
ghost use Rattle.campaign_core.specs.Ran.{IsRan};
ghost use Rattle.campaign_core.specs.Writes.{change, WritesWhole};

use crate::ending::{CampaignFault, Ending};
use crate::laws::each_behaviour_is_tried;
use crate::ran::{Ran, run_campaign};
use crate::showing::report_in;
use crate::subject::{Host, Subject};
use report::{Form, write_report};
use std::sync::Wait;
use std::thread::Threads;
use target_trait::{Sink, Target};
use work_gate::Gate;

/// Reduces the first failures of a campaign whose plans have run, and writes its report in a form. It is what [`campaign`] does once the plans have
/// run, with the same promises.
///
/// Nothing is written before the whole text is made. If memory was refused, the sink is as it was and hasn't failed; `Write` says how many bytes of
/// the text, fewer than all, went out before the sink failed. `TooManyPlans` never comes.
pub fn write_campaign<T: Target + Send, G: Gate, W: Sink, R: Threads + Wait + Sync>(
    host: &Host<'_, G, R>,
    subject: &Subject<'_, T>,
    form: &Form<'_>,
    ran: &Ran<'_>,
    sink: &mut W,
) -> Result<Ending, CampaignFault>
where
    T::Workload: Sync,
    requires sink { W.has_failed sink.old ≡ false }
    requires ran { IsRan (campaign_in T.Target subject.now) ran.now }
    ensures text { OnOk result (WritesWhole (report_in form.now (campaign_in T.Target subject.now)) (change W.Sink sink.old sink.new)) }
    ensures first { IfOk result (λ ending. ending.first ≡ option_map (λ f. f.0) (first_failure (campaign_in T.Target subject.now))) }
    ensures minimal { OnOk result (EachIsMinimal (campaign_in T.Target subject.now)) }
    ensures promises { OnOk result (EachIsTried (campaign_in T.Target subject.now)) }
    ensures fault { IfErr result (LeavesOnly (report_in form.now (campaign_in T.Target subject.now)) (change W.Sink sink.old sink.new)) }
{
    each_behaviour_is_tried::<T>();
    // called for its clause alone: the settings are within their ranges
    let _ = subject.settings.plan_settings();
    let text = report_in(host, subject, form, ran)?;
    write_report(text.as_slice(), sink)?;
    Ok(ran.results.ending())
}

/// Runs a campaign, and writes its report in a form. The report has the census and the plans of a twin of the target, the verdict of each plan, and
/// the first failure for each code with which a plan fails, with its scenario reduced. The caller's target isn't touched.
///
/// As many threads as the settings say run the plans, and then the tests of one reduction after the other, each on a twin of its own. The report is
/// the same as with one thread, whichever thread runs what, and in whatever order they end. Each reduced scenario fails with the code of its own
/// plan, under the same seed and limit and with its own plan's number as the stream number; without any single one of its faults it doesn't.
///
/// A worker arrives at the gate with each plan's number before it runs the plan. If there are more than 1024 plans it takes 16 at a time, and if
/// there are more than 16384 it takes 64. It arrives with all of them, in their order, before it runs the first. In each reduction the numbers of the
/// requests start from 0.
///
/// If the settings have a depth, the plans grow from each other's runs, level by level. Each behaviour of the target in which at most so many faults
/// act is that of exactly one plan of the levels, and no two plans of them have the same. Each plan that fails has a cause among them. If the level
/// after the last one would be empty, each behaviour that there is was tried.
///
/// Nothing is written before the whole text is made. `TooManyPlans` comes only if the list has more than 65536 plans. Then, and if memory was
/// refused, the sink is as it was and hasn't failed. `Write` says how many bytes of the text, fewer than all, went out before the sink failed.
pub fn campaign<T: Target + Send, G: Gate, W: Sink, R: Threads + Wait + Sync>(
    host: &Host<'_, G, R>,
    subject: &Subject<'_, T>,
    form: &Form<'_>,
    sink: &mut W,
) -> Result<Ending, CampaignFault>
where
    T::Workload: Sync,
    requires { W.has_failed sink.old ≡ false }
    ensures text { OnOk result (WritesWhole (report_in form.now (campaign_in T.Target subject.now)) (change W.Sink sink.old sink.new)) }
    ensures first { IfOk result (λ ending. ending.first ≡ option_map (λ f. f.0) (first_failure (campaign_in T.Target subject.now))) }
    ensures minimal { OnOk result (EachIsMinimal (campaign_in T.Target subject.now)) }
    ensures promises { OnOk result (EachIsTried (campaign_in T.Target subject.now)) }
    ensures few { OnOk result (length (plans (campaign_in T.Target subject.now)) ≤ most_plans) }
    ensures fault { IfErr result (let c = campaign_in T.Target subject.now in
        IsFault c (report_in form.now c) (change W.Sink sink.old sink.new)) }
{
    let ran = run_campaign(host, subject, false)?;
    write_campaign(host, subject, form, &ran, sink)
}
