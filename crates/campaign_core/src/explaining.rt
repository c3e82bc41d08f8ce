//! One run explained hit by hit, and written to a sink.
ghost use Rattle.std.specs.Prelude.{◌≡◌, false, IfOk, IfErr, OnOk};
ghost use Rattle.campaign_core.specs.Headline.{campaign_in};
ghost use Rattle.campaign_core.specs.CommandTexts.{explained, tried, LeavesOnly};
ghost use Rattle.campaign_core.specs.Writes.{change, WritesWhole};

use crate::ending::CampaignFault;
use crate::subject::Subject;
use crate::written::write_judged;
use report::{RunEnd, explain};
use scenario_values::Scenario;
use std::alloc::Global;
use target_trait::{Sink, Target, Verdict};

/// What is explained: the run of a scenario under a stream number, and what is printed of its end.
#[derive(Drop)]
pub struct ToExplain<'a, E> {
    pub stream: u64,
    pub scenario: &'a Scenario,
    pub end: &'a E,
}

/// Runs the scenario on a twin of the target, and writes the lines of `explain`: the verdict, each hit, what stopped the run, the faults that never
/// acted, and what is printed of the run's end. [`report::NoEnd`] prints nothing there, and [`report::ToldEnd`] prints what a
/// `TellingTarget` says of it.
///
/// The run draws its words by the seed of the settings and this stream number; a plan of a campaign runs under its own number. After the settings'
/// `max_hits` answered hits the run is stopped, and is unresolved. The caller's target isn't touched.
///
/// Nothing is written before the whole text is made: if memory was refused, the sink is as it was and hasn't failed. `Write` says how many bytes of
/// the text, fewer than all, went out before the sink failed.
pub fn explain_one<T: Target, E: RunEnd<T>, W: Sink>(
    alloc: Global,
    subject: &Subject<'_, T>,
    what: &ToExplain<'_, E>,
    sink: &mut W,
) -> Result<Verdict, CampaignFault>
    requires { W.has_failed sink.old ≡ false }
    ensures verdict { IfOk result (λ verdict. verdict ≡ (tried (campaign_in T.Target subject.now) what.now.stream what.now.scenario.now).verdict) }
    ensures text { OnOk result (let s = subject.now in WritesWhole
        (explained (E.lines what.now.end.now s.target.now s.workload.now) (campaign_in T.Target s) what.now.stream what.now.scenario.now)
        (change W.Sink sink.old sink.new)) }
    ensures fault { IfErr result (let s = subject.now in LeavesOnly
        (explained (E.lines what.now.end.now s.target.now s.workload.now) (campaign_in T.Target s) what.now.stream what.now.scenario.now)
        (change W.Sink sink.old sink.new)) }
{
    let case = subject.settings.case(what.scenario, what.stream);
    let mut twin = subject.target.twin()?;
    let told = explain(alloc, &mut twin, subject.workload, &case, what.end)?;
    write_judged(told.verdict, told.text.as_str(), sink)
}
