//! One scenario, tried on a target.
ghost use Rattle.std.specs.Prelude.{◌≡◌, false, IfOk, IfErr, OnOk, string_bytes};
ghost use Rattle.campaign_core.specs.Headline.{campaign_in};
ghost use Rattle.campaign_core.specs.CommandTexts.{try_text, tried, LeavesOnly};
ghost use Rattle.campaign_core.specs.Writes.{change, WritesWhole};

use crate::ending::CampaignFault;
use crate::subject::Subject;
use crate::written::write_judged;
use report::{Names, write_verdict};
use scenario_values::Scenario;
use std::alloc::{AllocError, Global};
use std::fmt::Write;
use target_trait::{Outcome, Sink, Target, Verdict, run_case};

/// The five lines of an outcome.
fn try_text<N: Names>(alloc: Global, names: &N, outcome: &Outcome) -> Result<String, AllocError>
    ensures { IfOk result (λ text. string_bytes text ≡ try_text (N.code_text names.now) outcome.now) }
{
    let mut text = String::new(alloc);
    text.push_str("verdict ")?;
    write_verdict(&mut text, names, outcome.verdict)?;
    let asked = outcome.asked.as_slice().len();
    let words = outcome.words;
    let millis = outcome.millis;
    let notes = outcome.notes.as_slice().len();
    write!(
        text,
        "\nasked {asked}\nwords {words}\nmillis {millis}\nnotes {notes}\n"
    )?;
    Ok(text)
}

/// Runs the scenario on a twin of the target, and writes the five lines of `try`: the verdict, the number of points asked, the words taken, the
/// simulated milliseconds and the number of notes.
///
/// The run draws its words by the seed of the settings and this stream number; a plan of a campaign runs under its own number. After the settings'
/// `max_hits` answered hits the run is stopped, and is unresolved. The caller's target isn't touched.
///
/// Nothing is written before the whole text is made: if memory was refused, the sink is as it was and hasn't failed. `Write` says how many bytes of
/// the text, fewer than all, went out before the sink failed.
pub fn try_one<T: Target, W: Sink>(
    alloc: Global,
    subject: &Subject<'_, T>,
    stream: u64,
    scenario: &Scenario,
    sink: &mut W,
) -> Result<Verdict, CampaignFault>
    requires { W.has_failed sink.old ≡ false }
    ensures verdict { IfOk result (λ verdict. verdict ≡ (tried (campaign_in T.Target subject.now) stream scenario.now).verdict) }
    ensures text { OnOk result (let c = campaign_in T.Target subject.now in
        WritesWhole (try_text c.codes (tried c stream scenario.now)) (change W.Sink sink.old sink.new)) }
    ensures fault { IfErr result (let c = campaign_in T.Target subject.now in
        LeavesOnly (try_text c.codes (tried c stream scenario.now)) (change W.Sink sink.old sink.new)) }
{
    let case = subject.settings.case(scenario, stream);
    let mut twin = subject.target.twin()?;
    let outcome = run_case(alloc, &mut twin, subject.workload, &case)?;
    let text = try_text(alloc, subject.target, &outcome)?;
    write_judged(outcome.verdict, text.as_str(), sink)
}
