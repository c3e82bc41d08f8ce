//! The notes on the answer to a question on a component that somebody else runs.
ghost use Rattle.std.specs.Prelude.{◌≡◌, ◌≤◌, ◌++◌, false, count_by, length, string_bytes, IfOk, OnOk};
ghost use Rattle.std.specs.Option.{option_map_or};
ghost use Rattle.action_eval.specs.Answers.{texts};
ghost use Rattle.target_trait.specs.Verdicts.{is_unresolved};
ghost use Rattle.report.specs.ReportText.{ended, text_of};
ghost use Rattle.answer_text.specs.Known.{verdicts_in};
ghost use Rattle.answer_text.specs.Runs.{told_in};
ghost use Rattle.campaign_main.specs.Commands.{outside_plans};
ghost use Rattle.campaign_main.specs.Notes.{listed_notes};
ghost use Rattle.campaign_main.specs.QuestionNotes.{census_doubts, doubts_by, is_left_open, is_question_doubted, stranger_notes, unhit_line, unhit_lines, unhit_of, unmet_line, unmet_notes};

use crate::notes::{
    Doubts, Origin, draws_nothing, is_doubted, is_never, is_some_number, is_unhit, listed_outside,
    write_doubts, write_strange,
};
use answer_text::{Runs, Stranger};
use command_words::Question;
use grown_plans::CampaignPlans;
use outside_campaign::{OutsideCampaign, borrowed, count_unmet, plan_verdicts};
use scenario_values::build;
use std::alloc::{AllocError, Global};
use std::fmt::Write;
use target_trait::Verdict;

/// Appends the notes on names in answered scenarios.
fn write_all_strange(out: &mut String, strangers: &[Stranger]) -> Result<(), AllocError>
    ensures { OnOk result (string_bytes out.new ≡ string_bytes out.old ++ stranger_notes strangers.now) }
{
    for stranger in strangers {
        let origin = Origin::Answered(stranger.line as usize);
        write_strange(out, origin, stranger.name.as_str())?;
    }
    Ok(())
}

/// The notes on an answer: those on the listed scenarios, then those on names in the answers, and then these doubts.
pub fn all_notes(
    alloc: Global,
    campaign: &OutsideCampaign<'_>,
    strangers: &[Stranger],
    doubts: &str,
) -> Result<String, AllocError>
    ensures { IfOk result (λ notes. string_bytes notes
        ≡ (listed_notes campaign.now.outside.now.points campaign.now.settings.now.plans.listed ++ stranger_notes strangers.now) ++ doubts.now) }
{
    let mut notes = listed_outside(alloc, campaign)?;
    write_all_strange(&mut notes, strangers)?;
    notes.push_str(doubts)?;
    Ok(notes)
}

/// Whether a verdict is known, and unresolved.
pub fn is_open(verdict: Option<Verdict>) -> bool
    ensures { result ≡ option_map_or is_unresolved verdict false }
{
    matches!(verdict, Some(Verdict::Unresolved))
}

/// How many of these verdicts are known to be unresolved.
pub fn count_open(verdicts: &[Option<Verdict>]) -> u32
    requires { length verdicts.now ≤ 65536 }
    ensures { result ≡ count_by (λ verdict. option_map_or is_unresolved verdict false) verdicts.now }
{
    let mut count = 0;
    for number in 0..verdicts.len() {
        if is_open(verdicts[number]) {
            count += 1;
        }
    }
    count
}

/// How many of the plans are answered as unresolved.
fn count_left_open(
    alloc: Global,
    known: &Runs,
    plans: &CampaignPlans<'_>,
) -> Result<u32, AllocError>
    ensures { IfOk result (λ n. n ≡ count_by (is_left_open (verdicts_in (told_in known.now))) plans.now) }
{
    let verdicts = plan_verdicts(alloc, known, plans)?;
    Ok(count_open(verdicts.as_slice()))
}

/// What a report by these answers doesn't show.
fn doubts_known(
    alloc: Global,
    known: &Runs,
    campaign: &OutsideCampaign<'_>,
    plans: &CampaignPlans<'_>,
) -> Result<Doubts, AllocError>
    requires { plans.now ≡ outside_plans campaign.now.settings.now campaign.now.outside.now }
    ensures { IfOk result (λ doubts. doubts ≡ doubts_by (verdicts_in (told_in known.now)) campaign.now.settings.now campaign.now.outside.now) }
{
    let outside = campaign.outside;
    let none = build(alloc, &[])?;
    Ok(Doubts {
        clean: is_open(known.verdict_of(alloc, &none)?),
        unresolved: count_left_open(alloc, known, plans)?,
        plans: plans.len() as u32,
        unhit: is_unhit(outside.hits.as_slice()),
        unstormed: draws_nothing(campaign.settings),
    })
}

/// Appends the line of how many plans pass without meeting all of their faults.
fn write_unmet_line(out: &mut String, unmet: u32, plans: u32) -> Result<(), AllocError>
    ensures { OnOk result (string_bytes out.new ≡ string_bytes out.old ++ ended (unmet_line unmet plans)) }
{
    writeln!(
        out,
        "strict: {unmet} of {plans} plans pass without meeting all of their faults"
    )
}

/// The same, if there are any.
fn write_unmet(out: &mut String, unmet: u32, plans: u32) -> Result<(), AllocError>
    ensures { OnOk result (string_bytes out.new ≡ string_bytes out.old ++ unmet_notes unmet plans) }
{
    if is_some_number(unmet) {
        return write_unmet_line(out, unmet, plans);
    }
    Ok(())
}

/// Appends the line of a point that isn't hit without faults.
fn write_unhit(out: &mut String, name: &str) -> Result<(), AllocError>
    ensures { OnOk result (string_bytes out.new ≡ string_bytes out.old ++ ended (unhit_line name.now)) }
{
    writeln!(out, "strict: no hit without faults of {name}")
}

/// The same, if the point has no hits.
fn write_if_unhit(out: &mut String, name: &str, hits: u32) -> Result<(), AllocError>
    ensures { OnOk result (string_bytes out.new ≡ string_bytes out.old ++ text_of (unhit_of name.now hits)) }
{
    if is_never(hits) {
        return write_unhit(out, name);
    }
    Ok(())
}

/// Appends a line for each point that isn't hit without faults.
fn write_all_unhit(out: &mut String, points: &[&str], hits: &[u32]) -> Result<(), AllocError>
    requires { length hits.now ≡ length points.now }
    ensures { OnOk result (string_bytes out.new ≡ string_bytes out.old ++ text_of (unhit_lines (texts points.now) hits.now)) }
{
    for place in 0..points.len() {
        write_if_unhit(out, points[place], hits[place])?;
    }
    Ok(())
}

/// What a strict report without a depth doesn't show, by these answers.
pub fn census_doubts(
    alloc: Global,
    campaign: &OutsideCampaign<'_>,
    known: &Runs,
    plans: &CampaignPlans<'_>,
) -> Result<String, AllocError>
    requires { plans.now ≡ outside_plans campaign.now.settings.now campaign.now.outside.now }
    ensures { IfOk result (λ lines. string_bytes lines ≡ census_doubts campaign.now.settings.now campaign.now.outside.now (told_in known.now)) }
{
    let outside = campaign.outside;
    let points = borrowed(alloc, outside.points.as_slice())?;
    let points = points.as_slice();
    let doubts = doubts_known(alloc, known, campaign, plans)?;
    let unmet = count_unmet(alloc, known, points, plans)?;
    let mut lines = String::new(alloc);
    write_doubts(&mut lines, &doubts)?;
    write_unmet(&mut lines, unmet, doubts.plans)?;
    write_all_unhit(&mut lines, points, outside.hits.as_slice())?;
    Ok(lines)
}

/// Whether there are notes, and the question is strict.
pub fn is_question_doubted(question: &Question, notes: &str) -> bool
    ensures { result ≡ is_question_doubted question.now notes.now }
{
    match question {
        Question::Asks | Question::Explain(_) => false,
        Question::Report { strict, .. } => is_doubted(*strict, notes),
    }
}
