//! The notes on a command's text: names in scenarios that no point of a target has, scenarios with control characters, and what a strict report
//! doesn't show.
ghost use Rattle.std.specs.Prelude.{◌≡◌, ◌==◌, ◌<◌, ◌^◌, ◌++◌, [], All, Some, count_by, length, nat_lt, slice_index_or, string_bytes, true, IfOk, OnOk};
ghost use Rattle.action_eval.specs.Answers.{texts};
ghost use Rattle.answer_text.specs.FirstFault.{has_control};
ghost use Rattle.target_trait.specs.Verdicts.{is_unresolved};
ghost use Rattle.target_trait.specs.declared.judgement.Verdict.TheVariants.{Unresolved};
ghost use Rattle.report.specs.ReportText.{ended, text_of};
ghost use Rattle.campaign_core.specs.Headline.{campaign_in};
ghost use Rattle.campaign_core.specs.Ran.{IsRan, unreached};
ghost use Rattle.campaign_main.specs.Notes.{control_line, control_lines, doubt_notes, draws_nothing, is_doubted, is_point, is_unhit, listed_notes, notes_of, origin_text, report_notes, scenario_notes, stranger_line, stranger_of, strangers_in, strict_notes, text_if, unreached_line, unreached_lines, unresolved_line};

use crate::escaping::write_escaped;
use campaign_core::{Ran, Subject};
use campaign_given::CampaignSettings;
use outside_campaign::{OutsideCampaign, borrowed};
use report::unresolved;
use scenario_grammar::{Scenario, print};
use std::alloc::{AllocError, Global};
use std::fmt::{self, Write};
use target_trait::{Target, Verdict};

/// What a report doesn't show.
#[derive(Clone, Copy, Debug)]
pub struct Doubts {
    /// The run without faults is unresolved.
    pub clean: bool,
    /// How many plans are unresolved.
    pub unresolved: u32,
    /// How many plans there are.
    pub plans: u32,
    /// No point is hit without faults.
    pub unhit: bool,
    /// There are storms, and they draw nothing.
    pub unstormed: bool,
}

/// Which scenario a note is about.
#[derive(Clone, Copy, Debug)]
pub enum Origin {
    /// The one that a command takes.
    Taken,
    /// The listed one of this number in the settings, from 0.
    Listed(usize),
    /// The one in the line of answers of this number, from 1.
    Answered(usize),
}

impl fmt::Display for Origin {
    ghost output = { λ origin. Some (origin_text origin) };

    fn fmt<W: fmt::Write>(&self, f: &mut fmt::Formatter<W>) -> fmt::Result {
        match self {
            Origin::Taken => f.write_str("scenario"),
            Origin::Listed(number) => write!(f, "settings: scenario {number}"),
            Origin::Answered(number) => write!(f, "answers: line {number}"),
        }
    }
}

/// Whether a point has this name.
fn is_point(points: &[&str], name: &str) -> bool
    ensures { result ≡ is_point (texts points.now) name.now }
{
    for point in points {
        if *point == name {
            return true;
        }
    }
    false
}

/// Appends the line of a name that no point has.
pub fn write_strange(out: &mut String, origin: Origin, name: &str) -> Result<(), AllocError>
    ensures { OnOk result (string_bytes out.new ≡ string_bytes out.old ++ ended (stranger_line origin name.now)) }
{
    write!(out, "{origin}: no point is named ")?;
    write_escaped(out, name)?;
    out.push_str("\n")
}

/// The same, if no point has this name.
fn write_if_strange(
    out: &mut String,
    points: &[&str],
    origin: Origin,
    name: &str,
) -> Result<(), AllocError>
    ensures { OnOk result (string_bytes out.new ≡ string_bytes out.old ++ text_of (stranger_of (texts points.now) origin name.now)) }
{
    if is_point(points, name) {
        return Ok(());
    }
    write_strange(out, origin, name)
}

/// Appends a line for each name of the scenario that no point has, in the scenario's order.
fn write_strangers(
    out: &mut String,
    points: &[&str],
    origin: Origin,
    scenario: &Scenario,
) -> Result<(), AllocError>
    ensures { OnOk result (string_bytes out.new ≡ string_bytes out.old ++ text_of (strangers_in (texts points.now) origin scenario.now)) }
{
    for (name, _) in scenario.entries() {
        write_if_strange(out, points, origin, name.as_str())?;
    }
    Ok(())
}

/// Whether a text has an ASCII control character.
fn has_control(text: &str) -> bool
    ensures { result ≡ has_control text.now }
{
    text.as_bytes().iter().any(|byte| byte.is_ascii_control())
}

/// Appends the line of a control character.
fn write_control(out: &mut String, origin: Origin) -> Result<(), AllocError>
    ensures { OnOk result (string_bytes out.new ≡ string_bytes out.old ++ ended (control_line origin)) }
{
    writeln!(
        out,
        "{origin}: a control character: what follows it in the text may look like a line of its own"
    )
}

/// Appends a line if a control character stands in the scenario.
fn write_if_control(
    alloc: Global,
    out: &mut String,
    origin: Origin,
    scenario: &Scenario,
) -> Result<(), AllocError>
    ensures { OnOk result (string_bytes out.new ≡ string_bytes out.old ++ text_of (control_lines origin scenario.now)) }
{
    let text = print(alloc, scenario)?;
    if has_control(text.as_str()) {
        write_control(out, origin)?;
    }
    Ok(())
}

/// Appends the notes on a scenario: a line for each name that no point has, in the scenario's order, and one if a control character stands in it.
#[tactic(auto, unfolding(crate::specs::Notes::scenario_notes))]
fn write_notes(
    alloc: Global,
    out: &mut String,
    points: &[&str],
    origin: Origin,
    scenario: &Scenario,
) -> Result<(), AllocError>
    ensures { OnOk result (string_bytes out.new ≡ string_bytes out.old ++ scenario_notes (texts points.now) origin scenario.now) }
{
    write_strangers(out, points, origin, scenario)?;
    write_if_control(alloc, out, origin, scenario)
}

/// The notes on the scenario that a command takes.
pub fn notes_on(alloc: Global, points: &[&str], scenario: &Scenario) -> Result<String, AllocError>
    ensures { IfOk result (λ lines. string_bytes lines ≡ notes_of (texts points.now) scenario.now) }
{
    let mut lines = String::new(alloc);
    write_notes(alloc, &mut lines, points, Origin::Taken, scenario)?;
    Ok(lines)
}

/// The notes on the scenarios that the settings list, numbered from 0.
fn listed_on(alloc: Global, points: &[&str], listed: &[Scenario]) -> Result<String, AllocError>
    ensures { IfOk result (λ lines. string_bytes lines ≡ listed_notes (texts points.now) listed.now) }
{
    let mut lines = String::new(alloc);
    for place in 0..listed.len() {
        let origin = Origin::Listed(place);
        write_notes(alloc, &mut lines, points, origin, &listed[place])?;
    }
    Ok(lines)
}

/// The notes on the scenarios that the settings of a target list. An error means that memory was refused.
pub fn listed_of<T: Target>(
    alloc: Global,
    settings: &CampaignSettings,
) -> Result<String, AllocError>
    ensures { IfOk result (λ lines. string_bytes lines ≡ listed_notes T.names settings.now.plans.listed) }
{
    listed_on(alloc, T::catalogue(), settings.scenarios.as_slice())
}

/// The same for a component that somebody else runs.
pub fn listed_outside(alloc: Global, campaign: &OutsideCampaign<'_>) -> Result<String, AllocError>
    ensures { IfOk result (λ lines. string_bytes lines ≡ listed_notes campaign.now.outside.now.points campaign.now.settings.now.plans.listed) }
{
    let outside = campaign.outside;
    let settings = campaign.settings;
    let points = borrowed(alloc, outside.points.as_slice())?;
    listed_on(alloc, points.as_slice(), settings.scenarios.as_slice())
}

/// Appends a line if the condition holds.
fn write_if(out: &mut String, condition: bool, line: &str) -> Result<(), AllocError>
    ensures { OnOk result (string_bytes out.new ≡ string_bytes out.old ++ text_if condition line.now) }
{
    if condition {
        writeln!(out, "{line}")?;
    }
    Ok(())
}

/// Appends the line of how many plans are unresolved.
fn write_unresolved(out: &mut String, unresolved: u32, plans: u32) -> Result<(), AllocError>
    ensures { OnOk result (string_bytes out.new ≡ string_bytes out.old ++ ended (unresolved_line unresolved plans)) }
{
    writeln!(out, "strict: {unresolved} of {plans} plans unresolved")
}

/// The same, if the condition holds.
fn write_if_unresolved(
    out: &mut String,
    condition: bool,
    unresolved: u32,
    plans: u32,
) -> Result<(), AllocError>
    ensures { OnOk result (string_bytes out.new ≡ string_bytes out.old ++ text_if condition (unresolved_line unresolved plans)) }
{
    if condition {
        write_unresolved(out, unresolved, plans)?;
    }
    Ok(())
}

/// Whether there are no hits.
pub fn is_never(hits: u32) -> bool
    ensures { result ≡ (hits == 0) }
{
    hits == 0
}

/// Whether a number isn't 0.
pub fn is_some_number(number: u32) -> bool
    ensures { result ≡ nat_lt 0 number }
{
    number > 0
}

/// Appends a line for each of these doubts.
pub fn write_doubts(out: &mut String, doubts: &Doubts) -> Result<(), AllocError>
    ensures { OnOk result (string_bytes out.new ≡ string_bytes out.old ++ doubt_notes doubts.now) }
{
    write_if(out, doubts.clean, "strict: clean unresolved")?;
    let some = is_some_number(doubts.unresolved);
    write_if_unresolved(out, some, doubts.unresolved, doubts.plans)?;
    write_if(out, doubts.unhit, "strict: no hits without faults")?;
    write_if(out, doubts.unstormed, "strict: storms of rate 0")
}

/// The name of the point of this number.
fn point_name<'a>(points: &[&'a str], point: u32) -> &'a str
    requires { point < length points.now }
    ensures { result.now ≡ slice_index_or (texts points.now) point [] }
{
    points[point as usize]
}

/// Appends the line of a point that no run reaches, by its name.
fn write_unreached_name(out: &mut String, name: &str) -> Result<(), AllocError>
    ensures { OnOk result (string_bytes out.new ≡ string_bytes out.old ++ ended (unreached_line name.now)) }
{
    writeln!(out, "strict: no run reaches {name}")
}

/// The same, by the number of the point.
fn write_unreached(out: &mut String, points: &[&str], point: u32) -> Result<(), AllocError>
    requires { point < length points.now }
    ensures { OnOk result (string_bytes out.new ≡ string_bytes out.old ++ ended (unreached_line (slice_index_or (texts points.now) point []))) }
{
    write_unreached_name(out, point_name(points, point))
}

/// Appends a line for each point of these numbers, which no run reaches.
pub fn write_all_unreached(
    out: &mut String,
    points: &[&str],
    unreached: &[u32],
) -> Result<(), AllocError>
    requires { All (λ p. p < length points.now) unreached.now }
    ensures { OnOk result (string_bytes out.new ≡ string_bytes out.old ++ text_of (unreached_lines (texts points.now) unreached.now)) }
{
    for point in unreached {
        write_unreached(out, points, *point)?;
    }
    Ok(())
}

/// Whether no point is hit.
pub fn is_unhit(counts: &[u32]) -> bool
    ensures { result ≡ is_unhit counts.now }
{
    counts.iter().all(|count| *count == 0)
}

/// Whether there are storms that draw nothing, as their rate is 0.
pub fn draws_nothing(settings: &CampaignSettings) -> bool
    ensures { result ≡ draws_nothing settings.now.plans }
{
    settings.storms > 0 && settings.rate == 0
}

fn is_unresolved(verdict: Verdict) -> bool
    ensures { result ≡ is_unresolved verdict }
{
    matches!(verdict, Verdict::Unresolved)
}

/// What the report of a campaign with these verdicts and this census doesn't show.
fn doubts_of(verdicts: &[Verdict], census: &[u32], settings: &CampaignSettings) -> Doubts
    requires some { 0 < length verdicts.now }
    requires few { length verdicts.now < 2 ^ 32 }
    ensures clean { result.clean ≡ is_unresolved (slice_index_or verdicts.now 0 Unresolved) }
    ensures unresolved { result.unresolved ≡ count_by is_unresolved verdicts.now }
    ensures plans { result.plans ≡ length verdicts.now }
    ensures unhit { result.unhit ≡ is_unhit census.now }
    ensures unstormed { result.unstormed ≡ draws_nothing settings.now.plans }
{
    Doubts {
        clean: is_unresolved(verdicts[0]),
        unresolved: unresolved(verdicts) as u32,
        plans: verdicts.len() as u32,
        unhit: is_unhit(census),
        unstormed: draws_nothing(settings),
    }
}

/// The notes on a strict report, by what the campaign's runs came to. An error means that memory was refused.
fn strict_on<T: Target>(
    alloc: Global,
    subject: &Subject<'_, T>,
    ran: &Ran<'_>,
) -> Result<String, AllocError>
    requires ran { IsRan (campaign_in T.Target subject.now) ran.now }
    requires unreached { ran.now.results.unreached.items ≡ unreached (campaign_in T.Target subject.now) }
    ensures { IfOk result (λ lines. string_bytes lines ≡ strict_notes (campaign_in T.Target subject.now)) }
{
    let results = &ran.results;
    let verdicts = results.verdicts.as_slice();
    let census = ran.planned.census.counts.as_slice();
    let doubts = doubts_of(verdicts, census, subject.settings);
    let mut lines = String::new(alloc);
    write_doubts(&mut lines, &doubts)?;
    let unreached = results.unreached.as_slice();
    write_all_unreached(&mut lines, T::catalogue(), unreached)?;
    Ok(lines)
}

/// The notes on the report of a campaign whose plans have run. If the report is strict, the campaign has to be one that was surveyed. An error means
/// that memory was refused.
pub fn report_notes_on<T: Target>(
    alloc: Global,
    subject: &Subject<'_, T>,
    ran: &Ran<'_>,
    strict: bool,
) -> Result<String, AllocError>
    requires ran { IsRan (campaign_in T.Target subject.now) ran.now }
    requires unreached { strict ≡ true → ran.now.results.unreached.items ≡ unreached (campaign_in T.Target subject.now) }
    ensures { IfOk result (λ lines. string_bytes lines ≡ report_notes strict (campaign_in T.Target subject.now)) }
{
    let mut lines = listed_of::<T>(alloc, subject.settings)?;
    if strict {
        let more = strict_on(alloc, subject, ran)?;
        lines.push_str(more.as_str())?;
    }
    Ok(lines)
}

/// Whether there are notes, and the report is strict.
pub fn is_doubted(strict: bool, notes: &str) -> bool
    ensures { result ≡ is_doubted strict notes.now }
{
    strict && !notes.is_empty()
}
