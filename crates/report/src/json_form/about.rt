//! What a document has beside its report.
ghost use Rattle.std.specs.Prelude.{◌≡◌, ◌++◌, ◌≤◌, length, map, codes, option_copied, OnOk};
ghost use Rattle.json.specs.Json.{string};
ghost use Rattle.grown_plans.specs.numbered.GrownScenarios.{grown_among};
ghost use Rattle.report.specs.json_form.About.{about_value, grown_value, listed_from, plans_between, shown_of, storms_from};
ghost use Rattle.report.specs.json_form.Values.{list_of, scenario_value};
ghost use Rattle.report.specs.json_form.inside.Tokens.{all_tokens, member_tokens};

use crate::json_form::faults::write_faults;
use crate::json_form::members::{begin_list, write_scenario_value, write_text};
use crate::json_form::runs::{Runs, write_runs};
use grown_plans::{CampaignPlans, GrownPlans};
use json::{Pretty, Token};
use std::alloc::{AllocError, Global};
use std::marker::Model;
use std::ops::Range;

/// Who made a document.
#[derive(Drop)]
pub struct Notes<'a> {
    /// The version of the program.
    pub version: &'a str,
    /// The source of the runs: `target` or `answers`.
    pub told_by: &'a str,
    /// The command that makes the document.
    pub command: &'a str,
}

impl<'a> Model for Notes<'a> {
    ghost use Rattle.report.specs.json_form.About.{NotesFacts};

    ghost Value = { NotesFacts };

    ghost view = { λ n. record { version = n.version.now; told_by = n.told_by.now; command = n.command.now } };
}

/// What is shown of a campaign beside the facts of its report.
#[derive(Drop)]
pub struct Shown<'a> {
    /// The plans, in the order of their numbers, from 0.
    pub plans: &'a CampaignPlans<'a>,
    /// The plans that grew, if the campaign has a depth. They come first among the plans.
    pub grown: Option<&'a GrownPlans>,
    /// How many storms stand behind these.
    pub storms: usize,
    /// How many listed scenarios of the settings stand at the end.
    pub listed: usize,
    /// The text of the settings.
    pub settings: &'a str,
}

impl<'a> Model for Shown<'a> {
    ghost use Rattle.std.specs.Prelude.{option_copied};
    ghost use Rattle.grown_plans.specs.numbered.GrownScenarios.{grown_among};
    ghost use Rattle.report.specs.json_form.About.{ShownFacts, shown_of};

    ghost Value = { ShownFacts };

    ghost view = { λ s. shown_of s.plans.now (grown_among (option_copied s.grown)) s.storms s.listed s.settings.now };
}

impl<'a> Shown<'a> {
    /// What is shown of these plans: those that grew come first, then `storms` storms and `listed` listed scenarios.
    pub fn new(
        plans: &'a CampaignPlans<'a>,
        grown: Option<&'a GrownPlans>,
        storms: usize,
        listed: usize,
        settings: &'a str,
    ) -> Self
        ensures { result ≡ shown_of plans.entry.now (grown_among (option_copied grown.entry)) storms listed settings.entry.now }
    {
        Shown {
            plans,
            grown,
            storms,
            listed,
            settings,
        }
    }
}

/// What a document has beside its report: who made it, what is shown of the campaign, and the runs that are shown.
#[derive(Drop)]
pub struct Appendix<'a> {
    pub notes: &'a Notes<'a>,
    pub shown: &'a Shown<'a>,
    pub runs: &'a Runs,
}

/// An item for the scenario of each plan from one number up to another.
fn write_each_scenario(
    alloc: Global,
    out: &mut Pretty,
    plans: &CampaignPlans<'_>,
    first: usize,
    end: usize,
) -> Result<(), AllocError>
    requires ordered { first ≤ end }
    requires within { end ≤ length plans.now }
    ensures { OnOk result (out.new ≡ out.old ++ all_tokens (map scenario_value (plans_between first end plans.now))) }
{
    for number in first..end {
        write_scenario_value(alloc, out, &plans.plan(number).scenario(alloc)?)?;
    }
    Ok(())
}

/// A member with the scenarios of the plans from one number up to another.
fn write_scenarios(
    alloc: Global,
    out: &mut Pretty,
    name: &str,
    plans: &CampaignPlans<'_>,
    numbers: Range<usize>,
) -> Result<(), AllocError>
    requires ordered { numbers.start ≤ numbers.end }
    requires within { numbers.end ≤ length plans.now }
    ensures { OnOk result (out.new ≡ out.old
        ++ member_tokens name.now (list_of (map scenario_value (plans_between numbers.start numbers.end plans.now)))) }
{
    begin_list(out, name)?;
    write_each_scenario(alloc, out, plans, numbers.start, numbers.end)?;
    out.token(Token::EndArray)
}

/// An item for each plan that grew: its faults, as `2 1 1*return; 4 1 1*panic`.
fn write_each_grown(alloc: Global, out: &mut Pretty, grown: &GrownPlans) -> Result<(), AllocError>
    ensures { OnOk result (out.new ≡ out.old ++ all_tokens (map grown_value grown.now)) }
{
    let mut faults = Vec::new(alloc);
    for number in 0..grown.len() {
        grown.faults_of(number, &mut faults)?;
        let mut text = String::new(alloc);
        write_faults(&mut text, faults.as_slice())?;
        out.token(Token::String(text.as_str()))?;
    }
    Ok(())
}

fn write_each_grown_among(
    alloc: Global,
    out: &mut Pretty,
    grown: Option<&GrownPlans>,
) -> Result<(), AllocError>
    ensures { OnOk result (out.new ≡ out.old ++ all_tokens (map grown_value (grown_among (option_copied grown.entry)))) }
{
    match grown {
        None => Ok(()),
        Some(grown) => write_each_grown(alloc, out, grown),
    }
}

/// A member with each plan that grew.
fn write_grown(
    alloc: Global,
    out: &mut Pretty,
    grown: Option<&GrownPlans>,
) -> Result<(), AllocError>
    ensures { OnOk result (out.new ≡ out.old ++ member_tokens (codes "grown") (list_of (map grown_value (grown_among (option_copied grown.entry))))) }
{
    begin_list(out, "grown")?;
    write_each_grown_among(alloc, out, grown)?;
    out.token(Token::EndArray)
}

/// Who made the document, and from which settings.
fn write_made(out: &mut Pretty, notes: &Notes<'_>, settings: &str) -> Result<(), AllocError>
    ensures { OnOk result (out.new ≡ out.old
        ++ member_tokens (codes "program_version") (string notes.now.version)
        ++ member_tokens (codes "told_by") (string notes.now.told_by)
        ++ member_tokens (codes "command") (string notes.now.command)
        ++ member_tokens (codes "settings") (string settings.now)) }
{
    write_text(out, "program_version", notes.version)?;
    write_text(out, "told_by", notes.told_by)?;
    write_text(out, "command", notes.command)?;
    write_text(out, "settings", settings)
}

/// The plans that the report doesn't spell.
fn write_plans(alloc: Global, out: &mut Pretty, shown: &Shown<'_>) -> Result<(), AllocError>
    ensures { OnOk result (out.new ≡ out.old
        ++ member_tokens (codes "storms") (list_of (map scenario_value (plans_between (storms_from shown.now) (listed_from shown.now) shown.now.plans)))
        ++ member_tokens (codes "listed") (list_of (map scenario_value (plans_between (listed_from shown.now) (length shown.now.plans) shown.now.plans)))
        ++ member_tokens (codes "grown") (list_of (map grown_value shown.now.grown))) }
{
    let plans = shown.plans;
    let count = plans.len();
    let listed_from = count.saturating_sub(shown.listed);
    let storms_from = listed_from.saturating_sub(shown.storms);
    write_scenarios(alloc, out, "storms", plans, storms_from..listed_from)?;
    write_scenarios(alloc, out, "listed", plans, listed_from..count)?;
    write_grown(alloc, out, shown.grown)
}

/// The member with what a document has beside its report.
pub fn write_about(
    alloc: Global,
    out: &mut Pretty,
    appendix: &Appendix<'_>,
) -> Result<(), AllocError>
    ensures { OnOk result (out.new ≡ out.old
        ++ member_tokens (codes "about") (about_value appendix.now.notes.now appendix.now.shown.now appendix.now.runs.now)) }
{
    let shown = appendix.shown;
    out.token(Token::Key("about"))?;
    out.token(Token::BeginObject)?;
    write_made(out, appendix.notes, shown.settings)?;
    write_plans(alloc, out, shown)?;
    write_runs(out, appendix.runs)?;
    out.token(Token::EndObject)
}
