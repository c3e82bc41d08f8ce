//! The interim report of a campaign on a component that somebody else runs.
ghost use Rattle.std.specs.Prelude.{◌≡◌, ◌^◌, ◌<◌, ◌∷◌, ◌++◌, [], Some, codes, string_bytes, IfOk, OnOk};
ghost use Rattle.std.specs.Fmt.{decimal};
ghost use Rattle.scenario_values.specs.Tidied.{tidied};
ghost use Rattle.report.specs.ReportText.{ended, text_of};
ghost use Rattle.outside_campaign.specs.Campaigns.{code_name};
ghost use Rattle.outside_campaign.specs.Partial.{answered_line, first_line, known_line, partial_text, some_fails};
ghost use Rattle.outside_campaign.specs.inside.Found.{IsAdded, IsFound};

use crate::campaign::OutsideCampaign;
use crate::table::VerdictTable;
use crate::telling::Words;
use grown_plans::{CampaignPlan, CampaignPlans};
use report::{Names, write_scenario, write_verdict};
use scenario_values::Scenario;
use std::alloc::{AllocError, Global};
use std::fmt::Write;
use target_trait::Verdict;

/// What is found of the plans that were looked at so far.
#[derive(Drop)]
struct Found {
    /// How many are answered.
    answered: usize,
    /// The lines of those that are known not to pass.
    lines: String,
    /// The first that is known to fail, with its code.
    first: Option<(u32, Scenario)>,
}

/// Appends the line of a plan that is known not to pass.
fn write_known(
    alloc: Global,
    lines: &mut String,
    words: &Words<'_>,
    verdict: Verdict,
    scenario: &Scenario,
) -> Result<(), AllocError>
    ensures { OnOk result (string_bytes lines.new ≡ string_bytes lines.old ++ ended (known_line (code_name words.now.outside.now.codes) verdict scenario.now)) }
{
    lines.push_str("known ")?;
    write_verdict(lines, words, verdict)?;
    lines.push_str(" ")?;
    write_scenario(alloc, lines, scenario)?;
    lines.push_str("\n")
}

/// Adds a plan's scenario with its verdict, which is known.
fn add(
    alloc: Global,
    words: &Words<'_>,
    found: &mut Found,
    scenario: Scenario,
    verdict: Verdict,
) -> Result<(), AllocError>
    requires { found.old.answered < 2 ^ 32 }
    ensures { OnOk result (IsAdded (code_name words.now.outside.now.codes) scenario (Some verdict) found.old found.new) }
{
    found.answered += 1;
    match verdict {
        Verdict::Pass => Ok(()),
        Verdict::Unresolved => {
            write_known(alloc, &mut found.lines, words, verdict, &scenario)?;
            Ok(())
        }
        Verdict::Fail(code) => {
            write_known(alloc, &mut found.lines, words, verdict, &scenario)?;
            if found.first.is_none() {
                found.first = Some((code, scenario));
            }
            Ok(())
        }
    }
}

/// Adds a plan, if it is answered.
fn look_at<K: VerdictTable>(
    alloc: Global,
    words: &Words<'_>,
    known: &K,
    plan: &CampaignPlan<'_>,
    found: &mut Found,
) -> Result<(), AllocError>
    requires { found.old.answered < 2 ^ 32 }
    ensures { OnOk result (IsAdded (code_name words.now.outside.now.codes) plan.now (K.verdicts known.now (tidied plan.now)) found.old found.new) }
{
    let scenario = plan.scenario(alloc)?;
    match known.look_up(alloc, &scenario)? {
        Some(verdict) => add(alloc, words, found, scenario, verdict),
        None => Ok(()),
    }
}

/// What is found of all plans.
fn found_in<K: VerdictTable>(
    alloc: Global,
    words: &Words<'_>,
    known: &K,
    plans: &CampaignPlans<'_>,
) -> Result<Found, AllocError>
    ensures { IfOk result (IsFound (code_name words.now.outside.now.codes) (K.verdicts known.now) plans.now) }
{
    let mut found = Found {
        answered: 0,
        lines: String::new(alloc),
        first: None,
    };
    for number in 0..plans.len() {
        look_at(alloc, words, known, &plans.plan(number), &mut found)?;
    }
    Ok(found)
}

/// Appends the lines of the label and the seed.
fn write_head(out: &mut String, campaign: &OutsideCampaign<'_>) -> Result<(), AllocError>
    ensures { OnOk result (string_bytes out.new ≡ string_bytes out.old
        ++ text_of ((codes "target " ++ campaign.now.outside.now.label) ∷ (codes "seed " ++ decimal campaign.now.settings.now.plans.seed) ∷ [])) }
{
    let outside = campaign.outside;
    let settings = campaign.settings;
    let label = outside.label.as_str();
    let seed = settings.seed;
    write!(out, "target {label}\nseed {seed}\n")
}

/// Appends the line that says how many plans are answered.
fn write_answered(
    out: &mut String,
    answered: usize,
    plans: usize,
    is_growing: bool,
) -> Result<(), AllocError>
    ensures { OnOk result (string_bytes out.new ≡ string_bytes out.old ++ ended (answered_line is_growing answered plans)) }
{
    if is_growing {
        writeln!(out, "answered {answered} of {plans} known")
    } else {
        writeln!(out, "answered {answered} of {plans}")
    }
}

fn write_code(out: &mut String, words: &Words<'_>, code: u32) -> Result<(), AllocError>
    ensures { OnOk result (string_bytes out.new ≡ string_bytes out.old ++ code_name words.now.outside.now.codes code) }
{
    out.push_str(words.code(code))
}

/// Appends the line of the first plan that is known to fail.
fn write_failure(
    alloc: Global,
    out: &mut String,
    words: &Words<'_>,
    code: u32,
    scenario: &Scenario,
) -> Result<(), AllocError>
    ensures { OnOk result (string_bytes out.new ≡ string_bytes out.old
        ++ ended (first_line (code_name words.now.outside.now.codes) (Some (code, scenario.now)))) }
{
    out.push_str("first so far ")?;
    write_code(out, words, code)?;
    out.push_str(" ")?;
    write_scenario(alloc, out, scenario)?;
    out.push_str("\n")
}

/// The same, or the line that says that there is none.
fn write_first(
    alloc: Global,
    out: &mut String,
    words: &Words<'_>,
    first: &Option<(u32, Scenario)>,
) -> Result<(), AllocError>
    ensures { OnOk result (string_bytes out.new ≡ string_bytes out.old ++ ended (first_line (code_name words.now.outside.now.codes) first.now)) }
{
    match first {
        None => out.push_str("first so far none\n"),
        Some((code, scenario)) => {
            write_failure(alloc, out, words, *code, scenario)?;
            Ok(())
        }
    }
}

/// The interim report by what is known of the plans, and whether one is known to fail. It has the label, the seed, how many plans are answered, a
/// line for each plan that is known not to pass, and the first that is known to fail. If `is_growing`, more plans become known as answers come in,
/// and the line `answered` ends with the word `known`.
///
/// An error means that memory was refused.
pub(crate) fn partial_text<K: VerdictTable>(
    alloc: Global,
    campaign: &OutsideCampaign<'_>,
    known: &K,
    plans: &CampaignPlans<'_>,
    is_growing: bool,
) -> Result<(String, bool), AllocError>
    ensures text { IfOk result (λ r. string_bytes r.0 ≡ partial_text campaign.now.outside.now campaign.now.settings.now.plans.seed
        is_growing (K.verdicts known.now) plans.now) }
    ensures fails { IfOk result (λ r. r.1 ≡ some_fails (K.verdicts known.now) plans.now) }
{
    let outside = campaign.outside;
    let words = Words { outside };
    let found = found_in(alloc, &words, known, plans)?;
    let mut text = String::new(alloc);
    write_head(&mut text, campaign)?;
    write_answered(&mut text, found.answered, plans.len(), is_growing)?;
    text.push_str(found.lines.as_str())?;
    write_first(alloc, &mut text, &words, &found.first)?;
    Ok((text, found.first.is_some()))
}
