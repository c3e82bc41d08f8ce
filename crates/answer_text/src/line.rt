//! One line of a text of answers, read.
ghost use Rattle.std.specs.Prelude.{◌≡◌, ◌<◌, ◌^◌, length, option_map};
ghost use Rattle.scenario_grammar.specs.Words.{cut};
ghost use Rattle.answer_text.specs.FirstFault.{Gives, after_tab, answer_in, before_tab, has_control, parts_in, scenario_in};
ghost use Rattle.answer_text.specs.Runs.{run_in};

use crate::fault::{LineError, LineFault};
use crate::hits::field_in;
use crate::names::PointNames;
use crate::runs::RunLine;
use crate::tidying::tidied_from;
use crate::verdicts::verdict_in;
use indexmap::IndexMap;
use scenario_grammar::{Scenario, ScenarioFault, Text, cut_once, parse};
use std::alloc::Global;
use std::str;
use target_trait::Verdict;

fn has_control(text: &str) -> bool
    ensures { result ≡ has_control text.now }
{
    text.as_bytes().iter().any(|b| b.is_ascii_control())
}

/// The text before the first tab of a line, and the text after it.
#[tactic(auto, unfolding(crate::specs::FirstFault::parts_in))]
pub fn parts_in(line: &[u8]) -> Result<(&str, &str), LineError>
    ensures { Gives (λ x. (x.0.now, x.1.now)) result (parts_in line.now) }
{
    let Ok(line) = str::from_utf8(line) else {
        return Err(LineError::Bad(LineFault::NotUtf8));
    };
    match cut_once(line, '\t') {
        Some((word, text)) => Ok((word, text)),
        None => Err(LineError::Bad(LineFault::NoTab)),
    }
}

/// The text before the second tab of a line, and the text after it, if there is a second tab.
fn fields_of(rest: &str) -> (&str, Option<&str>)
    ensures text { result.0.now ≡ before_tab rest.now (cut 9 rest.now) }
    ensures field { option_map (λ text. text.now) result.1 ≡ after_tab (cut 9 rest.now) }
{
    match cut_once(rest, '\t') {
        Some((text, field)) => (text, Some(field)),
        None => (rest, None),
    }
}

/// The scenario that a text spells, before it is tidied.
#[tactic(auto, unfolding(crate::specs::FirstFault::scenario_in))]
pub fn scenario_in(alloc: Global, text: &str) -> Result<Scenario, LineError>
    ensures { Gives (λ s. s) result (scenario_in text.now) }
{
    if text == "none" {
        return Ok(Scenario::from_entries(IndexMap::new(alloc)));
    }
    if has_control(text) {
        return Err(LineError::Bad(LineFault::ControlByte));
    }
    match parse(alloc, text) {
        Ok(scenario) => Ok(scenario),
        Err(ScenarioFault::Bad { kind, entry, term }) => Err(LineError::Bad(LineFault::Scenario {
            kind,
            entry,
            term,
        })),
        Err(ScenarioFault::Memory) => Err(LineError::Memory),
    }
}

/// What a line records before its hits: its tidied scenario and its verdict; and the text of the hits, if it has any. The hits aren't read, so the
/// text may have a fault.
#[tactic(auto, unfolding(crate::specs::FirstFault::answer_in))]
fn answer_in<'a>(
    alloc: Global,
    codes: &[Text],
    line: &'a [u8],
) -> Result<((Scenario, Verdict), Option<&'a str>), LineError>
    requires { length codes.now < 2 ^ 32 }
    ensures { Gives (λ x. ((x.0.0, x.0.1), option_map (λ text. text.now) x.1)) result (answer_in codes.now line.now) }
{
    let (word, rest) = parts_in(line)?;
    let verdict = verdict_in(alloc, codes, word)?;
    let (text, field) = fields_of(rest);
    let scenario = scenario_in(alloc, text)?;
    Ok(((tidied_from(alloc, scenario)?, verdict), field))
}

/// What a line records of a run. `needed` says whether it has to have hits.
#[tactic(auto, unfolding(crate::specs::Runs::run_in))]
pub fn run_in(
    alloc: Global,
    codes: &[Text],
    points: &PointNames<'_>,
    needed: bool,
    line: &[u8],
) -> Result<RunLine, LineError>
    requires { length codes.now < 2 ^ 32 }
    ensures { Gives (λ run. run) result (run_in needed codes.now points.now line.now) }
{
    let ((scenario, verdict), field) = answer_in(alloc, codes, line)?;
    let hits = field_in(alloc, points, needed, verdict, field)?;
    Ok(RunLine {
        scenario,
        verdict,
        hits,
    })
}
