//! Made-up components, and what the report of a campaign on one is by the plain recursion.

use campaign_core::fault_count;
use report::write_scenario;
use scenario_grammar::{Scenario, parse};
use scenario_values::{are_faults, keep, tidy};
use std::alloc::Global;
use std::fmt::Write;
use std::test::Fail;

/// The scenario of a text as it is asked.
fn asked_scenario(alloc: Global, text: &str) -> Result<Scenario, Fail> {
    Ok(parse(alloc, if text == "none" { "" } else { text })?)
}

/// A number that a text gives, which looks random.
pub fn number_of(salt: u32, text: &str) -> u32 {
    let mut number = salt;
    for byte in text.bytes() {
        number = (number ^ u32::from(byte)).wrapping_mul(16777619);
    }
    number >> 16
}

/// The verdict of a tidied scenario's text. Each salt makes another component.
pub fn verdict_of(salt: u32, text: &str) -> &'static str {
    match number_of(salt, text) % 16 {
        0 | 1 => "unresolved",
        2 | 3 | 4 | 5 => "fail a",
        6 | 7 => "fail b",
        _ => "pass",
    }
}

/// The text of a scenario once it is tidied.
pub fn tidied_text(alloc: Global, scenario: &Scenario) -> Result<String, Fail> {
    let mut text = String::new(alloc);
    write_scenario(alloc, &mut text, &tidy(alloc, scenario)?)?;
    Ok(text)
}

/// The text of the scenario with these faults alone, tidied.
fn kept_text(alloc: Global, scenario: &Scenario, set: &[u32]) -> Result<String, Fail> {
    if !are_faults(fault_count(alloc, scenario)?, set) {
        return Err(Fail::from("no faults of the scenario"));
    }
    tidied_text(alloc, &keep(alloc, scenario, set)?)
}

/// A part of the set, or all but that part.
fn piece(alloc: Global, set: &[u32], parts: usize, place: usize) -> Result<Vec<u32>, Fail> {
    let part = place % parts.max(1);
    let low = part.saturating_mul(set.len()) / parts.max(1);
    let high = part.saturating_add(1).saturating_mul(set.len()) / parts.max(1);
    let mut piece = Vec::new(alloc);
    for (at, fault) in set.iter().enumerate() {
        if (low <= at && at < high) == (place < parts) {
            piece.push(*fault)?;
        }
    }
    Ok(piece)
}

/// The first piece of a round that fails with this word, and its place; each test is counted.
fn failing_piece(
    alloc: Global,
    salt: u32,
    scenario: &Scenario,
    word: &str,
    set: &[u32],
    parts: usize,
    tests: &mut u64,
) -> Result<Option<(Vec<u32>, bool)>, Fail> {
    let rounds = if parts > 2 { 2 } else { 1 };
    for place in 0..parts.saturating_mul(rounds) {
        let piece = piece(alloc, set, parts, place)?;
        *tests = tests.saturating_add(1);
        if verdict_of(salt, kept_text(alloc, scenario, piece.as_slice())?.as_str()) == word {
            return Ok(Some((piece, place < parts)));
        }
    }
    Ok(None)
}

/// The lines of a first failure, by delta debugging as Zeller and Hildebrandt write it.
fn reduced_lines(
    alloc: Global,
    salt: u32,
    scenario: &Scenario,
    word: &str,
) -> Result<String, Fail> {
    let mut tests = 1;
    let mut set = Vec::new(alloc);
    if verdict_of(salt, "none") != word {
        for fault in 0..fault_count(alloc, scenario)? {
            set.push(fault)?;
        }
    }
    let mut parts = 2usize;
    for _ in 0..1000 {
        if set.len() < 2 {
            break;
        }
        let found = failing_piece(alloc, salt, scenario, word, &set, parts, &mut tests)?;
        match found {
            Some((piece, is_part)) => {
                set = piece;
                parts = if is_part {
                    2
                } else {
                    parts.saturating_sub(1).max(2)
                };
            }
            None if parts >= set.len() => break,
            None => parts = parts.saturating_mul(2).min(set.len()),
        }
    }
    if fault_count(alloc, scenario)? == 0 {
        tests = 0;
    }
    let kept = kept_text(alloc, scenario, set.as_slice())?;
    Ok(format!(in alloc; "reduced {kept}\ntests {tests}\n")?)
}

/// Writes the lines of a first failure.
fn write_first(
    alloc: Global,
    salt: u32,
    number: &str,
    text: &str,
    scenario: &Scenario,
    word: &str,
    firsts: &mut String,
) -> Result<(), Fail> {
    let name = word.trim_start_matches("fail ");
    let reduced = reduced_lines(alloc, salt, scenario, word)?;
    write!(firsts, "first {number} {name}\nscenario {text}\n{reduced}")?;
    Ok(())
}

/// Writes what the report says of a plan. These words were seen before.
fn write_plan(
    alloc: Global,
    salt: u32,
    line: &str,
    seen: &mut Vec<&'static str>,
    verdicts: &mut String,
    firsts: &mut String,
) -> Result<(), Fail> {
    let Some((numbered, text)) = line.rsplit_once(' ') else {
        return Err(Fail::from("no plan"));
    };
    let scenario = asked_scenario(alloc, text)?;
    let word = verdict_of(salt, tidied_text(alloc, &scenario)?.as_str());
    let number = numbered.trim_start_matches("plan ");
    writeln!(verdicts, "verdict {number} {word}")?;
    if word.starts_with("fail ") && !seen.contains(&word) {
        seen.push(word)?;
        write_first(alloc, salt, number, text, &scenario, word, firsts)?;
    }
    Ok(())
}

/// The report of a campaign on the component, of a list of plans as it is written.
pub fn plain_report(alloc: Global, salt: u32, head: &str, plans: &str) -> Result<String, Fail> {
    let mut verdicts = String::new(alloc);
    let mut firsts = String::new(alloc);
    let mut seen = Vec::new(alloc);
    let mut count = 0u32;
    for line in plans.lines() {
        write_plan(alloc, salt, line, &mut seen, &mut verdicts, &mut firsts)?;
        count = count.wrapping_add(1);
    }
    if firsts.is_empty() {
        firsts.push_str("first none\n")?;
    }
    let clean = verdict_of(salt, "none");
    Ok(format!(in alloc;
        "target t\nseed 7\nclean {clean}\n{head}plans {count}\n{verdicts}{firsts}"
    )?)
}
