//! The listed scenarios of the settings.
ghost use Rattle.std.specs.Prelude.{◌≡◌, ◌≤◌, Ok, IfOk, IfErr, OnOk, option_map, length};
ghost use Rattle.std.specs.List.{list_all};
ghost use Rattle.toml.specs.View.{view};
ghost use Rattle.campaign_settings.specs.Outside.{are_certain, can_be_handed, is_certain};
ghost use Rattle.campaign_settings.specs.Settings.{RefusedBy, allowed_for, listed_as, scenarios_at, spelled_at, spelled_from};
ghost use Rattle.scenario_grammar.specs.FirstFault.{reading};

use crate::choice::Setup;
use crate::fault::SettingsFault;
use crate::keys::Key;
use crate::lists::read_texts;
use crate::names::has_control;
use scenario_grammar::{Scenario, ScenarioFault, Term, Text, parse, print};
use std::alloc::{AllocError, Global};
use toml::Value;

/// The scenarios at a key; only if the target may have some.
pub fn read_scenarios(
    alloc: Global,
    setup: Setup,
    value: Option<&Value>,
) -> Result<Vec<Scenario>, SettingsFault>
    ensures ok { IfOk result (λ scenarios. scenarios_at setup (option_map (λ v. view v.now) value.entry) ≡ Ok scenarios.items) }
    ensures few { IfOk result (λ scenarios. length scenarios.items ≤ 1000) }
    ensures refused { IfErr result (RefusedBy (scenarios_at setup (option_map (λ v. view v.now) value.entry))) }
{
    let scenarios = read_listed(alloc, value)?;
    refuse_unfit(alloc, setup, scenarios.as_slice())?;
    Ok(scenarios)
}

/// The scenarios at a key.
pub fn read_listed(alloc: Global, value: Option<&Value>) -> Result<Vec<Scenario>, SettingsFault>
    ensures ok { IfOk result (λ scenarios. spelled_at (option_map (λ v. view v.now) value.entry) ≡ Ok scenarios.items) }
    ensures few { IfOk result (λ scenarios. length scenarios.items ≤ 1000) }
    ensures refused { IfErr result (RefusedBy (spelled_at (option_map (λ v. view v.now) value.entry))) }
{
    let texts = read_texts(alloc, Key::Scenarios, 1000, value)?;
    parse_all(alloc, texts.as_slice())
}

// The scenario that a text spells, listed under this number.
fn parse_one(alloc: Global, number: u32, text: &Text) -> Result<Scenario, SettingsFault>
    ensures ok { IfOk result (λ scenario. listed_as number (reading text.now) ≡ Ok scenario) }
    ensures refused { IfErr result (RefusedBy (listed_as number (reading text.now))) }
{
    match parse(alloc, text.as_str()) {
        Ok(scenario) => Ok(scenario),
        Err(ScenarioFault::Bad { kind, entry, term }) => Err(SettingsFault::Scenario {
            number,
            kind,
            entry,
            term,
        }),
        Err(ScenarioFault::Memory) => Err(SettingsFault::Memory),
    }
}

fn parse_all(alloc: Global, texts: &[Text]) -> Result<Vec<Scenario>, SettingsFault>
    requires { length texts.now ≤ 1000 }
    ensures ok { IfOk result (λ scenarios. spelled_from 0 texts.now ≡ Ok scenarios.items) }
    ensures few { IfOk result (λ scenarios. length scenarios.items ≤ 1000) }
    ensures refused { IfErr result (RefusedBy (spelled_from 0 texts.now)) }
{
    let mut scenarios = Vec::new(alloc);
    let mut number = 0u32;
    for text in texts {
        scenarios.push(parse_one(alloc, number, text)?)?;
        number += 1;
    }
    Ok(scenarios)
}

// Refuses scenarios if the target may not have any.
fn refuse_unfit(alloc: Global, setup: Setup, scenarios: &[Scenario]) -> Result<(), SettingsFault>
    ensures ok { OnOk result (allowed_for setup scenarios.now ≡ Ok scenarios.now) }
    ensures refused { IfErr result (RefusedBy (allowed_for setup scenarios.now)) }
{
    match setup {
        Setup::Outside => {
            if all_can_be_handed(alloc, scenarios)? {
                Ok(())
            } else {
                Err(SettingsFault::OutOfRange(Key::Scenarios))
            }
        }
        _ => Ok(()),
    }
}

fn all_can_be_handed(alloc: Global, scenarios: &[Scenario]) -> Result<bool, AllocError>
    ensures { IfOk result (λ all. all ≡ list_all can_be_handed scenarios.now) }
{
    for scenario in scenarios {
        if !can_be_handed(alloc, scenario)? {
            return Ok(false);
        }
    }
    Ok(true)
}

/// Whether a scenario may be handed to a component that somebody else runs: nothing in it is drawn, and its text has no control character.
fn can_be_handed(alloc: Global, scenario: &Scenario) -> Result<bool, AllocError>
    ensures { IfOk result (λ can. can ≡ can_be_handed scenario.now) }
{
    if !are_certain(scenario) {
        return Ok(false);
    }
    let text = print(alloc, scenario)?;
    Ok(!has_control(text.as_str()))
}

/// Whether no term of a scenario draws a word.
fn are_certain(scenario: &Scenario) -> bool
    ensures { result ≡ are_certain scenario.now }
{
    scenario
        .entries()
        .as_slice()
        .iter()
        .all(|entry| is_certain_chain(entry.1.terms()))
}

fn is_certain_chain(terms: &[Term]) -> bool
    ensures { result ≡ list_all is_certain terms.now }
{
    terms.iter().all(|term| is_certain(term))
}

/// Whether a term draws no word: its share is 0 or full.
fn is_certain(term: &Term) -> bool
    ensures { result ≡ is_certain term.now }
{
    term.share == 0 || term.share == 1000000
}
