//! Scenarios of rigged hits.
ghost use Rattle.std.specs.Prelude.{◌≡◌, ◌≤◌, ◌<◌, ◌^◌, [], length, IfOk, OnOk};
ghost use Rattle.std.specs.List.{AllByRecursion};
ghost use Rattle.std.specs.Str.{bytes_eq};
ghost use Rattle.indexmap.specs.IndexMap.{insert_all};
ghost use Rattle.action_eval.specs.Answers.{texts};
ghost use Rattle.action_eval.specs.Catalogue.{IsCatalogue};
ghost use Rattle.scenario_values.specs.Scenario.{entries_of};
ghost use Rattle.action_eval.specs.RiggedScenario.{chain_from, entry, rigged_scenario, most_rigs, HaveLawfulTexts};

use action_eval::{Rig, push_chain};
use indexmap::IndexMap;
use scenario_values::{Chain, Scenario, Term, Text};
use std::alloc::{AllocError, Global};

/// The chain of a point.
fn chain_of(alloc: Global, point: u32, rigs: &[Rig]) -> Result<Vec<Term>, AllocError>
    ensures { IfOk result (λ terms. terms.items ≡ chain_from point 0 rigs.now) }
{
    let mut terms = Vec::new(alloc);
    push_chain(&mut terms, point, rigs)?;
    Ok(terms)
}

/// Puts in the entry of a point if its chain has a term.
fn put_chain(
    alloc: Global,
    to: &mut IndexMap<Text, Chain>,
    name: &str,
    terms: Vec<Term>,
) -> Result<(), AllocError>
    ensures { OnOk result (to.new.entries ≡ insert_all bytes_eq to.old.entries (entry name.now terms.items)) }
{
    if !terms.is_empty() {
        to.insert(Text::copy_of(alloc, name)?, Chain::from_vec(terms))?;
    }
    Ok(())
}

/// The entries of rigged hits, put in one by one.
fn rigged_entries(
    alloc: Global,
    catalogue: &[&str],
    rigs: &[Rig],
) -> Result<IndexMap<Text, Chain>, AllocError>
    requires { length catalogue.now ≤ 64 }
    ensures { IfOk result (λ m. m.entries ≡ entries_of (rigged_scenario (texts catalogue.now) rigs.now)) }
{
    let mut to = IndexMap::new(alloc);
    let mut point = 0u32;
    for name in catalogue {
        let terms = chain_of(alloc, point, rigs)?;
        put_chain(alloc, &mut to, name, terms)?;
        point += 1;
    }
    Ok(to)
}

/// Makes the scenario of rigged hits of a catalogue's points. There may be at most 64 hits, in ascending order, as the hits of a list's plans are. An
/// error means that memory was refused.
pub fn scenario_of(alloc: Global, catalogue: &[&str], rigs: &[Rig]) -> Result<Scenario, AllocError>
    requires lawful { IsCatalogue (texts catalogue.now) }
    requires few { length rigs.now ≤ most_rigs }
    requires small { AllByRecursion (λ r. r.site.hit < 2 ^ 32) rigs.now }
    requires texts { HaveLawfulTexts rigs.now }
    ensures { IfOk result (λ s. s ≡ rigged_scenario (texts catalogue.now) rigs.now) }
{
    let entries = rigged_entries(alloc, catalogue, rigs)?;
    Ok(Scenario::from_entries(entries))
}

/// The scenario without faults.
pub fn empty_scenario(alloc: Global) -> Scenario
    ensures { result ≡ [] }
{
    Scenario::from_entries(IndexMap::new(alloc))
}
