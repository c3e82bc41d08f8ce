//! Scenarios from names and terms.
ghost use Rattle.std.specs.Prelude.{◌≡◌, IfOk};
ghost use Rattle.scenario_values.specs.Scenario.{IsScenario, entries_of};
ghost use Rattle.scenario_values.specs.Built.{listed};

use crate::chain::Chain;
use crate::scenario::Scenario;
use crate::term::Term;
use crate::text::Text;
use indexmap::IndexMap;
use std::alloc::{AllocError, Global};

/// A chain of copies of the terms.
fn copied_chain(alloc: Global, terms: &[Term]) -> Result<Chain, AllocError>
    ensures { IfOk result (λ c. c ≡ terms.now) }
{
    let mut copies = Vec::with_capacity(alloc, terms.len())?;
    for term in terms {
        copies.push(term.try_clone()?)?;
    }
    Ok(Chain::from_vec(copies))
}

/// Copies of the names with their chains, put in one by one.
fn built_entries(
    alloc: Global,
    entries: &[(&str, &[Term])],
) -> Result<IndexMap<Text, Chain>, AllocError>
    ensures { IfOk result (λ m. m.entries ≡ entries_of (listed entries.now)) }
{
    let mut to = IndexMap::with_capacity(alloc, entries.len())?;
    for (name, terms) in entries {
        to.insert(Text::copy_of(alloc, name)?, copied_chain(alloc, terms)?)?;
    }
    Ok(to)
}

/// The scenario of these entries, in this order, with copies of the names and terms. The condition is what each scenario keeps:
/// distinct lawful names, chains that aren't empty, lawful terms, and the limits.
pub fn build(alloc: Global, entries: &[(&str, &[Term])]) -> Result<Scenario, AllocError>
    requires { IsScenario (listed entries.now) }
    ensures { IfOk result (λ s. s ≡ listed entries.now) }
{
    let built = built_entries(alloc, entries)?;
    Ok(Scenario::from_entries(built))
}
