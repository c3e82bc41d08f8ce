//! Copies of scenarios.
ghost use Rattle.std.specs.Prelude.{◌≡◌, IfOk};
ghost use Rattle.scenario_values.specs.Scenario.{entries_of};

use indexmap::IndexMap;
use scenario_values::{Chain, Scenario, Text};
use std::alloc::{AllocError, Global};

/// Copies of the entries, put in one by one.
fn copied_entries(
    alloc: Global,
    from: &IndexMap<Text, Chain>,
) -> Result<IndexMap<Text, Chain>, AllocError>
    ensures { IfOk result (λ m. m.entries ≡ entries_of from.now.entries) }
{
    let mut to = IndexMap::with_capacity(alloc, from.len())?;
    for (name, chain) in from {
        to.insert(name.try_clone()?, chain.try_clone()?)?;
    }
    Ok(to)
}

/// A copy of the scenario.
pub fn copy_of(alloc: Global, scenario: &Scenario) -> Result<Scenario, AllocError>
    ensures { IfOk result (λ s. s ≡ scenario.now) }
{
    let entries = copied_entries(alloc, scenario.entries())?;
    Ok(Scenario::from_entries(entries))
}
