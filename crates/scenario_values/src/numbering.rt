//! The faults of a scenario, in their order.
ghost use Rattle.std.specs.Prelude.{◌≡◌, ◌<◌, ◌^◌, ◌++◌, IfOk, OnOk, length};
ghost use Rattle.scenario_values.specs.Faults.{place_of, chain_faults, faults};

use crate::place::Place;
use crate::scenario::Scenario;
use crate::term::{Term, is_off};
use std::alloc::{AllocError, Global};

fn push_place(places: &mut Vec<Place>, entry: u32, term: u32, t: &Term) -> Result<(), AllocError>
    ensures { OnOk result (places.new.items ≡ places.old.items ++ place_of entry term t.now) }
{
    if !is_off(&t.task) {
        places.push(Place { entry, term })?;
    }
    Ok(())
}

/// Appends the places of the terms that aren't off.
fn push_faults(places: &mut Vec<Place>, entry: u32, terms: &[Term]) -> Result<(), AllocError>
    requires { length terms.now < 2 ^ 32 }
    ensures { OnOk result (places.new.items ≡ places.old.items ++ chain_faults entry 0 terms.now) }
{
    let mut term = 0;
    for t in terms {
        push_place(places, entry, term, t)?;
        term += 1;
    }
    Ok(())
}

/// The places of the scenario's faults, in order of entries and terms: a fault's number is its place in this list, from 0.
pub fn faults(alloc: Global, scenario: &Scenario) -> Result<Vec<Place>, AllocError>
    ensures { IfOk result (λ v. v.items ≡ faults scenario.now) }
{
    let mut places = Vec::new(alloc);
    let mut entry = 0;
    for (_, chain) in scenario.entries() {
        push_faults(&mut places, entry, chain.terms())?;
        entry += 1;
    }
    Ok(places)
}
