//! What is left of the counts of a scenario's terms, chain after chain.
ghost use Rattle.std.specs.Prelude.{◌≡◌, ◌+◌, ◌++◌, ◌<◌, ◌≤◌, [], length, vec_len, vec_capacity, OnOk, OnErr};
ghost use Rattle.std.specs.Option.{ForSome};
ghost use Rattle.scenario_values.specs.Scenario.{IsScenario};
ghost use Rattle.action_eval.specs.inside.Session.{left_row, left_counts, left_after};

use crate::found::start_of;
use scenario_values::{Scenario, Term};
use std::alloc::AllocError;

/// Adds the counts of a chain, for which there has to be room. A term without a count gets one that is greater than the number of hits that a session
/// answers.
pub fn push_counts(left: &mut Vec<u32>, terms: &[Term])
    requires { vec_len left.old + length terms.now ≤ vec_capacity left.old }
    ensures counts { left.new.items ≡ left.old.items ++ left_row (λ _. 0) 0 terms.now }
    ensures len { vec_len left.new ≡ vec_len left.old + length terms.now }
    ensures room { vec_capacity left.new ≡ vec_capacity left.old }
{
    for term in terms {
        left.push_reserved(term.count.unwrap_or(u32::MAX));
    }
}

/// Puts the counts of all chains in place of those that stood there. If memory is refused, the old counts stay.
pub fn fill_counts(left: &mut Vec<u32>, scenario: &Scenario) -> Result<(), AllocError>
    ensures counts { OnOk result (left.new.items ≡ left_counts [] scenario.now) }
    ensures limits { IsScenario scenario.now }
    ensures err { OnErr result (left.new.items ≡ left.old.items) }
{
    let _ = scenario.entries();
    let count = start_of(scenario, scenario.len());
    left.reserve(count.saturating_sub(left.len()))?;
    left.clear();
    for entry in 0..scenario.len() {
        push_counts(left, scenario.chain(entry));
    }
    Ok(())
}

/// Takes one off the count of the term at this place of a chain whose counts begin at `start`, unless nothing is left of it.
pub fn spend(left: &mut Vec<u32>, start: usize, place: Option<usize>)
    requires { ForSome place (λ i. start + i < length left.old.items) }
    ensures { left.new.items ≡ left_after left.old.items start place }
{
    if let Some(place) = place {
        left[start + place] = left[start + place].saturating_sub(1);
    }
}
