//! Scenarios with fewer faults.
ghost use Rattle.std.specs.Prelude.{◌≡◌, ◌+◌, ◌<◌, ◌≤◌, ◌^◌, true, IsTrue, IfOk, length};
ghost use Rattle.scenario_values.specs.Scenario.{IsScenario, entries_of, all_faults};
ghost use Rattle.scenario_values.specs.inside.Walks.{Ascends, StandsAt};
ghost use Rattle.scenario_values.specs.Keep.{holds, are_faults, kept_term, after_term, kept_chain, after_chain, kept};

use crate::chain::Chain;
use crate::scenario::Scenario;
use crate::term::{Task, Term, is_off};
use crate::text::Text;
use indexmap::IndexMap;
use std::alloc::{AllocError, Global};

/// The state of a walk over a scenario's faults: the number of the next fault, and how many numbers of the set it has passed.
#[derive(Clone, Copy)]
struct Walk {
    number: u32,
    passed: usize,
}

/// Whether these are numbers of faults below this count, in ascending order, each once: the condition of `keep`.
pub fn are_faults(count: u32, set: &[u32]) -> bool
    ensures { result ≡ are_faults count set.now }
{
    let mut low = 0;
    for &number in set {
        if number < low || count <= number {
            return false;
        }
        low = number + 1;
    }
    true
}

/// Whether the set holds the number of the next fault.
fn holds_next(set: &[u32], walk: Walk) -> bool
    requires ascends { Ascends set.now }
    requires stands { StandsAt set.now walk.number walk.passed }
    ensures value { result ≡ holds set.now walk.number }
    ensures room { IsTrue result → walk.passed + 1 < 2 ^ 64 }
{
    walk.passed < set.len() && set[walk.passed] == walk.number
}

/// A copy of the term, switched off if it is a fault outside the set; and where the walk stands after it.
fn keep_term(set: &[u32], walk: Walk, term: &Term) -> Result<(Term, Walk), AllocError>
    requires small { walk.number + 1 < 2 ^ 32 }
    requires ascends { Ascends set.now }
    requires stands { StandsAt set.now walk.number walk.passed }
    ensures value { IfOk result (λ x. x.0 ≡ kept_term set.now walk.number term.now) }
    ensures number { IfOk result (λ x. x.1.number ≡ after_term walk.number term.now) }
    ensures small { IfOk result (λ x. x.1.number ≤ walk.number + 1) }
    ensures stands { IfOk result (λ x. StandsAt set.now x.1.number x.1.passed) }
{
    if is_off(&term.task) {
        return Ok((term.try_clone()?, walk));
    }
    let number = walk.number + 1;
    if holds_next(set, walk) {
        let passed = walk.passed + 1;
        return Ok((term.try_clone()?, Walk { number, passed }));
    }
    let off = Term {
        share: term.share,
        count: term.count,
        task: Task::Off,
    };
    let passed = walk.passed;
    Ok((off, Walk { number, passed }))
}

/// A copy of the chain with only the faults of the set, and where the walk stands after it.
fn keep_chain(
    alloc: Global,
    set: &[u32],
    first: Walk,
    terms: &[Term],
) -> Result<(Vec<Term>, Walk), AllocError>
    requires small { first.number + length terms.now < 2 ^ 32 }
    requires ascends { Ascends set.now }
    requires stands { StandsAt set.now first.number first.passed }
    ensures kept { IfOk result (λ x. x.0.items ≡ kept_chain set.now first.number terms.now) }
    ensures number { IfOk result (λ x. x.1.number ≡ after_chain first.number terms.now) }
    ensures stands { IfOk result (λ x. StandsAt set.now x.1.number x.1.passed) }
{
    let mut kept = Vec::with_capacity(alloc, terms.len())?;
    let mut walk = first;
    for term in terms {
        let (copy, next) = keep_term(set, walk, term)?;
        kept.push(copy)?;
        walk = next;
    }
    Ok((kept, walk))
}

/// The entries with only the faults of the set.
fn kept_entries(
    alloc: Global,
    set: &[u32],
    from: &IndexMap<Text, Chain>,
) -> Result<IndexMap<Text, Chain>, AllocError>
    requires limits { IsScenario from.now.entries }
    requires ascends { Ascends set.now }
    ensures { IfOk result (λ m. m.entries ≡ entries_of (kept set.now from.now.entries)) }
{
    let mut to = IndexMap::with_capacity(alloc, from.len())?;
    let mut walk = Walk {
        number: 0,
        passed: 0,
    };
    for (name, chain) in from {
        let (terms, next) = keep_chain(alloc, set, walk, chain.terms())?;
        to.insert(name.try_clone()?, Chain::from_vec(terms))?;
        walk = next;
    }
    Ok(to)
}

/// The scenario with only the faults of the set. Each other fault gets the task `off` and keeps its share and count, so that later terms draw the
/// same random words. The set has the numbers of `faults`, in ascending order, each once (`are_faults` tests that). The time is linear in the
/// scenario. The rule is this project's own.
pub fn keep(alloc: Global, scenario: &Scenario, set: &[u32]) -> Result<Scenario, AllocError>
    requires { are_faults (all_faults scenario.now) set.now ≡ true }
    ensures { IfOk result (λ s. s ≡ kept set.now scenario.now) }
{
    let entries = kept_entries(alloc, set, scenario.entries())?;
    Ok(Scenario::from_entries(entries))
}
