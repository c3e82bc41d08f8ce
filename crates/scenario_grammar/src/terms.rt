//! Chains of terms, read.
ghost use Rattle.std.specs.Prelude.{◌≡◌, ◌+◌, ◌<◌, ◌≤◌, map, IfOk, Ok, Err};
ghost use Rattle.scenario_grammar.specs.FirstFault.{Reads, term_in, chain_from};

use crate::cuts::trim;
use crate::fault::{Kind, ScenarioFault, TermError};
use crate::reading::term_of;
use scenario_values::{Term, is_off};
use std::alloc::Global;

/// A term of a chain, and how many faults there are with it.
#[tactic(auto, unfolding(crate::specs::FirstFault::term_in))]
fn term_in(
    alloc: Global,
    entry: u32,
    number: u32,
    faults: u32,
    text: &str,
) -> Result<(Term, u32), ScenarioFault>
    requires { faults ≤ 4096 }
    ensures value { Reads (λ x. (x.0, x.1)) result (term_in entry number faults text.now) }
    ensures small { IfOk result (λ x. x.1 ≤ 4096) }
    ensures few { IfOk result (λ x. number ≤ 256) }
{
    if number > 256 {
        return Err(ScenarioFault::Bad {
            kind: Kind::TooMany,
            entry,
            term: number,
        });
    }
    let term = match term_of(alloc, trim(text)) {
        Err(TermError::Memory) => return Err(ScenarioFault::Memory),
        Err(TermError::Bad(kind)) => return Err(ScenarioFault::Bad {
            kind,
            entry,
            term: number,
        }),
        Ok(term) => term,
    };
    if is_off(&term.task) {
        return Ok((term, faults));
    }
    if faults >= 4096 {
        return Err(ScenarioFault::Bad {
            kind: Kind::TooMany,
            entry,
            term: number,
        });
    }
    Ok((term, faults + 1))
}

/// The terms of a chain, and how many faults there are with them.
pub fn chain_of(
    alloc: Global,
    entry: u32,
    faults: u32,
    parts: &[&str],
) -> Result<(Vec<Term>, u32), ScenarioFault>
    requires { faults ≤ 4096 }
    ensures value { Reads (λ x. (x.0.items, x.1)) result (chain_from entry 1 faults (map (λ t. t.now) parts.now)) }
    ensures small { IfOk result (λ x. x.1 ≤ 4096) }
{
    let mut terms = Vec::new(alloc);
    let mut number = 0;
    let mut faults = faults;
    for part in parts {
        let (term, now) = term_in(alloc, entry, number + 1, faults, part)?;
        terms.push(term)?;
        number += 1;
        faults = now;
    }
    Ok((terms, faults))
}
