//! Runs that show whether a candidate breaks a law.
ghost use Rattle.std.specs.Prelude.{◌≡◌, ◌↔◌, None, true, List, IfOk, IfSome};
ghost use Rattle.scenario_values.specs.Scenario.{Entries};
ghost use Rattle.campaign_core.specs.target_laws.Candidates.{AreTried, Halts, IsTriedAt, Lead, Look};

use crate::target_laws::candidate::{Candidate, Looked};
use scenario_grammar::{ScenarioFault, parse};
use scenario_values::Scenario;
use std::alloc::{AllocError, Global};
use std::fmt::Write;
use target_trait::Case;

/// Whether two runs came to the same: the same points were asked, and the verdicts are equal.
pub fn are_alike(one: &Looked, other: &Looked) -> bool
    ensures { (result ≡ true) ↔ (one.now.verdict ≡ other.now.verdict) × (one.now.asked.items ≡ other.now.asked.items) }
{
    one.verdict == other.verdict && one.asked.as_slice() == other.asked.as_slice()
}

/// The scenario that stops a run at the first hit of a point; `None` if no scenario can name the point.
fn halting_at(alloc: Global, name: &str) -> Result<Option<Scenario>, AllocError>
    ensures halts { IfOk result (λ scenario. IfSome scenario (Halts name.now)) }
    ensures unnamed { IfOk result (λ scenario. scenario ≡ None → (s : Entries) → Halts name.now s → ⊥) }
{
    let mut text = String::new(alloc);
    write!(text, "{name}=panic")?;
    match parse(alloc, &text) {
        Ok(scenario) => Ok(Some(scenario)),
        Err(ScenarioFault::Memory) => Err(AllocError),
        Err(ScenarioFault::Bad { .. }) => Ok(None),
    }
}

/// Whether a candidate asks another point after it was stopped at the first hit of this one.
fn asks_after_halt<C: Candidate>(
    alloc: Global,
    candidate: &mut C,
    workload: &C::Workload,
    name: &str,
    seed: u64,
    max_hits: u32,
) -> Result<bool, AllocError>
    ensures { IfOk result (λ is_asked_on. (runs : List Look) × Lead (C.made workload.now) candidate.old runs candidate.new
        × IsTriedAt seed max_hits runs name.now is_asked_on) }
{
    let Some(scenario) = halting_at(alloc, name)? else {
        return Ok(false);
    };
    let case = Case {
        scenario: &scenario,
        seed,
        stream: 0,
        max_hits,
    };
    let looked = candidate.look(alloc, workload, &case)?;
    Ok(looked.is_asked_on)
}

/// Whether a candidate asks on after it was stopped at the first hit of some point.
pub fn asks_after_a_halt<C: Candidate>(
    alloc: Global,
    candidate: &mut C,
    workload: &C::Workload,
    seed: u64,
    max_hits: u32,
) -> Result<bool, AllocError>
    ensures { IfOk result (λ is_asked_on. (runs : List Look) × Lead (C.made workload.now) candidate.old runs candidate.new
        × AreTried C.names seed max_hits runs is_asked_on) }
{
    for name in C::points() {
        if asks_after_halt(alloc, candidate, workload, name, seed, max_hits)? {
            return Ok(true);
        }
    }
    Ok(false)
}
