//! Which of a target's laws a run shows to be broken.
ghost use Rattle.std.specs.Prelude.{◌≡◌, None, IfOk};
ghost use Rattle.campaign_core.specs.target_laws.Candidates.{IsSeenIn};

use crate::target_laws::candidate::Candidate;
use crate::target_laws::catalogue::{CatalogueFault, catalogue_fault};
use crate::target_laws::trial::{are_alike, asks_after_a_halt};
use scenario_values::build;
use std::alloc::{AllocError, Global};
use std::fmt;
use target_trait::{Case, Target};

/// A law of [`target_trait::Target`] that a target breaks.
#[derive(Clone, Copy, Debug, PartialEq, Eq)]
pub enum BrokenLaw {
    /// Its catalogue isn't 1 to 64 distinct names of at most 200 bytes, each of which a scenario can have.
    Catalogue(CatalogueFault),
    /// It asked a point after it had been stopped. It went on although its component was dead, so what it judged shows nothing.
    AsksAfterHalt,
    /// Two runs of the same scenario differ: something is kept from run to run.
    KeepsState,
}

impl fmt::Display for BrokenLaw {
    fn fmt<W: fmt::Write>(&self, f: &mut fmt::Formatter<W>) -> fmt::Result {
        match self {
            BrokenLaw::Catalogue(fault) => write!(f, "unlawful catalogue: {fault}"),
            BrokenLaw::AsksAfterHalt => f.write_str("asks after a halt"),
            BrokenLaw::KeepsState => f.write_str("keeps state between runs"),
        }
    }
}

/// The first law that a candidate is seen to break. Looked at are its catalogue, a run for each point that is stopped at the point's first hit, and
/// two runs without faults, one before these and one after. A candidate may still break a law in other runs.
///
/// An error means that memory was refused.
pub fn first_broken_law<C: Candidate>(
    alloc: Global,
    candidate: &mut C,
    workload: &C::Workload,
    seed: u64,
    max_hits: u32,
) -> Result<Option<BrokenLaw>, AllocError>
    ensures { IfOk result (IsSeenIn (C.made workload.now) C.names seed max_hits candidate.old candidate.new) }
{
    if let Some(fault) = catalogue_fault(C::points()) {
        return Ok(Some(BrokenLaw::Catalogue(fault)));
    }
    let scenario = build(alloc, &[])?;
    let case = Case {
        scenario: &scenario,
        seed,
        stream: 0,
        max_hits,
    };
    let first = candidate.look(alloc, workload, &case)?;
    if asks_after_a_halt(alloc, candidate, workload, seed, max_hits)? {
        return Ok(Some(BrokenLaw::AsksAfterHalt));
    }
    let again = candidate.look(alloc, workload, &case)?;
    if !are_alike(&first, &again) {
        return Ok(Some(BrokenLaw::KeepsState));
    }
    Ok(None)
}

/// The first law that a target is seen to break, found as for a candidate. The caller's target isn't touched.
///
/// A proved target breaks none, so this is `None`. An error means that memory was refused.
pub fn broken_law<T: Target>(
    alloc: Global,
    target: &T,
    workload: &T::Workload,
    seed: u64,
    max_hits: u32,
) -> Result<Option<BrokenLaw>, AllocError>
    ensures { IfOk result (λ law. law ≡ None) }
{
    let mut twin = target.twin()?;
    first_broken_law(alloc, &mut twin, workload, seed, max_hits)
}
