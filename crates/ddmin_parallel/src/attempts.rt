//! The sets that a round tries, by their places in it.
ghost use Rattle.std.specs.Prelude.{◌≡◌, ℕ, ◌+◌, ◌*◌, ◌^◌, ◌<◌, List, IfOk, max};
ghost use Rattle.std.specs.List.{range_with_len};
ghost use Rattle.ddmin_parallel.specs.Rounds.{part, complement, Candidate};
ghost use Rattle.ddmin_parallel.specs.inside.Candidates.{candidate, candidates, CanBeCut};

use crate::fault_set::FaultSet;
use std::alloc::{AllocError, Global};
use std::marker::Model;

/// A set to be tested, and the number of parts to go on with if it fails.
#[derive(Drop)]
pub(crate) struct Attempt {
    pub(crate) set: Vec<u32>,
    pub(crate) parts: usize,
}

impl Model for Attempt {
    ghost Value = { Candidate };

    ghost view = { λ t. record { set = t.set.items; parts = t.parts } };
}

impl Attempt {
    /// The set, packed as its runs.
    pub(crate) fn packed(&self, alloc: Global) -> Result<FaultSet, AllocError>
        ensures { IfOk result (λ packed. packed ≡ self.now.set) }
    {
        FaultSet::pack(alloc, self.set.as_slice())
    }
}

/// The members of part `place`, in order.
#[tactic(auto, unfolding(crate::specs::Rounds::part))]
fn part_of(alloc: Global, kept: &[u32], parts: usize, place: usize) -> Result<Vec<u32>, AllocError>
    requires cut { CanBeCut kept.now parts }
    requires place { place < parts }
    ensures { IfOk result (λ set. set.items ≡ part kept.now parts place) }
{
    let from = place * kept.len() / parts;
    let to = (place + 1) * kept.len() / parts;
    Vec::from_slice(alloc, &kept[from..to])
}

/// All members but those of part `place`, in order.
#[tactic(auto, unfolding(crate::specs::Rounds::complement))]
fn complement_of(
    alloc: Global,
    kept: &[u32],
    parts: usize,
    place: usize,
) -> Result<Vec<u32>, AllocError>
    requires cut { CanBeCut kept.now parts }
    requires place { place < parts }
    ensures { IfOk result (λ set. set.items ≡ complement kept.now parts place) }
{
    let from = place * kept.len() / parts;
    let to = (place + 1) * kept.len() / parts;
    let mut set = Vec::from_slice(alloc, &kept[..from])?;
    set.extend_from_slice(&kept[to..])?;
    Ok(set)
}

/// How many candidates a round has.
pub(crate) fn candidate_count(parts: usize) -> usize
    requires { parts < 2 ^ 31 }
    ensures { result ≡ candidates parts }
{
    if parts > 2 { 2 * parts } else { parts }
}

/// Candidate `place` of a round: the parts come first, then the complements.
#[tactic(auto, using(crate::proofs::Steps::candidate_part, crate::proofs::Steps::candidate_complement))]
pub(crate) fn attempt_at(
    alloc: Global,
    kept: &[u32],
    parts: usize,
    place: usize,
) -> Result<Attempt, AllocError>
    requires cut { CanBeCut kept.now parts }
    requires place { place < candidates parts }
    ensures { IfOk result (λ t. t ≡ candidate kept.now parts place) }
{
    if place < parts {
        let set = part_of(alloc, kept, parts, place)?;
        Ok(Attempt { set, parts: 2 })
    } else {
        let set = complement_of(alloc, kept, parts, place - parts)?;
        Ok(Attempt {
            set,
            parts: (parts - 1).max(2),
        })
    }
}

/// The faults 0, 1, .., as many as this.
#[tactic(auto, using(crate::proofs::Steps::range_push))]
pub(crate) fn all_faults(alloc: Global, faults: u32) -> Result<Vec<u32>, AllocError>
    ensures { IfOk result (λ all. all.items ≡ range_with_len 0 faults) }
{
    let mut all = Vec::new(alloc);
    for fault in 0..faults {
        all.push(fault)?;
    }
    Ok(all)
}
