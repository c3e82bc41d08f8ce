//! What runs of plans come to: their verdicts, the causes among them, and the hits of their points.
ghost use Rattle.std.specs.Prelude.{◌≡◌, ℕ, ◌+◌, ◌≤◌, ◌<◌, List, length, max, slice_index_or, IfOk, OnOk};
ghost use Rattle.action_eval.specs.declared.rig.Rig.{Rig};
ghost use Rattle.grown_plans.specs.GrownPlans.{Subject};
ghost use Rattle.grown_runs.specs.declared.input.Purpose.{Purpose};
ghost use Rattle.grown_runs.specs.inside.Growths.{AreTold};

use std::alloc::{AllocError, Global};
use target_trait::Verdict;

/// What the runs of plans came to, one after another.
#[derive(Drop)]
pub struct Outcomes {
    /// Their verdicts.
    pub verdicts: Vec<Verdict>,
    /// The plans that are causes, each as its number and its code.
    pub causes: Vec<(u32, u32)>,
    /// The most hits of each point of the catalogue that a run has.
    pub hits: Vec<u32>,
}

/// Raises each of these counts to the one at its place in `counts`, if that is more.
pub fn raise(hits: &mut Vec<u32>, counts: &[u32])
    requires { length hits.old.items ≤ length counts.now }
    ensures many { length hits.new.items ≡ length hits.old.items }
    ensures most { (p : ℕ) → p < length hits.old.items
        → slice_index_or hits.new.items p 0 ≡ max (slice_index_or hits.old.items p 0) (slice_index_or counts.now p 0) }
{
    for point in 0..hits.len() {
        hits[point] = hits[point].max(counts[point]);
    }
}

impl Outcomes {
    /// What no runs came to, over so many points. An error means that memory was refused.
    pub fn none(alloc: Global, points: usize) -> Result<Self, AllocError>
        ensures { IfOk result (λ outcomes. (t : Subject) (seed : ℕ) (purpose : Purpose) (plans : List (List Rig)) (first : ℕ)
            → length t.names ≡ points → AreTold t seed purpose plans first 0 outcomes) }
    {
        let mut hits = Vec::new(alloc);
        hits.resize(points, 0)?;
        Ok(Outcomes {
            verdicts: Vec::new(alloc),
            causes: Vec::new(alloc),
            hits,
        })
    }

    /// Adds what the plans behind these came to. An error means that memory was refused.
    pub fn absorb(&mut self, further: &Outcomes) -> Result<(), AllocError>
        requires { length self.old.hits.items ≤ length further.now.hits.items }
        ensures many { OnOk result (length self.new.verdicts.items ≡ length self.old.verdicts.items + length further.now.verdicts.items) }
        ensures kept { length self.old.verdicts.items ≤ length self.new.verdicts.items }
        ensures hits { length self.new.hits.items ≡ length self.old.hits.items }
        ensures told { OnOk result ((t : Subject) (seed : ℕ) (purpose : Purpose) (plans : List (List Rig)) (first count next more : ℕ) → first + count ≡ next
            → AreTold t seed purpose plans first count self.old → AreTold t seed purpose plans next more further.now
            → AreTold t seed purpose plans first (count + more) self.new) }
    {
        self.verdicts
            .extend_from_slice(further.verdicts.as_slice())?;
        self.causes.extend_from_slice(further.causes.as_slice())?;
        raise(&mut self.hits, further.hits.as_slice());
        Ok(())
    }
}
