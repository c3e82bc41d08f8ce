//! The most hits of each point that a run has.
ghost use Rattle.std.specs.Prelude.{◌≡◌, ◌<◌, ◌≤◌, ℕ, [], length, max, slice_index_or, IfOk, OnOk};
ghost use Rattle.answer_text.specs.Runs.{told_in};
ghost use Rattle.grown_plans.specs.GrownPlans.{Subject};
ghost use Rattle.grown_runs.specs.known.Known.{hits_of};
ghost use Rattle.answered_runs.specs.Answered.{runs_in};
ghost use Rattle.answered_runs.specs.Components.{AgreesWithRuns, IsComponent};
ghost use Rattle.answered_runs.specs.grown.Reached.{AreMostTold, reached_seen, times_told};

use crate::KnownPlans;
use grown_runs::Look;
use plan_gen::counts_of;
use std::alloc::{AllocError, Global};

/// Raises each of these counts to the one at its place in `counts`, if that is greater.
fn raise(most: &mut Vec<u32>, counts: &[u32])
    requires { length most.old.items ≤ length counts.now }
    ensures many { length most.new.items ≡ length most.old.items }
    ensures most { (p : ℕ) → p < length most.old.items
        → slice_index_or most.new.items p 0 ≡ max (slice_index_or most.old.items p 0) (slice_index_or counts.now p 0) }
{
    for point in 0..most.len() {
        most[point] = most[point].max(counts[point]);
    }
}

/// Raises each of these counts to how often the run of the plan of this number hits the point, if its hits are recorded and it hits it more often.
fn raise_by(
    alloc: Global,
    known: &KnownPlans<'_>,
    number: usize,
    hits: &mut Vec<u32>,
    most: &mut Vec<u32>,
) -> Result<(), AllocError>
    requires within { number < length known.now.list.plans }
    requires points { length most.old.items ≤ 64 }
    ensures many { OnOk result (length most.new.items ≡ length most.old.items) }
    ensures most { OnOk result ((p : ℕ) → p < length most.old.items → slice_index_or most.new.items p 0
        ≡ max (slice_index_or most.old.items p 0) (times_told p (hits_of (runs_in known.now.answered) (slice_index_or known.now.list.plans number [])))) }
{
    let Look::Seen(_) = known.look(number, hits)? else {
        return Ok(());
    };
    let counts = counts_of(alloc, most.len() as u32, hits.as_slice())?;
    raise(most, counts.as_slice());
    Ok(())
}

/// For each point, in the order of the catalogue, how often it is hit in that recorded run of a known plan that hits it most often. 0 is a point that
/// none of these runs hits, as far as hits are recorded. An error means that memory was refused.
pub fn reached(alloc: Global, known: &KnownPlans<'_>) -> Result<Vec<u32>, AllocError>
    ensures many { IfOk result (λ most. length most.items ≡ length known.now.answered.points) }
    ensures most { IfOk result (λ most. AreMostTold (runs_in known.now.answered) known.now.list.plans most.items) }
    // For every component that agrees with the answers.
    ensures known { IfOk result (λ most. (t : Subject) → IsComponent known.now.answered.points known.now.answered.listed t
        → AgreesWithRuns t (told_in known.now.answered.book) → most.items ≡ reached_seen t known.now.depth (runs_in known.now.answered)) }
{
    let points = known.runs().points();
    let mut most = vec![in alloc; 0u32; points.len()]?;
    let mut hits = Vec::new(alloc);
    for number in 0..known.list().plans.len() {
        raise_by(alloc, known, number, &mut hits, &mut most)?;
    }
    Ok(most)
}
