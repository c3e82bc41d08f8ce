//! How a plan grows, by the points that its run asked. Its children aren't made.
ghost use Rattle.std.specs.Prelude.{◌≡◌, ℕ, ◌+◌, ◌<◌, ◌≤◌, ◌^◌, ◌++◌, ◌∷◌, [], List, None, length, take, slice_index_or, IfOk, OnOk};
ghost use Rattle.std.specs.List.{AllByRecursion};
ghost use Rattle.grown_plans.specs.AskedPoints.{AreCounts, is_asked_again};
ghost use Rattle.grown_plans.specs.Begun.{AreOrdinals, IsBegun, Serves};
ghost use Rattle.grown_plans.specs.GrownPlans.{kinds_at};
ghost use Rattle.grown_plans.specs.Kept.{kept_children};
ghost use Rattle.grown_plans.specs.inside.Ends.{EndsAt, EndsPlan, last_site};

use crate::counts::count_none;
use crate::kinds::Kinds;
use action_eval::{Rig, Site};
use std::alloc::{AllocError, Global};

/// How a plan grows.
#[derive(Clone, Copy, Debug, PartialEq, Eq)]
pub struct Growing {
    /// How many children it has.
    pub children: usize,
    /// Whether its run asked the point of its last fault once more after that fault.
    pub is_again: bool,
}

/// How often a plan's run hit each point, as it was counted last: all its hits, and its first hits, up to that of the plan's last fault. The runs of
/// a plan's children begin alike, so the count of one's first hits serves the next.
#[derive(Debug, Drop)]
pub struct Begun {
    /// The number of the plan whose child it is; `None` if no first hits are counted.
    pub parent: Option<usize>,
    /// How many first hits there are.
    pub hits: usize,
    /// How many of them each point has.
    pub counts: Vec<u32>,
    /// How many of all hits each point has.
    pub whole: Vec<u32>,
}

/// The hit of a plan's last fault.
fn last_site(plan: &[Rig]) -> Option<Site>
    ensures { result ≡ last_site plan.now }
{
    match plan.first() {
        Some(fault) => Some(fault.site),
        None => None,
    }
}

/// How often a point was counted; 0 for a point that no catalogue has.
fn count_of(counts: &[u32], point: u32) -> u32
    ensures { result ≡ slice_index_or counts.now point 0 }
{
    counts.get(point as usize).copied().unwrap_or(0)
}

/// Counts a hit of a point.
fn count_hit(counts: &mut [u32], point: u32)
    requires point { point < length counts.old }
    requires few { slice_index_or counts.old point 0 + 1 < 2 ^ 32 }
    ensures { (before : List ℕ) → AreCounts counts.old before → AreCounts counts.new (before ++ point ∷ []) }
{
    counts[point as usize] += 1;
}

/// Counts the hits of a run from this one on, up to that of a fault, which isn't counted. Returns how many hits of the run are counted then. If the
/// fault isn't met, these are all.
fn count_up_to(counts: &mut [u32], fault: Site, asked: &[u32], first: usize) -> usize
    requires within { first ≤ length asked.now }
    requires counts { AreCounts counts.old (take first asked.now) }
    requires early { slice_index_or counts.old fault.point 0 < fault.hit }
    requires points { AllByRecursion (λ p. p < 64) asked.now }
    requires few { length asked.now < 2 ^ 32 }
    ensures ends { EndsAt fault asked.now result }
    ensures counts { AreCounts counts.new (take result asked.now) }
{
    for i in first..asked.len() {
        let point = asked[i];
        if point == fault.point && counts[point as usize] + 1 == fault.hit {
            return i;
        }
        count_hit(counts, point);
    }
    asked.len()
}

/// Counts the hits of a run from this one on.
fn count_from(counts: &mut [u32], asked: &[u32], first: usize)
    requires within { first ≤ length asked.now }
    requires counts { AreCounts counts.old (take first asked.now) }
    requires points { AllByRecursion (λ p. p < 64) asked.now }
    requires few { length asked.now < 2 ^ 32 }
    ensures { AreCounts counts.new asked.now }
{
    for i in first..asked.len() {
        count_hit(counts, asked[i]);
    }
}

impl Begun {
    /// Nothing is counted.
    pub fn nothing(alloc: Global) -> Self
        ensures { result.parent ≡ None }
    {
        Begun {
            parent: None,
            hits: 0,
            counts: Vec::new(alloc),
            whole: Vec::new(alloc),
        }
    }

    /// Forgets what was counted, and keeps the memory.
    pub fn forget(&mut self)
        ensures { self.new.parent ≡ None }
    {
        self.parent = None;
    }

    /// Counts up to the hit of the last fault of a plan that grew from this parent. An error means that memory was refused.
    fn move_to(&mut self, parent: usize, plan: &[Rig], asked: &[u32]) -> Result<(), AllocError>
        requires ordinals { AreOrdinals plan.now }
        requires serves { Serves self.old parent plan.now asked.now }
        requires points { AllByRecursion (λ p. p < 64) asked.now }
        requires few { length asked.now < 2 ^ 32 }
        ensures begun { OnOk result (IsBegun self.new parent plan.now asked.now) }
        ensures ends { OnOk result (EndsPlan plan.now asked.now self.new.hits) }
    {
        let Some(site) = last_site(plan) else {
            self.forget();
            return Ok(());
        };
        let counted = count_of(self.counts.as_slice(), site.point);
        if self.parent != Some(parent) || counted >= site.hit {
            self.forget();
            count_none(&mut self.counts)?;
            self.hits = 0;
        }
        self.hits = count_up_to(self.counts.as_mut_slice(), site, asked, self.hits);
        self.parent = Some(parent);
        Ok(())
    }
}

/// How a plan grows, by the points that its run asked, which are counted. `parent` is the number of the plan that it grew from. `begun` has the
/// beginning of the run of another child of that plan, or of any plan, and then of this one. An error means that memory was refused.
pub fn count_children(
    begun: &mut Begun,
    kinds: &Kinds<'_>,
    parent: usize,
    plan: &[Rig],
    asked: &[u32],
) -> Result<Growing, AllocError>
    requires ordinals { AreOrdinals plan.now }
    requires serves { Serves begun.old parent plan.now asked.now }
    requires points { AllByRecursion (λ p. p < 64) asked.now }
    requires few { length asked.now < 2 ^ 32 }
    ensures children { IfOk result (λ growing. (number : ℕ) → growing.children ≡ length (kept_children (kinds_at kinds.now) number plan.now asked.now)) }
    ensures again { IfOk result (λ growing. growing.is_again ≡ is_asked_again plan.now asked.now) }
    ensures counts { OnOk result (AreCounts begun.new.whole.items asked.now) }
    ensures begun { OnOk result (IsBegun begun.new parent plan.now asked.now) }
{
    begun.move_to(parent, plan, asked)?;
    let Some(site) = last_site(plan) else {
        count_none(&mut begun.whole)?;
        count_from(begun.whole.as_mut_slice(), asked, 0);
        return Ok(Growing {
            children: kinds.count(asked),
            is_again: false,
        });
    };
    begun.whole.clear();
    begun.whole.extend_from_slice(begun.counts.as_slice())?;
    count_from(begun.whole.as_mut_slice(), asked, begun.hits);
    let after = (begun.hits + 1).min(asked.len());
    Ok(Growing {
        children: kinds.count(&asked[after..]),
        is_again: site.hit < count_of(begun.whole.as_slice(), site.point),
    })
}
