//! The children of a plan, by the points that its run asked.
ghost use Rattle.std.specs.Prelude.{◌≡◌, ℕ, ◌+◌, ◌<◌, ◌^◌, ◌++◌, ◌∷◌, [], List, length, slice_index_or, IfOk, OnOk};
ghost use Rattle.std.specs.List.{AllByRecursion};
ghost use Rattle.grown_plans.specs.AskedPoints.{AreCounts, is_point_of, is_asked_again};
ghost use Rattle.grown_plans.specs.GrownPlans.{kinds_at, usual_at};
ghost use Rattle.grown_plans.specs.Kept.{kept_at, kept_of, kept_children};
ghost use Rattle.grown_plans.specs.inside.Counted.{is_site_of, next_site};

use crate::child::Child;
use crate::counts::count_none;
use crate::kinds::Kinds;
use action_eval::{Argument, Kind, Rig, Site};
use std::alloc::AllocError;

/// The next hit of a point. It is counted.
fn next_site(counts: &mut Vec<u32>, point: u32) -> Site
    requires point { point < length counts.old.items }
    requires few { slice_index_or counts.old.items point 0 + 1 < 2 ^ 32 }
    ensures { (before : List ℕ) → AreCounts counts.old.items before
        → (result ≡ next_site before point) × AreCounts counts.new.items (before ++ point ∷ []) }
{
    let hit = counts[point as usize] + 1;
    counts[point as usize] = hit;
    Site { point, hit }
}

/// Whether a hit is that of a plan's last fault.
fn is_last(plan: &[Rig], site: Site) -> bool
    ensures { result ≡ is_site_of plan.now site }
{
    match plan.first() {
        Some(fault) => site.point == fault.site.point && site.hit == fault.site.hit,
        None => false,
    }
}

/// Whether a point is that of a plan's last fault.
fn is_of_last(plan: &[Rig], point: u32) -> bool
    ensures { result ≡ is_point_of plan.now point }
{
    match plan.first() {
        Some(fault) => point == fault.site.point,
        None => false,
    }
}

/// Adds the usual children at a hit: a return, and a panic unless the point is that of a power cut.
fn add_usual(
    children: &mut Vec<Child>,
    kinds: &Kinds<'_>,
    number: usize,
    site: Site,
) -> Result<(), AllocError>
    requires { (number < 2 ^ 16) × (site.point < 2 ^ 8) }
    ensures { OnOk result (children.new.items ≡ children.old.items ++ kept_of number site (usual_at kinds.now.cut site.point)) }
{
    children.push(Child::new(number, site, Kind::OnceReturn(Argument::none())))?;
    if !kinds.is_cut(site.point) {
        children.push(Child::new(number, site, Kind::OncePanic))?;
    }
    Ok(())
}

/// Adds the children at a hit by the kinds that are listed.
fn add_listed(
    children: &mut Vec<Child>,
    listed: &[Kind],
    number: usize,
    site: Site,
) -> Result<(), AllocError>
    requires { (number < 2 ^ 16) × (site.point < 2 ^ 8) }
    ensures { OnOk result (children.new.items ≡ children.old.items ++ kept_of number site listed.now) }
{
    for kind in listed {
        children.push(Child::new(number, site, *kind))?;
    }
    Ok(())
}

/// Adds the children at a hit, one for each kind of fault that is tried at its point.
fn add_at(
    children: &mut Vec<Child>,
    kinds: &Kinds<'_>,
    number: usize,
    site: Site,
) -> Result<(), AllocError>
    requires { (number < 2 ^ 16) × (site.point < 2 ^ 8) }
    ensures { OnOk result (children.new.items ≡ children.old.items ++ kept_at (kinds_at kinds.now) number site) }
{
    let listed = kinds.listed_at(site.point);
    if listed.is_empty() {
        add_usual(children, kinds, number, site)
    } else {
        add_listed(children, listed, number, site)
    }
}

/// Adds the children of the plan of this number, which has these faults, by the points that its run asked, and counts how often it asked each.
/// Returns whether the run asked the last fault's point once more after that fault.
///
/// The counts are put into their list in place of what stood there. An error means that memory was refused.
pub fn add_children(
    children: &mut Vec<Child>,
    counts: &mut Vec<u32>,
    kinds: &Kinds<'_>,
    number: usize,
    plan: &[Rig],
    asked: &[u32],
) -> Result<bool, AllocError>
    requires number { number < 2 ^ 16 }
    requires points { AllByRecursion (λ p. p < 64) asked.now }
    requires few { length asked.now < 2 ^ 32 }
    ensures children { OnOk result (children.new.items ≡ children.old.items ++ kept_children (kinds_at kinds.now) number plan.now asked.now) }
    ensures counts { OnOk result (AreCounts counts.new.items asked.now) }
    ensures again { IfOk result (λ is_again. is_again ≡ is_asked_again plan.now asked.now) }
{
    count_none(counts)?;
    let mut is_past = plan.is_empty();
    let mut is_again = false;
    for point in asked {
        let site = next_site(counts, *point);
        if is_past {
            add_at(children, kinds, number, site)?;
            is_again = is_again || is_of_last(plan, *point);
        } else {
            is_past = is_last(plan, site);
        }
    }
    Ok(is_again)
}
