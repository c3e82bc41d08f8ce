//! Points that no run hits.
ghost use Rattle.std.specs.Prelude.{◌≡◌, ◌<◌, ◌^◌, ◌++◌, [], ◌∷◌, filter, if◌then◌else◌, length, IfOk, OnOk};
ghost use Rattle.std.specs.List.{list_all};
ghost use Rattle.result_book.specs.Runs.{is_asked};
ghost use Rattle.campaign_core.specs.inside.Ranges.{is_left_in, uncounted};

use result_book::PlanRange;
use std::alloc::{AllocError, Global};
use target_trait::Target;

/// Adds a point, if it is to be kept.
fn keep_if(points: &mut Vec<u32>, point: u32, is_kept: bool) -> Result<(), AllocError>
    ensures { OnOk result (points.new.items ≡ points.old.items ++ (if is_kept then point ∷ [] else [])) }
{
    if is_kept {
        points.push(point)?;
    }
    Ok(())
}

/// The numbers of the points whose count is 0. An error means that memory was refused.
pub fn uncounted(alloc: Global, counts: &[u32]) -> Result<Vec<u32>, AllocError>
    requires { length counts.now < 2 ^ 32 }
    ensures { IfOk result (λ points. points.items ≡ uncounted counts.now) }
{
    let mut points = Vec::new(alloc);
    for point in 0..counts.len() as u32 {
        keep_if(&mut points, point, counts[point as usize] == 0)?;
    }
    Ok(points)
}

/// Whether no run of these ranges hits this point, which they watch.
fn is_left_in_list<T: Target>(list: &[(u32, PlanRange<'_, T>)], point: u32) -> bool
    ensures { result ≡ list_all (λ p. is_asked point p.1.unreached) list.now }
{
    for (_, range) in list {
        if !range.leaves(point) {
            return false;
        }
    }
    true
}

/// The same for the ranges of all these lists.
fn is_left<T: Target>(lists: &[Vec<(u32, PlanRange<'_, T>)>], point: u32) -> bool
    ensures { result ≡ is_left_in lists.now point }
{
    for list in lists {
        if !is_left_in_list(list.as_slice(), point) {
            return false;
        }
    }
    true
}

/// Those of the points watched by these ranges that no run of them hits. An error means that memory was refused.
pub fn left_of<T: Target>(
    alloc: Global,
    watched: &[u32],
    lists: &[Vec<(u32, PlanRange<'_, T>)>],
) -> Result<Vec<u32>, AllocError>
    ensures { IfOk result (λ left. left.items ≡ filter (is_left_in lists.now) watched.now) }
{
    let mut left = Vec::new(alloc);
    for point in watched {
        if is_left(lists, *point) {
            left.push(*point)?;
        }
    }
    Ok(left)
}
