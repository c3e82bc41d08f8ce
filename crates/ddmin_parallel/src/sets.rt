//! The sets that are out.
ghost use Rattle.std.specs.Prelude.{◌≡◌, ℕ, List, Bool, map, filter, not, Option};
ghost use Rattle.std.specs.List.{list_any};
ghost use Rattle.ddmin_parallel.specs.CoreEvents.{same_set, without};
ghost use Rattle.ddmin_parallel.specs.inside.CoreStates.{IsPlaceOf};

use crate::fault_set::FaultSet;

/// The place of a set among those that are out.
pub fn place_of(set: &FaultSet, out: &[FaultSet]) -> Option<usize>
    ensures { IsPlaceOf set.now out.now result }
{
    for (place, other) in out.iter().enumerate() {
        if set.is(other) {
            return Some(place);
        }
    }
    None
}

/// Takes a set from those that are out, and says whether it was.
pub fn take_from(set: &FaultSet, out: &mut Vec<FaultSet>) -> bool
    ensures was { result ≡ list_any (same_set set.now) out.old.items }
    ensures rest { out.new.items ≡ without set.now out.old.items }
{
    match place_of(set, out.as_slice()) {
        Some(place) => {
            drop(out.remove(place));
            true
        }
        None => false,
    }
}
