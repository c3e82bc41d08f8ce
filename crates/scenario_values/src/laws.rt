//! Laws of `faults`, `keep` and `tidy`, as contracts of functions that do nothing. They are about the entries of scenarios, and about sets of faults
//! as lists of their numbers.
ghost use Rattle.std.specs.Prelude.{◌≡◌, ◌<◌, ℕ, List, true, false, Some, length, map, remove, slice_get, slice_index};
ghost use Rattle.std.specs.List.{AllByRecursion, range_with_len};
ghost use Rattle.scenario_values.specs.Scenario.{Entries, all_faults};
ghost use Rattle.scenario_values.specs.Faults.{fault_at, faults, named_faults};
ghost use Rattle.scenario_values.specs.Origins.{SameFaults, origins};
ghost use Rattle.scenario_values.specs.Tidied.{tidied};
ghost use Rattle.scenario_values.specs.Keep.{kept, holds, are_faults, members_at};

/// There are as many faults as places of faults, and at each place stands the fault of its number.
pub fn faults_are_counted()
    ensures count { (s : Entries) → length (faults s) ≡ all_faults s }
    ensures same { (s : Entries) → map (fault_at s) (faults s) ≡ map (λ x. Some x) (named_faults s) }
{}

/// All faults of a scenario are a set of faults, and so is a set of faults without its i-th.
pub fn sets_of_faults()
    ensures all { (n : ℕ) → are_faults n (range_with_len 0 n) ≡ true }
    ensures without { (n i : ℕ) (set : List ℕ)
        → are_faults n set ≡ true
        → are_faults n (remove set i) ≡ true }
{}

/// Keeping all faults of a scenario changes nothing.
pub fn keeping_all_changes_nothing()
    ensures { (s : Entries) → kept (range_with_len 0 (all_faults s)) s ≡ s }
{}

/// A scenario with some of its faults kept has as many faults as are kept, and its fault i is the fault of the set's i-th number.
pub fn kept_faults_are_the_faults()
    ensures count { (s : Entries) (set : List ℕ)
        → are_faults (all_faults s) set ≡ true
        → all_faults (kept set s) ≡ length set }
    ensures same { (s : Entries) (set : List ℕ)
        → are_faults (all_faults s) set ≡ true
        → map (λ x. Some x) (named_faults (kept set s)) ≡ map (slice_get (named_faults s)) set }
{}

/// Keeping a part of what was kept is the same as keeping that part of the scenario: number i of the part is then the set's i-th number.
pub fn keeping_again_is_keeping_a_part()
    ensures part { (s : Entries) (set places : List ℕ)
        → are_faults (all_faults s) set ≡ true
        → AllByRecursion (λ i. i < length set) places
        → kept places (kept set s) ≡ kept (members_at set places) s }
    ensures without { (s : Entries) (set : List ℕ) (i : ℕ)
        → are_faults (all_faults s) set ≡ true
        → kept (remove (range_with_len 0 (length set)) i) (kept set s) ≡ kept (remove set i) s }
{}

/// The faults of a tidied scenario come from faults of the scenario: as many as there are, in ascending order, each with the same
/// name and the same term.
pub fn tidied_faults_have_origins()
    ensures faults { (s : Entries) → are_faults (all_faults s) (origins s) ≡ true }
    ensures count { (s : Entries) → length (origins s) ≡ all_faults (tidied s) }
    ensures inside { (s : Entries) (i : ℕ)
        → i < all_faults (tidied s)
        → slice_index (origins s) i < all_faults s }
    ensures same { (s : Entries)
        → map (λ x. Some x) (named_faults (tidied s)) ≡ map (slice_get (named_faults s)) (origins s) }
{}

/// A set of faults of the tidied scenario corresponds to the set of their origins in the scenario: all faults but one to all of the scenario's but
/// its origin, and all faults to all of the scenario's but one that tidying drops.
pub fn faults_follow_their_origins()
    ensures part { (s : Entries) (own : List ℕ)
        → AllByRecursion (λ i. i < all_faults (tidied s)) own
        → SameFaults (members_at (origins s) own) own 0 (origins s) }
    ensures without { (s : Entries) (i : ℕ)
        → i < all_faults (tidied s)
        → SameFaults (remove (range_with_len 0 (all_faults s)) (slice_index (origins s) i))
        (remove (range_with_len 0 (all_faults (tidied s))) i) 0 (origins s) }
    ensures dropped { (s : Entries) (k : ℕ)
        → holds (origins s) k ≡ false
        → SameFaults (remove (range_with_len 0 (all_faults s)) k)
        (range_with_len 0 (all_faults (tidied s))) 0 (origins s) }
{}
