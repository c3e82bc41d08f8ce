//! Laws of runs, as contracts of functions that do nothing.
ghost use Rattle.std.specs.Prelude.{◌≡◌, ◌<◌, ℕ, List, [], false, Some, take, remove, slice_get, slice_index};
ghost use Rattle.std.specs.List.{AllByRecursion, range_with_len};
ghost use Rattle.scenario_values.specs.declared.place.Place.{Place};
ghost use Rattle.scenario_values.specs.declared.term.Term.{Term};
ghost use Rattle.scenario_values.specs.Scenario.{Entries, all_faults, chain_at};
ghost use Rattle.scenario_values.specs.Faults.{faults};
ghost use Rattle.scenario_values.specs.Keep.{kept, holds, members_at};
ghost use Rattle.scenario_values.specs.Origins.{origins};
ghost use Rattle.scenario_values.specs.Tidied.{tidied};
ghost use Rattle.action_eval.specs.Answers.{Hit, Run, run_of, history_of};
ghost use Rattle.action_eval.specs.FullShares.{HasFullShares, NoFaultActed};
ghost use Rattle.action_eval.specs.LeftFrom.{left_from};
ghost use Rattle.action_eval.specs.LeftTerms.{OnlyLeftActed, is_left};
ghost use Rattle.action_eval.specs.SameMeaning.{MeansTheSame, meaning_of};

use scenario_values::Scenario;

/// A tidied scenario means what the scenario means.
pub fn tidy_keeps_meaning(scenario: &Scenario)
    ensures { MeansTheSame (tidied scenario.now) scenario.now }
{
    let _ = scenario.entries();
}

/// Keeping a set of faults of a scenario means the same as keeping, in the tidied scenario, the faults that come from the set.
pub fn keep_then_tidy(scenario: &Scenario, set: &[u32])
    ensures { MeansTheSame (kept set.now scenario.now) (kept (left_from set.now scenario.now) (tidied scenario.now)) }
{
    let _ = scenario.entries();
}

/// Keeping a set of the tidied scenario's faults means the same as keeping their origins in the scenario.
pub fn keep_of_tidied(scenario: &Scenario, set: &[u32])
    requires { AllByRecursion (λ i. i < all_faults (tidied scenario.now)) set.now }
    ensures { MeansTheSame (kept set.now (tidied scenario.now)) (kept (members_at (origins scenario.now) set.now) scenario.now) }
{
    let _ = scenario.entries();
}

/// Dropping a fault of the tidied scenario means the same as dropping its origin in the scenario.
pub fn tidied_without_a_fault(scenario: &Scenario, fault: u32)
    requires { fault < all_faults (tidied scenario.now) }
    ensures origin { slice_index (origins scenario.now) fault < all_faults scenario.now }
    ensures meaning { MeansTheSame (kept (remove (range_with_len 0 (all_faults (tidied scenario.now))) fault) (tidied scenario.now))
        (kept (remove (range_with_len 0 (all_faults scenario.now)) (slice_index (origins scenario.now) fault)) scenario.now) }
{
    let _ = scenario.entries();
}

/// A term that tidying drops never acts.
pub fn dropped_terms_never_act(scenario: &Scenario)
    ensures { (catalogue : List (List ℕ)) (seed stream limit : ℕ) (hits : List ℕ)
        → OnlyLeftActed scenario.now (history_of (run_of scenario.now catalogue seed stream limit hits)) }
{}

/// Tidying leaves the faults whose terms it leaves: a fault's number is among the origins exactly if its term has a count other than 0 and stands
/// after no term that acts at each hit.
pub fn faults_left_by_tidying()
    ensures { (s : Entries) (k : ℕ) (p : Place) → slice_get (faults s) k ≡ Some p → holds (origins s) k ≡ is_left (chain_at s p.entry) p.term }
{}

/// A fault that tidying drops (its number isn't among the origins) never acts: no hit is answered by its term.
pub fn dropped_faults_never_act(scenario: &Scenario)
    ensures { (k : ℕ) (p : Place) (e : List ℕ × List Term)
        → slice_get (faults scenario.now) k ≡ Some p
        → slice_get scenario.now p.entry ≡ Some e
        → holds (origins scenario.now) k ≡ false
        → (catalogue : List (List ℕ)) (seed stream limit : ℕ) (hits : List ℕ)
        → AllByRecursion (λ (h : Hit). h.term ≡ Some (e.0, p.term) → ⊥) (history_of (run_of scenario.now catalogue seed stream limit hits)) }
{
    let _ = scenario.entries();
}

/// Up to the first hit at which a fault acts, a scenario with full shares means what the empty scenario means: if no fault acts at the first n hits,
/// these mean what they mean under the empty scenario.
pub fn clean_until_a_fault_acts(scenario: &Scenario)
    requires { HasFullShares scenario.now }
    ensures { (catalogue : List (List ℕ)) (seed stream limit : ℕ) (hits : List ℕ) (n : ℕ)
        → NoFaultActed (take n (history_of (run_of scenario.now catalogue seed stream limit hits)))
        → meaning_of scenario.now catalogue seed stream limit (take n hits) ≡ meaning_of [] catalogue seed stream limit (take n hits) }
{}

/// The answered hits of a run's first n hits are the first n of the run's answered hits.
pub fn history_of_a_part()
    ensures { (r : Run) (n : ℕ) → history_of (record r { hits = take n r.hits }) ≡ take n (history_of r) }
{}
