//! Laws of reductions, as contracts of functions that do nothing.
ghost use Rattle.std.specs.Prelude.{◌≡◌, ◌<◌, ℕ, List, [], ◌∷◌, length, ◌&&◌, ◌||◌, nat_eq, nat_lt, Bool, true, false, None, Some};
ghost use Rattle.std.specs.List.{list_any, range_with_len, AllByRecursion};
ghost use Rattle.ddmin_parallel.specs.Ddmin.{ddmin, ddmin2, one_round, Fits, Reduced};
ghost use Rattle.ddmin_parallel.specs.OneMinimal.{IsOneMinimal};
ghost use Rattle.ddmin_parallel.specs.Sublists.{IsSublist, Ascends};
ghost use Rattle.ddmin_parallel.specs.CoreEvents.{Answers, Agrees, start, furthest, finish, walk, Event, End, Empty, Round};
ghost use Rattle.ddmin_parallel.specs.CoreEvents.{same_set, first_open, next_round, begin, replay, position, next, State, is_out};
ghost use Rattle.std.specs.FinMap.{get};
ghost use Rattle.ddmin_parallel.specs.Logs.{AreOwn};

/// Reductions whose results and counts are known.
pub fn known_rows()
    ensures eight { (ddmin (λ s. list_any (nat_eq 2) s && list_any (nat_eq 6) s) 8) ≡ record { kept = 2 ∷ 6 ∷ []; tests = 29 } }
    ensures three { (ddmin (λ s. list_any (nat_eq 0) s && list_any (nat_eq 2) s) 3) ≡ record { kept = 0 ∷ 2 ∷ []; tests = 10 } }
    ensures two { (ddmin (λ s. list_any (nat_eq 0) s || list_any (nat_eq 1) s) 2) ≡ record { kept = 0 ∷ []; tests = 2 } }
    ensures empty_fails { (ddmin (λ s. true) 3) ≡ record { kept = []; tests = 1 } }
    ensures no_faults { (ddmin (λ s. true) 0) ≡ record { kept = []; tests = 0 } }
{}

/// The recursion is its own rule, with no bound on the rounds: `ddmin2(c, n)` does one round and goes on
/// by `ddmin2`.
pub fn ddmin2_is_its_rule()
    ensures { (test : List ℕ → Bool) (c : List ℕ) (n tests : ℕ) → Fits c n → ddmin2 test c n tests ≡ one_round (ddmin2 test) test c n tests }
{}

/// If all faults together fail, the kept ones fail, and without any one of them they don't.
pub fn one_minimal()
    ensures { (test : List ℕ → Bool) (faults : ℕ) → test (range_with_len 0 faults) ≡ true → IsOneMinimal test (ddmin test faults).kept }
{}

/// If all faults together fail, the kept set fails.
pub fn kept_set_fails()
    ensures { (test : List ℕ → Bool) (faults : ℕ) → test (range_with_len 0 faults) ≡ true → test (ddmin test faults).kept ≡ true }
{}

/// The kept set is the list of all faults with some left out. So its numbers are faults, in ascending order.
pub fn kept_is_sublist()
    ensures sublist { (test : List ℕ → Bool) (faults : ℕ) → IsSublist (ddmin test faults).kept (range_with_len 0 faults) }
    ensures ascends { (test : List ℕ → Bool) (faults : ℕ) → Ascends (ddmin test faults).kept }
    ensures faults { (test : List ℕ → Bool) (faults : ℕ) → AllByRecursion (λ x. x < faults) (ddmin test faults).kept }
{}

/// If the empty set fails, nothing is kept.
pub fn failing_empty_set_keeps_nothing()
    ensures { (test : List ℕ → Bool) (faults : ℕ) → test [] ≡ true → (ddmin test faults).kept ≡ [] }
{}

/// If the known answers lead to an end, it is the reduction by each test that agrees with them. And from the position that they lead to, each such
/// test comes to its own reduction.
pub fn known_answers_decide()
    ensures leads { (known : Answers) (test : List ℕ → Bool) (faults : ℕ) → Agrees known test
        → finish test (furthest known (start faults)) ≡ ddmin test faults }
    ensures ends { (known : Answers) (test : List ℕ → Bool) (faults : ℕ) (r : Reduced) → Agrees known test
        → furthest known (start faults) ≡ End r → r ≡ ddmin test faults }
{}

/// Steps by a test's own answers lead from the start to its reduction. Each test that agrees with the known answers passes through the position that
/// they determine.
pub fn known_answers_pass_through()
    ensures whole { (test : List ℕ → Bool) (faults : ℕ) → furthest (λ s. Some (test s)) (start faults) ≡ End (ddmin test faults) }
    ensures passes { (known : Answers) (test : List ℕ → Bool) (faults : ℕ) → Agrees known test
        → (steps : ℕ) × (walk steps (λ s. Some (test s)) (start faults) ≡ furthest known (start faults)) }
{}

/// Whatever the order of the events: if each answer that was put is the test's own and an end is reached, it is the recursion's.
pub fn events_decide()
    ensures { (test : List ℕ → Bool) (faults : ℕ) (events : List Event) (r : Reduced) → AreOwn test events
        → position (replay (begin faults) events) ≡ End r → r ≡ ddmin test faults }
{}

/// If no set is out and no request comes, the reduction is at its end.
pub fn some_request_comes()
    ensures { (state : State) (ahead : Bool) → state.out ≡ [] → next state ahead ≡ None → (r : Reduced) × (position state ≡ End r) }
{}

/// A set that is handed out is neither known nor out.
pub fn requests_are_open()
    ensures { (state : State) (ahead : Bool) (s : List ℕ) → next state ahead ≡ Some s → (get state.known s ≡ None) × (is_out state s ≡ false) }
{}

/// Rows for the first rounds of eight faults, of which nothing is known, or only that the empty set passes.
pub fn ahead_rows()
    ensures ahead { first_open (λ s. None) (λ s. same_set s []) (next_round (λ s. None) (Empty 8)) ≡ Some (0 ∷ 1 ∷ 2 ∷ 3 ∷ []) }
    ensures none { first_open (λ s. None) (λ s. true) (next_round (λ s. None) (Empty 8)) ≡ None }
    ensures moved { furthest (λ s. elim s [ [] ↦ Some false | x ∷ xs ↦ None ]) (start 8) ≡ Round (0 ∷ 1 ∷ 2 ∷ 3 ∷ 4 ∷ 5 ∷ 6 ∷ 7 ∷ []) 2 1 }
    ensures finer { first_open (λ s. None) (λ s. false) (next_round (λ s. None) (Round (0 ∷ 1 ∷ 2 ∷ 3 ∷ 4 ∷ 5 ∷ 6 ∷ 7 ∷ []) 2 1)) ≡ Some (0 ∷ 1 ∷ []) }
{}
