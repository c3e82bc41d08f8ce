//! Laws of behaviours, as contracts of functions that do nothing.
ghost use Rattle.std.specs.Prelude.{◌≡◌, ◌≢◌, ◌<◌, ◌≤◌, ℕ, suc, Contains, List, [], ◌∷◌, Some, None, length, slice_get};
ghost use Rattle.scenario_values.specs.Scenario.{Entries, all_faults};
ghost use Rattle.action_eval.specs.Answers.{given_of};
ghost use Rattle.target_trait.specs.Outcomes.{verdict_with};
ghost use Rattle.grown_plans.specs.Runs.{run, IsUnpaused, Met};
ghost use Rattle.grown_plans.specs.GrownPlans.{Subject, given_for, run_of_plan, grown};
ghost use Rattle.grown_plans.specs.Promises.{IsLawful, verdict_of_plan};
ghost use Rattle.std.specs.List.{AllByRecursion};
ghost use Rattle.campaign_core.specs.promises.Behaviours.{IsBehaviour, verdict_at_end};
ghost use Rattle.campaign_core.specs.Findings.{reduction};
ghost use Rattle.campaign_core.specs.promises.Promises.{Complete, Promises, Sound};
ghost use Rattle.campaign_core.specs.promises.Further.{Further, IsLeast, verdict_of, without};
ghost use Rattle.report.specs.Reports.{CauseFacts, FindingFacts};
ghost use Rattle.target_trait.specs.declared.judgement.Verdict.TheVariants.{Fail, Pass};
ghost use Rattle.campaign_core.specs.promises.Told.{HasBehaviour, HasVerdict, Told, count_of_all, count_of_levels};
ghost use Rattle.campaign_core.specs.promises.WrongReports.{first_returns, flawed, quiet, second_returns};

/// A scenario plays a behaviour: under any seed and stream number, if no pause stops its run, the run is a behaviour, and the scenario's verdict is
/// the one at that behaviour's end.
pub fn a_scenario_plays_a_behaviour()
    ensures behaves { (t : Subject) (scenario : Entries) (seed stream : ℕ) → IsUnpaused t.asks (given_of scenario t.names seed stream t.limit)
        → IsBehaviour t (run t.asks (given_of scenario t.names seed stream t.limit)) }
    ensures verdict { (t : Subject) (scenario : Entries) (seed stream : ℕ) → IsUnpaused t.asks (given_of scenario t.names seed stream t.limit)
        → verdict_with t.asks t.names seed t.limit stream scenario ≡ verdict_at_end t (run t.asks (given_of scenario t.names seed stream t.limit)) }
{}

/// A plan plays its behaviour, under any seed and stream number.
pub fn a_plan_plays_its_behaviour()
    ensures behaves { (t : Subject) → IsLawful t → (d : ℕ) → AllByRecursion (λ plan. IsBehaviour t (run_of_plan t plan)) (grown t d) }
    ensures same { (t : Subject) → IsLawful t → (d : ℕ) → AllByRecursion (λ plan. (seed stream : ℕ) →
        run t.asks (given_for t plan seed stream) ≡ run_of_plan t plan) (grown t d) }
    ensures verdict { (t : Subject) → IsLawful t → (d : ℕ) → AllByRecursion (λ plan. (seed stream : ℕ) →
        verdict_of_plan t seed stream plan ≡ verdict_at_end t (run_of_plan t plan)) (grown t d) }
{}

/// A report that tells a run which its component never has isn't sound: neither a run with a hit of a component that hits nothing, nor a return at the
/// second hit of one that hits its point once. So no cause is listed that never happens.
pub fn no_made_up_run_is_told()
    ensures hits { (d : ℕ) (told : Told) → Contains told.behaviours first_returns → Sound quiet d told → ⊥ }
    ensures further { (d : ℕ) (told : Told) → Contains told.behaviours second_returns → Sound flawed d told → ⊥ }
{}

/// A report isn't sound that prints another fact than those of its runs: beside a cause or a finding a scenario that passes; another depth than the one
/// that was asked for, a level more, or no level at all; that a fault of some plan never acted; findings in another order than that of their numbers; of
/// the component that hits nothing, that its point is reached or in the census, that it fails without faults, or that its run without faults is of
/// level 1; or behind the levels a run without a fault. Nor does a report keep its promises that says that no run
/// is unseen where one is, or that prints beside a number another verdict than its scenario's, or beside a reduction another count of tests than
/// ddmin's; or one that lists a cause of which a fault can be left out, that leaves a cause out, or that lists one twice.
pub fn no_made_up_fact_is_told()
    ensures cause { (t : Subject) (d : ℕ) (told : Told) (cause : CauseFacts) → Contains told.growth.causes cause
        → verdict_of t told cause.number cause.scenario ≡ Pass → Sound t d told → (scenarios : List Entries) → Further t scenarios told → ⊥ }
    ensures finding { (t : Subject) (d : ℕ) (told : Told) (found : FindingFacts) → Contains told.report.findings found
        → verdict_of t told found.number found.scenario ≡ Pass → Sound t d told → (scenarios : List Entries) → Further t scenarios told → ⊥ }
    ensures depth { (t : Subject) (d : ℕ) (told : Told) → told.growth.depth ≡ suc d → Sound t d told → ⊥ }
    ensures level { (t : Subject) (d : ℕ) (told : Told) → length told.growth.levels ≡ suc (suc d) → Sound t d told → ⊥ }
    ensures growth { (t : Subject) (d : ℕ) (told : Told) → told.report.growth ≡ None → Sound t d told → ⊥ }
    ensures unmet { (t : Subject) (d plans : ℕ) (told : Told) → told.report.unmet ≡ suc plans → Sound t d told → ⊥ }
    ensures order { (t : Subject) (d : ℕ) (told : Told) (f g : FindingFacts) → told.report.findings ≡ g ∷ (f ∷ []) → f.number < g.number → Sound t d told → ⊥ }
    ensures reached { (d times : ℕ) (told : Told) → slice_get told.growth.reached 0 ≡ Some (suc times) → Sound quiet d told → ⊥ }
    ensures clean { (d : ℕ) (told : Told) → told.report.clean ≡ Fail 0 → Sound quiet d told → ⊥ }
    ensures census { (d times : ℕ) (told : Told) → slice_get told.report.census 0 ≡ Some (suc times) → Promises quiet d told → ⊥ }
    ensures no_fault { (d : ℕ) (told : Told) → told.growth.levels ≡ 0 ∷ (1 ∷ []) → Sound quiet d told → ⊥ }
    ensures sticky { (t : Subject) (d number : ℕ) (told : Told) → count_of_levels told ≤ number → HasBehaviour told number [] → Sound t d told → ⊥ }
    ensures unseen { (t : Subject) (d : ℕ) (told : Told) (unseen : List Met) → told.growth.unseen ≡ 0 → Complete t d told (λ hits. hits ≡ unseen) → ⊥ }
    ensures verdict { (t : Subject) (scenarios : List Entries) (told : Told) (number code : ℕ) (scenario : Entries) → slice_get scenarios number ≡ Some scenario
        → verdict_of t told number scenario ≡ Pass → HasVerdict told number (Fail code) → Further t scenarios told → ⊥ }
    ensures tests { (t : Subject) (scenarios : List Entries) (told : Told) (found : FindingFacts) → Contains told.report.findings found
        → found.tests ≢ (reduction (verdict_of t told) found.number found.code found.scenario).tests → Further t scenarios told → ⊥ }
    ensures needless { (t : Subject) (scenarios : List Entries) (told : Told) (cause : CauseFacts) (fault : ℕ) → Contains told.growth.causes cause
        → fault < all_faults cause.scenario → verdict_of t told cause.number (without fault cause.scenario) ≡ Fail cause.code → Further t scenarios told → ⊥ }
    ensures missing { (t : Subject) (scenarios : List Entries) (told : Told) (number code : ℕ) (scenario : Entries) → told.growth.causes ≡ []
        → number < count_of_all told → slice_get scenarios number ≡ Some scenario → verdict_of t told number scenario ≡ Fail code
        → IsLeast t told number code scenario → Further t scenarios told → ⊥ }
    ensures twice { (t : Subject) (scenarios : List Entries) (told : Told) (cause : CauseFacts) → told.growth.causes ≡ cause ∷ (cause ∷ [])
        → Further t scenarios told → ⊥ }
{}
