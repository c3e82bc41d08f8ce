//! Laws on grown plans, as contracts of functions that do nothing. Except for the first two they hold for every lawful subject, whatever it asks, and
//! for every limit of hits.
ghost use Rattle.std.specs.Prelude.{ℕ, ◌<◌, ◌≤◌, ◌^◌, List};
ghost use Rattle.std.specs.List.{AllByRecursion};
ghost use Rattle.action_eval.specs.RiggedScenario.{CanBeRigged};
ghost use Rattle.action_eval.specs.declared.rig.Kind.{Kind};
ghost use Rattle.grown_plans.specs.AskedPoints.{AsksLikeParent, GrowsByAsked, GoesOnwardByAsked, ReachesByAsked, AsksWithin};
ghost use Rattle.grown_plans.specs.GrownPlans.{Subject, kinds_at, tried_over, usual_subject, rigs_of, level, grown};
ghost use Rattle.grown_plans.specs.Promises.{CanBeTried, IsLawful, NeedsNoSeed, KeepsPrefix, SkipsNothing, RunsNothingTwice, TriesOnward, IsLeast, IsWhole, HasCauses};

use target_trait::Target;

/// Every target is a lawful subject for the usual kinds of faults, a return and a panic, at every limit of hits.
pub fn each_target_is_a_lawful_subject<T: Target>()
    ensures { (setup : T) (workload : T.Workload) (limit : ℕ) → IsLawful (usual_subject (T.asks setup workload) T.names limit) }
{}

/// If what a lawful subject asks of its kinds holds for each list of kinds that is listed for points, it holds for the kinds at each point: for the
/// listed ones, and for the usual ones if none are listed.
pub fn listed_kinds_can_be_tried()
    ensures { (names : List (List ℕ)) (listed : List (List Kind)) → AllByRecursion CanBeTried listed
        → (point : ℕ) → CanBeTried (kinds_at (tried_over names listed) point) }
{}

/// The run of a grown plan is the same under every seed and stream number.
pub fn each_plan_needs_no_seed()
    ensures { (t : Subject) → IsLawful t → (d : ℕ) → AllByRecursion (NeedsNoSeed t) (grown t d) }
{}

/// The children of a plan of a level follow from the points that its run asked, whichever seed and stream number it was run under.
pub fn each_plan_grows_by_what_was_asked()
    ensures { (t : Subject) → IsLawful t → (n : ℕ) → AllByRecursion (GrowsByAsked t) (level t n) }
{}

/// Whether a plan of a level comes once more with its last fault sticky follows from the points that its run asked. So does, for each grown plan, how
/// often its run hits a point. Each point that a run asks is one of the catalogue's.
pub fn each_run_is_told_by_what_was_asked()
    ensures onward { (t : Subject) → IsLawful t → (n : ℕ) → AllByRecursion (GoesOnwardByAsked t) (level t n) }
    ensures reached { (t : Subject) → IsLawful t → (d : ℕ) → AllByRecursion (ReachesByAsked t) (grown t d) }
    ensures within { (t : Subject) → IsLawful t → AsksWithin t }
{}

/// The run of a grown plan asks the same points as that of the plan that it grew from, up to the hit of its last fault, whichever the seeds and
/// stream numbers are.
pub fn each_run_asks_like_its_parents()
    ensures { (t : Subject) → IsLawful t → (d : ℕ) → AllByRecursion (AsksLikeParent t) (grown t d) }
{}

/// A scenario can be made of each grown plan of a depth of at most 64: it has at most 64 rigged hits, and their numbers fit 32 bits.
pub fn each_plan_can_be_rigged()
    ensures { (t : Subject) → IsLawful t → t.limit < 2 ^ 32 → (d : ℕ) → d ≤ 64 → AllByRecursion (λ plan. CanBeRigged (rigs_of plan)) (grown t d) }
{}

/// Prefix: up to its last fault a plan's run goes as its parent's. There the fault acts, and after it none does.
pub fn each_plan_keeps_its_parents_prefix()
    ensures { (t : Subject) → IsLawful t → (n : ℕ) → AllByRecursion (KeepsPrefix t) (level t n) }
{}

/// Nothing skipped: take any scenario, seed and stream number in whose run at most d hits aren't answered Go and no pause stops it. Exactly one plan
/// of levels 0 to d has the same hits and answers, and the same verdict.
pub fn nothing_is_skipped()
    ensures { (t : Subject) → IsLawful t → (d : ℕ) → SkipsNothing t d }
{}

/// Nothing run twice: no two of the plans of levels 0 to d and of those with a sticky fault have the same hits and answers.
pub fn nothing_is_run_twice()
    ensures { (t : Subject) → IsLawful t → (d : ℕ) → RunsNothingTwice t d }
{}

/// From then on: take any case in which fewer than d faults act and then, from one hit on, each hit of its point returns. Exactly one plan of levels
/// 0 to d or with a sticky fault has the same hits and answers, and the same verdict.
pub fn faults_from_then_on_are_tried()
    ensures { (t : Subject) → IsLawful t → (d : ℕ) → TriesOnward t d }
{}

/// Least: if no plan of levels 0 to d fails with a code, no scenario does under which at most d faults act, nor do any rigged hits of which there are
/// at most d. So the first failure in level d + 1 keeps each of its faults in a reduction.
pub fn first_failures_have_least_faults()
    ensures { (t : Subject) → IsLawful t → (d : ℕ) → IsLeast t d }
{}

/// Whole: if level d + 1 is empty, nothing is skipped of any scenario, however many faults act under it.
pub fn an_empty_level_makes_it_whole()
    ensures { (t : Subject) → IsLawful t → (d : ℕ) → IsWhole t d }
{}

/// A cause for each failure: each plan of levels 0 to d that fails with a code has a cause of this code among these plans. The cause fails with the
/// code, without any one of its faults it doesn't, and all its faults are the plan's.
pub fn each_failure_has_a_cause()
    ensures { (t : Subject) → IsLawful t → (d : ℕ) → HasCauses t d }
{}
