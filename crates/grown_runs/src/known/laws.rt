//! Laws on known runs, as contracts of functions that do nothing.
ghost use Rattle.std.specs.Prelude.{ℕ};
ghost use Rattle.grown_plans.specs.GrownPlans.{Subject};
ghost use Rattle.grown_plans.specs.Promises.{IsLawful};
ghost use Rattle.grown_runs.specs.known.Known.{Agrees, KnownRuns};
ghost use Rattle.grown_runs.specs.known.Promises.{EndsAsSeen, EndsWhole, RunsEachOnce, WalksRight};

/// The walk is right: if a lawful subject agrees with the table, the plan that the walk ends in has the run, and so the verdict, of the rigged hits.
pub fn known_runs_tell_others()
    ensures { (t : Subject) → IsLawful t → (d : ℕ) (known : KnownRuns) → Agrees t d known → WalksRight t d known }
{}

/// If no known plan is left to be run, and the hits of each run are recorded, the known plans are the whole list.
pub fn nothing_to_run_is_the_whole_list()
    ensures { (t : Subject) (d : ℕ) (known : KnownRuns) → EndsWhole t d known }
{}

/// If no known plan is left to be run, the known plans keep all promises of the whole list, except for runs that begin like one that is recorded
/// without its hits.
pub fn nothing_is_skipped_as_far_as_seen()
    ensures { (t : Subject) → IsLawful t → (d : ℕ) (known : KnownRuns) → EndsAsSeen t d known }
{}

/// No plan is to be run twice.
pub fn each_plan_is_to_be_run_once()
    ensures { (t : Subject) → IsLawful t → (d : ℕ) (known : KnownRuns) → RunsEachOnce t d known }
{}
