//! Laws on answered runs, as contracts of functions that do nothing.
ghost use Rattle.std.specs.Prelude.{◌≤◌, ℕ, List, []};
ghost use Rattle.action_eval.specs.declared.rig.Kind.{Kind};
ghost use Rattle.answer_text.specs.Runs.{KnownRuns};
ghost use Rattle.grown_plans.specs.GrownPlans.{Subject};
ghost use Rattle.grown_runs.specs.known.Known.{Agrees};
ghost use Rattle.answered_runs.specs.Agreement.{AreOfOne};
ghost use Rattle.answered_runs.specs.Answered.{Answered, plan_runs};
ghost use Rattle.answered_runs.specs.Components.{AgreesWithRuns, IsComponent};
ghost use Rattle.answered_runs.specs.EndedRuns.{ended_component, ended_told, two_points};
ghost use Rattle.answered_runs.specs.SomeComponent.{HasComponent, WereRead};
ghost use Rattle.answered_runs.specs.Verdicts.{AreVerdictsOf, verdict_by};

/// What answers record of the runs of plans is true of each component that agrees with the answers.
pub fn answers_tell_plans()
    ensures { (t : Subject) (points : List (List ℕ)) (listed : List (List Kind)) (told : KnownRuns) (depth : ℕ) → IsComponent points listed t → depth ≤ 64
        → AgreesWithRuns t told → Agrees t depth (plan_runs points told) }
{}

/// Each verdict that is known by answers is that of each component that agrees with them.
pub fn answers_tell_verdicts()
    ensures { (t : Subject) (points : List (List ℕ)) (listed : List (List Kind)) (told : KnownRuns) (depth : ℕ) → IsComponent points listed t → depth ≤ 64
        → AgreesWithRuns t told → AreVerdictsOf t (verdict_by points told depth) }
{}

/// A run that somebody ended, recorded as unresolved with fewer hits than another run has, is the run of some component: of one of which nobody knows
/// how it goes on there. So what is promised for each component that agrees with the answers isn't empty if they record such runs.
pub fn ended_runs_have_a_component()
    ensures component { IsComponent two_points [] ended_component }
    ensures agrees { AgreesWithRuns ended_component ended_told }
{}

/// If no two lines of answers contradict each other, some component agrees with them. So what is promised for each component that agrees with the
/// answers isn't empty.
pub fn agreeing_lines_have_a_component()
    ensures { (a : Answered) (depth : ℕ) → depth ≤ 64 → WereRead a → AreOfOne a → HasComponent a depth }
{}
