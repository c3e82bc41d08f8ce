//! The list of a campaign with a depth.
ghost use Rattle.std.specs.Prelude.{◌≡◌, ◌≤◌, ◌+◌, length, IfOk, IsErrOf, OnOk};
ghost use Rattle.plan_gen.specs.PlanList.{most_plans};
ghost use Rattle.grown_plans.specs.GrownPlans.{Subject};
ghost use Rattle.answer_text.specs.Runs.{told_in};
ghost use Rattle.answered_runs.specs.Answered.{known_plans};
ghost use Rattle.answered_runs.specs.Components.{AgreesWithRuns, IsComponent};
ghost use Rattle.answered_runs.specs.grown.Further.{AreTooMany, HasFewHits, clean_run, further_known, further_told};
ghost use Rattle.answered_runs.specs.grown.Lists.{IsListOf};

use crate::KnownPlans;
use crate::grown::further::further_plans;
use plan_gen::{PlanFault, PlanList, PlanSettings};
use std::alloc::Global;

/// The storms and listed scenarios behind the known plans. Together they are, as far as it is known, the list of every component that agrees with the
/// answers, in its order. If the run without faults is recorded without its hits, no storm is drawn.
///
/// `TooManyPlans` comes only if the known plans with the storms and listed scenarios are more than 65536, or the run without faults has at least
/// 65536 hits.
pub fn further_behind<'a>(
    alloc: Global,
    known: &KnownPlans<'a>,
    settings: &PlanSettings<'a>,
) -> Result<PlanList<'a>, PlanFault>
    ensures further { IfOk result (λ further. further ≡ further_told known.now.answered settings.now) }
    ensures few { IfOk result (λ further. length known.now.list.plans + length further ≤ most_plans) }
    ensures clean { OnOk result (HasFewHits known.now.answered) }
    // For every component that agrees with the answers.
    ensures whole { IfOk result (λ further. (t : Subject) → IsComponent known.now.answered.points known.now.answered.listed t
        → AgreesWithRuns t (told_in known.now.answered.book)
        → IsListOf t known.now.depth settings.now known.now.answered known.now.list further) }
    ensures known { IfOk result (λ further. (t : Subject) → IsComponent known.now.answered.points known.now.answered.listed t
        → AgreesWithRuns t (told_in known.now.answered.book) → further ≡ further_known t settings.now (clean_run known.now.answered)) }
    ensures many { IsErrOf result PlanFault.TooManyPlans
        → AreTooMany known.now.answered settings.now (length (known_plans known.now.answered known.now.depth)) }
{
    further_plans(alloc, known.runs(), settings, known.list().plans.len())
}
