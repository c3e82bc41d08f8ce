//! Recorded runs that contradict each other.
ghost use Rattle.std.specs.Prelude.{IfNone, IfOk, IfSome};
ghost use Rattle.answer_text.specs.Runs.{told_in};
ghost use Rattle.grown_plans.specs.GrownPlans.{Subject};
ghost use Rattle.answered_runs.specs.Agreement.{AreContradicted};
ghost use Rattle.answered_runs.specs.SomeComponent.{HasComponent};
ghost use Rattle.answered_runs.specs.Components.{AgreesWithRuns, IsComponent};
ghost use Rattle.answered_runs.specs.inside.Played.{AreDone, IsState};

use crate::broken::BrokenRun;
use crate::plans::KnownPlans;
use crate::played::Played;
use crate::table::AnsweredRuns;
use crate::told_lines::{add_lines, add_plans};
use crate::unseen::unseen_contradiction;
use std::alloc::{AllocError, Global};

/// How a run without hits contradicts a line that passes or fails, once all lines were gone through.
fn find_unseen(
    alloc: Global,
    runs: &AnsweredRuns<'_>,
    played: &Played,
) -> Result<Option<BrokenRun>, AllocError>
    requires state { IsState runs.now played.now }
    requires done { AreDone runs.now played.now }
    ensures { IfOk result (AreContradicted runs.now) }
{
    let _ = runs.lines();
    for run in played.unseen.as_slice() {
        if let Some(broken) = unseen_contradiction(alloc, runs, &played.tree, run)? {
            return Ok(Some(broken));
        }
    }
    Ok(None)
}

/// Two recorded runs that no component has both, or one that goes on after a pause; none if one component may have all that are recorded.
///
/// After the same answers a component does the same. So two runs contradict each other if after the same answers they hit different points, or one of
/// them ends, or they end with different verdicts. A run without hits contradicts one that passes or fails if its scenario has the whole run of that.
/// Scenarios with a term that may act or not are passed over.
///
/// The runs of known plans are gone through first, in the order of the plans, and then the other lines, in the text's order. The first run that
/// contradicts one before it is found; then the first one without hits that contradicts another one. Each run is played once, hit by hit. An error
/// means that memory was refused.
pub fn contradiction(alloc: Global, known: &KnownPlans<'_>) -> Result<Option<BrokenRun>, AllocError>
    ensures found { IfOk result (AreContradicted known.now.answered) }
    // Some component agrees with lines of which no two contradict each other.
    ensures some { IfOk result (λ found. IfNone found (HasComponent known.now.answered known.now.depth)) }
    // No component agrees with lines that contradict each other.
    ensures none { IfOk result (λ found. IfSome found (λ broken. (t : Subject)
        → IsComponent known.now.answered.points known.now.answered.listed t → AgreesWithRuns t (told_in known.now.answered.book) → ⊥)) }
{
    let _ = known.list();
    let runs = known.runs();
    let _ = runs.points();
    let _ = runs.lines();
    let mut played = Played::new(alloc);
    if let Some(broken) = add_plans(alloc, known, &mut played)? {
        return Ok(Some(broken));
    }
    if let Some(broken) = add_lines(alloc, runs, &mut played)? {
        return Ok(Some(broken));
    }
    find_unseen(alloc, runs, &played)
}
