//! The recorded runs that were gone through so far, played together.
ghost use Rattle.std.specs.Prelude.{◌≡◌, ◌<◌, ◌≤◌, Some, IfOk, length};
ghost use Rattle.std.specs.List.{AllByRecursion};
ghost use Rattle.scenario_values.specs.Tidied.{tidied};
ghost use Rattle.answer_text.specs.Runs.{told_in};
ghost use Rattle.answered_runs.specs.inside.Played.{IsAdded, IsBegun, IsState};
ghost use Rattle.answered_runs.specs.inside.Trees.{IsPut, IsSeen, IsSound, line_seen};

use crate::broken::BrokenRun;
use crate::certain::is_certain;
use crate::saying::{SeenRun, put_run};
use crate::table::AnsweredRuns;
use crate::tree::AnswerTree;
use crate::unseen::UnseenRun;
use action_eval::Session;
use answer_text::ToldRun;
use grown_runs::{Look, RunTable};
use scenario_values::Scenario;
use std::alloc::{AllocError, Global};

/// What the recorded runs say that were gone through: those with hits stand in the tree, and the others in a list. Scenarios whose terms may act or
/// not say nothing. The lines of known plans are marked.
#[derive(Drop)]
pub(crate) struct Played {
    pub tree: AnswerTree,
    pub unseen: Vec<UnseenRun>,
    pub own: Vec<bool>,
    /// The hits of the run that comes next.
    pub hits: Vec<u32>,
}

impl Played {
    /// No run.
    pub(crate) fn new(alloc: Global) -> Self
        ensures { IsBegun result }
    {
        Played {
            tree: AnswerTree::new(alloc),
            unseen: Vec::new(alloc),
            own: Vec::new(alloc),
            hits: Vec::new(alloc),
        }
    }
}

/// Plays a run with hits under its scenario, which is tidied, and puts what it says into the tree.
fn put_written(
    alloc: Global,
    runs: &AnsweredRuns<'_>,
    tree: &mut AnswerTree,
    scenario: &Scenario,
    run: &SeenRun<'_>,
) -> Result<Option<BrokenRun>, AllocError>
    requires few { length run.now.hits.now ≤ 65536 }
    requires known { AllByRecursion (λ p. p < length runs.now.points) run.now.hits.now }
    requires tidy { tidied scenario.now ≡ scenario.now }
    requires seen { IsSeen runs.now scenario.now run.now }
    requires sound { IsSound runs.now tree.old }
    ensures { IfOk result (IsPut runs.now tree.old tree.new (line_seen scenario.now run.now)) }
{
    let _ = scenario.entries();
    let limit = run.hits.len() as u32;
    let mut session = Session::new(alloc, scenario, runs.points(), 0, 0, limit)?;
    put_run(runs, tree, &mut session, run)
}

/// Adds the recorded run of a tidied scenario, or finds how it contradicts one that was added before, or itself.
pub(crate) fn add_run(
    alloc: Global,
    runs: &AnsweredRuns<'_>,
    played: &mut Played,
    scenario: Scenario,
    run: &ToldRun,
) -> Result<Option<BrokenRun>, AllocError>
    requires state { IsState runs.now played.old }
    requires tidy { tidied scenario ≡ scenario }
    requires recorded { told_in runs.now.book scenario ≡ Some run.now }
    ensures { IfOk result (IsAdded runs.now played.old played.new scenario run.now) }
{
    if !is_certain(&scenario) {
        return Ok(None);
    }
    let _ = runs.lines();
    let line = run.line;
    match runs.read(run, &mut played.hits)? {
        Look::Seen(verdict) => {
            let hits = played.hits.as_slice();
            let seen = SeenRun {
                line,
                verdict,
                hits,
            };
            put_written(alloc, runs, &mut played.tree, &scenario, &seen)
        }
        Look::Unseen(verdict) => {
            played.unseen.push(UnseenRun {
                line,
                scenario,
                verdict,
            })?;
            Ok(None)
        }
        Look::Unknown => Ok(None),
    }
}
