//! A run without hits, followed through the tree of what lines say.
ghost use Rattle.std.specs.Prelude.{◌≡◌, IfOk};
ghost use Rattle.answered_runs.specs.inside.Trees.{AreKept, HaveKnownPoints, IsSound, IsUnseen, IsEndFault, StaysApart};

use crate::broken::{BrokenRun, Conflict};
use crate::table::AnsweredRuns;
use crate::tree::{AnswerTree, Next};
use action_eval::{Answer, Session};
use scenario_values::Scenario;
use std::alloc::{AllocError, Global};
use target_trait::Verdict;

/// A recorded run without hits.
#[derive(Drop)]
pub(crate) struct UnseenRun {
    pub line: u32,
    pub scenario: Scenario,
    pub verdict: Verdict,
}

/// A run without hits contradicts a line whose run it has, if that passes or fails otherwise.
fn resolved_at(run: &UnseenRun, earlier: u32, verdict: Verdict) -> Option<BrokenRun>
    ensures { IsEndFault run.now earlier verdict result }
{
    if verdict == Verdict::Unresolved || verdict == run.verdict {
        return None;
    }
    Some(BrokenRun {
        line: run.line,
        earlier,
        how: Conflict::Verdict,
    })
}

/// How a run without hits contradicts a line that passes or fails: it has the whole run of that line.
pub(crate) fn unseen_contradiction(
    alloc: Global,
    runs: &AnsweredRuns<'_>,
    tree: &AnswerTree,
    run: &UnseenRun,
) -> Result<Option<BrokenRun>, AllocError>
    requires sound { IsSound runs.now tree.now }
    requires kept { AreKept runs.now tree.now }
    requires known { HaveKnownPoints runs.now }
    requires unseen { IsUnseen runs.now run.now }
    ensures { IfOk result (StaysApart runs.now run.now) }
{
    let points = runs.points();
    let mut session = Session::new(alloc, &run.scenario, points, 0, 0, u32::MAX)?;
    let mut place = 0;
    let mut answer = Answer::Go;
    while let Some(next) = tree.find(place, answer)? {
        let said = tree.said(next);
        let point = match said.next {
            Next::Hit(point) => point,
            Next::End(verdict) => return Ok(resolved_at(run, said.line, verdict)),
        };
        answer = session.ask_on(point)?;
        if session.is_cut_short() {
            return Ok(None);
        }
        place = next;
    }
    Ok(None)
}
