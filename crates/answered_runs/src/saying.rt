//! A run with hits, put into the tree of what lines say.
ghost use Rattle.std.specs.Prelude.{◌≡◌, ◌<◌, ◌≤◌, ◌+◌, ◌^◌, ℕ, true, IfOk, None, OnOk, Some, length, slice_get};
ghost use Rattle.std.specs.List.{AllByRecursion};
ghost use Rattle.scenario_values.specs.Scenario.{IsScenario};
ghost use Rattle.scenario_values.specs.Tidied.{tidied};
ghost use Rattle.action_eval.specs.Answers.{Go, reply_of_answer, stopped};
ghost use Rattle.target_trait.specs.Play.{Ask};
ghost use Rattle.answered_runs.specs.inside.Trees.{Enters, GoesAlong, HasBegun, IsBroken, IsConflict, IsNext, IsPauseFault, IsPut, IsSeen, IsSound, line_seen};

use crate::broken::{BrokenRun, Conflict};
use crate::table::AnsweredRuns;
use crate::tree::{AnswerTree, Next, Said};
use action_eval::{Answer, Session};
use std::alloc::AllocError;
use target_trait::Verdict;

/// A recorded run with its hits.
#[derive(Clone, Copy)]
pub(crate) struct SeenRun<'a> {
    pub line: u32,
    pub verdict: Verdict,
    pub hits: &'a [u32],
}

/// The place to which an answer leads. If no line had it there, the place is new, and this is said there.
fn follow(
    tree: &mut AnswerTree,
    place: u32,
    answer: Answer<'_>,
    said: Said,
) -> Result<u32, AllocError>
    requires { place < length tree.old.said }
    ensures { IfOk result (Enters tree.old tree.new place (reply_of_answer answer.entry) said) }
{
    match tree.find(place, answer)? {
        Some(next) => Ok(next),
        None => tree.add(place, answer, said),
    }
}

/// How what comes next differs from what is said there, at the hit of this number.
fn conflict_of(said: Next, next: Next, hit: u32) -> Option<Conflict>
    ensures { IsConflict said next hit result }
{
    match (said, next) {
        (Next::Hit(point), Next::Hit(other)) if point == other => None,
        (Next::End(verdict), Next::End(other)) if verdict == other => None,
        (Next::End(_), Next::End(_)) => Some(Conflict::Verdict),
        (Next::Hit(_), _) | (_, Next::Hit(_)) => Some(Conflict::Hits(hit)),
    }
}

/// How a line contradicts what is said at a place.
fn broken_at(there: Said, said: Said, hit: u32) -> Option<BrokenRun>
    ensures { IsBroken there said hit result }
{
    match conflict_of(there.next, said.next, hit) {
        Some(how) => Some(BrokenRun {
            line: said.line,
            earlier: there.line,
            how,
        }),
        None => None,
    }
}

/// Whether a run may have been stopped by a pause at the last of so many hits: it has no further one, and is unresolved.
fn after_pause(run: &SeenRun<'_>, count: usize) -> Option<BrokenRun>
    ensures { IsPauseFault run.now count result }
{
    if count == run.hits.len() && run.verdict == Verdict::Unresolved {
        return None;
    }
    Some(BrokenRun {
        line: run.line,
        earlier: run.line,
        how: Conflict::Paused,
    })
}

/// How many hits from this number on are of this point, up to the first one that isn't.
fn count_alike(hits: &[u32], number: usize, point: u32) -> usize
    requires { number ≤ length hits.now }
    ensures alike { (m : ℕ) → m < result → slice_get hits.now (number + m) ≡ Some point }
    ensures within { number + result ≤ length hits.now }
{
    for count in 0..hits.len() - number {
        if hits[number + count] != point {
            return count;
        }
    }
    hits.len() - number
}

/// Plays the hits from this number on that are of this point and go, as far as the tree says the same of each, or nothing yet. The place comes after
/// the answers so far, and is that of a hit of the point. Returns how many hits these are.
fn go_along(
    tree: &mut AnswerTree,
    session: &mut Session<'_>,
    run: &SeenRun<'_>,
    number: usize,
    place: u32,
    point: u32,
) -> Result<u32, AllocError>
    requires number { number ≤ length run.now.hits.now }
    requires few { length run.now.hits.now ≤ 65536 }
    requires place { IsNext tree.old place (Ask point) }
    requires known { point < length session.old.given.catalogue }
    requires running { stopped session.old ≡ None }
    ensures along { IfOk result (GoesAlong tree.old tree.new session.old session.new run.now number place point) }
    ensures running { OnOk result (stopped session.new ≡ None) }
    ensures fits { IfOk result (λ n. place + n < 2 ^ 32) }
{
    let line = run.line;
    let next = Next::Hit(point);
    let most = count_alike(run.hits, number, point);
    if tree.ends_with(place, Said { line, next }) {
        let count = session.pass(point, most)? as u32;
        tree.go_on(count)?;
        return Ok(count);
    }
    let most = tree.along(place, most as u32) as usize;
    let count = session.pass(point, most)?;
    Ok(count as u32)
}

/// Whether a run goes on after an answer as if nothing had happened.
fn goes(answer: &Answer<'_>) -> bool
    ensures { result ≡ true → reply_of_answer answer.now ≡ Go }
{
    match answer {
        Answer::Go => true,
        Answer::Halt | Answer::Return(_) => false,
    }
}

/// Puts what a run says into the tree, or finds how it contradicts what is there, or itself. A session without hits plays it. The run is recorded of
/// the session's scenario, tidied.
pub(crate) fn put_run(
    runs: &AnsweredRuns<'_>,
    tree: &mut AnswerTree,
    session: &mut Session<'_>,
    run: &SeenRun<'_>,
) -> Result<Option<BrokenRun>, AllocError>
    requires few { length run.now.hits.now ≤ 65536 }
    requires known { AllByRecursion (λ p. p < length runs.now.points) run.now.hits.now }
    requires begun { HasBegun runs.now.points (length run.now.hits.now) session.old }
    requires lawful { IsScenario session.old.given.scenario }
    requires seen { IsSeen runs.now (tidied session.old.given.scenario) run.now }
    requires sound { IsSound runs.now tree.old }
    ensures { IfOk result (IsPut runs.now tree.old tree.new (line_seen (tidied session.old.given.scenario) run.now)) }
{
    let line = run.line;
    let mut place = 0;
    let mut answer = Answer::Go;
    let mut number = 0;
    while number < run.hits.len() {
        let point = run.hits[number];
        let next = Next::Hit(point);
        number += 1;
        place = follow(tree, place, answer, Said { line, next })?;
        if let Some(broken) = broken_at(tree.said(place), Said { line, next }, number as u32) {
            return Ok(Some(broken));
        }
        answer = session.ask_on(point)?;
        if session.is_cut_short() {
            return Ok(after_pause(run, number));
        }
        if goes(&answer) && session.stopped().is_none() {
            let count = go_along(tree, session, run, number, place, point)?;
            number += count as usize;
            place += count;
        }
    }
    let next = Next::End(run.verdict);
    place = follow(tree, place, answer, Said { line, next })?;
    let hit = run.hits.len() as u32 + 1;
    Ok(broken_at(tree.said(place), Said { line, next }, hit))
}
