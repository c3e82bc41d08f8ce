//! One run of a component that somebody else runs, shown hit by hit as an answer records it.
ghost use Rattle.std.specs.Prelude.{◌≡◌, string_bytes, IfOk};
ghost use Rattle.action_eval.specs.Answers.{texts};
ghost use Rattle.target_trait.specs.declared.judgement.Verdict.TheVariants.{Pass};
ghost use Rattle.report.specs.explained.ByAnswer.{answer_facts, answer_text, answered_hits, has_idle};

use crate::Names;
use crate::explained::idle::leaves_idle;
use crate::explained::printing::{RunHits, run_text};
use crate::explained::told::ToldRun;
use action_eval::{Answered, history};
use scenario_values::Scenario;
use std::alloc::{AllocError, Global};
use target_trait::Verdict;

/// What acted at the hits of these points under a scenario.
fn answered_hits<'a>(
    alloc: Global,
    points: &'a [&'a str],
    scenario: &'a Scenario,
    hits: &[u32],
) -> Result<Vec<Answered<'a>>, AllocError>
    ensures { IfOk result (λ answered. answered.items ≡ answered_hits (texts points.now) scenario.now hits.now) }
{
    let Ok(count) = u32::try_from(hits.len()) else {
        return Err(AllocError);
    };
    history(alloc, scenario, points, 0, 0, count, hits)
}

/// Whether a fault of a scenario never acts in a run, of a component that somebody else runs, which hits these points in this order. The scenario's
/// shares have to be 0 or 100 percent.
///
/// The time grows with the number of hits, and with that number once more for each fault. An error means that memory was refused, or that there are
/// more than 4294967295 hits.
pub fn has_idle(
    alloc: Global,
    points: &[&str],
    scenario: &Scenario,
    hits: &[u32],
) -> Result<bool, AllocError>
    ensures { IfOk result (λ idle. idle ≡ has_idle (texts points.now) scenario.now hits.now) }
{
    let hits = answered_hits(alloc, points, scenario, hits)?;
    Ok(leaves_idle(hits.as_slice(), scenario))
}

/// A run of a component that somebody else runs, as an answer records it.
#[derive(Drop)]
pub struct RunByAnswer<'a> {
    pub scenario: &'a Scenario,
    pub verdict: Verdict,
    /// The points of its hits.
    pub hits: &'a [u32],
}

/// The run, as its lines show it. Nobody knows its limit.
fn shown_of<'a>(
    points: &'a [&'a str],
    run: &RunByAnswer<'a>,
    hits: &'a [Answered<'a>],
) -> RunHits<'a>
    ensures { result ≡ record { points = points.entry; scenario = run.now.scenario; verdict = run.now.verdict; known = Pass; hits = hits.entry } }
{
    RunHits {
        points,
        scenario: run.scenario,
        verdict: run.verdict,
        known: Verdict::Pass,
        hits,
    }
}

/// A run of a component that somebody else runs, hit by hit: the lines of [`crate::explained::explain`], by the scenario, the verdict and the points of
/// the hits in an answer. The limit of such a component isn't known, so no line says that it stopped the run.
///
/// The time and the errors are those of [`has_idle`]. Only if points are hit that aren't among these, the time grows with the square of the number of
/// hits.
pub fn explain_answer<N: Names>(
    alloc: Global,
    names: &N,
    points: &[&str],
    run: &RunByAnswer<'_>,
) -> Result<String, AllocError>
    ensures { IfOk result (λ text. string_bytes text
        ≡ answer_text (texts points.now) (N.code_text names.now) run.now.scenario.now run.now.verdict run.now.hits.now) }
{
    let hits = answered_hits(alloc, points, run.scenario, run.hits)?;
    let run = shown_of(points, run, hits.as_slice());
    run_text(alloc, names, &run, hits.as_slice())
}

/// The same, but only the first `most` hits have lines, as with [`crate::explained::tell`].
pub fn tell_answer<N: Names>(
    alloc: Global,
    names: &N,
    points: &[&str],
    run: &RunByAnswer<'_>,
    most: usize,
) -> Result<ToldRun, AllocError>
    ensures { IfOk result (λ told. told
        ≡ answer_facts most (texts points.now) (N.code_text names.now) run.now.scenario.now run.now.verdict run.now.hits.now) }
{
    let hits = answered_hits(alloc, points, run.scenario, run.hits)?;
    let shown = hits.len().min(most);
    let run = shown_of(points, run, hits.as_slice());
    let text = run_text(alloc, names, &run, &hits[..shown])?;
    Ok(ToldRun {
        text,
        left_out: hits.len() - shown,
    })
}
