//! One run of a target, told hit by hit.
ghost use Rattle.std.specs.Prelude.{◌≡◌, ◌≤◌, [], length, string_bytes, IfOk};
ghost use Rattle.action_eval.specs.Answers.{and_then, texts};
ghost use Rattle.target_trait.specs.Outcomes.{outcome};
ghost use Rattle.report.specs.ReportText.{text_of};
ghost use Rattle.report.specs.explained.Explained.{explain_text, given_in, run_lines};

use crate::explained::ends::{MadeRun, RunEnd};
use crate::explained::printing::{RunHits, run_text};
use action_eval::{Answered, history};
use std::alloc::{AllocError, Global};
use target_trait::{Case, Outcome, Target, Verdict, run_case};

/// A run that is shown.
#[derive(Drop)]
pub struct Explained {
    pub verdict: Verdict,
    /// Its lines, each with its line feed.
    pub text: String,
}

/// What acted at each hit of the run of a case over these points that came to this. An error means that memory was refused.
pub fn hits_of<'a>(
    alloc: Global,
    points: &'a [&'a str],
    case: &Case<'a>,
    outcome: &Outcome,
) -> Result<Vec<Answered<'a>>, AllocError>
    requires few { length outcome.now.asked ≤ case.now.max_hits }
    ensures { IfOk result (λ hits. hits.items ≡ and_then (given_in (texts points.now) case.now) [] outcome.now.asked) }
{
    history(
        alloc,
        case.scenario,
        points,
        case.seed,
        case.stream,
        case.max_hits,
        outcome.asked.as_slice(),
    )
}

/// The lines of a run that was made on a target and has these hits, of which only those that are shown have a line. An error means that memory was
/// refused.
pub fn made_text<'a, T: Target>(
    alloc: Global,
    target: &T,
    run: &MadeRun<'a>,
    hits: &'a [Answered<'a>],
    shown: &[Answered<'_>],
) -> Result<String, AllocError>
    ensures { IfOk result (λ text. string_bytes text ≡ text_of (run_lines T.names T.code_text run.now.case.now.scenario.now
        run.now.outcome.now.verdict run.now.outcome.now.verdict hits.now shown.now)) }
{
    let case = run.case;
    let outcome = run.outcome;
    let verdict = outcome.verdict;
    let run = RunHits {
        points: T::catalogue(),
        scenario: case.scenario,
        verdict,
        known: verdict,
        hits,
    };
    run_text(alloc, target, &run, shown)
}

/// Runs a case on a target, and writes the run as text: the verdict; each hit with its number, its point, which hit of that point it is, and the
/// task that acted there, or `go`; what stopped the run, if anything did; each fault of the scenario that never acted; and the lines of the
/// run's end.
///
/// Names and arguments are written as in the scenario's printed form. The time grows with the number of hits, and for each fault with it
/// again; with its square only if the points that are hit aren't in the catalogue. An error means that memory was refused. The target
/// keeps its setup, after an error too.
pub fn explain<T: Target, E: RunEnd<T>>(
    alloc: Global,
    target: &mut T,
    workload: &T::Workload,
    case: &Case<'_>,
    end: &E,
) -> Result<Explained, AllocError>
    ensures verdict { IfOk result (λ told. told.verdict ≡ (outcome (T.asks target.old workload.now) (given_in T.names case.now)).verdict) }
    ensures text { IfOk result (λ told. string_bytes told.text ≡ explain_text T.code_text (T.asks target.old workload.now)
        (E.lines end.now target.old workload.now) (given_in T.names case.now)) }
    ensures setup { target.new ≡ target.old }
{
    let outcome = run_case(alloc, target, workload, case)?;
    let run = MadeRun {
        case: &*case,
        outcome: &outcome,
    };
    let hits = hits_of(alloc, T::catalogue(), case, &outcome)?;
    let mut text = made_text(alloc, target, &run, hits.as_slice(), hits.as_slice())?;
    let end = end.text(alloc, target, workload, &run)?;
    text.push_str(end.as_str())?;
    Ok(Explained {
        verdict: outcome.verdict,
        text,
    })
}
