//! The lines of a run that was made.
ghost use Rattle.std.specs.Prelude.{◌≡◌, ◌++◌, codes, string_bytes, IfOk};
ghost use Rattle.action_eval.specs.Answers.{texts};
ghost use Rattle.report.specs.ReportText.{ended, text_of, verdict_text};
ghost use Rattle.report.specs.explained.Explained.{run_lines};

use crate::explained::hits::{write_hits, write_stop};
use crate::explained::idle::write_idle;
use crate::{Names, write_verdict};
use action_eval::Answered;
use scenario_values::Scenario;
use std::alloc::{AllocError, Global};
use target_trait::Verdict;

/// A run, as its lines show it.
#[derive(Drop)]
pub struct RunHits<'a> {
    /// The names of the points.
    pub points: &'a [&'a str],
    pub scenario: &'a Scenario,
    pub verdict: Verdict,
    /// This says whether the limit stopped the run: the verdict, or `Pass` if nobody knows the limit.
    pub known: Verdict,
    pub hits: &'a [Answered<'a>],
}

/// The line of a verdict.
fn head_text<N: Names>(alloc: Global, names: &N, verdict: Verdict) -> Result<String, AllocError>
    ensures { IfOk result (λ text. string_bytes text ≡ ended (codes "verdict " ++ verdict_text (N.code_text names.now) verdict)) }
{
    let mut text = String::new(alloc);
    text.push_str("verdict ")?;
    write_verdict(&mut text, names, verdict)?;
    text.push_str("\n")?;
    Ok(text)
}

/// The lines of a run. Only the hits that are shown have a line. An error means that memory was refused.
pub fn run_text<N: Names>(
    alloc: Global,
    names: &N,
    run: &RunHits<'_>,
    shown: &[Answered<'_>],
) -> Result<String, AllocError>
    ensures { IfOk result (λ text. string_bytes text ≡ text_of (run_lines (texts run.now.points.now) (N.code_text names.now)
        run.now.scenario.now run.now.verdict run.now.known run.now.hits.now shown.now)) }
{
    let mut text = head_text(alloc, names, run.verdict)?;
    write_hits(alloc, &mut text, run.points, shown)?;
    write_stop(&mut text, run.known, run.hits)?;
    write_idle(&mut text, run.hits, run.scenario)?;
    Ok(text)
}
