//! The lines of the hits, and of what stopped the run.
ghost use Rattle.std.specs.Prelude.{◌≡◌, ◌<◌, ◌+◌, ◌==◌, ◌++◌, [], count_by, length, slice_index_or, string_bytes, take, OnOk};
ghost use Rattle.action_eval.specs.Answers.{texts, did, stopped_by};
ghost use Rattle.report.specs.ReportText.{ended, text_of};
ghost use Rattle.report.specs.explained.Explained.{done_text, hit_line, hit_lines, stop_lines};
ghost use Rattle.report.specs.explained.inside.Counted.{AreCounts};

use action_eval::{Answered, Stop, name_of};
use scenario_grammar::write_task;
use scenario_values::{Task, is_off};
use std::alloc::{AllocError, Global};
use std::fmt::Write;
use target_trait::Verdict;

/// Appends the task that acted at a hit, or `go`.
fn write_done(out: &mut String, task: Option<&Task>) -> Result<(), AllocError>
    ensures { OnOk result (string_bytes out.new ≡ string_bytes out.old ++ done_text (did task.entry)) }
{
    match task {
        Some(task) if !is_off(task) => write_task(out, task),
        _ => out.push_str("go"),
    }
}

/// How many of these hits are of this point, from the counts of the catalogue's points.
fn hits_of(counts: &[usize], hits: &[Answered<'_>], point: u32) -> usize
    requires { AreCounts counts.now hits.now }
    ensures { result ≡ count_by (λ b. b.point == point) hits.now }
{
    match counts.get(point as usize) {
        Some(count) => *count,
        None => hits.iter().filter(|hit| hit.point() == point).count(),
    }
}

/// Counts the hit of this number, after those before it.
fn count_hit(counts: &mut [usize], hits: &[Answered<'_>], number: usize)
    requires within { number < length hits.now }
    requires counted { AreCounts counts.old (take number hits.now) }
    ensures { AreCounts counts.new (take (number + 1) hits.now) }
{
    let place = hits[number].point() as usize;
    if place < counts.len() {
        counts[place] += 1;
    }
}

/// Appends the line of a hit: its number, its point, which hit of that point it is, and what was done.
fn write_hit(
    out: &mut String,
    catalogue: &[&str],
    counts: &[usize],
    before: &[Answered<'_>],
    hit: &Answered<'_>,
) -> Result<(), AllocError>
    requires { AreCounts counts.now before.now }
    ensures { OnOk result (string_bytes out.new ≡ string_bytes out.old ++ ended (hit_line (texts catalogue.now) before.now hit.now)) }
{
    let number = before.len() + 1;
    let name = name_of(catalogue, hit.point());
    let of_point = hits_of(counts, before, hit.point()) + 1;
    write!(out, "hit {number} {name} {of_point} ")?;
    write_done(out, hit.task())?;
    out.push_str("\n")
}

/// Appends a line for each hit. It counts the hits of the catalogue's points in `counts`, which has to begin with no hit.
fn write_counted(
    out: &mut String,
    catalogue: &[&str],
    counts: &mut [usize],
    hits: &[Answered<'_>],
) -> Result<(), AllocError>
    requires { AreCounts counts.old [] }
    ensures { OnOk result (string_bytes out.new ≡ string_bytes out.old ++ text_of (hit_lines (texts catalogue.now) [] hits.now)) }
{
    for (number, hit) in hits.iter().enumerate() {
        write_hit(out, catalogue, counts, &hits[..number], hit)?;
        count_hit(counts, hits, number);
    }
    Ok(())
}

/// Appends a line for each hit.
pub fn write_hits(
    alloc: Global,
    out: &mut String,
    catalogue: &[&str],
    hits: &[Answered<'_>],
) -> Result<(), AllocError>
    ensures { OnOk result (string_bytes out.new ≡ string_bytes out.old ++ text_of (hit_lines (texts catalogue.now) [] hits.now)) }
{
    let mut counts = vec![in alloc; 0usize; catalogue.len()]?;
    write_counted(out, catalogue, counts.as_mut_slice(), hits)
}

/// Why the run stopped: by the last hit that stops it, as a power cut is asked after a panic too.
fn stopped_by(hits: &[Answered<'_>]) -> Option<Stop>
    ensures { result ≡ stopped_by hits.now }
{
    let mut stopped = None;
    for hit in hits {
        stopped = hit.stop().or(stopped);
    }
    stopped
}

/// Appends the line that says what stopped the run, if anything did.
pub fn write_stop(
    out: &mut String,
    verdict: Verdict,
    hits: &[Answered<'_>],
) -> Result<(), AllocError>
    ensures { OnOk result (string_bytes out.new ≡ string_bytes out.old ++ text_of (stop_lines verdict (stopped_by hits.now))) }
{
    match (stopped_by(hits), verdict) {
        (Some(Stop::Panic), _) => out.push_str("stopped panic\n"),
        (Some(Stop::Paused), _) => out.push_str("stopped pause\n"),
        (Some(Stop::Limit), _) | (None, Verdict::Unresolved) => out.push_str("stopped limit\n"),
        (None, Verdict::Pass | Verdict::Fail(_)) => Ok(()),
    }
}
