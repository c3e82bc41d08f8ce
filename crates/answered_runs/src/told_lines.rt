//! Which lines there are: the first ones with their scenarios, those of known plans before the others.
ghost use Rattle.std.specs.Prelude.{◌≡◌, ◌<◌, ◌^◌, ◌⊎◌, ℕ, false, true, length, slice_index_or, IfOk, OnOk};
ghost use Rattle.answered_runs.specs.inside.Played.{AreAdded, AreDone, AreMarked, IsLineAdded, IsState};

use crate::broken::BrokenRun;
use crate::lines::{LineNames, scenario_on};
use crate::plan_runs::{PlayBuffers, add_told};
use crate::plans::KnownPlans;
use crate::played::{Played, add_run};
use crate::table::AnsweredRuns;
use answer_text::{PointNames, cut_line};
use std::alloc::{AllocError, Global};

/// Marks a line.
fn mark(own: &mut Vec<bool>, line: u32) -> Result<(), AllocError>
    ensures { OnOk result ((i : ℕ) → slice_index_or own.new.items i false ≡ true → (i ≡ line) ⊎ (slice_index_or own.old.items i false ≡ true)) }
{
    let line = line as usize;
    if own.len() <= line {
        own.resize(line + 1, false)?;
    }
    own[line] = true;
    Ok(())
}

/// Whether a line is marked.
fn is_own(own: &[bool], line: usize) -> bool
    ensures { result ≡ slice_index_or own.now line false }
{
    line < own.len() && own[line]
}

/// Adds the recorded run of the plan of this number, if there is one, and marks its line.
fn add_plan<'a>(
    known: &KnownPlans<'a>,
    buffers: &mut PlayBuffers<'a>,
    number: usize,
    played: &mut Played,
) -> Result<Option<BrokenRun>, AllocError>
    requires number { number < length known.now.list.plans }
    requires state { IsState known.now.answered played.old }
    requires marked { AreMarked known.now.answered played.old }
    ensures { IfOk result (AreAdded AreMarked known.now.answered played.new) }
{
    let _ = known.runs().lines();
    let Some(run) = known.told(number) else {
        return Ok(None);
    };
    if let Some(broken) = add_told(known, buffers, number, played, run)? {
        return Ok(Some(broken));
    }
    mark(&mut played.own, run.line)?;
    Ok(None)
}

/// Adds the recorded runs of known plans, in the order of the plans, and marks their lines.
pub(crate) fn add_plans(
    alloc: Global,
    known: &KnownPlans<'_>,
    played: &mut Played,
) -> Result<Option<BrokenRun>, AllocError>
    requires state { IsState known.now.answered played.old }
    requires marked { AreMarked known.now.answered played.old }
    ensures { IfOk result (AreAdded AreMarked known.now.answered played.new) }
{
    let mut buffers = PlayBuffers::new(alloc);
    for number in 0..known.list().plans.len() {
        if let Some(broken) = add_plan(known, &mut buffers, number, played)? {
            return Ok(Some(broken));
        }
    }
    Ok(None)
}

/// A line of a text of answers.
#[derive(Drop)]
struct Line<'a> {
    /// From 1.
    number: usize,
    text: &'a [u8],
}

/// Adds the run that a line records. A marked line is passed over, and so is one that can't be read, or that repeats an earlier one.
fn add_line(
    alloc: Global,
    runs: &AnsweredRuns<'_>,
    names: &LineNames<'_>,
    played: &mut Played,
    line: &Line<'_>,
) -> Result<Option<BrokenRun>, AllocError>
    requires codes { length names.now.codes.now < 2 ^ 32 }
    requires state { IsState runs.now played.old }
    requires marked { AreMarked runs.now played.old }
    ensures { IfOk result (IsLineAdded names.now.codes.now names.now.points runs.now played.old played.new line.now.text.now line.now.number) }
{
    if is_own(played.own.as_slice(), line.number) {
        return Ok(None);
    }
    let Some(scenario) = scenario_on(alloc, names, line.text)? else {
        return Ok(None);
    };
    let Some(run) = runs.told(&scenario)? else {
        return Ok(None);
    };
    if run.line as usize != line.number {
        return Ok(None);
    }
    add_run(alloc, runs, played, scenario, run)
}

/// Adds the runs that other lines record, in the text's order.
pub(crate) fn add_lines(
    alloc: Global,
    runs: &AnsweredRuns<'_>,
    played: &mut Played,
) -> Result<Option<BrokenRun>, AllocError>
    requires state { IsState runs.now played.old }
    requires marked { AreMarked runs.now played.old }
    ensures { IfOk result (AreAdded AreDone runs.now played.new) }
{
    let lines = runs.lines();
    let codes = lines.codes;
    let points = PointNames::new(alloc, lines.points)?;
    let names = LineNames { codes, points };
    let mut number = 1;
    let mut rest = lines.text;
    while let Some((text, after)) = cut_line(rest) {
        let line = Line { number, text };
        if let Some(broken) = add_line(alloc, runs, &names, played, &line)? {
            return Ok(Some(broken));
        }
        number += 1;
        rest = after;
    }
    Ok(None)
}
