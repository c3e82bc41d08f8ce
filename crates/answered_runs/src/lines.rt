//! The lines of a text of answers, read again one by one.
ghost use Rattle.std.specs.Prelude.{◌<◌, ◌^◌, length, IfOk};
ghost use Rattle.answered_runs.specs.inside.LineSteps.{IsScenarioOn};

use answer_text::{LineError, PointNames, run_in};
use scenario_values::{Scenario, Text};
use std::alloc::{AllocError, Global};

/// A text of answers, with the names of codes and points by which it is read.
#[derive(Clone, Copy)]
pub struct AnswerLines<'a> {
    pub codes: &'a [Text],
    pub points: &'a [Text],
    pub text: &'a [u8],
}

/// The names of codes and points by which lines are read.
#[derive(Drop)]
pub(crate) struct LineNames<'a> {
    pub codes: &'a [Text],
    pub points: PointNames<'a>,
}

/// The tidied scenario that a line answers, if the line can be read.
pub(crate) fn scenario_on(
    alloc: Global,
    names: &LineNames<'_>,
    line: &[u8],
) -> Result<Option<Scenario>, AllocError>
    requires { length names.now.codes.now < 2 ^ 32 }
    ensures { IfOk result (IsScenarioOn names.now.codes.now names.now.points line.now) }
{
    match run_in(alloc, names.codes, &names.points, true, line) {
        Ok(run) => Ok(Some(run.scenario)),
        Err(LineError::Bad(_)) => Ok(None),
        Err(LineError::Memory) => Err(AllocError),
    }
}
