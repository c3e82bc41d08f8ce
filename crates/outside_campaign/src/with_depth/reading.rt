//! Answers that record hits, read by the settings.
ghost use Rattle.std.specs.Prelude.{◌≡◌, IfErr, IfOk};
ghost use Rattle.outside_campaign.specs.with_depth.Questions.{IsReadingFault, Tells};

use crate::borrowed;
use crate::with_depth::fault::QuestionFault;
use crate::with_depth::kinds::listed_kinds;
use action_eval::Kind;
use answer_text::{Runs, read_runs};
use answered_runs::{AnswerLines, AnsweredRuns};
use campaign_given::Outside;
use std::alloc::Global;
use std::marker::Model;

/// The recorded runs of a component with the text that they were read from, and what its settings say of it: its points, and the faults that are
/// tried at them. Contracts see what an [`AnsweredRuns`] over it shows.
#[derive(Drop)]
pub struct ReadRuns<'a> {
    points: Vec<&'a str>,
    listed: Vec<Vec<Kind>>,
    runs: Runs,
    lines: AnswerLines<'a>,
}

impl<'a> Model for ReadRuns<'a> {
    ghost use Rattle.std.specs.Prelude.{◌≡◌, map};
    ghost use Rattle.std.specs.List.{AllByRecursion};
    ghost use Rattle.action_eval.specs.Answers.{texts};
    ghost use Rattle.action_eval.specs.Catalogue.{IsCatalogue};
    ghost use Rattle.answered_runs.specs.Answered.{Answered, CanBeListed};
    ghost use Rattle.answered_runs.specs.Lines.{AreLinesOf};

    ghost Value = { Answered };

    ghost view = { λ r. record { points = texts r.points.items; listed = map (λ kinds. kinds.items) r.listed.items; book = r.runs } };

    ghost invariant = { λ r. IsCatalogue (texts r.points.items) × AllByRecursion (λ kinds. CanBeListed kinds.items) r.listed.items
        × AreLinesOf r.lines.codes.now r.lines.points.now r.lines.text.now r.runs × (r.lines.points.now ≡ texts r.points.items) };
}

impl<'a> ReadRuns<'a> {
    /// Reads a text of answers. Each line has to record the run's hits, or `-` if they weren't seen. `Answers` is the text's first fault; any other
    /// fault means that memory was refused.
    pub fn read(
        alloc: Global,
        outside: &'a Outside,
        answers: &'a [u8],
    ) -> Result<Self, QuestionFault>
        ensures read { IfOk result (λ runs. Tells outside.now answers.now runs) }
        ensures fault { IfErr result (IsReadingFault outside.now answers.now) }
    {
        let lines = AnswerLines {
            codes: outside.codes.as_slice(),
            points: outside.points.as_slice(),
            text: answers,
        };
        let runs = read_runs(alloc, lines.codes, lines.points, answers)?;
        let points = borrowed(alloc, lines.points)?;
        let listed = listed_kinds(alloc, outside)?;
        Ok(ReadRuns {
            points,
            listed,
            runs,
            lines,
        })
    }

    /// The table of these runs.
    pub fn table(&self, alloc: Global) -> AnsweredRuns<'_>
        ensures { result ≡ self.now }
    {
        AnsweredRuns::new(
            alloc,
            self.points.as_slice(),
            self.listed.as_slice(),
            &self.runs,
            self.lines,
        )
    }
}
