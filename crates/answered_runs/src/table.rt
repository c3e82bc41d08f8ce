//! The table of recorded runs, by answers.
ghost use Rattle.std.specs.Prelude.{◌≡◌, ◌<◌, ◌≤◌, ◌^◌, length, map, option_map, Some, IfOk, OnOk};
ghost use Rattle.std.specs.List.{AllByRecursion, list_all};
ghost use Rattle.scenario_values.specs.Tidied.{tidied};
ghost use Rattle.action_eval.specs.Answers.{texts};
ghost use Rattle.action_eval.specs.Catalogue.{IsCatalogue};
ghost use Rattle.answer_text.specs.Runs.{told_in};
ghost use Rattle.grown_plans.specs.Promises.{CanBeTried};
ghost use Rattle.grown_runs.specs.known.Looks.{IsLook};
ghost use Rattle.answered_runs.specs.Answered.{CanBeListed, answered, is_low, told_of};
ghost use Rattle.answered_runs.specs.Lines.{AreLinesOf};

use crate::lines::AnswerLines;
use crate::scenarios::plan_scenario;
use action_eval::{Kind, MOST_POINTS, MOST_RIGS, Rig};
use answer_text::{MOST_HITS, Runs, Stretch, ToldRun};
use grown_runs::{Look, RunTable};
use scenario_values::Scenario;
use std::alloc::{AllocError, Global};
use std::marker::Model;

/// The recorded runs of a component with these points. A plan's run is the one that is recorded for the plan's scenario, tidied. Contracts see the
/// names of the points, the kinds of faults that are listed for them, and what is recorded for each tidied scenario.
#[derive(Drop)]
pub struct AnsweredRuns<'a> {
    alloc: Global,
    points: &'a [&'a str],
    listed: &'a [Vec<Kind>],
    runs: &'a Runs,
    lines: AnswerLines<'a>,
}

impl<'a> Model for AnsweredRuns<'a> {
    ghost use Rattle.std.specs.Prelude.{◌≡◌, map};
    ghost use Rattle.std.specs.List.{AllByRecursion};
    ghost use Rattle.action_eval.specs.Answers.{texts};
    ghost use Rattle.action_eval.specs.Catalogue.{IsCatalogue};
    ghost use Rattle.answered_runs.specs.Answered.{Answered, CanBeListed};
    ghost use Rattle.answered_runs.specs.Lines.{AreLinesOf};

    ghost Value = { Answered };

    ghost view = { λ a. record { points = texts a.points.now; listed = map (λ kinds. kinds.items) a.listed.now; book = a.runs.now } };

    ghost invariant = { λ a. IsCatalogue (texts a.points.now) × AllByRecursion (λ kinds. CanBeListed kinds.items) a.listed.now
        × AreLinesOf a.lines.codes.now a.lines.points.now a.lines.text.now a.runs.now × (a.lines.points.now ≡ texts a.points.now) };
}

impl<'a> AnsweredRuns<'a> {
    /// The runs that were read, of a component with these points. `listed` has the kinds of faults that are tried at the hits of each point, in their
    /// order. A point whose list is empty or missing has the usual kinds. `lines` is the text that the runs were read from.
    pub fn new(
        alloc: Global,
        points: &'a [&'a str],
        listed: &'a [Vec<Kind>],
        runs: &'a Runs,
        lines: AnswerLines<'a>,
    ) -> Self
        requires points { IsCatalogue (texts points.now) }
        requires listed { AllByRecursion (λ kinds. CanBeListed kinds.items) listed.now }
        requires lines { AreLinesOf lines.codes.now lines.points.now lines.text.now runs.now }
        requires names { lines.points.now ≡ texts points.now }
        ensures { result ≡ answered (texts points.now) (map (λ kinds. kinds.items) listed.now) runs.now }
    {
        AnsweredRuns {
            alloc,
            points,
            listed,
            runs,
            lines,
        }
    }

    /// The names of the points, which are a catalogue's.
    pub fn points(&self) -> &'a [&'a str]
        ensures names { texts result.now ≡ self.now.points }
        ensures lawful { IsCatalogue self.now.points }
        ensures listed { AllByRecursion CanBeListed self.now.listed }
    {
        self.points
    }

    /// The kinds of faults that are listed for the points.
    pub(crate) fn listed(&self) -> &'a [Vec<Kind>]
        ensures kinds { map (λ kinds. kinds.items) result.now ≡ self.now.listed }
        ensures few { AllByRecursion (λ kinds. length kinds.items ≤ 8) result.now }
        ensures lawful { AllByRecursion CanBeTried self.now.listed }
    {
        self.listed
    }

    /// The runs that were read.
    pub fn runs(&self) -> &'a Runs
        ensures { result.now ≡ self.now.book }
    {
        self.runs
    }

    /// The text that the runs were read from.
    pub(crate) fn lines(&self) -> AnswerLines<'a>
        ensures of { AreLinesOf result.codes.now result.points.now result.text.now self.now.book }
        ensures names { result.points.now ≡ self.now.points }
    {
        self.lines
    }

    /// What is recorded of the run of a scenario, once it is tidied. An error means that memory was refused.
    pub(crate) fn told(&self, scenario: &Scenario) -> Result<Option<&ToldRun>, AllocError>
        ensures { IfOk result (λ told. option_map (λ r. r.now) told ≡ told_in self.now.book (tidied scenario.now)) }
    {
        self.runs.told(self.alloc, scenario)
    }
}

/// Whether these hits are of a point that a catalogue may have.
fn is_low(stretch: &Stretch) -> bool
    ensures { result ≡ is_low stretch.now }
{
    (stretch.point as usize) < MOST_POINTS
}

fn are_low(stretches: &[Stretch]) -> bool
    ensures { result ≡ list_all is_low stretches.now }
{
    stretches.iter().all(|stretch| is_low(stretch))
}

/// What the table has of a recorded run. If its hits are recorded, and a component can have them, their points are put into the list, in place of
/// what stood there; else the list is left empty.
fn look_at(run: &ToldRun, hits: &mut Vec<u32>) -> Result<Look, AllocError>
    ensures told { IfOk result (IsLook (Some (told_of run.now)) hits.new.items) }
    ensures points { OnOk result (AllByRecursion (λ p. p < 64) hits.new.items) }
    ensures few { OnOk result (length hits.new.items < 2 ^ 32) }
{
    hits.clear();
    let Some(told) = &run.hits else {
        return Ok(Look::Unseen(run.verdict));
    };
    told.push_points(hits)?;
    if are_low(told.stretches()) && hits.len() <= MOST_HITS as usize {
        Ok(Look::Seen(run.verdict))
    } else {
        hits.clear();
        Ok(Look::Unseen(run.verdict))
    }
}

impl<'a> RunTable for AnsweredRuns<'a> {
    ghost use Rattle.answered_runs.specs.Answered.{plan_told, runs_in, told_of};

    type Run = ToldRun;

    ghost tells = { told_of };

    ghost known = { runs_in };

    ghost keeps = { plan_told };

    fn find(&self, faults: &[Rig]) -> Result<Option<&ToldRun>, AllocError> {
        if faults.len() > MOST_RIGS {
            return Ok(None);
        }
        let scenario = plan_scenario(self.alloc, self.points, faults)?;
        self.runs.told(self.alloc, &scenario)
    }

    fn read(&self, run: &ToldRun, hits: &mut Vec<u32>) -> Result<Look, AllocError> {
        look_at(run, hits)
    }
}
