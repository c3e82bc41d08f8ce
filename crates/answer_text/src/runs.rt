//! Recorded runs.
ghost use Rattle.std.specs.Prelude.{◌≡◌, ◌++◌, [], option_map, position, IfOk, OnOk};
ghost use Rattle.std.specs.Str.{bytes_eq};
ghost use Rattle.scenario_values.specs.Tidied.{tidied};
ghost use Rattle.answer_text.specs.FirstFault.{Gives};
ghost use Rattle.answer_text.specs.Known.{verdicts_in};
ghost use Rattle.answer_text.specs.Runs.{stranger_of, strangers_in, told_in};
ghost use Rattle.answer_text.specs.inside.Books.{noted};

use crate::fault::{LineError, LineFault};
use crate::hits::{Hits, same_hits};
use crate::names::PointNames;
use crate::tidying::tidied_text;
use indexmap::IndexMap;
use scenario_grammar::{Scenario, Text, print};
use std::alloc::{AllocError, Global};
use std::marker::Model;
use target_trait::Verdict;

/// What a line records of a run.
#[derive(Debug, Drop)]
pub struct RunLine {
    /// The scenario that it was run under, tidied.
    pub scenario: Scenario,
    pub verdict: Verdict,
    /// The hits of the run, if the line records them and they are known.
    pub hits: Option<Hits>,
}

/// The recorded run of a scenario, by the first line that answers it.
#[derive(Debug, Drop)]
pub struct ToldRun {
    /// The line's number, from 1.
    pub line: u32,
    pub verdict: Verdict,
    /// The hits of the run, if the line records them and they are known.
    pub hits: Option<Hits>,
}

/// A name in a scenario that is answered, where no point has this name.
#[derive(Debug, Drop)]
pub struct Stranger {
    /// The number of the line that answers the scenario, from 1.
    pub line: u32,
    pub name: Text,
}

/// The recorded runs of tidied scenarios, at most one of each, and the names in these scenarios that no point has. Looking a run up takes one step of
/// hashing.
#[derive(Drop)]
pub struct Runs {
    told: IndexMap<Text, ToldRun>,
    strangers: Vec<Stranger>,
}

impl Model for Runs {
    ghost use Rattle.answer_text.specs.Runs.{RunBook};

    ghost Value = { RunBook };

    ghost view = { λ r. record { told = r.told.entries; strangers = r.strangers.items } };
}

/// Appends a name, if no point has it.
fn push_if_strange(
    strangers: &mut Vec<Stranger>,
    points: &PointNames<'_>,
    line: u32,
    name: &Text,
) -> Result<(), AllocError>
    ensures { OnOk result (strangers.new.items ≡ strangers.old.items ++ stranger_of line name.now (position (bytes_eq name.now) points.now)) }
{
    match points.place_of(name.as_str()) {
        Some(_) => Ok(()),
        None => {
            let name = name.try_clone()?;
            strangers.push(Stranger { line, name })?;
            Ok(())
        }
    }
}

/// Appends the names of a scenario that no point has, in the scenario's order.
fn push_strangers(
    strangers: &mut Vec<Stranger>,
    points: &PointNames<'_>,
    line: u32,
    scenario: &Scenario,
) -> Result<(), AllocError>
    ensures { OnOk result (strangers.new.items ≡ strangers.old.items ++ strangers_in points.now line scenario.now) }
{
    for (name, _) in scenario.entries() {
        push_if_strange(strangers, points, line, name)?;
    }
    Ok(())
}

impl Runs {
    /// No run is recorded.
    pub(crate) fn new(alloc: Global) -> Runs
        ensures { result ≡ record { told = []; strangers = [] } }
    {
        Runs {
            told: IndexMap::new(alloc),
            strangers: Vec::new(alloc),
        }
    }

    /// The names in the answered scenarios, tidied, that no point has: line by line, and each line's in the scenario's order. A line that repeats an
    /// earlier one has its names again.
    pub fn strangers(&self) -> &[Stranger]
        ensures { result.now ≡ self.now.strangers }
    {
        self.strangers.as_slice()
    }

    /// The recorded run of the scenario once it is tidied, if there is one. `Err` means that memory was refused.
    pub fn told(&self, alloc: Global, scenario: &Scenario) -> Result<Option<&ToldRun>, AllocError>
        ensures { IfOk result (λ told. option_map (λ r. r.now) told ≡ told_in self.now (tidied scenario.now)) }
    {
        Ok(self.told.get(&tidied_text(alloc, scenario)?))
    }

    /// The recorded verdict of the scenario once it is tidied, if there is one. `Err` means that memory was refused.
    pub fn verdict_of(
        &self,
        alloc: Global,
        scenario: &Scenario,
    ) -> Result<Option<Verdict>, AllocError>
        ensures { IfOk result (λ verdict. verdict ≡ verdicts_in (told_in self.now) (tidied scenario.now)) }
    {
        Ok(match self.told(alloc, scenario)? {
            Some(told) => Some(told.verdict),
            None => None,
        })
    }

    /// Takes in what a line records. After an `Err` the runs are of no use.
    #[tactic(auto, unfolding(crate::specs::inside::Books::noted))]
    pub(crate) fn note(
        &mut self,
        alloc: Global,
        points: &PointNames<'_>,
        line: u32,
        run: RunLine,
    ) -> Result<(), LineError>
        ensures { Gives (λ _. self.new) result (noted points.now self.old line run) }
    {
        let key = Text::from_string(print(alloc, &run.scenario)?)?;
        push_strangers(&mut self.strangers, points, line, &run.scenario)?;
        match self.told.get(&key) {
            None => {
                let told = ToldRun {
                    line,
                    verdict: run.verdict,
                    hits: run.hits,
                };
                self.told.insert(key, told)?;
                Ok(())
            }
            Some(told) if told.verdict == run.verdict && same_hits(&told.hits, &run.hits) => Ok(()),
            Some(told) => Err(LineError::Bad(LineFault::Contradicts(told.line))),
        }
    }
}
