//! Verdicts of scenarios, by recorded runs.
ghost use Rattle.std.specs.Prelude.{◌≡◌, IfOk};
ghost use Rattle.scenario_values.specs.Tidied.{tidied};
ghost use Rattle.answer_text.specs.Runs.{told_in};
ghost use Rattle.answered_runs.specs.Answered.{runs_in};
ghost use Rattle.answered_runs.specs.Rigged.{rigs_of_scenario};
ghost use Rattle.answered_runs.specs.Verdicts.{verdict_by, walked_by};

use crate::certain::is_certain;
use crate::rigged::rigs_of_scenario;
use crate::table::AnsweredRuns;
use grown_runs::verdict_of;
use scenario_values::{Scenario, tidy};
use std::alloc::{AllocError, Global};
use target_trait::Verdict;

/// The verdict that the rigged hits of a scenario lead to, if it is made of such hits.
fn walked(
    alloc: Global,
    runs: &AnsweredRuns<'_>,
    depth: u32,
    scenario: &Scenario,
) -> Result<Option<Verdict>, AllocError>
    ensures { IfOk result (λ verdict. verdict ≡ walked_by (runs_in runs.now) depth (rigs_of_scenario runs.now.points scenario.now)) }
{
    match rigs_of_scenario(alloc, runs.points(), scenario)? {
        Some(rigs) => verdict_of(alloc, runs, rigs.as_slice(), depth),
        None => Ok(None),
    }
}

impl<'a> AnsweredRuns<'a> {
    /// The recorded verdict of a scenario, once it is tidied; else, if the scenario is made of rigged hits, that of the plan they lead to. This plan
    /// has at most `depth` faults, of which the last one may be sticky. It is `None` if no verdict is known, and of a scenario with a share none is:
    /// another run of it may come out otherwise. An error means that memory was refused.
    pub fn verdict_of(
        &self,
        alloc: Global,
        depth: u32,
        scenario: &Scenario,
    ) -> Result<Option<Verdict>, AllocError>
        ensures { IfOk result (λ verdict. verdict ≡ verdict_by self.now.points (told_in self.now.book) depth (tidied scenario.now)) }
    {
        let tidied = tidy(alloc, scenario)?;
        match self.told(scenario)? {
            Some(run) if is_certain(&tidied) => Ok(Some(run.verdict)),
            _ => walked(alloc, self, depth, &tidied),
        }
    }
}
