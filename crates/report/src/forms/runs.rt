//! The runs that a report shows.
ghost use Rattle.std.specs.Prelude.{◌≡◌, [], map, take, IfOk};
ghost use Rattle.report.specs.forms.Runs.{GrownAreFirst, cause_shown, causes_shown, finding_shown, most_causes_shown, parent_at, run_shown, runs_shown, told_of};

use crate::explained::ToldRun;
use crate::json_form::{Runs, Shown, ShownRun};
use crate::{Cause, Finding, Growth, Names, Report};
use indexmap::IndexMap;
use scenario_values::Scenario;
use std::alloc::{AllocError, Global};

/// The most hits of a run that have lines.
pub const MOST_HITS_SHOWN: usize = 1000;

/// The most causes that are shown with their runs.
const MOST_CAUSES_SHOWN: usize = 100;

/// Gives runs of scenarios, hit by hit: a target's own, or those that answers record.
pub trait Teller {
    ghost use Rattle.report.specs.forms.Runs.{Telling};

    /// The run of a scenario under a stream number, if it is known.
    ghost told_runs: { Self → Telling };

    /// The run of the scenario under this stream number, if it is known. An error means that memory was refused.
    fn tell(
        &self,
        alloc: Global,
        number: u32,
        scenario: &Scenario,
    ) -> Result<Option<ToldRun>, AllocError>
        ensures { IfOk result (λ run. run ≡ told_runs self.now number scenario.now) };
}

/// The scenario of the plan from which the plan with this number grew, if it has two faults or more. The faults' points have these names.
fn parent_scenario<N: Names>(
    alloc: Global,
    _names: &N,
    shown: &Shown<'_>,
    number: usize,
) -> Result<Option<Scenario>, AllocError>
    requires { GrownAreFirst (N.points _names.now) shown.now }
    ensures { IfOk result (λ parent. parent ≡ parent_at (N.points _names.now) shown.now.grown number) }
{
    let Some(grown) = shown.grown else {
        return Ok(None);
    };
    if number >= grown.len() {
        return Ok(None);
    }
    let mut faults = Vec::new(alloc);
    grown.faults_of(number, &mut faults)?;
    if faults.len() < 2 {
        return Ok(None);
    }
    let plan = shown.plans.plan(grown.parent_of(number));
    Ok(Some(plan.scenario(alloc)?))
}

/// The causes that are shown with their runs.
fn first_causes(causes: &[Cause]) -> &[Cause]
    ensures { result.now ≡ take most_causes_shown causes.now }
{
    if causes.len() <= MOST_CAUSES_SHOWN {
        return causes;
    }
    &causes[..MOST_CAUSES_SHOWN]
}

/// What the shown runs are made of: the names of the points, the teller, and the plans that are shown.
#[derive(Drop)]
struct RunSource<'a, N, T> {
    names: &'a N,
    teller: &'a T,
    shown: &'a Shown<'a>,
}

impl<'a, N: Names, T: Teller> RunSource<'a, N, T> {
    /// The run of the plan from which the plan with this number grew, if it has two faults or more.
    fn parent_run(&self, alloc: Global, number: u32) -> Result<Option<ToldRun>, AllocError>
        requires { GrownAreFirst (N.points self.now.names.now) self.now.shown.now }
        ensures { IfOk result (λ run.
            run ≡ told_of (T.told_runs self.now.teller.now number) (parent_at (N.points self.now.names.now) self.now.shown.now.grown number)) }
    {
        match parent_scenario(alloc, self.names, self.shown, number as usize)? {
            None => Ok(None),
            Some(parent) => self.teller.tell(alloc, number, &parent),
        }
    }

    /// The run of a scenario, beside that of the plan from which the plan with this number grew.
    fn run_shown(
        &self,
        alloc: Global,
        number: u32,
        scenario: &Scenario,
    ) -> Result<Option<ShownRun>, AllocError>
        requires { GrownAreFirst (N.points self.now.names.now) self.now.shown.now }
        ensures { IfOk result (λ run.
            run ≡ run_shown (N.points self.now.names.now) (T.told_runs self.now.teller.now) self.now.shown.now.grown number scenario.now) }
    {
        let Some(run) = self.teller.tell(alloc, number, scenario)? else {
            return Ok(None);
        };
        let parent = self.parent_run(alloc, number)?;
        Ok(Some(ShownRun { run, parent }))
    }

    /// The run of each first failure, as reduced.
    fn findings_shown(
        &self,
        alloc: Global,
        findings: &[Finding],
    ) -> Result<Vec<Option<ShownRun>>, AllocError>
        requires { GrownAreFirst (N.points self.now.names.now) self.now.shown.now }
        ensures { IfOk result (λ runs.
            runs.items ≡ map (finding_shown (N.points self.now.names.now) (T.told_runs self.now.teller.now) self.now.shown.now.grown) findings.now) }
    {
        let mut runs = Vec::with_capacity(alloc, findings.len())?;
        for finding in findings {
            let run = self.run_shown(alloc, finding.number, &finding.reduced)?;
            runs.push(run)?;
        }
        Ok(runs)
    }

    /// The run of each cause.
    fn each_shown(
        &self,
        alloc: Global,
        causes: &[Cause],
    ) -> Result<Vec<Option<ShownRun>>, AllocError>
        requires { GrownAreFirst (N.points self.now.names.now) self.now.shown.now }
        ensures { IfOk result (λ runs.
            runs.items ≡ map (cause_shown (N.points self.now.names.now) (T.told_runs self.now.teller.now) self.now.shown.now.grown) causes.now) }
    {
        let mut runs = Vec::with_capacity(alloc, causes.len())?;
        for cause in causes {
            let run = self.run_shown(alloc, cause.number, &cause.scenario)?;
            runs.push(run)?;
        }
        Ok(runs)
    }

    /// The runs of the causes of a campaign that grew, as many as are shown.
    fn causes_shown(
        &self,
        alloc: Global,
        growth: &Option<Growth<'_>>,
    ) -> Result<Vec<Option<ShownRun>>, AllocError>
        requires { GrownAreFirst (N.points self.now.names.now) self.now.shown.now }
        ensures { IfOk result (λ runs.
            runs.items ≡ causes_shown (N.points self.now.names.now) (T.told_runs self.now.teller.now) self.now.shown.now.grown growth.now) }
    {
        match growth {
            None => Ok(Vec::new(alloc)),
            Some(growth) => self.each_shown(alloc, first_causes(&growth.causes)),
        }
    }
}

/// The run without faults, if it is known.
fn clean_run<T: Teller>(alloc: Global, teller: &T) -> Result<Option<ToldRun>, AllocError>
    ensures { IfOk result (λ run. run ≡ T.told_runs teller.now 0 []) }
{
    let none = Scenario::from_entries(IndexMap::new(alloc));
    teller.tell(alloc, 0, &none)
}

/// The runs that a report shows: that without faults, those of the findings as reduced, and those of the first causes, each beside the run of the
/// plan from which its plan grew.
pub fn runs_shown<N: Names, T: Teller>(
    alloc: Global,
    names: &N,
    teller: &T,
    report: &Report<'_>,
    shown: &Shown<'_>,
) -> Result<Runs, AllocError>
    requires { GrownAreFirst (N.points names.now) shown.now }
    ensures { IfOk result (λ runs. runs ≡ runs_shown (N.points names.now) (T.told_runs teller.now) report.now shown.now.grown) }
{
    let clean = clean_run(alloc, teller)?;
    let source = RunSource {
        names,
        teller,
        shown,
    };
    let findings = source.findings_shown(alloc, &report.findings)?;
    let causes = source.causes_shown(alloc, &report.growth)?;
    Ok(Runs {
        clean,
        findings,
        causes,
    })
}
