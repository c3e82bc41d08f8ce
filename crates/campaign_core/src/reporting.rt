//! The report of a campaign whose plans have run.
ghost use Rattle.std.specs.Prelude.{◌≡◌, ◌<◌, length, map, All, IfOk, OnOk};
ghost use Rattle.campaign_core.specs.Findings.{cause_of, finding, IsFailure, ReducesToMinimal};
ghost use Rattle.campaign_core.specs.Headline.{campaign_in, plans, growth, report, EachIsMinimal};
ghost use Rattle.result_book.specs.Says.{input_says};
ghost use Rattle.campaign_core.specs.Planned.{IsPlanned};
ghost use Rattle.campaign_core.specs.Ran.{IsRan};

use crate::planned::{Planned, plans_of};
use crate::probe::{Failure, fault_count};
use crate::ran::Ran;
use crate::reducing::reduced_scenario;
use crate::subject::{Host, Subject};
use grown_plans::CampaignPlans;
use report::{Cause, Finding, Growth, Report};
use result_book::{RunInput, first_failures_are_the_least};
use std::alloc::{AllocError, Global};
use std::sync::Wait;
use std::thread::Threads;
use target_trait::Target;
use work_gate::Gate;

/// The finding of a first failure of an input, which is given by its number and code: its plan's scenario, and what that is reduced to. An error
/// means that memory was refused.
fn finding_of<T: Target + Send, G: Gate, R: Threads + Wait + Sync>(
    host: &Host<'_, G, R>,
    target: &T,
    input: &RunInput<'_, T>,
    first: (u32, u32),
) -> Result<Finding, AllocError>
where
    T::Workload: Sync,
    requires fails { IsFailure (input_says T.Target target.now input.now) input.now.plans.now first }
    ensures found { IfOk result (λ found. found ≡ finding (input_says T.Target target.now input.now) input.now.plans.now first) }
    ensures minimal { IfOk result (λ found. ReducesToMinimal (input_says T.Target target.now input.now) found) }
{
    let (number, code) = first;
    let scenario = input.plans.plan(number as usize).scenario(host.alloc)?;
    let faults = fault_count(host.alloc, &scenario)?;
    let failure = Failure {
        workload: input.workload,
        settings: input.settings,
        scenario: &scenario,
        faults,
        stream: u64::from(number),
        code,
    };
    let (reduced, tests) = reduced_scenario(host, target, &failure)?;
    Ok(Finding {
        number,
        code,
        scenario,
        reduced,
        tests,
    })
}

/// The findings of all first failures of an input, reduced one after the other. An error means that memory was refused.
fn findings<T: Target + Send, G: Gate, R: Threads + Wait + Sync>(
    host: &Host<'_, G, R>,
    target: &T,
    input: &RunInput<'_, T>,
    firsts: &[(u32, u32)],
) -> Result<Vec<Finding>, AllocError>
where
    T::Workload: Sync,
    requires fail { All (λ first. IsFailure (input_says T.Target target.now input.now) input.now.plans.now first) firsts.now }
    ensures found { IfOk result (λ all. all.items ≡ map (finding (input_says T.Target target.now input.now) input.now.plans.now) firsts.now) }
    ensures minimal { IfOk result (λ all. All (λ found. ReducesToMinimal (input_says T.Target target.now input.now) found) all.items) }
{
    let mut all = Vec::with_capacity(host.alloc, firsts.len())?;
    for first in firsts {
        let found = finding_of(host, target, input, *first)?;
        all.push(found)?;
    }
    Ok(all)
}

/// The causes among these plans, by their numbers and codes, with their scenarios. An error means that memory was refused.
pub fn causes_of(
    alloc: Global,
    plans: &CampaignPlans<'_>,
    causes: &[(u32, u32)],
) -> Result<Vec<Cause>, AllocError>
    requires { All (λ cause. cause.0 < length plans.now) causes.now }
    ensures { IfOk result (λ all. all.items ≡ map (cause_of plans.now) causes.now) }
{
    let mut all = Vec::with_capacity(alloc, causes.len())?;
    for (number, code) in causes {
        let scenario = plans.plan(*number as usize).scenario(alloc)?;
        all.push(Cause {
            number: *number,
            code: *code,
            scenario,
        })?;
    }
    Ok(all)
}

/// How a campaign's plans grew, if it has a depth. An error means that memory was refused.
fn growth_of<'r, T: Target>(
    alloc: Global,
    subject: &Subject<'_, T>,
    all: &CampaignPlans<'_>,
    planned: &'r Planned<'_>,
) -> Result<Option<Growth<'r>>, AllocError>
    requires planned { IsPlanned (campaign_in T.Target subject.now) planned.now }
    requires plans { all.now ≡ plans (campaign_in T.Target subject.now) }
    ensures { IfOk result (λ g. g ≡ growth (campaign_in T.Target subject.now)) }
{
    let settings = subject.settings;
    let Some(depth) = settings.depth else {
        return Ok(None);
    };
    let Some(grown) = &planned.grown else {
        return Ok(None);
    };
    let outcomes = &grown.outcomes;
    let causes = causes_of(alloc, all, outcomes.causes.as_slice())?;
    Ok(Some(Growth {
        depth,
        levels: grown.list.levels.as_slice(),
        onward: grown.list.onward,
        beyond: grown.list.beyond,
        unseen: 0,
        reached: outcomes.hits.as_slice(),
        causes,
    }))
}

/// The report of a campaign whose plans have run. An error means that memory was refused.
pub fn report_of<'r, T: Target + Send, G: Gate, R: Threads + Wait + Sync>(
    host: &Host<'_, G, R>,
    subject: &Subject<'_, T>,
    ran: &'r Ran<'_>,
) -> Result<Report<'r>, AllocError>
where
    T::Workload: Sync,
    requires { IsRan (campaign_in T.Target subject.now) ran.now }
    ensures report { IfOk result (λ r. r ≡ report (campaign_in T.Target subject.now)) }
    ensures minimal { OnOk result (EachIsMinimal (campaign_in T.Target subject.now)) }
{
    first_failures_are_the_least();
    let Ran { planned, results } = ran;
    let settings = subject.settings;
    let plans = plans_of(subject, planned);
    let input = RunInput {
        workload: subject.workload,
        settings,
        plans: &plans,
        watched: &[],
    };
    let findings = findings(host, subject.target, &input, results.firsts.as_slice())?;
    let growth = growth_of(host.alloc, subject, &plans, planned)?;
    Ok(Report {
        label: subject.target.label(),
        seed: settings.seed,
        clean: results.verdicts[0],
        census: planned.census.counts.as_slice(),
        verdicts: results.verdicts.as_slice(),
        unmet: 0,
        findings,
        growth,
    })
}
