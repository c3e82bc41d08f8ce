//! What a report of a campaign with a depth says, and beside it the behaviour of each number, from a run of its plan's scenario.

use crate::behaviours::{Behaviour, Fault, Hit, Reply, hits_of};
use crate::report_lines::{Lines, read_report};
use crate::running::reported;
use crate::trees::{Component, POINTS, Tree};
use action_eval::history;
use campaign_core::{Host, Subject};
use campaign_given::CampaignSettings;
use grown_plans::{GrownPlans, rigs_of};
use grown_runs::{Conditions, Grown, Limits, grow};
use plan_gen::scenario_of;
use scenario_grammar::{Scenario, Task};
use std::alloc::{AllocError, Global};
use std::str;
use std::sync::Wait;
use std::test::Fail;
use std::thread::Threads;
use target_trait::{Case, Target, Verdict, run_case};
use work_gate::FreeGate;

/// The seed of all campaigns. No run here takes a random word.
const SEED: u64 = 7;

/// The source of the facts.
#[derive(Clone, Copy, Debug, PartialEq, Eq)]
pub enum Source {
    /// From the lines of a report.
    Report,
    /// From the plans that grew and what their runs came to, without the reductions of a report. It is quicker, and there is no report to depth 0.
    Growth,
}

/// What a report says of a code: the least number that fails with it, and what that is reduced to.
#[derive(Drop)]
pub struct Finding {
    pub number: u32,
    pub code: u32,
    pub reduced: Vec<Fault>,
}

/// What a report to a depth says.
#[derive(Drop)]
pub struct Told {
    pub depth: u32,
    /// How many numbers each level has.
    pub levels: Vec<u32>,
    pub onward: u32,
    pub beyond: u64,
    /// How often each point is reached.
    pub reached: Vec<u32>,
    /// By their numbers, with the verdicts of the report.
    pub behaviours: Vec<Behaviour>,
    /// `None` if there is no report.
    pub findings: Option<Vec<Finding>>,
    /// The numbers of the causes, with their codes.
    pub causes: Vec<(u32, u32)>,
}

/// No facts yet.
pub fn nothing(alloc: Global, depth: u32) -> Told {
    Told {
        depth,
        levels: Vec::new(alloc),
        onward: 0,
        beyond: 0,
        reached: Vec::new(alloc),
        behaviours: Vec::new(alloc),
        findings: None,
        causes: Vec::new(alloc),
    }
}

/// What a task of a run answers.
fn reply_of(task: Option<&Task>) -> Result<Reply, Fail> {
    match task {
        None | Some(Task::Off) => Ok(Reply::Go),
        Some(Task::Return(None)) => Ok(Reply::Return),
        Some(Task::Panic(None)) => Ok(Reply::Halt),
        _ => Err(Fail::from("a task that no plan of a tree has")),
    }
}

/// The hits of a run of a scenario under this number, and what it comes to.
fn run_of<T: Target<Workload = ()>>(
    alloc: Global,
    target: &T,
    case: &Case<'_>,
) -> Result<Behaviour, Fail> {
    let mut twin = target.twin()?;
    let outcome = run_case(alloc, &mut twin, &(), case)?;
    let answered = history(
        alloc,
        case.scenario,
        T::catalogue(),
        case.seed,
        case.stream,
        case.max_hits,
        outcome.asked.as_slice(),
    )?;
    let mut hits: Vec<Hit> = Vec::new(alloc);
    for hit in &answered {
        let point = hit.point();
        let ordinal = hits_of(hits.as_slice(), point) + 1;
        hits.push(Hit {
            point,
            ordinal,
            reply: reply_of(hit.task())?,
        })?;
    }
    Ok(Behaviour {
        hits,
        verdict: outcome.verdict,
    })
}

/// The scenario of the plan of this number, of those that grew.
fn grown_scenario<T: Target>(
    alloc: Global,
    plans: &GrownPlans,
    number: usize,
) -> Result<Scenario, AllocError> {
    let mut faults = Vec::new(alloc);
    let mut ordered = Vec::new(alloc);
    let mut rigs = Vec::new(alloc);
    plans.faults_of(number, &mut faults)?;
    rigs_of(&mut rigs, &mut ordered, faults.as_slice())?;
    scenario_of(alloc, T::catalogue(), rigs.as_slice())
}

/// Adds the behaviour of each number, by a run of its plan's scenario. The run has to come to the number's verdict.
fn add_behaviours<T: Target<Workload = ()>>(
    alloc: Global,
    told: &mut Told,
    target: &T,
    plans: &GrownPlans,
    limit: u32,
    verdicts: &[Verdict],
) -> Result<(), Fail> {
    if plans.len() != verdicts.len() {
        return Err(Fail::from("other plans than are told"));
    }
    for (number, verdict) in verdicts.iter().enumerate() {
        let scenario = grown_scenario::<T>(alloc, plans, number)?;
        let case = Case {
            scenario: &scenario,
            seed: SEED,
            stream: number as u64,
            max_hits: limit,
        };
        let behaviour = run_of(alloc, target, &case)?;
        if behaviour.verdict != *verdict {
            return Err(Fail::from("a run that comes to another verdict than is told"));
        }
        told.behaviours.push(behaviour)?;
    }
    Ok(())
}

/// The plans of a target that grow to a depth.
fn grown_of<T: Target<Workload = ()> + Send, R: Threads + Wait + Sync>(
    rt: &R,
    alloc: Global,
    target: &T,
    depth: u32,
    limit: u32,
) -> Result<Grown, Fail> {
    let limits = Limits {
        seed: SEED,
        max_hits: limit,
        depth,
        most_plans: 65536,
        workers: 1,
    };
    let grown = grow(&Conditions {
        rt,
        alloc,
        gate: &FreeGate,
        target,
        workload: &(),
        limits,
    });
    match grown {
        Ok(grown) => Ok(grown),
        Err(_) => Err(Fail::from("plans that don't grow")),
    }
}

/// The report of a target's campaign to a depth.
fn report_of<T: Target<Workload = ()> + Send, R: Threads + Wait + Sync>(
    rt: &R,
    alloc: Global,
    target: &T,
    depth: u32,
    limit: u32,
) -> Result<Lines, Fail> {
    let mut settings = CampaignSettings::new(alloc);
    settings.seed = SEED;
    settings.depth = Some(depth);
    settings.max_hits = limit;
    let host = Host {
        rt,
        alloc,
        gate: &FreeGate,
    };
    let subject = Subject {
        target,
        workload: &(),
        settings: &settings,
    };
    let Ok((report, _)) = reported(&host, &subject) else {
        return Err(Fail::from("no report"));
    };
    match str::from_utf8(report.as_slice()) {
        Ok(report) => read_report(alloc, report),
        Err(_) => Err(Fail::from("a report that is no text")),
    }
}

/// What a report says of plans that grew.
fn told_in(lines: Lines) -> (Told, Vec<Verdict>) {
    let Lines {
        mut told,
        verdicts,
        findings,
        ..
    } = lines;
    told.findings = Some(findings);
    (told, verdicts)
}

/// What is known of plans that grew without a report.
fn told_by(alloc: Global, grown: &Grown, depth: u32) -> Result<(Told, Vec<Verdict>), AllocError> {
    let mut told = nothing(alloc, depth);
    told.levels.extend_from_slice(grown.list.levels.as_slice())?;
    told.onward = grown.list.onward;
    told.beyond = grown.list.beyond;
    let outcomes = &grown.outcomes;
    told.reached.extend_from_slice(outcomes.hits.as_slice())?;
    told.causes.extend_from_slice(outcomes.causes.as_slice())?;
    let verdicts = Vec::from_slice(alloc, outcomes.verdicts.as_slice())?;
    Ok((told, verdicts))
}

/// The facts of a target's campaign.
fn told_of_target<T: Target<Workload = ()> + Send, R: Threads + Wait + Sync>(
    rt: &R,
    alloc: Global,
    target: &T,
    limit: u32,
    depth: u32,
    source: Source,
) -> Result<Told, Fail> {
    let grown = grown_of(rt, alloc, target, depth, limit)?;
    let (mut told, verdicts) = match source {
        Source::Report => told_in(report_of(rt, alloc, target, depth, limit)?),
        Source::Growth => told_by(alloc, &grown, depth)?,
    };
    add_behaviours(
        alloc,
        &mut told,
        target,
        &grown.list.plans,
        limit,
        verdicts.as_slice(),
    )?;
    Ok(told)
}

/// The facts of a component's campaign to a depth.
pub fn told_of<R: Threads + Wait + Sync>(
    rt: &R,
    alloc: Global,
    component: &Component<'_>,
    depth: u32,
    source: Source,
) -> Result<Told, Fail> {
    let Component {
        nodes,
        root,
        limit,
        ..
    } = *component;
    if component.has_cut {
        let target = Tree::<true> { nodes, root };
        return told_of_target(rt, alloc, &target, limit, depth, source);
    }
    let target = Tree::<false> { nodes, root };
    told_of_target(rt, alloc, &target, limit, depth, source)
}
