//! Workers that run the plans of the small workload: the contents `old`, replaced by the chunks `ne` and `w`.
ghost use Rattle.std.specs.Prelude.{◌^◌, ⊤};

use crate::adding::{Setup, Tickets, have_performed};
use campaign_given::CampaignSettings;
use file_replace::{Replace, Replacements, Variant};
use grown_plans::CampaignPlans;
use plan_gen::{PlanList, PlanSettings, by_census, plans};
use result_book::{Numbered, RunInput};
use std::alloc::{AllocError, Global};
use std::process::Abort;
use std::sync::Wait;
use std::sync::atomic::{AtomicU64, Ordering};
use std::test::Fail;
use std::thread::Threads;
use target_checks::small_workload;
use target_trait::{Target, Verdict};
use work_gate::FreeGate;
use worker_pool::{Gathered, Job, Worker, run_all};

/// Runs the plans of an input on a target of its own, and counts its calls.
#[derive(Drop)]
struct Runner<'a> {
    target: Replace,
    input: &'a RunInput<'a, Replace>,
    calls: &'a AtomicU64,
    alloc: Global,
}

impl<'a> Job for Runner<'a> {
    type Answer = Verdict;

    type Setup = Setup;

    ghost setup = { λ _. record {} };

    ghost limit = { λ _. 2 ^ 32 };

    ghost answers = { λ _ n a. ⊤ };

    ghost becomes = { λ _ _ _. Unit {0} };

    fn perform(&mut self, number: u32) -> Result<Verdict, AllocError> {
        if number as usize >= self.input.plans.len() {
            return Err(AllocError);
        }
        self.calls.fetch_add(1, Ordering::SeqCst);
        let result = Numbered::run(self.alloc, &mut self.target, self.input, number)?;
        Ok(result.verdict())
    }
}

/// The plans of the workload, without pairs and storms.
fn plans_of(alloc: Global, work: &Replacements) -> Result<PlanList<'static>, Fail> {
    let mut target = Replace::new(alloc, Variant::Sound);
    let census = by_census(alloc, &mut target, work, 7, 1000)?;
    let settings = PlanSettings {
        pairs: false,
        storms: 0,
        rate: 0,
        listed: &[],
        seed: 7,
    };
    Ok(plans(alloc, &census, Replace::catalogue(), &settings)?)
}

/// The runs of these plans have seed 7, and at most 1000 of their hits are answered.
fn settings(alloc: Global) -> CampaignSettings {
    let mut settings = CampaignSettings::new(alloc);
    settings.seed = 7;
    settings
}

/// Three workers, each with a target of its own.
fn three_workers<'a>(
    alloc: Global,
    input: &'a RunInput<'a, Replace>,
    calls: &'a AtomicU64,
) -> Result<Vec<Worker<Runner<'a>>>, AllocError> {
    let mut workers = Vec::new(alloc);
    for _ in 0..3u32 {
        workers.push(Worker::new(Runner {
            target: Replace::new(alloc, Variant::Sound),
            input,
            calls,
            alloc,
        }))?;
    }
    Ok(workers)
}

/// One run that isn't refused.
fn run<'a, R: Threads + Wait + Sync>(
    rt: &R,
    alloc: Global,
    workers: Vec<Worker<Runner<'a>>>,
    count: u32,
) -> Result<Gathered<Runner<'a>>, Fail> {
    if workers.is_empty() {
        return Err("no workers".into());
    }
    match run_all(rt, alloc, &FreeGate, workers, count) {
        Ok(done) => Ok(done),
        Err(_) => Err("a run is refused".into()),
    }
}

fn times_passed(lists: &[Vec<(u32, Verdict)>], number: u32) -> u32 {
    let mut times = 0u32;
    for list in lists.iter() {
        for pair in list.iter() {
            if pair.0 == number && pair.1 == Verdict::Pass {
                times = times.saturating_add(1);
            }
        }
    }
    times
}

/// Whether each plan below the count passes once, and there are no other answers.
fn passes_each_once(lists: &[Vec<(u32, Verdict)>], count: u32) -> bool {
    let mut answers = 0usize;
    for list in lists.iter() {
        answers = answers.saturating_add(list.len());
    }
    answers == count as usize && (0..count).all(|number| times_passed(lists, number) == 1)
}

/// One run of three workers. After it they have performed this many tickets over all their runs.
fn ran<'a, R: Threads + Wait + Abort + Sync>(
    rt: &R,
    alloc: Global,
    workers: Vec<Worker<Runner<'a>>>,
    calls: &AtomicU64,
    tickets: Tickets,
) -> Result<Vec<Worker<Runner<'a>>>, Fail> {
    let (count, performed) = tickets;
    let done = run(rt, alloc, workers, count)?;
    assert_eq!(rt; done.answers.len(), 3);
    assert!(rt; passes_each_once(&done.answers, count));
    have_performed(rt, &done.workers, calls, performed);
    Ok(done.workers)
}

/// Three runs of three workers, with what they have performed by then.
fn are_run<R: Threads + Wait + Abort + Sync>(
    rt: &R,
    alloc: Global,
    input: &RunInput<'_, Replace>,
) -> Result<(), Fail> {
    let calls = AtomicU64::new(0);
    let mut workers = three_workers(alloc, input, &calls)?;
    for tickets in [(19, 19), (19, 38), (0, 38)] {
        workers = ran(rt, alloc, workers, &calls, tickets)?;
    }
    Ok(())
}

// What the body every_worker_performs_every_plan fails: each of its workers calls its job for every number.
#[test]
fn three_workers_twice_on_the_small_workload(rt: HostRuntime) -> Result<(), Fail> {
    let alloc = rt.alloc();
    let work = small_workload(alloc)?;
    let listed = plans_of(alloc, &work)?;
    let plans = CampaignPlans::by_census(&listed);
    assert_eq!(rt; plans.len(), 19);
    let settings = settings(alloc);
    let input = RunInput {
        workload: &work,
        settings: &settings,
        plans: &plans,
        watched: &[],
    };
    are_run(&rt, alloc, &input)
}
