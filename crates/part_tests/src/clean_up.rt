//! A target that breaks its promise only if its clean-up fails, and that counts its runs.
ghost use Rattle.std.specs.Prelude.{◌<◌, ◌≤◌, length, codes};
ghost use Rattle.std.proofs.Common.{rules};
ghost use Rattle.part_tests.specs.CleanUp.{point_names, asks_of, asks-within, asks-halts};

use crate::growing::{Wanted, first_with, grown_on, have_grown, to_depth};
use grown_runs::Grown;
use plan_gen::{PlanList, PlanSettings, by_census, plans};
use std::alloc::{AllocError, Global};
use std::process::Abort;
use std::sync::Wait;
use std::sync::atomic::{AtomicU64, Ordering};
use std::test::Fail;
use std::thread::Threads;
use target_trait::{Answer, Case, Judgement, Session, Target, Verdict, run_verdict};

/// The code of its only failure.
const LEFT: u32 = 0;

/// How often the target was run.
#[derive(Drop)]
struct Runs {
    count: AtomicU64,
}

impl Runs {
    fn new() -> Runs {
        Runs {
            count: AtomicU64::new(0),
        }
    }
}

/// A target of one write, which is undone if it is refused.
#[derive(Clone, Copy, Debug, Drop)]
struct CleanUp;

impl Target for CleanUp {
    type Workload = Runs;

    ghost names = { point_names };

    ghost label_of = { λ _. codes "clean up" };

    ghost code_text = { λ _. codes "left" };

    ghost asks = { λ _ _ answers. asks_of answers };

    fn label(&self) -> &'static str {
        "clean up"
    }

    fn catalogue() -> &'static [&'static str] {
        &["step::write", "step::undo"]
    }

    fn code_name(_code: u32) -> &'static str {
        "left"
    }

    fn twin(&self) -> Result<Self, AllocError> {
        Ok(CleanUp)
    }

    fn run(&mut self, workload: &Runs, session: &mut Session<'_>) -> Result<Judgement, AllocError> {
        workload.count.fetch_add(1, Ordering::SeqCst);
        match session.hit(0)? {
            Answer::Go | Answer::Halt => return Ok(Judgement::Kept),
            Answer::Return(_) => {}
        }
        match session.hit(1)? {
            Answer::Go | Answer::Halt => Ok(Judgement::Kept),
            Answer::Return(_) => Ok(Judgement::Broken(LEFT)),
        }
    }

    ghost within = { λ _ _ answers. asks-within answers };

    ghost halts = { λ _ _ before after. asks-halts before after };

    ghost lawful = { Prim.search rules };
}

/// The single faults and pairs of the run without faults, and twenty storms in which each hit of that run fails by half.
fn plans_by_census(alloc: Global) -> Result<PlanList<'static>, Fail> {
    let settings = PlanSettings {
        pairs: true,
        storms: 20,
        rate: 500,
        listed: &[],
        seed: 7,
    };
    let Ok(census) = by_census(alloc, &mut CleanUp, &Runs::new(), 7, 1000) else {
        return Err(Fail::from("no census"));
    };
    match plans(alloc, &census, CleanUp::catalogue(), &settings) {
        Ok(plans) => Ok(plans),
        Err(_) => Err(Fail::from("no plans")),
    }
}

/// The verdict of the plan of this number.
fn verdict_of(alloc: Global, plans: &PlanList<'_>, number: usize) -> Result<Verdict, AllocError>
    requires { number < length plans.now }
{
    let scenario = plans.plan(number).scenario(alloc)?;
    let case = Case {
        scenario: &scenario,
        seed: 7,
        stream: number as u64,
        max_hits: 1000,
    };
    run_verdict(alloc, &mut CleanUp, &Runs::new(), &case)
}

/// The run without faults asks for the write alone, which fails once, from then on, or halts: the undo has no hit that a fault, the second of
/// a pair, or a storm could be at.
#[test]
fn faults_of_the_run_without_faults_never_meet_the_clean_up(rt: HostRuntime) -> Result<(), Fail> {
    let plans = plans_by_census(rt.alloc())?;
    assert_eq!(&rt; plans.len(), 24);
    for number in 0..plans.len() {
        assert_eq!(&rt; verdict_of(rt.alloc(), &plans, number)?, Verdict::Pass);
    }
    Ok(())
}

/// What a depth comes to on this many workers, and how often the target was run for it.
fn grown<R: Threads + Wait + Sync>(
    rt: &R,
    alloc: Global,
    depth: u32,
    workers: u32,
) -> Result<(Grown, u64), Fail>
    requires { (depth ≤ 64) × (1 ≤ workers) }
{
    let runs = Runs::new();
    let Ok(grown) = grown_on(rt, alloc, &CleanUp, &runs, to_depth(depth, workers)) else {
        return Err(Fail::from("plans that don't grow"));
    };
    Ok((grown, runs.count.load(Ordering::SeqCst)))
}

/// To depth 1 the write fails or halts. To depth 2 the undo that follows fails, which is plan 3, or halts. Each plan is run once. Plan 3 is also run
/// without each of its two faults, which shows that it is a cause.
#[test]
fn a_clean_up_that_fails_is_found_at_depth_2(rt: HostRuntime) -> Result<(), Fail> {
    for workers in [1, 3] {
        let (once, runs) = grown(&rt, rt.alloc(), 1, workers)?;
        let wanted = Wanted {
            levels: &[1, 2],
            onward: 0,
            beyond: 2,
            causes: &[],
        };
        have_grown(&rt, &once, &wanted);
        assert_eq!(&rt; first_with(&once, LEFT), None);
        assert_eq!(&rt; runs, 3);
        let (twice, runs) = grown(&rt, rt.alloc(), 2, workers)?;
        let wanted = Wanted {
            levels: &[1, 2, 2],
            onward: 0,
            beyond: 0,
            causes: &[(3, LEFT)],
        };
        have_grown(&rt, &twice, &wanted);
        assert_eq!(&rt; first_with(&twice, LEFT), Some(3));
        assert_eq!(&rt; runs, 7);
    }
    Ok(())
}
