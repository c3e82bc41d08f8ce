//! Workers that wait for one another, at the gate and inside their jobs.
ghost use Rattle.std.specs.Prelude.{◌≡◌, ◌+◌, ◌^◌};

use crate::adding::{Setup, adders, finished, is_each_once, performed};
use std::alloc::{AllocError, Global};
use std::process::Abort;
use std::rt::Clock;
use std::sync::Wait;
use std::sync::atomic::{AtomicU64, Ordering};
use std::test::Fail;
use std::thread::Threads;
use target_checks::comes_to;
use work_gate::{FreeGate, Gate, Phase};
use worker_pool::{Gathered, Job, Worker, run_all};

/// Raises its own flag and waits for the other. Counts the waits in vain.
fn meet<C: Clock>(clock: &C, mine: &AtomicU64, other: &AtomicU64, limits: &AtomicU64) {
    mine.store(1, Ordering::SeqCst);
    if !comes_to(clock, other, 1) {
        limits.fetch_add(1, Ordering::SeqCst);
    }
}

/// Holds ticket 1 until ticket 2 has arrived, and 2 until 1 has.
#[derive(Drop)]
struct Meeting<'a, C> {
    clock: &'a C,
    one: AtomicU64,
    two: AtomicU64,
    limits: AtomicU64,
}

impl<'a, C: Clock + Sync> Gate for Meeting<'a, C> {
    fn arrive(&self, phase: Phase, number: u32) {
        if phase != Phase::Plans {
            self.limits.fetch_add(1, Ordering::SeqCst);
        }
        match number {
            1 => meet(self.clock, &self.one, &self.two, &self.limits),
            2 => meet(self.clock, &self.two, &self.one, &self.limits),
            _ => {}
        }
    }
}

/// Checks that both came once, and that neither waited in vain.
fn have_met(rt: &impl Abort, one: &AtomicU64, two: &AtomicU64, limits: &AtomicU64) {
    assert_eq!(rt; one.load(Ordering::SeqCst), 1);
    assert_eq!(rt; two.load(Ordering::SeqCst), 1);
    assert_eq!(rt; limits.load(Ordering::SeqCst), 0);
}

// What the bodies all_work_on_one_thread and every_worker_leaves_at_once fail: nobody else comes to the gate.
#[test]
fn two_workers_meet_at_the_gate(rt: HostRuntime) -> Result<(), Fail> {
    let calls = AtomicU64::new(0);
    let gate = Meeting {
        clock: &rt,
        one: AtomicU64::new(0),
        two: AtomicU64::new(0),
        limits: AtomicU64::new(0),
    };
    let workers = adders(rt.alloc(), &calls, 2, 0)?;
    let done = finished(&rt, rt.alloc(), &gate, workers, 19)?;
    assert!(rt; is_each_once(rt.alloc(), &done.answers, 19)?);
    have_met(&rt, &gate.one, &gate.two, &gate.limits);
    Ok(())
}

/// Adds 7, and meets the other job at its first ticket.
#[derive(Drop)]
struct Meeter<'a, C> {
    clock: &'a C,
    mine: &'a AtomicU64,
    other: &'a AtomicU64,
    limits: &'a AtomicU64,
    met: bool,
}

impl<'a, C: Clock + Sync> Job for Meeter<'a, C> {
    type Answer = u64;

    type Setup = Setup;

    ghost setup = { λ _. record {} };

    ghost limit = { λ _. 2 ^ 32 };

    ghost answers = { λ _ n a. a ≡ n + 7 };

    ghost becomes = { λ _ _ _. Unit {0} };

    fn perform(&mut self, number: u32) -> Result<u64, AllocError> {
        if !self.met {
            self.met = true;
            meet(self.clock, self.mine, self.other, self.limits);
        }
        Ok(u64::from(number) + 7)
    }
}

/// Two workers, each of which meets the other at its first ticket.
fn meeters<'a, C: Clock + Sync>(
    clock: &'a C,
    alloc: Global,
    left: &'a AtomicU64,
    right: &'a AtomicU64,
    limits: &'a AtomicU64,
) -> Result<Vec<Worker<Meeter<'a, C>>>, AllocError> {
    let mut workers = Vec::new(alloc);
    for (mine, other) in [(left, right), (right, left)] {
        workers.push(Worker::new(Meeter {
            clock,
            mine,
            other,
            limits,
            met: false,
        }))?;
    }
    Ok(workers)
}

/// One run of them.
fn run_meeters<'a, R: Threads + Wait + Clock + Sync>(
    rt: &'a R,
    alloc: Global,
    left: &'a AtomicU64,
    right: &'a AtomicU64,
    limits: &'a AtomicU64,
) -> Result<Gathered<Meeter<'a, R>>, AllocError> {
    let workers = meeters(rt, alloc, left, right, limits)?;
    if workers.is_empty() {
        return Err(AllocError);
    }
    match run_all(rt, alloc, &FreeGate, workers, 19) {
        Ok(done) => Ok(done),
        Err(_) => Err(AllocError),
    }
}

// What the bodies all_work_on_one_thread and every_worker_leaves_at_once fail, also if they go round the gate.
#[test]
fn two_jobs_meet_inside_perform(rt: HostRuntime) -> Result<(), Fail> {
    let left = AtomicU64::new(0);
    let right = AtomicU64::new(0);
    let limits = AtomicU64::new(0);
    let done = run_meeters(&rt, rt.alloc(), &left, &right, &limits)?;
    assert!(rt; is_each_once(rt.alloc(), &done.answers, 19)?);
    assert_eq!(rt; performed(&done.workers), 19);
    have_met(&rt, &left, &right, &limits);
    Ok(())
}
