//! What the workers of a run perform, and what they have performed over all their runs.

use crate::adding::{Adder, Tickets, adders, finished, have_performed, is_each_once};
use std::alloc::Global;
use std::process::Abort;
use std::sync::Wait;
use std::sync::atomic::AtomicU64;
use std::test::Fail;
use std::thread::Threads;
use work_gate::FreeGate;
use worker_pool::Worker;

/// One run of three workers that isn't refused. After it they have performed this many tickets over all their runs.
pub fn ran<'a, R: Abort + Threads + Wait + Sync>(
    rt: &R,
    alloc: Global,
    workers: Vec<Worker<Adder<'a>>>,
    calls: &AtomicU64,
    tickets: Tickets,
) -> Result<Vec<Worker<Adder<'a>>>, Fail> {
    let (count, performed) = tickets;
    let done = finished(rt, alloc, &FreeGate, workers, count)?;
    assert_eq!(rt; done.answers.len(), 3);
    assert!(rt; is_each_once(alloc, &done.answers, count as usize)?);
    have_performed(rt, &done.workers, calls, performed);
    Ok(done.workers)
}

// What the body every_worker_performs_every_plan fails, by the count of calls.
#[test]
fn three_runs_of_three_workers(rt: HostRuntime) -> Result<(), Fail> {
    let alloc = rt.alloc();
    let calls = AtomicU64::new(0);
    let mut workers = adders(alloc, &calls, 3, 0)?;
    for tickets in [(19, 19), (19, 38), (0, 38)] {
        workers = ran(&rt, alloc, workers, &calls, tickets)?;
    }
    Ok(())
}

/// Whether each worker performed only tickets that were dealt to it or to the next worker.
fn is_own_or_stolen(lists: &[Vec<(u32, u64)>]) -> bool {
    let n = lists.len().max(1);
    for (worker, list) in lists.iter().enumerate() {
        for pair in list.iter() {
            let dealt_to = pair.0 as usize % n;
            if dealt_to != worker && dealt_to != (worker + 1) % n {
                return false;
            }
        }
    }
    true
}

#[test]
fn any_number_of_workers(rt: HostRuntime) -> Result<(), Fail> {
    let alloc = rt.alloc();
    for count in [1usize, 2, 8, 64] {
        let calls = AtomicU64::new(0);
        let workers = adders(alloc, &calls, count, 0)?;
        let done = finished(&rt, alloc, &FreeGate, workers, 300)?;
        assert_eq!(rt; done.workers.len(), count);
        assert!(rt; is_each_once(alloc, &done.answers, 300)?);
        assert!(rt; is_own_or_stolen(&done.answers));
        have_performed(&rt, &done.workers, &calls, 300);
    }
    Ok(())
}
