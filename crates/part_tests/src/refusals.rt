//! What is left if memory is refused.

use crate::adding::{Adder, adders, have_performed, is_each_once, performed, run};
use crate::counts::ran;
use std::alloc::{AllocError, Global};
use std::process::Abort;
use std::sync::Wait;
use std::sync::atomic::AtomicU64;
use std::test::Fail;
use std::thread::Threads;
use work_gate::FreeGate;
use worker_pool::{Gathered, Worker};

// What the body tickets_of_a_leaver_dropped fails: each worker leaves at its first ticket.
#[test]
fn first_performs_refused(rt: HostRuntime) -> Result<(), Fail> {
    let calls = AtomicU64::new(0);
    let workers = adders(rt.alloc(), &calls, 3, 1)?;
    let _workers = ran(&rt, rt.alloc(), workers, &calls, (19, 19))?;
    Ok(())
}

#[test]
fn all_performs_refused(rt: HostRuntime) -> Result<(), Fail> {
    let calls = AtomicU64::new(0);
    let workers = adders(rt.alloc(), &calls, 3, u64::MAX)?;
    let Err(fault) = run(&rt, rt.alloc(), &FreeGate, workers, 19) else {
        return Err("answered".into());
    };
    assert_eq!(rt; fault.workers.len(), 3);
    have_performed(&rt, &fault.workers, &calls, 0);
    Ok(())
}

/// The workers after a run of 19 tickets, whether or not it was refused.
fn after_a_run<'a, R: Abort + Threads + Wait + Sync>(
    rt: &R,
    alloc: Global,
    workers: Vec<Worker<Adder<'a>>>,
) -> Result<Vec<Worker<Adder<'a>>>, AllocError> {
    match run(rt, alloc, &FreeGate, workers, 19) {
        Ok(Gathered { workers, answers }) => {
            assert!(rt; is_each_once(alloc, &answers, 19)?);
            assert_eq!(rt; performed(&workers), 19);
            Ok(workers)
        }
        Err(fault) => Ok(fault.workers),
    }
}

// Run with any one allocation of the first run refused, this test still passes.
#[test]
fn a_refusal_loses_nothing(rt: HostRuntime) -> Result<(), Fail> {
    let alloc = rt.alloc();
    let calls = AtomicU64::new(0);
    let workers = after_a_run(&rt, alloc, adders(alloc, &calls, 3, 0)?)?;
    let before = performed(&workers);
    assert!(rt; before <= 19);
    have_performed(&rt, &workers, &calls, before);
    assert_eq!(rt; workers.len(), 3);
    let _workers = ran(&rt, alloc, workers, &calls, (19, before + 19))?;
    Ok(())
}
