//! Workers that add 7 to each number.
ghost use Rattle.std.specs.Prelude.{◌≡◌, ◌+◌, ◌^◌};

use std::alloc::{AllocError, Global};
use std::process::Abort;
use std::sync::Wait;
use std::sync::atomic::{AtomicU64, Ordering};
use std::test::Fail;
use std::thread::Threads;
use work_gate::Gate;
use worker_pool::{Gathered, Job, PoolFault, Worker, run_all};

/// The setup is nothing: what is added is always 7.
pub struct Setup;

/// Adds 7, counts its calls, and refuses the first few.
#[derive(Drop)]
pub struct Adder<'a> {
    calls: &'a AtomicU64,
    refusals: u64,
}

impl<'a> Job for Adder<'a> {
    type Answer = u64;

    type Setup = Setup;

    ghost setup = { λ _. record {} };

    ghost limit = { λ _. 2 ^ 32 };

    ghost answers = { λ _ n a. a ≡ n + 7 };

    ghost becomes = { λ _ _ _. Unit {0} };

    fn perform(&mut self, number: u32) -> Result<u64, AllocError> {
        if self.refusals > 0 {
            self.refusals -= 1;
            return Err(AllocError);
        }
        self.calls.fetch_add(1, Ordering::SeqCst);
        Ok(u64::from(number) + 7)
    }
}

/// This many workers, each of which refuses this often at first.
pub fn adders<'a>(
    alloc: Global,
    calls: &'a AtomicU64,
    count: usize,
    refusals: u64,
) -> Result<Vec<Worker<Adder<'a>>>, AllocError> {
    let mut workers = Vec::new(alloc);
    for _ in 0..count {
        workers.push(Worker::new(Adder { calls, refusals }))?;
    }
    Ok(workers)
}

/// One run of some workers.
pub fn run<'a, R: Threads + Wait + Sync, G: Gate>(
    rt: &R,
    alloc: Global,
    gate: &G,
    workers: Vec<Worker<Adder<'a>>>,
    count: u32,
) -> Result<Gathered<Adder<'a>>, PoolFault<Adder<'a>>> {
    if workers.is_empty() {
        return Err(PoolFault { workers });
    }
    run_all(rt, alloc, gate, workers, count)
}

/// One run of some workers that isn't refused.
pub fn finished<'a, R: Threads + Wait + Sync, G: Gate>(
    rt: &R,
    alloc: Global,
    gate: &G,
    workers: Vec<Worker<Adder<'a>>>,
    count: u32,
) -> Result<Gathered<Adder<'a>>, Fail> {
    match run(rt, alloc, gate, workers, count) {
        Ok(done) => Ok(done),
        Err(_) => Err("a run is refused".into()),
    }
}

/// How many tickets a run has, and how many were performed over all runs by its end.
pub type Tickets = (u32, u64);

/// How many tickets the workers performed over all their runs.
pub fn performed<J: Job>(workers: &[Worker<J>]) -> u64 {
    let mut all = 0u64;
    for worker in workers.iter() {
        all = all.saturating_add(worker.performed());
    }
    all
}

/// Over all their runs the workers and their jobs performed this many tickets.
pub fn have_performed<J: Job>(
    rt: &impl Abort,
    workers: &[Worker<J>],
    calls: &AtomicU64,
    count: u64,
) {
    assert_eq!(rt; performed(workers), count);
    assert_eq!(rt; calls.load(Ordering::SeqCst), count);
}

/// Whether each number below `count` stands once, and with its answer.
pub fn is_each_once(
    alloc: Global,
    lists: &[Vec<(u32, u64)>],
    count: usize,
) -> Result<bool, AllocError> {
    let mut times = vec![in alloc; 0u32; count]?;
    for list in lists.iter() {
        for pair in list.iter() {
            let Some(time) = times.get_mut(pair.0 as usize) else {
                return Ok(false);
            };
            *time = time.saturating_add(1);
            if pair.1 != u64::from(pair.0) + 7 {
                return Ok(false);
            }
        }
    }
    Ok(times.iter().all(|&time| time == 1))
}
