//! Tickets of three workers.
ghost use Rattle.std.specs.Prelude.{◌≡◌, ◌+◌, ◌^◌, [], ◌∷◌};

use crate::check::{Fault, demand};
use std::alloc::{AllocError, Global};
use std::sync::Wait;
use std::sync::atomic::{AtomicU64, Ordering};
use std::thread::Threads;
use work_gate::FreeGate;
use worker_pool::{Gathered, Job, PoolFault, Worker, run_all};

const TICKETS: u32 = 19;

/// The setup is nothing: what is added is always 7.
pub struct Setup;

/// Adds 7 in a list of its own, refuses the first few times, and counts what it performed.
#[derive(Drop)]
pub struct Adder<'a> {
    alloc: Global,
    performed: &'a AtomicU64,
    refusals: u64,
}

impl<'a> Job for Adder<'a> {
    type Answer = Vec<u64>;

    type Setup = Setup;

    ghost setup = { λ _. record {} };

    ghost limit = { λ _. 2 ^ 32 };

    ghost answers = { λ _ n a. a.items ≡ (n + 7) ∷ [] };

    ghost becomes = { λ _ _ _. Unit {0} };

    fn perform(&mut self, number: u32) -> Result<Vec<u64>, AllocError> {
        if self.refusals > 0 {
            self.refusals -= 1;
            return Err(AllocError);
        }
        let mut answer = Vec::new(self.alloc);
        answer.push(u64::from(number) + 7)?;
        self.performed.fetch_add(1, Ordering::SeqCst);
        Ok(answer)
    }
}

type Done<'a> = Gathered<Adder<'a>>;

/// One run of the workers.
fn run<'a, R: Threads + Wait + Sync>(
    rt: &R,
    alloc: Global,
    workers: Vec<Worker<Adder<'a>>>,
) -> Result<Done<'a>, PoolFault<Adder<'a>>> {
    if workers.is_empty() {
        return Err(PoolFault { workers });
    }
    run_all(rt, alloc, &FreeGate, workers, TICKETS)
}

/// How many tickets the workers performed over all their runs.
fn performed_by(workers: &[Worker<Adder<'_>>]) -> u64 {
    workers.iter().fold(0, |all: u64, worker| all.saturating_add(worker.performed()))
}

/// Whether each number below the count of tickets stands once, with its answer.
fn is_each_once(lists: &[Vec<(u32, Vec<u64>)>]) -> bool {
    let mut seen = 0u32;
    let mut count = 0u32;
    for list in lists {
        for (number, answer) in list {
            if answer.as_slice() != [u64::from(*number) + 7].as_slice() {
                return false;
            }
            seen |= 1u32.wrapping_shl(*number);
            count = count.saturating_add(1);
        }
    }
    count == TICKETS && seen == (1 << TICKETS) - 1
}

/// Runs the workers, and once more if that is refused: then they have come back, and have counted what they performed.
fn run_again<'a, R: Threads + Wait + Sync>(
    rt: &R,
    alloc: Global,
    workers: Vec<Worker<Adder<'a>>>,
    performed: &AtomicU64,
) -> Result<Vec<Worker<Adder<'a>>>, Fault> {
    let before = performed_by(&workers);
    let (done, before) = match run(rt, alloc, workers) {
        Ok(done) => (done, before),
        Err(PoolFault { workers }) => {
            let after = performed_by(&workers);
            demand(workers.len() == 3 && after == performed.load(Ordering::SeqCst))?;
            demand(after >= before && after - before <= u64::from(TICKETS))?;
            match run(rt, alloc, workers) {
                Ok(done) => (done, after),
                Err(_) => return Err(Fault::Broken),
            }
        }
    };
    let after = performed_by(&done.workers);
    demand(after == performed.load(Ordering::SeqCst) && after == before.saturating_add(19))?;
    demand(is_each_once(&done.answers))?;
    Ok(done.workers)
}

/// Three workers, each of whose jobs refuses once.
fn three_workers<'a>(
    alloc: Global,
    performed: &'a AtomicU64,
) -> Result<Vec<Worker<Adder<'a>>>, AllocError> {
    let mut workers = Vec::new(alloc);
    for _ in 0..3 {
        workers.push(Worker::new(Adder {
            alloc,
            performed,
            refusals: 1,
        }))?;
    }
    Ok(workers)
}

/// Two runs. In the first one each worker leaves at its first ticket, and the caller's thread performs what is left.
pub fn tickets<R: Threads + Wait + Sync>(rt: &R, alloc: Global) -> Result<(), Fault> {
    let performed = AtomicU64::new(0);
    let workers = three_workers(alloc, &performed)?;
    let workers = run_again(rt, alloc, workers, &performed)?;
    let workers = run_again(rt, alloc, workers, &performed)?;
    demand(performed_by(&workers) >= 38)
}
