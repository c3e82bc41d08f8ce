//! Reductions over a probe that runs nothing.
ghost use Rattle.std.specs.Prelude.{◌≡◌, IfOk};
ghost use Rattle.ddmin_parallel.specs.Ddmin.{ddmin};
ghost use Rattle.concrete_calls.specs.Pairs.{has_both};

use ddmin_parallel::{Probe, Reduction, reduce, reduce_by_core, reduce_plain};
use std::alloc::{AllocError, Global};
use std::sync::Wait;
use std::thread::Threads;
use work_gate::FreeGate;

/// A set fails if it has both faults.
#[derive(Drop)]
pub struct Pair {
    pub first: u32,
    pub second: u32,
}

impl Probe for Pair {
    ghost answers = { λ p. has_both p.first p.second };

    fn test(&mut self, set: &[u32]) -> Result<bool, AllocError> {
        Ok(set.contains(&self.first) && set.contains(&self.second))
    }
}

/// By the recursion on one thread.
pub fn reduced_plainly(alloc: Global, pair: &mut Pair) -> Result<Reduction, AllocError>
    ensures { IfOk result (λ r. r ≡ ddmin (has_both pair.old.first pair.old.second) 4096) }
{
    reduce_plain(alloc, pair, 4096)
}

/// By a core on one thread.
pub fn reduced_by_a_core(alloc: Global, pair: &mut Pair) -> Result<Reduction, AllocError>
    ensures { IfOk result (λ r. r ≡ ddmin (has_both pair.old.first pair.old.second) 4096) }
{
    reduce_by_core(alloc, pair, 4096)
}

/// By one worker.
pub fn reduced_by_workers<R: Threads + Wait + Sync>(
    rt: &R,
    alloc: Global,
    pair: Pair,
) -> Result<Reduction, AllocError>
    ensures { IfOk result (λ r. r ≡ ddmin (has_both pair.first pair.second) 4096) }
{
    let mut workers = Vec::new(alloc);
    workers.push(pair)?;
    reduce(rt, alloc, &FreeGate, workers, 4096)
}
