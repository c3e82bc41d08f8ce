ghost use Rattle.std.specs.Prelude.{◌≡◌, ℕ, ◌<◌, ◌≤◌, All, IfOk, length};
ghost use Rattle.ddmin_parallel.specs.Ddmin.{ddmin};

use ddmin_parallel::{Probe, Reduction, reduce};
use std::alloc::{AllocError, Global};
use std::sync::Wait;
use std::thread::Threads;
use work_gate::Gate;

/// A probe of which others of the same setup can be made.
pub trait Twin: Probe + Sized {
    fn twin(&self, alloc: Global) -> Result<Self, AllocError>
        ensures { IfOk result (λ p. Self.answers p ≡ Self.answers self.now) };
}

fn workers_of<P: Twin>(alloc: Global, probe: &P, count: usize) -> Result<Vec<P>, AllocError>
    ensures count { IfOk result (λ workers. length workers.items ≡ count) }
    ensures alike { IfOk result (λ workers. All (λ p. P.answers p ≡ P.answers probe.now) workers.items) }
{
    let mut workers = Vec::new(alloc);
    for made in 0..count {
        let _ = made;
        workers.push(probe.twin(alloc)?)?;
    }
    Ok(workers)
}

/// How many workers reduce how many faults.
#[derive(Clone, Copy)]
pub struct Size {
    pub workers: usize,
    pub faults: u32,
}

/// Reduces the faults with this many twins of a probe.
pub fn reduced_by<R: Threads + Wait + Sync, P: Twin, G: Gate>(
    rt: &R,
    alloc: Global,
    gate: &G,
    probe: &P,
    size: &Size,
) -> Result<Reduction, AllocError>
    requires some { 0 < size.now.workers }
    requires few { size.now.faults ≤ 4096 }
    ensures { IfOk result (λ r. r ≡ ddmin (P.answers probe.now) size.now.faults) }
{
    let workers = workers_of(alloc, probe, size.workers)?;
    reduce(rt, alloc, gate, workers, size.faults)
}
