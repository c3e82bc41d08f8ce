//! The reduction by a core, on one thread.
ghost use Rattle.std.specs.Prelude.{◌≡◌, ℕ, ◌≤◌, IfOk, IsTrue};
ghost use Rattle.ddmin_parallel.specs.Ddmin.{ddmin};
ghost use Rattle.ddmin_parallel.specs.Logs.{Tells};

use crate::plain::reduce_plain;
use crate::probe::Probe;
use crate::reducer_core::{Core, RequestFault};
use crate::reduction::Reduction;
use std::alloc::{AllocError, Global};

/// Answers the next request by the probe. False if there is none.
fn answer_next<P: Probe>(alloc: Global, core: &mut Core, probe: &mut P) -> Result<bool, AllocError>
    ensures tells { (faults : ℕ) → Tells faults (P.answers probe.old) core.old
        → IfOk result (λ more. IsTrue more → Tells faults (P.answers probe.old) core.new) }
    ensures setup { P.answers probe.new ≡ P.answers probe.old }
{
    let Some(request) = core.take(alloc, false)? else {
        return Ok(false);
    };
    let fails = probe.test(request.set())?;
    match core.put(alloc, request, fails) {
        Ok(()) => Ok(true),
        Err(RequestFault::Stranger(_)) => Ok(false),
        Err(RequestFault::Memory(_)) => Err(AllocError),
    }
}

/// Goes on from a core that knows only answers of this probe.
pub(crate) fn finish<P: Probe>(
    alloc: Global,
    core: Core,
    probe: &mut P,
    faults: u32,
) -> Result<Reduction, AllocError>
    requires few { faults ≤ 4096 }
    requires tells { Tells faults (P.answers probe.old) core }
    ensures reduced { IfOk result (λ r. r ≡ ddmin (P.answers probe.old) faults) }
    ensures setup { P.answers probe.new ≡ P.answers probe.old }
{
    let mut core = core;
    for _ in 0..u64::MAX {
        if let Some(reduction) = core.finished() {
            return reduction.copied(alloc);
        }
        if !answer_next(alloc, &mut core, probe)? {
            break;
        }
    }
    reduce_plain(alloc, probe, faults)
}

/// Reduces the faults by a core, on one thread. No set is asked twice.
pub fn reduce_by_core<P: Probe>(
    alloc: Global,
    probe: &mut P,
    faults: u32,
) -> Result<Reduction, AllocError>
    requires { faults ≤ 4096 }
    ensures reduced { IfOk result (λ r. r ≡ ddmin (P.answers probe.old) faults) }
    ensures setup { P.answers probe.new ≡ P.answers probe.old }
{
    finish(alloc, Core::start(alloc, faults), probe, faults)
}
