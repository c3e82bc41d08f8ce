//! The recursion, on one thread: it follows the rule, and keeps nothing that is known.
ghost use Rattle.std.specs.Prelude.{◌≡◌, ℕ, ◌+◌, ◌*◌, ◌≤◌, List, IfOk, Bool, true};
ghost use Rattle.std.specs.List.{range_with_len};
ghost use Rattle.ddmin_parallel.specs.Rounds.{round};
ghost use Rattle.ddmin_parallel.specs.inside.Candidates.{found, CanBeCut};
ghost use Rattle.ddmin_parallel.specs.Ddmin.{decide, ddmin};
ghost use Rattle.ddmin_parallel.specs.OneMinimal.{IsOneMinimal};

use crate::attempts::{Attempt, all_faults, attempt_at, candidate_count};
use crate::probe::Probe;
use crate::reduction::Reduction;
use std::alloc::{AllocError, Global};

/// The first failing candidate of a round, and the tests counted by then.
fn first_failing<P: Probe>(
    alloc: Global,
    probe: &mut P,
    kept: &[u32],
    parts: usize,
    tests: u64,
) -> Result<(Option<Attempt>, u64), AllocError>
    requires cut { CanBeCut kept.now parts }
    ensures decided { IfOk result (λ r. found r.0 r.1 ≡ decide (P.answers probe.old) (round kept.now parts) tests) }
    ensures setup { P.answers probe.new ≡ P.answers probe.old }
{
    let mut tests = tests;
    for place in 0..candidate_count(parts) {
        let attempt = attempt_at(alloc, kept, parts, place)?;
        tests = tests.saturating_add(1);
        if probe.test(attempt.set.as_slice())? {
            return Ok((Some(attempt), tests));
        }
    }
    Ok((None, tests))
}

/// Reduces the faults `0 .. faults` on one thread: tests the empty set and then the rounds of ddmin, in order, until no round finds a smaller failing
/// set. There may be up to 4,096 faults.
///
/// If all faults together fail, the kept set is one-minimal: it fails, and without any one of its members it doesn't. The only error is that memory
/// was refused, here or to the probe. The probe keeps its setup, after an error too.
pub fn reduce_plain<P: Probe>(
    alloc: Global,
    probe: &mut P,
    faults: u32,
) -> Result<Reduction, AllocError>
    requires { faults ≤ 4096 }
    ensures reduced { IfOk result (λ r. r ≡ ddmin (P.answers probe.old) faults) }
    ensures one_minimal { P.answers probe.old (range_with_len 0 faults) ≡ true → IfOk result (λ r. IsOneMinimal (P.answers probe.old) r.kept) }
    ensures setup { P.answers probe.new ≡ P.answers probe.old }
{
    if faults == 0 {
        return Ok(Reduction {
            kept: Vec::new(alloc),
            tests: 0,
        });
    }
    if probe.test(&[])? {
        return Ok(Reduction {
            kept: Vec::new(alloc),
            tests: 1,
        });
    }
    let mut kept = all_faults(alloc, faults)?;
    let mut parts = 2;
    let mut tests = 1;
    while kept.len() > 1 {
        let (found, looked) = first_failing(alloc, probe, kept.as_slice(), parts, tests)?;
        tests = looked;
        match found {
            Some(attempt) => {
                kept = attempt.set;
                parts = attempt.parts;
            }
            None => {
                if parts >= kept.len() {
                    return Ok(Reduction { kept, tests });
                }
                parts = (2 * parts).min(kept.len());
            }
        }
    }
    Ok(Reduction { kept, tests })
}
