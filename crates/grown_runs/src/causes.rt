//! Whether a failing plan is a cause.
ghost use Rattle.std.specs.Prelude.{◌≡◌, ◌<◌, ◌++◌, ◌+◌, length, slice_range, IfOk, OnOk};
ghost use Rattle.action_eval.specs.RiggedScenario.{CanBeRigged};
ghost use Rattle.grown_runs.specs.GrownRuns.{fails_with, is_least, cause_by, causes_by};
ghost use Rattle.grown_runs.specs.inside.Growths.{if_report, subject_on};

use crate::input::{GrownRunInput, Purpose};
use crate::rigged::run_rigs;
use action_eval::Rig;
use std::alloc::AllocError;
use target_trait::{RiggedRuns, Target, Verdict};

/// Whether a verdict is a failure with this code.
pub fn fails_with(code: u32, verdict: Verdict) -> bool
    ensures { result ≡ fails_with code verdict }
{
    match verdict {
        Verdict::Fail(other) => other == code,
        Verdict::Pass | Verdict::Unresolved => false,
    }
}

/// Puts all of these rigged hits except one into the list, in place of what stood there. An error means that memory was refused.
pub fn leave_out(less: &mut Vec<Rig>, rigs: &[Rig], left_out: usize) -> Result<(), AllocError>
    requires { left_out < length rigs.now }
    ensures { OnOk result (less.new.items ≡ slice_range rigs.now 0 left_out ++ slice_range rigs.now (left_out + 1) (length rigs.now)) }
{
    less.clear();
    less.extend_from_slice(&rigs[..left_out])?;
    less.extend_from_slice(&rigs[left_out + 1..])
}

/// A run that was made: its rigged hits, its number, which is its stream number, and its verdict.
#[derive(Drop)]
pub struct Ran<'a> {
    pub rigs: &'a [Rig],
    pub number: u32,
    pub verdict: Verdict,
}

/// A run that has failed: its rigged hits, its number, and its code.
#[derive(Drop)]
struct Failed<'a> {
    rigs: &'a [Rig],
    number: u32,
    code: u32,
}

/// Whether the rigged hits of a run that has failed don't fail with its code if any one of them is left out.
fn is_cause<T: Target>(
    runs: &mut RiggedRuns,
    less: &mut Vec<Rig>,
    target: &mut T,
    input: &GrownRunInput<'_, T>,
    failed: &Failed<'_>,
) -> Result<bool, AllocError>
    requires { CanBeRigged failed.now.rigs.now }
    ensures least { IfOk result (λ is_cause. is_cause
        ≡ is_least (subject_on T.Target target.old input.now) input.now.limits.seed failed.now.number failed.now.code failed.now.rigs.now) }
    ensures setup { target.new ≡ target.old }
{
    for left_out in 0..failed.rigs.len() {
        leave_out(less, failed.rigs, left_out)?;
        let stream = u64::from(failed.number);
        let verdict = run_rigs(runs, target, input, less.as_slice(), stream)?;
        if fails_with(failed.code, verdict) {
            return Ok(false);
        }
    }
    Ok(true)
}

/// The code of a run that is a cause: it fails, and if any one of its rigged hits is left out it doesn't fail with this code. If runs are made for
/// the list of plans alone, nothing is tested, and no run has one. `less` is a list to work in. An error means that memory was refused. The target
/// keeps its setup, even after an error.
pub fn cause_of<T: Target>(
    runs: &mut RiggedRuns,
    less: &mut Vec<Rig>,
    target: &mut T,
    input: &GrownRunInput<'_, T>,
    ran: &Ran<'_>,
) -> Result<Option<u32>, AllocError>
    requires { CanBeRigged ran.now.rigs.now }
    ensures cause { IfOk result (λ cause. causes_by ran.now.number cause ≡ if_report input.now.part.purpose
        (cause_by (subject_on T.Target target.old input.now) input.now.limits.seed ran.now.number ran.now.rigs.now ran.now.verdict)) }
    ensures setup { target.new ≡ target.old }
{
    let (Purpose::Report, Verdict::Fail(code)) = (input.part.purpose, ran.verdict) else {
        return Ok(None);
    };
    let failed = Failed {
        rigs: ran.rigs,
        number: ran.number,
        code,
    };
    if is_cause(runs, less, target, input, &failed)? {
        Ok(Some(code))
    } else {
        Ok(None)
    }
}
