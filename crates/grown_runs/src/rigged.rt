//! One run of rigged hits.
ghost use Rattle.std.specs.Prelude.{◌≡◌, ◌<◌, ◌^◌, length, IfOk, OnOk};
ghost use Rattle.action_eval.specs.RiggedScenario.{CanBeRigged};
ghost use Rattle.grown_runs.specs.GrownRuns.{told_of_rigs};
ghost use Rattle.grown_runs.specs.inside.Growths.{subject_on};

use crate::input::GrownRunInput;
use action_eval::Rig;
use std::alloc::AllocError;
use target_trait::{RiggedRuns, RunSettings, Target, Verdict};

/// Does nothing. A contract sees a field of 32 bits as any number, but an argument as one that fits.
fn fits(number: u32)
    ensures { number < 2 ^ 32 }
{}

/// The verdict of the run of these rigged hits under a stream number. The buffers then have the points that the run asked. An error means that memory
/// was refused. The target keeps its setup, even after an error.
pub fn run_rigs<T: Target>(
    runs: &mut RiggedRuns,
    target: &mut T,
    input: &GrownRunInput<'_, T>,
    rigs: &[Rig],
    stream: u64,
) -> Result<Verdict, AllocError>
    requires { CanBeRigged rigs.now }
    ensures verdict { IfOk result (λ verdict. verdict
        ≡ (told_of_rigs (subject_on T.Target target.old input.now) input.now.limits.seed stream rigs.now).verdict) }
    ensures asked { OnOk result (runs.new.buffers
        ≡ (told_of_rigs (subject_on T.Target target.old input.now) input.now.limits.seed stream rigs.now).asked) }
    ensures few { OnOk result (length runs.new.buffers < 2 ^ 32) }
    ensures setup { target.new ≡ target.old }
{
    runs.table.load(T::catalogue(), rigs)?;
    let limits = input.limits;
    let settings = RunSettings {
        seed: limits.seed,
        stream,
        max_hits: limits.max_hits,
    };
    // Called for its contract: a run asks no more points than this.
    fits(limits.max_hits);
    let verdict = runs.run(target, input.workload, settings)?;
    Ok(verdict)
}
