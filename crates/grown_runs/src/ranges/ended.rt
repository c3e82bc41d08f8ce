//! What is reported to a gate about plans that were run.
ghost use Rattle.std.specs.Prelude.{◌≡◌, ◌^◌, ◌-◌, length, min, count_by};
ghost use Rattle.target_trait.specs.Verdicts.{is_fail};

use target_trait::Verdict;
use work_gate::Ended;

/// What is reported to a gate about plans with these verdicts, from which so many plans of the next level grew. A count that a `u32` can't hold
/// becomes the highest one.
pub fn ended_of(verdicts: &[Verdict], children: usize) -> Ended
    ensures plans { result.plans ≡ min (length verdicts.now) (2 ^ 32 - 1) }
    ensures failing { result.failing ≡ min (count_by is_fail verdicts.now) (2 ^ 32 - 1) }
    ensures children { result.children ≡ min children (2 ^ 32 - 1) }
{
    let failing = verdicts
        .iter()
        .filter(|verdict| matches!(verdict, Verdict::Fail(_)))
        .count();
    Ended {
        plans: at_most(verdicts.len()),
        failing: at_most(failing),
        children: at_most(children),
    }
}

/// The count, or the highest that a `u32` can hold.
fn at_most(count: usize) -> u32
    ensures { result ≡ min count (2 ^ 32 - 1) }
{
    count.min(u32::MAX as usize) as u32
}
