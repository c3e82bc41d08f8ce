//! Levels of plans, each of which grows from the runs of the level before.
ghost use Rattle.std.specs.Prelude.{◌≡◌, ◌-◌, ◌≤◌, ◌<◌, ◌^◌, length, map, OnOk, IfOk, IsErrOf};
ghost use Rattle.grown_plans.specs.GrownPlans.{beyond, grown, level, onward};
ghost use Rattle.grown_plans.specs.Kept.{GrewFrom, plan_of};
ghost use Rattle.grown_plans.specs.Lists.{AreLevels, AreNext};
ghost use Rattle.grown_runs.specs.declared.input.Place.TheVariants.{Inner, Last, Onward};
ghost use Rattle.grown_runs.specs.declared.input.Purpose.TheVariants.{Report};
ghost use Rattle.grown_runs.specs.inside.Growths.{IsGrowth};
ghost use Rattle.grown_runs.specs.Grown.{subject_in, begun, HasGrown};
ghost use Rattle.grown_runs.specs.inside.Levels.{HaveBegun};

use crate::input::{Part, Place, Purpose};
use crate::kept::Growth;
use crate::outcomes::Outcomes;
use crate::parts::{Conditions, run_part};
use grown_plans::{GrownLevels, GrownList, GrownPlans, each_target_is_a_lawful_subject};
use plan_gen::PlanFault;
use std::alloc::{AllocError, Global};
use std::sync::Wait;
use std::thread::Threads;
use target_trait::Target;
use work_gate::{Gate, Stage};

/// Plans that grew, and what their runs came to.
#[derive(Drop)]
pub struct Grown {
    pub list: GrownList,
    pub outcomes: Outcomes,
}

/// Runs the plans of a level before the last one. The next level grows from them.
fn run_level<T: Target + Send, G: Gate, R: Threads + Wait + Sync>(
    on: &Conditions<'_, T, G, R>,
    levels: &GrownLevels,
    number: u32,
    purpose: Purpose,
) -> Result<Growth, AllocError>
where
    T::Workload: Sync,
    requires levels { AreLevels (level (subject_in T.Target on.now)) number levels.now }
    requires before { number < on.now.limits.depth }
    requires few { length levels.now.plans ≤ 65536 }
    requires hits { on.now.limits.max_hits < 2 ^ 32 }
    ensures ran { IfOk result (IsGrowth (subject_in T.Target on.now) on.now.limits.seed (record { place = Inner; purpose = purpose })
        levels.now.plans levels.now.last (length levels.now.plans - levels.now.last)) }
    ensures next { IfOk result (λ growth. AreNext (level (subject_in T.Target on.now)) number levels.now growth.children.items) }
    ensures parents { IfOk result (λ growth. GrewFrom (length levels.now.plans) growth.children.items) }
{
    each_target_is_a_lawful_subject::<T>();
    let place = Place::Inner;
    let part = Part { place, purpose };
    run_part(on, &levels.plans, part, Stage::Level(number), levels.last)
}

/// Runs the plans of the last level, and counts what grows from them.
fn run_last<T: Target + Send, G: Gate, R: Threads + Wait + Sync>(
    on: &Conditions<'_, T, G, R>,
    levels: &GrownLevels,
    purpose: Purpose,
) -> Result<Growth, AllocError>
where
    T::Workload: Sync,
    requires levels { AreLevels (level (subject_in T.Target on.now)) on.now.limits.depth levels.now }
    requires few { length levels.now.plans ≤ 65536 }
    requires hits { on.now.limits.max_hits < 2 ^ 32 }
    ensures ran { IfOk result (IsGrowth (subject_in T.Target on.now) on.now.limits.seed (record { place = Last; purpose = purpose })
        levels.now.plans levels.now.last (length levels.now.plans - levels.now.last)) }
    ensures behind { IfOk result (λ growth. map (plan_of levels.now.plans) growth.onward.items ≡ onward (subject_in T.Target on.now) on.now.limits.depth) }
    ensures next { IfOk result (λ growth. growth.child_count ≡ beyond (subject_in T.Target on.now) on.now.limits.depth) }
{
    each_target_is_a_lawful_subject::<T>();
    let place = Place::Last;
    let part = Part { place, purpose };
    let stage = Stage::Level(on.limits.depth);
    run_part(on, &levels.plans, part, stage, levels.last)
}

/// Runs the plans behind the last level for a report. The first of them is `first`.
fn run_behind<T: Target + Send, G: Gate, R: Threads + Wait + Sync>(
    on: &Conditions<'_, T, G, R>,
    plans: &GrownPlans,
    first: usize,
) -> Result<Growth, AllocError>
where
    T::Workload: Sync,
    requires plans { plans.now ≡ grown (subject_in T.Target on.now) on.now.limits.depth }
    requires first { first ≤ length plans.now }
    requires few { length plans.now ≤ 65536 }
    requires hits { on.now.limits.max_hits < 2 ^ 32 }
    ensures { IfOk result (IsGrowth (subject_in T.Target on.now) on.now.limits.seed (record { place = Onward; purpose = Report })
        plans.now first (length plans.now - first)) }
{
    each_target_is_a_lawful_subject::<T>();
    let place = Place::Onward;
    let purpose = Purpose::Report;
    let part = Part { place, purpose };
    run_part(on, plans, part, Stage::Onward, first)
}

/// Grows plans level by level, to the depth or until there are at least `count`, and runs all except those of the last level. Returns the levels, and
/// what the runs came to.
fn grow_levels<T: Target + Send, G: Gate, R: Threads + Wait + Sync>(
    on: &Conditions<'_, T, G, R>,
    purpose: Purpose,
    count: usize,
) -> Result<(GrownLevels, Outcomes), PlanFault>
where
    T::Workload: Sync,
    ensures levels { IfOk result (λ r. HaveBegun (subject_in T.Target on.now) on.now.limits.seed purpose on.now.limits.depth count r.0 r.1) }
    ensures hits { on.now.limits.max_hits < 2 ^ 32 }
    ensures few { IfOk result (λ r. length r.0.plans ≤ on.now.limits.most_plans) }
    ensures many { IsErrOf result PlanFault.TooManyPlans
        → on.now.limits.most_plans < length (begun (subject_in T.Target on.now) on.now.limits.depth count) }
{
    each_target_is_a_lawful_subject::<T>();
    let limits = on.limits;
    let most = limits.most_plans as usize;
    let mut levels = GrownLevels::first(on.alloc, most)?;
    let mut outcomes = Outcomes::none(on.alloc, T::catalogue().len())?;
    for number in 0..limits.depth {
        if count <= levels.plans.len() {
            return Ok((levels, outcomes));
        }
        let growth = run_level(on, &levels, number, purpose)?;
        levels.add(growth.children.as_slice(), most)?;
        outcomes.absorb(&growth.outcomes)?;
    }
    Ok((levels, outcomes))
}

/// Grows plans from each other's runs, level by level, and runs them all. Level 0 is the plan without faults. The next level has the children of each
/// plan of the level before, in order. Behind the last level come its plans with their last fault sticky, if that makes another run. Each plan runs
/// once, under its number as the stream number. A plan that fails is run again without each of its faults in turn, to see whether it is a cause.
///
/// As many threads as the limits say run the plans of a level, each on a twin of its own: the caller's target isn't touched, and the plans come to
/// the same as with one thread. A worker arrives at the gate with each plan's number before it runs the plan.
///
/// `TooManyPlans` comes if a level, or the plans behind the last one, would make more plans than the limits say. None of these has been run then.
pub fn grow<T: Target + Send, G: Gate, R: Threads + Wait + Sync>(
    on: &Conditions<'_, T, G, R>,
) -> Result<Grown, PlanFault>
where
    T::Workload: Sync,
    ensures grown { IfOk result (HasGrown (subject_in T.Target on.now) on.now.limits.seed on.now.limits.depth) }
    ensures few { OnOk result (length (grown (subject_in T.Target on.now) on.now.limits.depth) ≤ on.now.limits.most_plans) }
    ensures many { IsErrOf result PlanFault.TooManyPlans
        → on.now.limits.most_plans < length (grown (subject_in T.Target on.now) on.now.limits.depth) }
{
    each_target_is_a_lawful_subject::<T>();
    let purpose = Purpose::Report;
    let (levels, mut outcomes) = grow_levels(on, purpose, usize::MAX)?;
    let end = levels.plans.len();
    let growth = run_last(on, &levels, purpose)?;
    let onward = growth.onward.as_slice();
    let list = levels.end(onward, growth.child_count, on.limits.most_plans as usize)?;
    outcomes.absorb(&growth.outcomes)?;
    // (what it holds stands in the list and the outcomes now, and would stand there twice while the last plans run)
    drop(growth);
    let growth = run_behind(on, &list.plans, end)?;
    outcomes.absorb(&growth.outcomes)?;
    Ok(Grown { list, outcomes })
}

/// The plans with which the list of a depth begins: level by level until there are at least `count`, or else all plans. Only the levels before the
/// last of these are run, and all levels if all plans are listed. No plan with a sticky fault is run, and nothing is tested for causes.
///
/// Plans are run as by [`grow`]. `TooManyPlans` comes only if these plans are more than the limits say, whatever further levels would have.
pub fn grow_list<T: Target + Send, G: Gate, R: Threads + Wait + Sync>(
    on: &Conditions<'_, T, G, R>,
    count: usize,
) -> Result<GrownPlans, PlanFault>
where
    T::Workload: Sync,
    ensures begun { IfOk result (λ plans. plans ≡ begun (subject_in T.Target on.now) on.now.limits.depth count) }
    ensures few { OnOk result (length (begun (subject_in T.Target on.now) on.now.limits.depth count) ≤ on.now.limits.most_plans) }
    ensures many { IsErrOf result PlanFault.TooManyPlans
        → on.now.limits.most_plans < length (begun (subject_in T.Target on.now) on.now.limits.depth count) }
{
    each_target_is_a_lawful_subject::<T>();
    let purpose = Purpose::Plans;
    let (levels, _) = grow_levels(on, purpose, count)?;
    if count <= levels.plans.len() {
        return Ok(levels.plans);
    }
    let growth = run_last(on, &levels, purpose)?;
    let onward = growth.onward.as_slice();
    let list = levels.end(onward, growth.child_count, on.limits.most_plans as usize)?;
    Ok(list.plans)
}
