//! Lists that grow level by level. The caller has the runs of a level's plans, makes them or looks them up, and says what grows from them.
ghost use Rattle.std.specs.Prelude.{◌≡◌, ℕ, suc, ◌+◌, ◌≤◌, ◌<◌, ◌++◌, ◌∷◌, [], List, length, map, IfOk, OnOk, IsErrOf};
ghost use Rattle.action_eval.specs.declared.rig.Rig.{Rig};
ghost use Rattle.grown_plans.specs.Kept.{GrewFrom, plan_of};
ghost use Rattle.grown_plans.specs.GrownPlans.{levels_to};
ghost use Rattle.grown_plans.specs.Lists.{AreLevels, AreNext, IsGrownList};

use crate::child::Child;
use crate::list::GrownPlans;
use plan_gen::PlanFault;
use std::alloc::{AllocError, Global};

/// The plans of levels 0 to a last one, level after level. Level 0 is the plan without faults alone.
#[derive(Debug, Drop)]
pub struct GrownLevels {
    pub plans: GrownPlans,
    /// The number of the last level's first plan.
    pub last: usize,
    /// How many plans each level has.
    pub sizes: Vec<u32>,
}

/// A list of plans that grew to a depth.
#[derive(Debug, Drop)]
pub struct GrownList {
    /// The plans of levels 0 to the depth, and behind them those of the last level with their last fault sticky.
    pub plans: GrownPlans,
    /// How many plans each level has.
    pub levels: Vec<u32>,
    /// How many plans have a sticky last fault.
    pub onward: u32,
    /// How many plans the next level has.
    pub beyond: u64,
}

/// Refuses plans if there would be more than `most` with those that are there.
fn check_room(most: usize, plans: usize, more: usize) -> Result<(), PlanFault>
    ensures ok { OnOk result (plans + more ≤ most) }
    ensures many { IsErrOf result PlanFault.TooManyPlans → most < plans + more }
{
    match most.checked_sub(plans) {
        Some(room) if more <= room => Ok(()),
        _ => Err(PlanFault::TooManyPlans),
    }
}

/// Adds plans that grew from those that are there, unless there would be more than `most`.
fn add_all(plans: &mut GrownPlans, more: &[Child], most: usize) -> Result<(), PlanFault>
    requires { GrewFrom (length plans.old) more.now }
    ensures added { OnOk result (plans.new ≡ plans.old ++ map (plan_of plans.old) more.now) }
    ensures few { OnOk result (length plans.old + length more.now ≤ most) }
    ensures many { IsErrOf result PlanFault.TooManyPlans → most < length plans.old + length more.now }
{
    check_room(most, plans.len(), more.len())?;
    plans.add(more)?;
    Ok(())
}

/// Adds how many plans a level has.
fn push_size(sizes: &mut Vec<u32>, size: usize) -> Result<(), AllocError>
    requires { size ≤ 65536 }
    ensures { OnOk result (sizes.new.items ≡ sizes.old.items ++ size ∷ []) }
{
    sizes.push(size as u32)?;
    Ok(())
}

impl GrownLevels {
    /// Level 0 alone, of a list with at most `most` plans.
    pub fn first(alloc: Global, most: usize) -> Result<Self, PlanFault>
        ensures plans { IfOk result (λ levels. levels.plans ≡ [] ∷ []) }
        ensures levels { IfOk result (λ levels. (level : ℕ → List (List Rig)) → level 0 ≡ [] ∷ [] → AreLevels level 0 levels) }
        ensures few { OnOk result (1 ≤ most) }
        ensures many { IsErrOf result PlanFault.TooManyPlans → most < 1 }
    {
        let plans = GrownPlans::new(alloc);
        check_room(most, 0, plans.len())?;
        let mut sizes = Vec::new(alloc);
        push_size(&mut sizes, 1)?;
        Ok(GrownLevels {
            plans,
            last: 0,
            sizes,
        })
    }

    /// Adds what grew from the plans of the last level, as the next level. There may be at most `most` plans then, up to 65536. After an error the
    /// levels can't be used further: the plans may be there, and their number not.
    pub fn add(&mut self, children: &[Child], most: usize) -> Result<(), PlanFault>
        requires parents { GrewFrom (length self.old.plans) children.now }
        requires most { most ≤ 65536 }
        ensures plans { OnOk result (self.new.plans ≡ self.old.plans ++ map (plan_of self.old.plans) children.now) }
        ensures levels { OnOk result ((level : ℕ → List (List Rig)) (n : ℕ) → AreLevels level n self.old
            → AreNext level n self.old children.now → AreLevels level (suc n) self.new) }
        ensures last { OnOk result (self.new.last ≡ length self.old.plans) }
        ensures few { OnOk result (length self.new.plans ≤ most) }
        ensures many { IsErrOf result PlanFault.TooManyPlans → (level : ℕ → List (List Rig)) (n : ℕ) → AreLevels level n self.old
            → AreNext level n self.old children.now → most < length (levels_to level (suc n)) }
    {
        let end = self.plans.len();
        add_all(&mut self.plans, children, most)?;
        push_size(&mut self.sizes, children.len())?;
        self.last = end;
        Ok(())
    }

    /// The whole list. Behind the levels come the plans of the last one that are kept with their last fault sticky; `beyond` is how many plans the
    /// next level would have. There may be at most `most` plans then, up to 65536. After an error nothing is left.
    pub fn end(self, onward: &[Child], beyond: u64, most: usize) -> Result<GrownList, PlanFault>
        requires parents { GrewFrom (length self.plans) onward.now }
        requires most { most ≤ 65536 }
        ensures list { IfOk result (λ list. (level : ℕ → List (List Rig)) (n : ℕ) → AreLevels level n self
            → IsGrownList level (map (plan_of self.plans) onward.now) n beyond list) }
        ensures plans { IfOk result (λ list. list.plans ≡ self.plans ++ map (plan_of self.plans) onward.now) }
        ensures few { IfOk result (λ list. length list.plans ≤ most) }
        ensures many { IsErrOf result PlanFault.TooManyPlans → most < length (self.plans ++ map (plan_of self.plans) onward.now) }
    {
        let GrownLevels { plans, sizes, .. } = self;
        let mut plans = plans;
        add_all(&mut plans, onward, most)?;
        Ok(GrownList {
            plans,
            levels: sizes,
            onward: onward.len() as u32,
            beyond,
        })
    }
}
