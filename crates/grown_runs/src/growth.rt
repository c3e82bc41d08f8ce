//! What plans come to that are run one after another.
ghost use Rattle.std.specs.Prelude.{◌≡◌, ℕ, ◌+◌, ◌-◌, ◌<◌, ◌≤◌, ◌^◌, ◌++◌, ◌&&◌, [], List, length, map, slice_index_or, IfOk, OnOk};
ghost use Rattle.std.specs.List.{AllByRecursion};
ghost use Rattle.action_eval.specs.declared.rig.Rig.{Rig};
ghost use Rattle.grown_plans.specs.AskedPoints.{AreCounts, is_asked_again, is_last_return, onward_if};
ghost use Rattle.grown_plans.specs.Begun.{AreOrdinals, Serves};
ghost use Rattle.grown_plans.specs.GrownPlans.{Subject, kinds_at};
ghost use Rattle.grown_plans.specs.Kept.{GrewFrom, kept_children, plan_of};
ghost use Rattle.grown_runs.specs.declared.input.Part.{Part};
ghost use Rattle.grown_runs.specs.GrownRuns.{causes_by};
ghost use Rattle.grown_runs.specs.inside.Growths.{if_inner, if_last, subject_on, IsGrowth, IsGrowthOn};
ghost use Rattle.grown_runs.specs.inside.Beginnings.{AskLikeParents, MovesOn, TellsParent};

use crate::causes::{Ran, cause_of};
use crate::input::{GrownRunInput, Place};
use crate::kept::Growth;
use crate::outcomes::{Outcomes, raise};
use crate::rigged::run_rigs;
use action_eval::Rig;
use grown_plans::{
    Begun, Child, Growing, GrownPlans, Kinds, RigLists, add_children, count_children,
};
use std::alloc::{AllocError, Global};
use std::ops::Range;
use target_trait::{RiggedRuns, Target};

/// What a worker's plans are run in, one after another, so that they needn't take memory of their own. What it holds before a plan makes no
/// difference to the plan.
#[derive(Drop)]
pub struct Workspace {
    runs: RiggedRuns,
    lists: RigLists,
    less: Vec<Rig>,
    begun: Begun,
}

impl Workspace {
    /// A workspace that has taken no memory yet.
    pub fn new(alloc: Global) -> Self {
        Workspace {
            runs: RiggedRuns::new(alloc),
            lists: RigLists::new(alloc),
            less: Vec::new(alloc),
            begun: Begun::nothing(alloc),
        }
    }
}

/// The number of a plan, the number of the plan that it grew from, and where in the list it stands.
#[derive(Clone, Copy, Debug)]
struct Descent {
    number: usize,
    parent: usize,
    place: Place,
}

/// How a plan with these faults grows, by the points that its run asked. These are counted. The children are kept, unless the plan is one of the last
/// level or behind it.
fn grow_one(
    kinds: &Kinds<'_>,
    kept: &mut Vec<Child>,
    begun: &mut Begun,
    descent: Descent,
    plan: &[Rig],
    asked: &[u32],
) -> Result<Growing, AllocError>
    requires number { descent.number < 2 ^ 16 }
    requires ordinals { AreOrdinals plan.now }
    requires serves { Serves begun.old descent.parent plan.now asked.now }
    requires points { AllByRecursion (λ p. p < 64) asked.now }
    requires few { length asked.now < 2 ^ 32 }
    ensures kept { OnOk result (kept.new.items ≡ kept.old.items
        ++ if_inner descent.place (kept_children (kinds_at kinds.now) descent.number plan.now asked.now)) }
    ensures many { IfOk result (λ growing. growing.children ≡ length (kept_children (kinds_at kinds.now) descent.number plan.now asked.now)) }
    ensures again { IfOk result (λ growing. growing.is_again ≡ is_asked_again plan.now asked.now) }
    ensures counts { OnOk result (AreCounts begun.new.whole.items asked.now) }
    ensures begun { OnOk result (MovesOn begun.old begun.new descent.parent plan.now asked.now) }
{
    if descent.place != Place::Inner {
        return count_children(begun, kinds, descent.parent, plan, asked);
    }
    let before = kept.len();
    let counts = &mut begun.whole;
    let is_again = add_children(kept, counts, kinds, descent.number, plan, asked)?;
    Ok(Growing {
        children: kept.len() - before,
        is_again,
    })
}

/// Keeps a plan of the last level as one with its last fault sticky, if that is a return whose point its run hits again.
fn keep_onward(
    place: Place,
    onward: &mut Vec<Child>,
    plans: &GrownPlans,
    number: usize,
    is_again: bool,
) -> Result<(), AllocError>
    requires { number < length plans.now }
    ensures ok { OnOk result (map (plan_of plans.now) onward.new.items ≡ map (plan_of plans.now) onward.old.items
        ++ if_last place (onward_if (is_last_return (slice_index_or plans.now number []) && is_again) (slice_index_or plans.now number []))) }
    ensures from { GrewFrom (length plans.now) onward.old.items → GrewFrom (length plans.now) onward.new.items }
{
    if place == Place::Last && is_again {
        if let Some(child) = plans.from_then_on(number) {
            onward.push(child)?;
        }
    }
    Ok(())
}

/// Keeps a cause, if there is one.
fn keep_cause(
    causes: &mut Vec<(u32, u32)>,
    number: u32,
    cause: Option<u32>,
) -> Result<(), AllocError>
    ensures { OnOk result (causes.new.items ≡ causes.old.items ++ causes_by number cause) }
{
    if let Some(code) = cause {
        causes.push((number, code))?;
    }
    Ok(())
}

/// Runs the plan of this number, and adds what it comes to. The target keeps its setup, even after an error.
fn run_one<T: Target>(
    target: &mut T,
    input: &GrownRunInput<'_, T>,
    workspace: &mut Workspace,
    growth: &mut Growth,
    number: usize,
) -> Result<(), AllocError>
    requires within { number < length input.now.plans.now }
    requires room { length growth.old.outcomes.verdicts.items < 2 ^ 16 }
    requires hits { length growth.old.outcomes.hits.items ≡ length T.names }
    requires alike { AskLikeParents (subject_on T.Target target.old input.now) input.now.plans.now }
    requires begun { TellsParent (subject_on T.Target target.old input.now) input.now.limits.seed input.now.plans.now workspace.old.begun }
    ensures begun { OnOk result (TellsParent (subject_on T.Target target.old input.now) input.now.limits.seed input.now.plans.now workspace.new.begun) }
    ensures grown { OnOk result ((first count : ℕ) → first + count ≡ number → IsGrowthOn T.Target target.old input.now first count growth.old
        → IsGrowthOn T.Target target.old input.now first (count + 1) growth.new) }
    ensures many { OnOk result (length growth.new.outcomes.verdicts.items ≡ length growth.old.outcomes.verdicts.items + 1) }
    ensures hits { length growth.new.outcomes.hits.items ≡ length growth.old.outcomes.hits.items }
    ensures setup { target.new ≡ target.old }
{
    let Workspace {
        runs,
        lists,
        less,
        begun,
    } = workspace;
    lists.put(input.plans, number)?;
    let rigs = lists.rigs.as_slice();
    let verdict = run_rigs(runs, target, input, rigs, number as u64)?;
    let place = input.part.place;
    let parent = input.plans.parent_of(number);
    let descent = Descent {
        number,
        parent,
        place,
    };
    let faults = lists.faults.as_slice();
    let asked = runs.buffers.trace();
    let children = &mut growth.children;
    let growing = grow_one(&input.kinds, children, begun, descent, faults, asked)?;
    growth.outcomes.verdicts.push(verdict)?;
    growth.child_count += growing.children as u64;
    raise(&mut growth.outcomes.hits, begun.whole.as_slice());
    let is_again = growing.is_again;
    keep_onward(place, &mut growth.onward, input.plans, number, is_again)?;
    let number = number as u32;
    let ran = Ran {
        rigs,
        number,
        verdict,
    };
    let cause = cause_of(runs, less, target, input, &ran)?;
    keep_cause(&mut growth.outcomes.causes, number, cause)?;
    Ok(())
}

impl Growth {
    /// What no plans come to, over so many points. An error means that memory was refused.
    pub fn none(alloc: Global, points: usize) -> Result<Self, AllocError>
        ensures { IfOk result (λ growth. (t : Subject) (seed : ℕ) (part : Part) (plans : List (List Rig)) (first : ℕ)
            → length t.names ≡ points → IsGrowth t seed part plans first 0 growth) }
    {
        Ok(Growth {
            outcomes: Outcomes::none(alloc, points)?,
            children: Vec::new(alloc),
            child_count: 0,
            onward: Vec::new(alloc),
        })
    }

    /// Runs the plans of these numbers of an input, in their order. An error means that memory was refused. The target keeps its setup, even after an
    /// error.
    pub fn run_over<T: Target>(
        alloc: Global,
        target: &mut T,
        workspace: &mut Workspace,
        input: &GrownRunInput<'_, T>,
        numbers: Range<usize>,
    ) -> Result<Self, AllocError>
        requires within { (numbers.start ≤ numbers.end) × (numbers.end ≤ length input.now.plans.now) }
        requires alike { AskLikeParents (subject_on T.Target target.old input.now) input.now.plans.now }
        ensures grown { IfOk result (λ growth. IsGrowthOn T.Target target.old input.now numbers.start (numbers.end - numbers.start) growth) }
        ensures setup { target.new ≡ target.old }
    {
        let mut growth = Growth::none(alloc, T::catalogue().len())?;
        workspace.begun.forget();
        for number in numbers.start..numbers.end {
            run_one(target, input, workspace, &mut growth, number)?;
        }
        Ok(growth)
    }

    /// Adds what the plans behind these came to. An error means that memory was refused.
    pub fn absorb(&mut self, further: Growth) -> Result<(), AllocError>
        requires room { length self.old.outcomes.verdicts.items + length further.outcomes.verdicts.items ≤ 2 ^ 16 }
        requires hits { length self.old.outcomes.hits.items ≤ length further.outcomes.hits.items }
        ensures grown { OnOk result ((t : Subject) (seed : ℕ) (part : Part) (plans : List (List Rig)) (first count more : ℕ)
            → IsGrowth t seed part plans first count self.old → IsGrowth t seed part plans (first + count) more further
            → IsGrowth t seed part plans first (count + more) self.new) }
    {
        self.outcomes.absorb(&further.outcomes)?;
        self.child_count += further.child_count;
        self.children
            .extend_from_slice(further.children.as_slice())?;
        self.onward.extend_from_slice(further.onward.as_slice())?;
        Ok(())
    }
}
