//! A list of plans that grow.
ghost use Rattle.std.specs.Prelude.{◌≡◌, ◌<◌, ◌≤◌, ◌-◌, ◌++◌, ◌∷◌, [], List, true, false, length, map, slice_index_or, OnOk, OnErr, MatchOption};
ghost use Rattle.action_eval.specs.declared.rig.Rig.{Rig};
ghost use Rattle.grown_plans.specs.AskedPoints.{from_then_on, is_last_return};
ghost use Rattle.grown_plans.specs.Kept.{GrewFrom, plan_of};

use crate::child::Child;
use action_eval::{Kind, Rig};
use std::alloc::{AllocError, Global};
use std::marker::Model;

/// Plans that grow from each other's runs: the plan without faults, and others, each of which has one fault more than a plan before it. A plan's
/// number is its place, from 0. Contracts see the list of the plans, each as the list of its faults, with the one that acts last first.
///
/// It keeps 44 bytes for each plan.
#[derive(Debug, Drop)]
pub struct GrownPlans {
    children: Vec<Child>,
}

impl Model for GrownPlans {
    ghost use Rattle.std.specs.Prelude.{List, [], ◌∷◌};
    ghost use Rattle.action_eval.specs.declared.rig.Rig.{Rig};
    ghost use Rattle.grown_plans.specs.Kept.{plans_from};
    ghost use Rattle.grown_plans.specs.inside.Numbered.{AreBefore};

    ghost Value = { List (List Rig) };

    ghost view = { λ p. plans_from ([] ∷ []) p.children.items };

    ghost invariant = { λ p. AreBefore 1 p.children.items };
}

impl GrownPlans {
    /// The plan without faults alone.
    pub fn new(alloc: Global) -> Self
        ensures { result ≡ [] ∷ [] }
    {
        GrownPlans {
            children: Vec::new(alloc),
        }
    }

    /// How many plans there are.
    pub fn len(&self) -> usize
        ensures { result ≡ length self.now }
    {
        self.children.len() + 1
    }

    /// Adds plans that grew from plans that are there. An error means that memory was refused; none is added then.
    pub fn add(&mut self, children: &[Child]) -> Result<(), AllocError>
        requires { GrewFrom (length self.old) children.now }
        ensures ok { OnOk result (self.new ≡ self.old ++ map (plan_of self.old) children.now) }
        ensures err { OnErr result (self.new ≡ self.old) }
    {
        self.children.extend_from_slice(children)
    }

    /// Puts the faults of the plan of this number into the list, the one that acts last first, in place of what stood there. An error means that
    /// memory was refused.
    pub fn faults_of(&self, number: usize, faults: &mut Vec<Rig>) -> Result<(), AllocError>
        requires { number < length self.now }
        ensures { OnOk result (faults.new.items ≡ slice_index_or self.now number []) }
    {
        faults.clear();
        let mut number = number;
        while number > 0 {
            let child = self.children[number - 1];
            let Rig { site, kind } = child.fault();
            faults.push(Rig { site, kind })?;
            number = child.parent();
        }
        Ok(())
    }

    /// The number of the plan from which the plan of this number grew, which stands before it. For the plan without faults, which grew from none, it
    /// is 0.
    pub fn parent_of(&self, number: usize) -> usize
        requires { number < length self.now }
        ensures before { result ≤ number - 1 }
        ensures grew { (r : Rig) (rs : List Rig) → slice_index_or self.now number [] ≡ r ∷ rs → slice_index_or self.now result [] ≡ rs }
    {
        let children = &self.children;
        if number == 0 {
            return 0;
        }
        let child = children[number - 1];
        child.parent()
    }

    /// The plan of this number with its last fault sticky, as it is kept. `None` if that fault isn't a return, or the plan has no fault.
    pub fn from_then_on(&self, number: usize) -> Option<Child>
        requires { number < length self.now }
        ensures { MatchOption result (is_last_return (slice_index_or self.now number []) ≡ false)
            (λ child. (is_last_return (slice_index_or self.now number []) ≡ true) × (child.parent < length self.now)
            × (plan_of self.now child ≡ from_then_on (slice_index_or self.now number []))) }
    {
        let children = &self.children;
        if number == 0 {
            return None;
        }
        let child = children[number - 1];
        match child.fault().kind {
            Kind::OnceReturn(_) => Some(child.from_then_on()),
            Kind::OnwardReturn(_) | Kind::OncePanic => None,
        }
    }
}
