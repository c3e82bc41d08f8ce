//! What all runs of a part of a list share.
ghost use Rattle.std.specs.Prelude.{◌≡◌, ℕ, ◌≤◌, ◌<◌, ◌^◌, [], All, length, slice_index_or};
ghost use Rattle.std.proofs.Props.{props};
ghost use Rattle.action_eval.specs.RiggedScenario.{most_rigs, HasLawfulText};
ghost use Rattle.grown_plans.specs.GrownPlans.{tried_over, rigs_of};

use grown_plans::{GrownPlans, Kinds};
use target_trait::Target;

/// How plans are run, and how far they grow.
#[derive(Clone, Copy, Debug)]
pub struct Limits {
    /// The seed of the random words of each run.
    pub seed: u64,
    /// After so many hits a run is unresolved.
    pub max_hits: u32,
    /// The most faults that a plan may have, up to 64.
    pub depth: u32,
    /// The most plans that there may be, up to 65536.
    pub most_plans: u32,
    /// How many workers run the plans, 1 or more.
    pub workers: u32,
    ghost depth_high: { depth ≤ 64 },
    ghost plans_high: { most_plans ≤ 65536 },
    ghost workers_low: { 1 ≤ workers },
}

/// What plans are run for.
#[derive(Clone, Copy, Debug, PartialEq, Eq)]
pub enum Purpose {
    /// For the list of plans alone.
    Plans,
    /// For a report too: each plan that fails is tested for whether it is a cause.
    Report,
}

/// The part of a list in which plans stand. It decides what is kept of their runs.
#[derive(Clone, Copy, Debug, PartialEq, Eq)]
pub enum Place {
    /// A level before the last one: the children of its plans are kept.
    Inner,
    /// The last level: the children of its plans are counted, and those of its plans are kept that make another run with their last fault sticky.
    Last,
    /// The plans behind the last level, whose last fault is sticky.
    Onward,
}

/// Which part of a list is run, and what for.
#[derive(Clone, Copy, Debug, PartialEq, Eq)]
pub struct Part {
    pub place: Place,
    pub purpose: Purpose,
}

/// A workload and a part of the plans that have grown so far, and how they are run. Runs on any thread borrow it.
#[derive(Drop)]
pub struct GrownRunInput<'a, T: Target> {
    pub workload: &'a T::Workload,
    pub plans: &'a GrownPlans,
    /// The kinds of faults over the target's catalogue.
    pub kinds: Kinds<'a>,
    pub limits: Limits,
    pub part: Part,
    /// The number of the part's first plan.
    pub first: usize,
    /// The part ends before this number.
    pub end: usize,
    ghost of_target: { kinds ≡ tried_over T.names [] } by { Prim.hlevel props },
    ghost in_order: { first ≤ end },
    ghost within: { end ≤ length plans.now },
    ghost few: { length plans.now ≤ 65536 },
    ghost few_rigs: { (n : ℕ) → n < length plans.now → length (rigs_of (slice_index_or plans.now n [])) ≤ most_rigs },
    ghost small_rigs: { (n : ℕ) → n < length plans.now → All (λ r. r.site.hit < 2 ^ 32) (rigs_of (slice_index_or plans.now n [])) },
    ghost lawful_texts: { (n : ℕ) → n < length plans.now → All (λ r. HasLawfulText r.kind) (rigs_of (slice_index_or plans.now n [])) } by { Prim.hlevel props },
}
