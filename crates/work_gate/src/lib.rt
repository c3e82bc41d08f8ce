//! The gate at which workers arrive before they begin a piece of work. It may hold them, and may show how far the work is; nothing else depends on
//! it.
#![tactic(auto)]

/// What a worker is about to do.
#[derive(Clone, Copy, Debug, PartialEq, Eq)]
pub enum Phase {
    /// To run a plan.
    Plans,
    /// To answer a test request of the reducer.
    Requests,
}

/// A part of a campaign that is about to be run.
#[derive(Clone, Copy, Debug, PartialEq, Eq)]
pub enum Stage {
    /// Plans that are listed before one of them is run: those of the census, storms, and scenarios of the settings.
    Listed,
    /// The plans with this many faults, of a list that grows.
    Level(u32),
    /// The plans with a fault from then on, after the last level.
    Onward,
}

/// What the runs of plans that have ended came to.
#[derive(Clone, Copy, Debug)]
pub struct Ended {
    /// How many plans were run.
    pub plans: u32,
    /// How many of these fail.
    pub failing: u32,
    /// How many plans of the next level grew from these plans.
    pub children: u32,
}

/// A gate at which each worker arrives before it begins a piece of work.
///
/// A gate may wait, as in a test that wants its workers in one order, or show how far the work is. It changes nothing else: it is lent, and no
/// contract names it, so a campaign comes to the same with every gate.
pub trait Gate: Sync {
    /// A worker is about to begin the plan with this number, or the request with this number in the order in which requests were handed out. Both
    /// count from 0.
    fn arrive(&self, phase: Phase, number: u32);

    /// This many plans of this stage are to be run, and none of them has begun. There is no such call for requests: how many a reduction tests is
    /// only known when it ends.
    fn expect(&self, _stage: Stage, _count: u32) {}

    /// Whether the gate wants to hear by `ended` what has ended. If not, workers needn't find that out.
    fn is_watched(&self) -> bool {
        false
    }

    /// Plans of the stage that was expected last have been run, and came to this.
    fn ended(&self, _ended: Ended) {}
}

/// A gate that holds nobody: it returns at once.
#[derive(Clone, Copy, Debug)]
pub struct FreeGate;

impl Gate for FreeGate {
    fn arrive(&self, _phase: Phase, _number: u32) {}
}
