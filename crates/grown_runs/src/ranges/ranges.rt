//! Ranges of plans, each of which is one ticket of the pool.
ghost use Rattle.std.specs.Prelude.{◌≡◌, ◌+◌, ◌≤◌};
ghost use Rattle.grown_runs.specs.ranges.Ranges.{range_count, range_size, range_start};

use work_gate::{Ended, Gate, Phase, Stage};

/// How many plans a range has. A range of many plans takes less memory than its plans one by one, and less time after all have run. If there are few
/// plans, ranges of one keep all workers busy to the end.
fn range_size(plans: u32) -> u32
    ensures { result ≡ range_size plans }
{
    if plans <= 1024 {
        1
    } else if plans <= 16384 {
        16
    } else {
        64
    }
}

/// How many ranges so many plans make. The last range may be shorter than the others.
pub fn range_count(plans: u32) -> u32
    ensures { result ≡ range_count plans }
{
    plans.div_ceil(range_size(plans))
}

/// The first plan of a range, from 0, and the number before which it ends, if there are so many plans. A range past the last one has no plan.
pub fn range_bounds(plans: u32, range: u32) -> (u32, u32)
    ensures first { result.0 ≡ range_start plans range }
    ensures end { result.1 ≡ range_start plans (range + 1) }
    ensures within { (result.0 ≤ result.1) × (result.1 ≤ plans) }
{
    let size = range_size(plans);
    let first = range.saturating_mul(size).min(plans);
    (first, first.saturating_add(size).min(plans))
}

/// A gate for workers that take ranges. With a range a worker arrives at the real gate with each of its plans, in their order, before it runs the
/// first of them.
#[derive(Drop)]
pub struct RangeGate<'a, G: Gate> {
    pub gate: &'a G,
    /// The number of the first plan.
    pub first: u32,
    /// How many plans there are.
    pub plans: u32,
}

impl<'a, G: Gate> Gate for RangeGate<'a, G> {
    fn arrive(&self, phase: Phase, number: u32) {
        match phase {
            Phase::Plans => {
                let (first, end) = range_bounds(self.plans, number);
                for plan in first..end {
                    self.gate
                        .arrive(Phase::Plans, self.first.saturating_add(plan));
                }
            }
            Phase::Requests => self.gate.arrive(Phase::Requests, number),
        }
    }

    fn expect(&self, stage: Stage, count: u32) {
        self.gate.expect(stage, count);
    }

    fn is_watched(&self) -> bool {
        self.gate.is_watched()
    }

    fn ended(&self, ended: Ended) {
        self.gate.ended(ended);
    }
}
