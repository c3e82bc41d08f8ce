//! The result of a reduction.
ghost use Rattle.std.specs.Prelude.{◌≡◌, IfOk};
ghost use Rattle.ddmin_parallel.specs.Ddmin.{Reduced};

use std::alloc::{AllocError, Global};
use std::marker::Model;

/// The result of a reduction.
#[derive(Drop)]
pub struct Reduction {
    /// The faults that are kept: their numbers, in ascending order.
    pub kept: Vec<u32>,
    /// How many sets the recursion looks at, the empty set and repeats included. The count stops at 2^64 - 1.
    pub tests: u64,
}

impl Model for Reduction {
    ghost Value = { Reduced };

    ghost view = { λ r. record { kept = r.kept.items; tests = r.tests } };
}

impl Reduction {
    /// A copy of the result. An error means that memory was refused.
    pub fn copied(&self, alloc: Global) -> Result<Self, AllocError>
        ensures { IfOk result (λ copy. copy ≡ self.now) }
    {
        let kept = Vec::from_slice(alloc, self.kept.as_slice())?;
        Ok(Reduction {
            kept,
            tests: self.tests,
        })
    }
}
