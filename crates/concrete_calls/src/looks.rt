//! The calls that look for what is wrong in a target that isn't proved.
ghost use Rattle.std.specs.Prelude.{◌≡◌, None, IfOk};

use campaign_core::{BrokenLaw, broken_law, first_broken_law};
use example_target::{Amount, Transfer};
use std::alloc::{AllocError, Global};

/// A law that a run breaks.
pub fn law_that_a_transfer_breaks(
    alloc: Global,
    transfer: &Transfer,
    amount: &Amount,
) -> Result<Option<BrokenLaw>, AllocError>
    ensures { IfOk result (λ law. law ≡ None) }
{
    broken_law(alloc, transfer, amount, 0, 10)
}

/// The same for a transfer as a candidate, of which only the runs are known.
pub fn law_that_a_candidate_breaks(
    alloc: Global,
    transfer: &mut Transfer,
    amount: &Amount,
) -> Result<Option<BrokenLaw>, AllocError> {
    first_broken_law(alloc, transfer, amount, 0, 10)
}
