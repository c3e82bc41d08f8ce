//! The census of a target, by either way.
ghost use Rattle.std.specs.Prelude.{◌≡◌, IfOk};
ghost use Rattle.plan_gen.specs.Census.{census_of};
ghost use Rattle.example_target.specs.Steps.{asks_of, point_names};

use example_target::{Amount, Transfer};
use plan_gen::{Census, by_census, by_loop};
use std::alloc::{AllocError, Global};

/// By one run without faults.
pub fn census_of_a_transfer(
    alloc: Global,
    transfer: &mut Transfer,
    amount: &Amount,
) -> Result<Census, AllocError>
    ensures { IfOk result (λ census. census.counts.items ≡ census_of (asks_of transfer.old amount.now.cents) point_names 0 10) }
{
    by_census(alloc, transfer, amount, 0, 10)
}

/// By runs with one fault, until one isn't met.
pub fn looped_census_of_a_transfer(
    alloc: Global,
    transfer: &mut Transfer,
    amount: &Amount,
) -> Result<Census, AllocError>
    ensures { IfOk result (λ census. census.counts.items ≡ census_of (asks_of transfer.old amount.now.cents) point_names 0 10) }
{
    by_loop(alloc, transfer, amount, 0, 10, true)
}
