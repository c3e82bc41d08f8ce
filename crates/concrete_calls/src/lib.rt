//! The public calls that take a target, a probe or a table of the caller's own, each made once at concrete types. This shows that a caller can meet
//! the call's bounds and what it requires. `paklour` makes none of these calls; programs with a target of their own do.
//!
//! Such a call is proved for every type that keeps its bounds. That there is such a type is shown here, and by nothing else.
#![tactic(auto)]

mod censuses;
mod commands;
mod looks;
mod reductions;

pub use censuses::{census_of_a_transfer, looped_census_of_a_transfer};
pub use commands::{journal_is_cut, transfer_is_performed};
pub use looks::{law_that_a_candidate_breaks, law_that_a_transfer_breaks};
pub use reductions::{Pair, reduced_by_a_core, reduced_by_workers, reduced_plainly};
