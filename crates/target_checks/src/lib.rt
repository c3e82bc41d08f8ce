//! What tests of targets share: a run under a scenario's text, whether a target keeps its promise under each single fault, a small workload for the
//! replacement of a file, a writer that goes wrong, a gate that counts arrivals, and a wait for another thread that ends.
#![tactic(auto)]

mod arrivals;
mod outcomes;
mod singles;
mod small;
mod waits;
mod writers;

pub use arrivals::Arrivals;
pub use outcomes::outcome_of;
pub use singles::first_failure;
pub use small::small_workload;
pub use waits::comes_to;
pub use writers::{Narrow, Trouble};
