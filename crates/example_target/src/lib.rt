//! An example of your own target: a transfer between two accounts, which is taken back if the second step is refused.
//!
//! It shows what such a target consists of: a variant as the setup, a workload, a device that only the run sees, two points, a judgement by what the
//! device holds, and what has to be proved.
#![tactic(auto)]

mod transfer;

pub use transfer::{Amount, Care, Transfer};
