//! What is the same for all steps of a run.
use crate::variant::Variant;
use crate::work::Transactions;

/// What a run plays: a variant of the protocol, on a workload. Each of its steps is given both, and changes neither.
#[derive(Clone, Copy)]
pub struct Script<'w> {
    pub variant: Variant,
    pub workload: &'w Transactions,
}
