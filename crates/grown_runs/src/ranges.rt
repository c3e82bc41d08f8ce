//! Plans dealt to workers in ranges, and what the workers answer, in the order of the ranges.

mod answers;
mod ended;
mod ranges;

pub use answers::{answers_of, ranges_in_order};
pub use ended::ended_of;
pub use ranges::{RangeGate, range_bounds, range_count};
