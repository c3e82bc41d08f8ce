//! One run, shown hit by hit: what was done at each hit, what stopped the run, and which faults never acted.

mod by_answer;
mod ends;
mod hits;
mod idle;
mod printing;
mod tales;
mod telling;
mod told;

pub use by_answer::{RunByAnswer, explain_answer, has_idle, tell_answer};
pub use ends::{MadeRun, NoEnd, RunEnd};
pub use tales::ToldEnd;
pub use telling::{Explained, explain};
pub use told::{ToldRun, tell};
