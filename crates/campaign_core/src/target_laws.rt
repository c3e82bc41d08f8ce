//! Whether a target that isn't proved keeps a target's laws, as far as runs show it. A proved target keeps them all.

mod broken;
mod candidate;
mod catalogue;
mod trial;

pub use broken::{BrokenLaw, broken_law, first_broken_law};
pub use candidate::{Candidate, Looked};
pub use catalogue::CatalogueFault;
