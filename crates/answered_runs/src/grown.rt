//! Campaigns with a depth on components that somebody else runs, by recorded runs: the list of plans, what is still to be tried, the most hits of
//! each point, and which plans are causes.

mod asking;
mod causing;
mod further;
mod listing;
mod reaching;

pub use asking::asks;
pub use causing::{Causes, known_causes};
pub use further::{census, further_plans};
pub use listing::further_behind;
pub use reaching::reached;
