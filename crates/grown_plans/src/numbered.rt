//! The plans of a campaign by their numbers: those that a census gives, or those that grew, with storms and listed scenarios behind them. It makes
//! and rigs plans, and runs none of them.

mod grown;
mod lists;
mod plans;
mod rigger;

pub use lists::RigLists;
pub use plans::{CampaignPlan, CampaignPlans};
pub use rigger::CampaignRigger;
