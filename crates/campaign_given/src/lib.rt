//! The settings of a campaign as values, whatever it runs, and the description of a component that somebody else runs. How a text spells them is no
//! matter of this crate.
#![tactic(auto)]

mod outside;
mod settings;

pub use outside::{Outside, TriedFault, TriedFaults};
pub use settings::{
    CRASH_STATES_IF_MISSING, CampaignSettings, MAX_HITS_IF_MISSING, PAIRS_IF_MISSING,
    RATE_IF_MISSING, SEED_IF_MISSING, STORMS_IF_MISSING, WORKERS_IF_MISSING,
};
