//! What a text of settings gives.

use crate::choice::Choice;
use campaign_given::CampaignSettings;

/// The target that settings name, and the settings of its campaign.
#[derive(Drop)]
pub struct Settings {
    pub choice: Choice,
    pub campaign: CampaignSettings,
}
