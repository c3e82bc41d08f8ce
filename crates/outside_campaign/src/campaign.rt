//! What the calls over a component that somebody else runs take.

use campaign_given::{CampaignSettings, Outside};

/// A campaign on a component that somebody else runs: the component, as the settings describe it, and the campaign's settings.
#[derive(Drop)]
pub struct OutsideCampaign<'a> {
    pub outside: &'a Outside,
    pub settings: &'a CampaignSettings,
}
