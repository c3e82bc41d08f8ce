//! What all runs of a campaign share.

use campaign_given::CampaignSettings;
use grown_plans::CampaignPlans;
use target_trait::Target;

/// A workload and plans, the settings that say under which seed and limit they run, and the points that are watched. Runs on any thread borrow it.
#[derive(Drop)]
pub struct RunInput<'a, T: Target> {
    pub workload: &'a T::Workload,
    pub settings: &'a CampaignSettings,
    pub plans: &'a CampaignPlans<'a>,
    /// The numbers of the points of which it is noted whether a run asks them. The list is empty if nobody wants to know.
    pub watched: &'a [u32],
}
