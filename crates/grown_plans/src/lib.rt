//! Plans that grow from the hits of each other's runs, and the plans of a campaign by their numbers: what they are, and what a campaign of plans that
//! grow promises. Those of a campaign are given by a census or grew, with storms and listed scenarios behind them.
#![tactic(auto)]

mod begun;
mod child;
mod counts;
mod growing;
mod grown_list;
mod kinds;
mod laws;
mod list;
mod numbered;
mod rigs;

pub use begun::{Begun, Growing, count_children};
pub use child::Child;
pub use growing::add_children;
pub use grown_list::{GrownLevels, GrownList};
pub use kinds::Kinds;
pub use laws::{
    an_empty_level_makes_it_whole, each_failure_has_a_cause, each_plan_can_be_rigged,
    each_plan_grows_by_what_was_asked, each_plan_keeps_its_parents_prefix, each_plan_needs_no_seed,
    each_run_asks_like_its_parents, each_run_is_told_by_what_was_asked,
    each_target_is_a_lawful_subject, faults_from_then_on_are_tried,
    first_failures_have_least_faults, listed_kinds_can_be_tried, nothing_is_run_twice,
    nothing_is_skipped,
};
pub use list::GrownPlans;
pub use numbered::{CampaignPlan, CampaignPlans, CampaignRigger, RigLists};
pub use rigs::rigs_of;
