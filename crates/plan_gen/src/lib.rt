//! Censuses of a target's points, and the list of plans of faults that a census gives. It makes and rigs plans, and runs none of them.
#![tactic(auto)]

mod census;
mod copies;
mod count;
mod drawing;
mod further;
mod laws;
mod list;
mod looped;
mod names;
mod packed;
mod parts;
mod plan;
mod rigged_scenario;
mod rigger;
mod sites;
mod storms;

pub use census::{Census, by_census, counts_of};
pub use count::MOST_PLANS;
pub use further::further_plans;
pub use laws::{hits_are_answered_as_rigged, plans_rig_hits_in_order};
pub use list::{PlanFault, PlanList, plans};
pub use looped::by_loop;
pub use names::have_same_names;
pub use plan::{Plan, PlanSettings};
pub use rigged_scenario::scenario_of;
pub use rigger::Rigger;
