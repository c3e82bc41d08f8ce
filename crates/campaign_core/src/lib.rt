//! What is done with a target: a campaign is run and reported, its plans are listed, and one scenario is tried, explained or reduced. Each writes one
//! text to a sink. Besides, what a report with a depth promises, and whether a target that isn't proved keeps a target's laws, as far as runs show it.
#![tactic(auto)]

mod ending;
mod explaining;
mod laws;
mod listing;
mod planned;
mod probe;
mod promises;
mod ran;
mod reducing;
mod reporting;
mod results;
mod runner;
mod running;
mod showing;
mod subject;
mod target_laws;
mod trying;
mod watching;
mod workers;
mod written;

pub use ending::{CampaignFault, Ending};
pub use explaining::{ToExplain, explain_one};
pub use grown_runs::fails_with;
pub use laws::{each_behaviour_is_tried, reduced_scenarios_are_minimal, workers_change_nothing};
pub use listing::{plan_list, plan_scenario, plans_text};
pub use planned::{Planned, plan_campaign, plans_of};
pub use probe::fault_count;
pub use promises::{
    a_plan_plays_its_behaviour, a_scenario_plays_a_behaviour, no_made_up_fact_is_told,
    no_made_up_run_is_told,
};
pub use ran::{Ran, run_campaign};
pub use reducing::reduce_one;
pub use reporting::causes_of;
pub use results::Results;
pub use running::{campaign, write_campaign};
pub use subject::{Host, Subject};
pub use target_laws::{BrokenLaw, Candidate, CatalogueFault, Looked, broken_law, first_broken_law};
pub use trying::try_one;
pub use written::write_judged;
