//! What a report of a campaign with a depth promises, over behaviours of its component: hits and their answers. `specs/` has the definitions that a
//! reader of a report has to believe; the laws join them to scenarios and to plans. That each report keeps its promises is proved where reports are
//! made, in `campaign_core`.

mod laws;

pub use laws::{
    a_plan_plays_its_behaviour, a_scenario_plays_a_behaviour, no_made_up_fact_is_told,
    no_made_up_run_is_told,
};
