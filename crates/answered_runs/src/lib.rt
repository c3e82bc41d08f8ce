//! Recorded runs of a component that somebody else runs, as texts of answers have them: the plans that grow from them, what is still to be tried, the
//! verdicts that follow, and the first run that can't be one of the same component.
#![tactic(auto)]

mod asked;
mod broken;
mod certain;
mod contradictions;
mod grown;
mod laws;
mod lines;
mod plan_runs;
mod plans;
mod played;
mod replies;
mod rigged;
mod saying;
mod scenarios;
mod segments;
mod table;
mod told_lines;
mod tree;
mod unseen;
mod verdicts;

pub use asked::AskedLines;
pub use broken::{BrokenRun, Conflict};
pub use contradictions::contradiction;
pub use grown::{Causes, asks, census, further_behind, further_plans, known_causes, reached};
pub use laws::{
    agreeing_lines_have_a_component, answers_tell_plans, answers_tell_verdicts,
    ended_runs_have_a_component,
};
pub use lines::AnswerLines;
pub use plans::KnownPlans;
pub use rigged::rigs_of_scenario;
pub use scenarios::{plan_scenario, rigged_scenario};
pub use table::AnsweredRuns;
