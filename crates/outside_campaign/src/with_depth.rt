//! Campaigns with a depth on a component that somebody else runs: what is still to be tried, the report and the interim report, by the recorded runs and
//! their hits; and one recorded run hit by hit, with or without a depth.

mod candidates;
mod explaining;
mod fault;
mod grown;
mod grown_asks;
mod kinds;
mod laws;
mod partial;
mod reading;
mod reporting;
mod table;

pub use explaining::{Explained, explained_text};
pub use fault::QuestionFault;
pub use grown::{all_plans, known_plans, verdicts_of};
pub(crate) use grown_asks::grown_lines;
pub use laws::kinds_of_settings_can_be_tried;
pub(crate) use partial::grown_partial;
pub use reading::ReadRuns;
pub(crate) use reporting::grown_report;
