//! Campaigns on components that somebody else runs, with a depth or without, by what is recorded of their runs: what is still to be tried, the report,
//! and the interim report.
#![tactic(auto)]

mod answers;
mod asking;
mod campaign;
mod findings;
mod laws;
mod partial;
mod planned;
mod recorded;
mod reduction;
mod refusal;
mod reporting;
mod results;
mod table;
mod teller;
mod telling;
mod unmet;
mod verdicts;
mod with_depth;

pub use answers::read_answers;
pub use campaign::OutsideCampaign;
pub use findings::{Findings, findings_known};
pub use laws::{
    known_failures_are_first, nothing_is_asked_where_nothing_is_to_be_tried,
    reductions_come_to_what_is_asked, what_is_asked_is_unanswered,
};
pub use planned::{borrowed, list_plans, planned as outside_plans};
pub use recorded::Recorded;
pub use refusal::OutsideFault;
pub use table::VerdictTable;
pub use teller::AnswerTeller;
pub use telling::{Words, first_number};
pub use unmet::count_unmet;
pub use verdicts::{Verdicts, plan_verdicts, verdicts_known};
pub use with_depth::{
    Explained, QuestionFault, ReadRuns, all_plans, explained_text, kinds_of_settings_can_be_tried,
    known_plans, verdicts_of,
};
