//! Reports: the facts in them, their texts in each form, the runs that they show, and how a text is written to a sink. How the facts are found is no
//! matter of this crate.
#![tactic(auto)]

mod brief;
mod counts;
mod explained;
mod facts;
mod forms;
mod growing;
mod json_form;
mod junit_form;
mod lines;
mod names;
mod verdicts;
mod writing;

pub use brief::brief_text;
pub use counts::{failures, passing, unresolved};
pub use explained::{
    Explained, MadeRun, NoEnd, RunByAnswer, RunEnd, ToldEnd, ToldRun, explain, explain_answer,
    has_idle, tell, tell_answer,
};
pub use facts::{Cause, Finding, Growth, JudgedPlan, Report};
pub use forms::{Form, MOST_HITS_SHOWN, Teller, text_in};
pub use json_form::{Appendix, Notes, Runs, Shown, ShownRun, json_text};
pub use junit_form::junit_text;
pub use lines::{text, write_scenario};
pub use names::Names;
pub use verdicts::{is_fail, write_verdict};
pub use writing::{WriteFault, write_report};
