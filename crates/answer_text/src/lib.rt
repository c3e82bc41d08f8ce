//! The answers of a component that somebody else runs: a text of verdicts, scenarios and hits, read with the exact line of its first fault, and the
//! recorded run of each scenario.
#![tactic(auto)]

mod cuts;
mod fault;
mod hits;
mod laws;
mod line;
mod names;
mod reading;
mod runs;
mod tidying;
mod verdicts;

pub use cuts::cut_line;
pub use fault::{AnswersFault, LineError, LineFault};
pub use hits::{Hits, MOST_HITS, Stretch, hits_in};
pub use laws::{
    contradictions_agree_with_no_component, texts_say_what_is_read, tidying_again_changes_nothing,
};
pub use line::run_in;
pub use names::PointNames;
pub use reading::{LIMIT, read, read_runs};
pub use runs::{RunLine, Runs, Stranger, ToldRun};
pub use tidying::tidied_from;
