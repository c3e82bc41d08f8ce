//! What a target is, the outcome of a case on it, laws of its runs with their power cut, and the sink to which a text is written. How plans and reports
//! are made is no matter of this crate.
#![tactic(auto)]

mod case;
mod crash;
mod cut_laws;
mod judgement;
mod laws;
mod output;
mod protocol;
mod rigged;
mod target;
mod telling;

pub use action_eval::{Answer, Note, Session, Stop};
pub use case::{Case, Outcome, run_case, run_session, run_verdict, session_of};
pub use crash::{CrashProtocol, CrashTarget, WithCut, ask_cut};
pub use cut_laws::{
    each_kept_set_has_a_scenario, nothing_is_weaker, these_lose_alike, these_pass_over_texts,
};
pub use judgement::{Judgement, Verdict};
pub use laws::{
    cut_asks_after_the_target, same_meaning_same_outcome, unknown_ends_are_unresolved,
    verdict_of_outcome,
};
pub use output::{Out, Sink};
pub use protocol::{ByTable, Protocol};
pub use rigged::{RiggedRuns, RunSettings};
pub use target::Target;
pub use telling::{Tale, TellingProtocol, TellingTarget};
