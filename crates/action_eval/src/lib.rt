//! How the hits of a run are answered under a scenario. A session answers them, a fault table lays out the faults that are rigged for it, and laws
//! say when two scenarios mean the same. What a component does between its hits is no matter of this crate.
#![tactic(auto)]

mod answer;
mod argument;
mod counts;
mod draws;
mod fault_table;
mod found;
mod laws;
mod quiet;
mod replay;
mod rig;
mod session;
mod terms;

pub use answer::{Answer, Note, Stop};
pub use argument::{Argument, MOST_TEXT, is_same_text};
pub use fault_table::{FaultTable, push_chain};
pub use laws::{
    clean_until_a_fault_acts, dropped_faults_never_act, dropped_terms_never_act,
    faults_left_by_tidying, history_of_a_part, keep_of_tidied, keep_then_tidy,
    tidied_without_a_fault, tidy_keeps_meaning,
};
pub use replay::{Answered, history, name_of};
pub use rig::{Kind, MOST_POINTS, MOST_RIGS, Rig, Site, have_lawful_texts};
pub use session::{Session, SessionBuffers};
