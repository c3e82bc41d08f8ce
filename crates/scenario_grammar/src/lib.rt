//! Scenario texts: parsed, with the exact place of the first fault, and printed. A printed scenario is parsed as the same scenario.
//!
//! The values themselves, and everything that needs no text, are in `scenario_values`; they are exported from here too.
#![tactic(auto)]

mod builder;
mod cuts;
mod fault;
mod laws;
mod names;
mod parsing;
mod printing;
mod reading;
mod terms;

pub use cuts::cut_once;
pub use fault::{Kind, ScenarioFault};
pub use laws::{
    faults_tell, first_fault_is_local, percentages_are_read, printed_scenarios_are_read,
    printed_terms_are_read, spelled_terms_are_read, spelled_texts_are_read, terms_read_are_spelled,
    texts_read_are_spelled, texts_spell_one_scenario,
};
pub use names::{is_argument, is_name};
pub use parsing::parse;
pub use printing::{parse_printed, print, write_task, write_term};
pub use scenario_values::{
    Chain, Place, Scenario, Task, Term, Text, are_faults, build, faults, keep, tidy,
};
