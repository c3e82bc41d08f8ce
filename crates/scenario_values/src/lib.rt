//! Scenarios as values: names with chains of terms, the faults among these, and scenarios with fewer faults; and text in chunks. How a text spells a
//! scenario is no matter of this crate.
#![tactic(auto)]

mod building;
mod chain;
mod chunked;
mod found;
mod keeping;
mod laws;
mod numbering;
mod place;
mod scenario;
mod term;
mod text;
mod tidying;

pub use building::build;
pub use chain::Chain;
pub use chunked::Chunks;
pub use keeping::{are_faults, keep};
pub use laws::{
    faults_are_counted, faults_follow_their_origins, keeping_again_is_keeping_a_part,
    keeping_all_changes_nothing, kept_faults_are_the_faults, sets_of_faults,
    tidied_faults_have_origins,
};
pub use numbering::faults;
pub use place::Place;
pub use scenario::Scenario;
pub use term::{FULL_SHARE, Task, Term, is_off};
pub use text::Text;
pub use tidying::tidy;
