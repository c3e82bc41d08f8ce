//! A write-ahead journal, as a target that is given by a table of its steps, in four variants: the one that docs/OWN_TARGET.md builds.
#![tactic(auto)]

mod file;
mod frame;
mod journal;
mod judge;
mod laws;
mod progress;
mod scan;
mod step;
mod variant;
mod work;

pub use journal::Journal;
pub use judge::{LOST, TORN};
pub use laws::{a_kept_commit_record_shows_one_sync, sound_survives_each_cut};
pub use progress::Progress;
pub use variant::Variant;
pub use work::{Records, Transactions};
