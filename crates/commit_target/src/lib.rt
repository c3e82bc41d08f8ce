//! Two-phase commit with presumed abort, as a target, in five variants.
#![tactic(auto)]

mod commit;
mod cut;
mod cut_laws;
mod judge;
mod laws;
mod logs;
mod marked;
mod marks;
mod order;
mod outcomes;
mod play;
mod points;
mod progress;
mod records;
mod script;
mod texts;
mod variant;
mod votes;
mod work;

pub use commit::Commit;
pub use cut_laws::{is_no_weaker, loses_alike, text_of_a_return_changes_nothing};
pub use judge::{LOST, PHANTOM, SPLIT, judge as judge_logs};
pub use laws::{
    a_kept_end_shows_end_first, early_end_is_split, lazy_prepare_is_lost, lazy_prepare_is_split,
    sound_bears_out, sound_never_fails, sound_survives_each_cut, two_tries_is_split,
    yes_is_prepared,
};
pub use logs::Logs;
pub use records::{Kind, Party, Record, Write};
pub use variant::Variant;
pub use work::{Transactions, Vote, Votes};
