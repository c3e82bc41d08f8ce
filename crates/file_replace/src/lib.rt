//! Atomic replacement of a file, as a target, in six variants.
#![tactic(auto)]

mod contents;
mod cut_laws;
mod disk;
mod judge;
mod laws;
mod play;
mod progress;
mod replace;
mod rest;
mod stage;
mod steps;
mod texts;
mod variant;
mod work;

pub use cut_laws::{is_no_weaker, loses_alike, text_of_a_return_changes_nothing};
pub use judge::{STALE, TORN};
pub use laws::{
    a_kept_rename_shows_late_sync, a_kept_rename_shows_rename_first, a_kept_unlink_shows_in_place,
    ignore_sync_is_stale, late_sync_is_torn, retry_write_is_torn, sound_never_fails,
    sound_survives_each_cut,
};
pub use play::play as play_on;
pub use replace::Replace;
pub use scenario_values::Chunks;
pub use variant::Variant;
pub use work::Replacements;
