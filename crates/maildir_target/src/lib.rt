//! Maildir delivery, as a target, in five variants.
#![tactic(auto)]

mod attempt;
mod calls;
mod cut_laws;
mod delivery;
mod disk;
mod ended;
mod judge;
mod laws;
mod mailbox;
mod maildir;
mod messages;
mod name;
mod play;
mod points;
mod texts;
mod variant;
mod write;

pub use cut_laws::{is_no_weaker, loses_alike, text_of_a_return_changes_nothing};
pub use judge::{LOST, TORN, judge as judge_mail};
pub use laws::{
    a_kept_link_shows_link_first, a_kept_name_shows_deliver_in_new, append_tmp_is_torn,
    ignore_write_is_torn, link_first_is_torn, sound_never_fails, sound_survives_each_cut,
};
pub use maildir::Maildir;
pub use messages::Messages;
pub use name::{names_are_apart, names_are_told};
pub use variant::Variant;
