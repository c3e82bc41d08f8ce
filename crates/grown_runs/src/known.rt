//! A table of recorded runs: which plans they make known, and which other scenarios' verdicts follow from them.

mod growing;
mod laws;
mod table;
mod walking;

pub use growing::{ToldList, known_plans};
pub use laws::{
    each_plan_is_to_be_run_once, known_runs_tell_others, nothing_is_skipped_as_far_as_seen,
    nothing_to_run_is_the_whole_list,
};
pub use table::{Look, RunTable, look_up, read_found};
pub use walking::{plan_of, verdict_of};
