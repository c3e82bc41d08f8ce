//! Runs of plans that grow: those that workers make, in ranges, and those that a table has recorded, with what grows from them.
#![tactic(auto)]

mod causes;
mod grower;
mod growth;
mod input;
mod kept;
mod known;
mod levels;
mod outcomes;
mod parts;
mod ranges;
mod rigged;

pub use causes::{fails_with, leave_out};
pub use input::Limits;
pub use known::{
    Look, RunTable, ToldList, each_plan_is_to_be_run_once, known_plans, known_runs_tell_others,
    look_up, nothing_is_skipped_as_far_as_seen, nothing_to_run_is_the_whole_list, plan_of,
    read_found, verdict_of,
};
pub use levels::{Grown, grow, grow_list};
pub use parts::Conditions;
pub use ranges::{RangeGate, answers_of, ended_of, range_bounds, range_count, ranges_in_order};
