//! Minimizing delta debugging, ddmin, after A. Zeller and R. Hildebrandt, "Simplifying and Isolating Failure-Inducing Input" (2002): which of some
//! faults make a test fail, with none that could be left out. Faults are numbers from 0, at most 4,096 of them. What a fault is, and what a test
//! does, is no matter of this crate.
//!
//! The result is one value, `ddmin` of the test and the number of faults (`specs/Ddmin`, over the rounds of `specs/Rounds`): the set that is kept,
//! and how many sets the recursion looks at. The contract of each call below is about that value:
//!
//! - `reduce_plain` is the recursion on one thread: it asks a probe, set after set, repeats included. The laws `one_minimal` and
//!   `kept_is_sublist` say what is kept.
//! - A `Core` hands out sets as requests, and takes their answers in any order, also those of requests ahead of its present round. It is the replay
//!   of its events (`specs/CoreEvents`): what is known, which sets are out, and the furthest position of the recursion to which the known answers
//!   alone lead. `finished` gives a result if that is the end; by the law `known_answers_decide` it is then `ddmin` of every test that agrees with
//!   the answers.
//! - A `Board` is a core with the list of its events (`specs/Logs`). By the law `events_decide` the list decides the result, in whatever order its
//!   answers came.
//! - `reduce_by_core` asks a probe for the requests of a core, one after the other, on one thread. It doesn't ask again what is known.
//! - `reduce` has a thread for each worker, which takes requests of one board under a lock and asks its probe outside the lock. After the joins the
//!   answers on the board are compared with those that the workers had from their probes. The caller's thread goes on from the board, or from the
//!   start if one of the answers were no probe's own. So the result rests on the probes' answers, and not on the order of the threads or on what was
//!   done under the lock.
//!
//! Only tests show that several threads work at once, and that a waiting worker is woken.
#![tactic(auto)]

mod attempts;
mod board;
mod by_core;
mod fault_set;
mod heard;
mod known;
mod laws;
mod merge;
mod open;
mod plain;
mod probe;
mod reducer_core;
mod reduction;
mod sets;
mod stage;
mod workers;

pub use board::{Board, Event};
pub use by_core::reduce_by_core;
pub use fault_set::{FaultSet, Run};
pub use laws::{
    ahead_rows, ddmin2_is_its_rule, events_decide, failing_empty_set_keeps_nothing,
    kept_is_sublist, kept_set_fails, known_answers_decide, known_answers_pass_through, known_rows,
    one_minimal, requests_are_open, some_request_comes,
};
pub use plain::reduce_plain;
pub use probe::Probe;
pub use reducer_core::{Core, RequestFault, TestRequest};
pub use reduction::Reduction;
pub use workers::reduce;
