//! Tickets on stealing workers: each number below a count is performed once, by any number of workers. What performing a number does is no matter of
//! this crate.
#![tactic(auto)]

mod active;
mod apart;
mod buffers;
mod finish;
mod job;
mod laws;
mod pool;
mod queue;
mod ring;
mod rule;
mod run;
mod steps;
mod ticket;
mod work;
mod worker;

pub use job::Job;
pub use laws::tickets_are_kept;
pub use pool::{Gathered, PoolFault, run_all};
pub use ticket::Ticket;
pub use worker::Worker;
