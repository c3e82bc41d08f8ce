//! The queue of a worker: its own deque, and a pass at the next worker's.
ghost use Rattle.std.specs.Prelude.{◌≡◌, ◌<◌};
ghost use Rattle.crossbeam_deque.specs.Handles.{view, IsPassOf, stealer_deque, worker_flavor, worker_view};

use crate::rule::{Owner, StealPass, Thief};
use crate::ticket::Ticket;

/// The thief's pass at a deque.
#[derive(Drop)]
pub struct Next {
    pub from: Thief,
    pub pass: StealPass,
    pub ghost table: { IsPassOf (stealer_deque from) pass },
    pub ghost right: { 0 < (view pass).steal_right },
}

/// A worker's own deque; the thief's pass at the next worker's deque, if there is one; and the ticket that it kept if memory was refused.
#[derive(Drop)]
pub struct LocalQueue {
    pub own: Owner,
    pub next: Option<Next>,
    pub kept: Option<Ticket>,
    pub ghost fifo: { worker_flavor own ≡ 0 },
    pub ghost right: { 0 < (worker_view own).pop_right },
}
