//! The work of an active worker, in a thread of its own.
ghost use Rattle.std.specs.Prelude.{◌≡◌, IsTrue, None};
ghost use Rattle.worker_pool.specs.inside.Queues.{IsReady};
ghost use Rattle.worker_pool.specs.inside.ActiveWorkers.{IsReadyAt, Worked, WorkedAt};

use crate::active::ActiveWorker;
use crate::job::Job;
use crate::queue::LocalQueue;
use std::sync::Wait;
use work_gate::{Gate, Phase};

/// Performs what the worker's queue gives it. If memory is refused, the ticket stays at the queue, and the worker leaves.
pub fn work<J: Job, G: Gate, R: Wait>(rt: &R, gate: &G, active: &mut ActiveWorker<J>)
    requires { IsReadyAt (J.limit (J.setup active.old.worker.job)) active.old.queue }
    ensures { WorkedAt J.setup J.limit J.answers active.old active.new active.old.queue active.new.queue }
{
    let Some(mut queue) = active.queue.take() else {
        return;
    };
    work_at(rt, gate, active, &mut queue);
    active.queue = Some(queue);
}

// It is a function of its own, since a loop over a local queue loses the queue's ghost fields.
fn work_at<J: Job, G: Gate, R: Wait>(
    rt: &R,
    gate: &G,
    active: &mut ActiveWorker<J>,
    queue: &mut LocalQueue,
)
    requires { IsReady (J.limit (J.setup active.old.worker.job)) queue.old }
    ensures { Worked J.setup J.limit J.answers active.old active.new queue.old queue.new }
{
    for _ in rt.forever() {
        if !turn(rt, gate, active, queue) {
            break;
        }
    }
}

// Performs one ticket. False if there is none, or if memory is refused: then the ticket stays at the queue.
fn turn<J: Job, G: Gate, R: Wait>(
    rt: &R,
    gate: &G,
    active: &mut ActiveWorker<J>,
    queue: &mut LocalQueue,
) -> bool
    requires { IsReady (J.limit (J.setup active.old.worker.job)) queue.old }
    ensures worked { Worked J.setup J.limit J.answers active.old active.new queue.old queue.new }
    ensures going { IsTrue result → queue.new.kept ≡ None }
{
    if active.make_room().is_err() {
        return false;
    }
    let Some(ticket) = queue.find(rt) else {
        return false;
    };
    gate.arrive(Phase::Plans, ticket.number());
    match active.perform(ticket) {
        Ok(()) => true,
        Err(ticket) => {
            queue.kept = Some(ticket);
            false
        }
    }
}
