//! What the caller's thread does after the joins.
ghost use Rattle.std.specs.Prelude.{◌≡◌, ◌≢◌, ℕ, ◌+◌, ◌<◌, Bool, [], ◌∷◌, None, All, OnOk, Ok, false, count_by, vec_len, slice_index_or};
ghost use Rattle.worker_pool.specs.declared.queue.LocalQueue.{LocalQueue};
ghost use Rattle.worker_pool.specs.inside.Queues.{kept_by, KeptBelow, SameButKept};
ghost use Rattle.worker_pool.specs.inside.Ring.{IsDone, pushed_by, gone_by};
ghost use Rattle.worker_pool.specs.inside.ActiveWorkers.{answered_by, EachQueue, EachFinishes, Finishes, GoesOn, IsLeft};

use crate::active::ActiveWorker;
use crate::job::Job;
use crate::queue::LocalQueue;
use crate::ticket::Ticket;
use std::alloc::AllocError;
use std::sync::Wait;

/// Performs one ticket, or keeps it if memory is refused.
fn perform_one<J: Job>(
    active: &mut ActiveWorker<J>,
    queue: &mut LocalQueue,
    ticket: Ticket,
) -> Result<(), AllocError>
    requires limit { ticket < J.limit (J.setup active.old.worker.job) }
    ensures on { GoesOn J.setup J.answers active.old active.new }
    ensures queue { SameButKept queue.old queue.new }
    ensures once { queue.old.kept ≡ None → (test : ℕ → Bool)
        → answered_by test active.new + kept_by test queue.new ≡ answered_by test active.old + count_by test (ticket ∷ []) }
    ensures kept { OnOk result (queue.new.kept ≡ queue.old.kept) }
{
    if active.make_room().is_err() {
        queue.kept = Some(ticket);
        return Err(AllocError);
    }
    match active.perform(ticket) {
        Ok(()) => Ok(()),
        Err(ticket) => {
            queue.kept = Some(ticket);
            Err(AllocError)
        }
    }
}

/// Performs the ticket that a worker kept.
fn finish_kept<J: Job>(
    active: &mut ActiveWorker<J>,
    queue: &mut LocalQueue,
) -> Result<(), AllocError>
    requires below { KeptBelow (J.limit (J.setup active.old.worker.job)) queue.old }
    ensures on { GoesOn J.setup J.answers active.old active.new }
    ensures queue { SameButKept queue.old queue.new }
    ensures once { (test : ℕ → Bool)
        → answered_by test active.new + kept_by test queue.new ≡ answered_by test active.old + kept_by test queue.old }
    ensures kept { OnOk result (queue.new.kept ≡ None) }
{
    let Some(ticket) = queue.kept.take() else {
        return Ok(());
    };
    perform_one(active, queue, ticket)
}

/// Performs one ticket of the deque. False if the deque is empty; then everything that was pushed was taken.
fn finish_turn<J: Job>(
    active: &mut ActiveWorker<J>,
    queue: &mut LocalQueue,
) -> Result<bool, AllocError>
    requires left { IsLeft (J.limit (J.setup active.old.worker.job)) queue.old }
    requires kept { queue.old.kept ≡ None }
    ensures finishes { Finishes J.setup J.answers active.old active.new queue.old queue.new }
    ensures kept { OnOk result (queue.new.kept ≡ None) }
    ensures end { result ≡ Ok false → (test : ℕ → Bool) → pushed_by test queue.new ≡ gone_by test queue.new }
{
    let Some(ticket) = queue.pop() else {
        return Ok(false);
    };
    perform_one(active, queue, ticket)?;
    Ok(true)
}

/// Performs the tickets of a queue's deque, until it is empty or memory is refused.
fn finish_deque<J: Job, R: Wait>(
    rt: &R,
    active: &mut ActiveWorker<J>,
    queue: &mut LocalQueue,
) -> Result<(), AllocError>
    requires left { IsLeft (J.limit (J.setup active.old.worker.job)) queue.old }
    requires kept { queue.old.kept ≡ None }
    ensures finishes { Finishes J.setup J.answers active.old active.new queue.old queue.new }
    ensures done { OnOk result (IsDone queue.new) }
{
    for _ in rt.forever() {
        if !finish_turn(active, queue)? {
            return Ok(());
        }
    }
    unreachable!()
}

/// Performs what is left at one queue.
fn finish_one<J: Job, R: Wait>(
    rt: &R,
    active: &mut ActiveWorker<J>,
    queue: &mut LocalQueue,
) -> Result<(), AllocError>
    requires { IsLeft (J.limit (J.setup active.old.worker.job)) queue.old }
    ensures finishes { Finishes J.setup J.answers active.old active.new queue.old queue.new }
    ensures done { OnOk result (IsDone queue.new) }
{
    finish_kept(active, queue)?;
    finish_deque(rt, active, queue)
}

/// Performs what is left at queue k.
fn finish_at<J: Job, R: Wait>(
    rt: &R,
    team: &mut Vec<ActiveWorker<J>>,
    queues: &mut Vec<LocalQueue>,
    k: usize,
) -> Result<(), AllocError>
    requires within { (k < vec_len team.old) × (vec_len queues.old ≡ vec_len team.old) }
    requires left { (h : _) (d : LocalQueue)
        → IsLeft (J.limit (J.setup (slice_index_or team.old.items k h).worker.job)) (slice_index_or queues.old.items k d) }
    ensures len { (vec_len team.new ≡ vec_len team.old) × (vec_len queues.new ≡ vec_len queues.old) }
    ensures here { (h : _) (d : LocalQueue) → Finishes J.setup J.answers
        (slice_index_or team.old.items k h) (slice_index_or team.new.items k h)
        (slice_index_or queues.old.items k d) (slice_index_or queues.new.items k d) }
    ensures others { (j : ℕ) (h : _) → j ≢ k → slice_index_or team.new.items j h ≡ slice_index_or team.old.items j h }
    ensures still { (j : ℕ) (d : LocalQueue) → j ≢ k → slice_index_or queues.new.items j d ≡ slice_index_or queues.old.items j d }
    ensures done { OnOk result ((d : LocalQueue) → IsDone (slice_index_or queues.new.items k d)) }
{
    finish_one(rt, &mut team[k], &mut queues[k])
}

/// Performs what is left at all queues, up to the first refusal.
pub fn finish_all<J: Job, R: Wait>(
    rt: &R,
    team: &mut Vec<ActiveWorker<J>>,
    queues: &mut Vec<LocalQueue>,
) -> Result<(), AllocError>
    requires len { vec_len queues.old ≡ vec_len team.old }
    requires left { EachQueue IsLeft J.setup J.limit (vec_len team.old) team.old.items queues.old.items }
    ensures len { (vec_len team.new ≡ vec_len team.old) × (vec_len queues.new ≡ vec_len queues.old) }
    ensures finishes { EachFinishes J.setup J.answers (vec_len team.old) team.old.items team.new.items queues.old.items queues.new.items }
    ensures done { OnOk result (All IsDone queues.new.items) }
{
    for k in 0..team.len() {
        finish_at(rt, team, queues, k)?;
    }
    Ok(())
}
