//! All active workers, each in a thread of its own.
ghost use Rattle.std.specs.Prelude.{◌≡◌, ℕ, ◌<◌, Some, All, IsSome, vec_len, slice_index_or, length};
ghost use Rattle.worker_pool.specs.declared.queue.LocalQueue.{LocalQueue};
ghost use Rattle.worker_pool.specs.inside.Queues.{IsReady};
ghost use Rattle.worker_pool.specs.inside.Ring.{IsRing};
ghost use Rattle.worker_pool.specs.inside.ActiveWorkers.{AreReadyAt, EachQueue, EachWorked, EachWorkedAt, IsReadyAt, SameWork, WorkedAt};
ghost use Rattle.worker_pool.specs.inside.Buffers.{HasPlaces};

use crate::active::ActiveWorker;
use crate::apart::for_each_apart;
use crate::job::Job;
use crate::queue::LocalQueue;
use crate::work::work;
use std::sync::Wait;
use std::thread::Threads;
use work_gate::Gate;

/// Has each worker work in a thread of its own, if one can be made. A single one works in the caller's thread.
#[tactic(auto, unfolding(crate::specs::inside::Apart::ChangesAll))]
pub fn run_workers<J: Job, G: Gate, R: Threads + Wait + Sync>(
    rt: &R,
    gate: &G,
    team: &mut [ActiveWorker<J>],
)
    requires { AreReadyAt J.setup J.limit team.old }
    ensures { EachWorkedAt J.setup J.limit J.answers team.old team.new }
{
    if let [active] = team {
        return work(rt, gate, active);
    }
    for_each_apart(
        rt,
        &|active: &mut ActiveWorker<J>|
            requires { IsReadyAt (J.limit (J.setup active.old.worker.job)) active.old.queue }
            ensures { WorkedAt J.setup J.limit J.answers active.old active.new active.old.queue active.new.queue }
        { work(rt, gate, active) },
        team,
    );
}

/// The same for a `Vec`.
pub fn run_vec<J: Job, G: Gate, R: Threads + Wait + Sync>(
    rt: &R,
    gate: &G,
    team: &mut Vec<ActiveWorker<J>>,
)
    requires { AreReadyAt J.setup J.limit team.old.items }
    ensures worked { EachWorkedAt J.setup J.limit J.answers team.old.items team.new.items }
    ensures len { vec_len team.new ≡ vec_len team.old }
{
    run_workers(rt, gate, team.as_mut_slice());
}

/// Lends a worker its queue.
fn lend_one<J: Job>(active: &mut ActiveWorker<J>, queue: LocalQueue)
    ensures queue { active.new.queue ≡ Some queue }
    ensures same { SameWork active.old active.new }
{
    active.queue = Some(queue);
}

/// Lends each worker its queue.
pub fn lend<J: Job>(team: &mut Vec<ActiveWorker<J>>, mut queues: Vec<LocalQueue>)
    requires len { vec_len queues ≡ vec_len team.old }
    ensures len { vec_len team.new ≡ vec_len team.old }
    ensures lent { (k : ℕ) (s : _) (d : LocalQueue) → k < vec_len team.old
        → (slice_index_or team.new.items k s).queue ≡ Some (slice_index_or queues.items k d) }
    ensures same { (k : ℕ) (s : _) → SameWork (slice_index_or team.old.items k s) (slice_index_or team.new.items k s) }
{
    while let Some(queue) = queues.pop() {
        let k = queues.len();
        lend_one(&mut team[k], queue);
    }
}

/// Takes back a worker's queue.
fn take_one<J: Job>(active: &mut ActiveWorker<J>) -> LocalQueue
    requires { IsSome active.old.queue }
    ensures queue { active.old.queue ≡ Some result }
    ensures same { SameWork active.old active.new }
{
    let Some(queue) = active.queue.take() else {
        unreachable!()
    };
    queue
}

/// Takes back each worker's queue.
pub fn take_back<J: Job>(
    team: &mut Vec<ActiveWorker<J>>,
    mut queues: Vec<LocalQueue>,
) -> Vec<LocalQueue>
    requires room { HasPlaces (vec_len team.old) queues }
    requires lent { All (λ s. IsSome s.queue) team.old.items }
    ensures len { (vec_len team.new ≡ vec_len team.old) × (vec_len result ≡ vec_len team.old) }
    ensures back { (k : ℕ) (s : _) (d : LocalQueue) → k < vec_len team.old
        → (slice_index_or team.old.items k s).queue ≡ Some (slice_index_or result.items k d) }
    ensures same { (k : ℕ) (s : _) → SameWork (slice_index_or team.old.items k s) (slice_index_or team.new.items k s) }
{
    for k in 0..team.len() {
        queues.push_reserved(take_one(&mut team[k]));
    }
    queues
}

/// Lends each worker its queue, has all of them work, and takes the queues back.
pub fn round<J: Job, G: Gate, R: Threads + Wait + Sync>(
    rt: &R,
    gate: &G,
    team: &mut Vec<ActiveWorker<J>>,
    queues: Vec<LocalQueue>,
    spare: Vec<LocalQueue>,
) -> Vec<LocalQueue>
    requires len { vec_len queues ≡ vec_len team.old }
    requires spare { HasPlaces (vec_len team.old) spare }
    requires ready { EachQueue IsReady J.setup J.limit (vec_len team.old) team.old.items queues.items }
    requires ring { IsRing queues.items }
    ensures len { (vec_len team.new ≡ vec_len team.old) × (vec_len result ≡ vec_len team.old) }
    ensures worked { EachWorked J.setup J.limit J.answers (vec_len team.old) team.old.items team.new.items queues.items result.items }
    ensures ring { IsRing result.items }
{
    lend(team, queues);
    run_vec(rt, gate, team);
    take_back(team, spare)
}
