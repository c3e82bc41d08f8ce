//! The memory that a run takes before its first ticket is performed, and how workers come and go.
ghost use Rattle.std.specs.Prelude.{◌≡◌, ◌+◌, ◌<◌, [], ◌∷◌, ◌++◌, All, IfOk, map, vec_len, vec_capacity};
ghost use Rattle.worker_pool.specs.inside.Ring.{AreDealt};
ghost use Rattle.worker_pool.specs.inside.Buffers.{HasPlaces, AreBuffers};

use crate::active::ActiveWorker;
use crate::job::Job;
use crate::queue::LocalQueue;
use crate::ring::{dealt_queues, link_all};
use crate::worker::Worker;
use std::alloc::{AllocError, Global};

/// The queues with all tickets dealt, and room for as many active workers, workers and lists of answers.
#[derive(Drop)]
pub struct Buffers<J: Job> {
    pub queues: Vec<LocalQueue>,
    pub spare: Vec<LocalQueue>,
    pub team: Vec<ActiveWorker<J>>,
    pub workers: Vec<Worker<J>>,
    pub answers: Vec<Vec<(u32, J::Answer)>>,
}

/// The queues of `n` active workers, with all tickets dealt and all thieves' passes made.
fn linked_queues(alloc: Global, n: usize, count: u32) -> Result<Vec<LocalQueue>, AllocError>
    requires { 0 < n }
    ensures { IfOk result (AreDealt n count) }
{
    let mut queues = dealt_queues(alloc, n, count)?;
    link_all(&mut queues, count)?;
    Ok(queues)
}

impl<J: Job> Buffers<J> {
    /// The memory for a run of `count` tickets by `n` workers.
    pub fn new(alloc: Global, n: usize, count: u32) -> Result<Buffers<J>, AllocError>
        requires { 0 < n }
        ensures { IfOk result (AreBuffers n count) }
    {
        Ok(Buffers {
            queues: linked_queues(alloc, n, count)?,
            spare: Vec::with_capacity(alloc, n)?,
            team: Vec::with_capacity(alloc, n)?,
            workers: Vec::with_capacity(alloc, n)?,
            answers: Vec::with_capacity(alloc, n)?,
        })
    }
}

/// The workers, active: each without a queue and without an answer.
pub fn begin_all<J: Job>(
    alloc: Global,
    workers: Vec<Worker<J>>,
    mut team: Vec<ActiveWorker<J>>,
) -> Vec<ActiveWorker<J>>
    requires { HasPlaces (vec_len workers) team }
    ensures len { vec_len result ≡ vec_len workers }
    ensures workers { map (λ s. s.worker) result.items ≡ workers.items }
    ensures rest { All (λ s. s.answers.items ≡ []) result.items }
{
    for worker in workers {
        team.push_reserved(ActiveWorker::new(alloc, worker));
    }
    team
}

/// Adds a worker and its answers, in room that was reserved.
fn leave_one<J: Job>(
    active: ActiveWorker<J>,
    workers: &mut Vec<Worker<J>>,
    answers: &mut Vec<Vec<(u32, J::Answer)>>,
)
    requires workers { vec_len workers.old < vec_capacity workers.old }
    requires answers { vec_len answers.old < vec_capacity answers.old }
    ensures worker { workers.new.items ≡ workers.old.items ++ active.worker ∷ [] }
    ensures answers { answers.new.items ≡ answers.old.items ++ active.answers ∷ [] }
    ensures len { (vec_len workers.new ≡ vec_len workers.old + 1) × (vec_len answers.new ≡ vec_len answers.old + 1) }
    ensures room { (vec_capacity workers.new ≡ vec_capacity workers.old) × (vec_capacity answers.new ≡ vec_capacity answers.old) }
{
    let ActiveWorker {
        worker,
        answers: given,
        queue: _,
    } = active;
    workers.push_reserved(worker);
    answers.push_reserved(given);
}

/// The workers, and the answers of each.
pub fn leave_all<J: Job>(
    team: Vec<ActiveWorker<J>>,
    mut workers: Vec<Worker<J>>,
    mut answers: Vec<Vec<(u32, J::Answer)>>,
) -> (Vec<Worker<J>>, Vec<Vec<(u32, J::Answer)>>)
    requires workers { HasPlaces (vec_len team) workers }
    requires answers { HasPlaces (vec_len team) answers }
    ensures len { (vec_len result.0 ≡ vec_len team) × (vec_len result.1 ≡ vec_len team) }
    ensures workers { result.0.items ≡ map (λ s. s.worker) team.items }
    ensures answers { result.1.items ≡ map (λ s. s.answers) team.items }
{
    for active in team {
        leave_one(active, &mut workers, &mut answers);
    }
    (workers, answers)
}
