//! Every ticket once, by any number of workers.
ghost use Rattle.std.specs.Prelude.{◌≡◌, ℕ, ◌+◌, ◌<◌, ◌≤◌, ◌^◌, All, IfOk, IfErr, OnOk, MatchResult, map, vec_len};
ghost use Rattle.std.specs.List.{sum_by};
ghost use Rattle.worker_pool.specs.Workers.{worker_job, worker_performed, setups_of, AreCounted, AreRight, EachOnce, PerformsPart, SharesAll, SharesPart};
ghost use Rattle.worker_pool.specs.inside.Ring.{PushedOnce};
ghost use Rattle.worker_pool.specs.inside.ActiveWorkers.{answers_of, AreAtQueues, EachGoesOn};
ghost use Rattle.worker_pool.specs.inside.Buffers.{HasPlaces};

use crate::active::ActiveWorker;
use crate::buffers::{Buffers, begin_all, leave_all};
use crate::finish::finish_all;
use crate::job::Job;
use crate::queue::LocalQueue;
use crate::ring::{absorb_all, settle_all};
use crate::run::round;
use crate::worker::Worker;
use std::alloc::{AllocError, Global};
use std::sync::Wait;
use std::thread::Threads;
use work_gate::Gate;

/// All workers, in their order, and for each the numbers that it performed with their answers.
#[derive(Drop)]
pub struct Gathered<J: Job> {
    pub workers: Vec<Worker<J>>,
    pub answers: Vec<Vec<(u32, J::Answer)>>,
}

/// Memory was refused. All workers come back, in their order; the answers that they gave are gone.
#[derive(Drop)]
pub struct PoolFault<J: Job> {
    pub workers: Vec<Worker<J>>,
}

/// Has the tickets at the queues performed: each worker works in a thread of its own, and the caller's thread performs what they leave. Then all
/// deques and workers together are in a state to which steps of the workers lead.
fn work_all<J: Job, G: Gate, R: Threads + Wait + Sync>(
    rt: &R,
    gate: &G,
    team: &mut Vec<ActiveWorker<J>>,
    queues: Vec<LocalQueue>,
    spare: Vec<LocalQueue>,
) -> Result<(), AllocError>
    requires begun { AreAtQueues J.setup J.limit team.old queues }
    requires spare { HasPlaces (vec_len team.old) spare }
    ensures len { vec_len team.new ≡ vec_len team.old }
    ensures on { EachGoesOn J.setup J.answers (vec_len team.old) team.old.items team.new.items }
    ensures all { OnOk result ((count : ℕ) → PushedOnce count queues.items → SharesAll (vec_len team.old) count (answers_of team.new.items)) }
    ensures part { (count : ℕ) → PushedOnce count queues.items → SharesPart (vec_len team.old) count (answers_of team.new.items) }
{
    let mut back = round(rt, gate, team, queues, spare);
    absorb_all(&mut back);
    let finished = finish_all(rt, team, &mut back);
    settle_all(back);
    finished
}

/// Performs each number below `count` once, and returns the answers.
///
/// With n workers ticket i is dealt to worker `i mod n`. Each worker works in a thread of its own: it takes from the front of its own deque, and then
/// steals from the front of the next worker's, as the only thief there. It makes room for the answer, calls `arrive` with `Phase::Plans` and i, and
/// performs ticket i. If a thread can't be started, the others do its work. A worker that is refused memory keeps its ticket and leaves. After the
/// joins the caller's thread performs what is left, without `arrive`.
///
/// # Errors
///
/// Only that memory was refused: before the first ticket, or to the caller's thread for a ticket that was left. All workers come back, and have
/// counted what they performed; the answers are gone.
pub fn run_all<J: Job, G: Gate, R: Threads + Wait + Sync>(
    rt: &R,
    alloc: Global,
    gate: &G,
    workers: Vec<Worker<J>>,
    count: u32,
) -> Result<Gathered<J>, PoolFault<J>>
    requires some { 0 < vec_len workers }
    requires limit { All (λ h. count ≤ J.limit (J.setup (worker_job h))) workers.items }

    // Each worker comes back with its setup.
    ensures workers { MatchResult result (λ g. vec_len g.workers ≡ vec_len workers) (λ e. vec_len e.workers ≡ vec_len workers) }
    ensures setups { MatchResult result
        (λ g. setups_of J.setup g.workers.items ≡ setups_of J.setup workers.items)
        (λ e. setups_of J.setup e.workers.items ≡ setups_of J.setup workers.items) }

    // There is one list for each worker, of numbers with the answers that its setup gives. In all lists together each number below the count stands
    // once.
    ensures many { IfOk result (λ g. vec_len g.answers ≡ vec_len workers) }
    ensures right { IfOk result (λ g. AreRight J.setup J.answers (vec_len workers) workers.items g.answers.items) }
    ensures once { IfOk result (λ g. EachOnce g.answers.items count) }

    // After the joins all deques and workers together are in a state to which steps of the workers lead: ticket i was pushed by worker `i mod n`, all
    // deques are empty, and each worker took just what it answered, by pops from its own deque and steals from the next.
    ensures shared { IfOk result (λ g. SharesAll (vec_len workers) count (map (λ l. l.items) g.answers.items)) }

    // What the workers count, if the counter doesn't saturate.
    ensures counted { IfOk result (λ g. AreCounted (vec_len workers) workers.items g.workers.items g.answers.items) }
    ensures performed { IfOk result (λ g. sum_by worker_performed workers.items + count < 2 ^ 64
        → sum_by worker_performed g.workers.items ≡ sum_by worker_performed workers.items + count) }

    // A refused run has performed a part of the tickets, each at most once, and each worker counted just those that it performed.
    ensures refused { IfErr result (λ e. PerformsPart J.setup J.answers workers.items e.workers.items count) }
{
    let Ok(buffers) = Buffers::new(alloc, workers.len(), count) else {
        return Err(PoolFault { workers });
    };
    let Buffers {
        queues,
        spare,
        team,
        workers: back,
        answers,
    } = buffers;
    let mut team = begin_all(alloc, workers, team);
    let finished = work_all(rt, gate, &mut team, queues, spare);
    let (workers, answers) = leave_all(team, back, answers);
    match finished {
        Ok(()) => Ok(Gathered { workers, answers }),
        Err(_) => Err(PoolFault { workers }),
    }
}
