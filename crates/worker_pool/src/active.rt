//! A worker at work.
ghost use Rattle.std.specs.Prelude.{◌≡◌, ℕ, ◌+◌, ◌<◌, Bool, [], ◌∷◌, None, IfErr, OnOk, count_by, vec_len, vec_capacity};
ghost use Rattle.worker_pool.specs.Workers.{worker_job};
ghost use Rattle.worker_pool.specs.inside.ActiveWorkers.{answered_by, GoesOn, SameWork};

use crate::job::Job;
use crate::queue::LocalQueue;
use crate::ticket::Ticket;
use crate::worker::Worker;
use std::alloc::{AllocError, Global};

/// A worker, the queue that it works on, and the answers that it gave in this run.
#[derive(Drop)]
pub struct ActiveWorker<J: Job> {
    pub worker: Worker<J>,
    pub answers: Vec<(u32, J::Answer)>,
    pub queue: Option<LocalQueue>,
}

impl<J: Job> ActiveWorker<J> {
    /// This worker, without a queue and without an answer. It takes no memory.
    pub fn new(alloc: Global, worker: Worker<J>) -> ActiveWorker<J>
        ensures worker { result.worker ≡ worker }
        ensures rest { (result.answers.items ≡ []) × (result.queue ≡ None) }
    {
        ActiveWorker {
            worker,
            answers: Vec::new(alloc),
            queue: None,
        }
    }

    /// Makes room for one answer.
    pub fn make_room(&mut self) -> Result<(), AllocError>
        ensures same { SameWork self.old self.new × (self.new.queue ≡ self.old.queue) }
        ensures room { OnOk result (vec_len self.new.answers < vec_capacity self.new.answers) }
    {
        self.answers.reserve(1)
    }

    /// Performs a ticket and keeps its answer. If the job refuses, the ticket comes back, and nothing has changed but the job, which keeps its setup.
    pub fn perform(&mut self, ticket: Ticket) -> Result<(), Ticket>
        requires limit { ticket < J.limit (J.setup (worker_job self.old.worker)) }
        requires room { vec_len self.old.answers < vec_capacity self.old.answers }
        ensures on { GoesOn J.setup J.answers self.old self.new }
        ensures queue { self.new.queue ≡ self.old.queue }
        ensures done { OnOk result ((test : ℕ → Bool) → answered_by test self.new ≡ answered_by test self.old + count_by test (ticket ∷ [])) }
        ensures refused { IfErr result (λ back. (back ≡ ticket) × (self.new.answers.items ≡ self.old.answers.items)) }
    {
        let number = ticket.number();
        match self.worker.perform(ticket) {
            Ok(answer) => {
                self.answers.push_reserved((number, answer));
                Ok(())
            }
            Err(ticket) => Err(ticket),
        }
    }
}
