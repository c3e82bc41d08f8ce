//! A worker: a job, and how many tickets it has performed.
ghost use Rattle.std.specs.Prelude.{◌≡◌, ◌+◌, ◌<◌, ◌^◌, IfOk, IfErr, OnOk};
ghost use Rattle.worker_pool.specs.Workers.{worker_job, worker_performed};

use crate::job::Job;
use crate::ticket::Ticket;

/// A job, and how many tickets it has performed over all runs.
#[derive(Drop)]
pub struct Worker<J: Job> {
    job: J,
    performed: u64,
}

impl<J: Job> Worker<J> {
    /// A worker that has performed nothing. It takes no memory.
    pub fn new(job: J) -> Worker<J>
        ensures job { worker_job result ≡ job }
        ensures performed { worker_performed result ≡ 0 }
    {
        Worker { job, performed: 0 }
    }

    /// How many tickets the worker has performed, or 2^64 - 1 if there are more.
    pub fn performed(&self) -> u64
        ensures { result ≡ worker_performed self.now }
    {
        self.performed
    }

    /// Performs a ticket, by one call of the job. The ticket is spent. If the job refuses, the ticket comes back, and nothing has changed but the
    /// job, which keeps its setup.
    pub(crate) fn perform(&mut self, ticket: Ticket) -> Result<J::Answer, Ticket>
        requires { ticket < J.limit (J.setup (worker_job self.old)) }
        ensures setup { J.setup (worker_job self.new) ≡ J.setup (worker_job self.old) }
        ensures once { J.becomes (worker_job self.old) ticket (worker_job self.new) }
        ensures done { IfOk result (λ answer. J.answers (J.setup (worker_job self.old)) ticket answer) }
        ensures counted { OnOk result (worker_performed self.old + 1 < 2 ^ 64 → worker_performed self.new ≡ worker_performed self.old + 1) }
        ensures refused { IfErr result (λ back. (back ≡ ticket) × (worker_performed self.new ≡ worker_performed self.old)) }
    {
        match self.job.perform(ticket.number()) {
            Ok(answer) => {
                self.performed = self.performed.saturating_add(1);
                Ok(answer)
            }
            Err(_) => Err(ticket),
        }
    }
}
