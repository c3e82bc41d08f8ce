//! Runs of rigged hits, one after another, in the same memory.
ghost use Rattle.std.specs.Prelude.{◌≡◌, ◌≤◌, [], length, IfOk, OnOk};
ghost use Rattle.action_eval.specs.Answers.{given_of};
ghost use Rattle.action_eval.specs.RiggedScenario.{rigged_as};
ghost use Rattle.target_trait.specs.Outcomes.{outcome, verdict_with};

use crate::case::run_session;
use crate::judgement::Verdict;
use crate::target::Target;
use action_eval::{FaultTable, Session, SessionBuffers};
use std::alloc::{AllocError, Global};
use std::mem;

/// What decides a run beside its faults.
#[derive(Clone, Copy, Debug)]
pub struct RunSettings {
    /// The seed of the random words.
    pub seed: u64,
    /// The number of the stream of random words.
    pub stream: u64,
    /// How many hits are answered. A run with more hits is stopped, and unresolved.
    pub max_hits: u32,
}

/// What runs of rigged hits are made in, one after another, so that they needn't take memory of their own. Of what it holds before a run only the
/// faults in the table make a difference to the run.
#[derive(Drop)]
pub struct RiggedRuns {
    /// The table that has the rigged hits of the next run, by their points.
    pub table: FaultTable<'static>,
    /// The buffers of the last run, in which the points stand that it asked.
    pub buffers: SessionBuffers,
    /// Where a run takes memory that the buffers don't have.
    pub alloc: Global,
}

impl RiggedRuns {
    /// A table without a point, and buffers that have taken no memory yet.
    pub fn new(alloc: Global) -> Self
        ensures table { result.table ≡ rigged_as [] [] }
        ensures buffers { result.buffers ≡ [] }
    {
        RiggedRuns {
            table: FaultTable::new(alloc),
            buffers: SessionBuffers::new(alloc),
            alloc,
        }
    }

    /// Runs a target under what is rigged in the table, which has to be over the target's catalogue, and gives the verdict. The buffers then have the
    /// points that the run asked, in order.
    ///
    /// An error means that memory was refused; the buffers may be given back to the system then. The target keeps its setup, after an error too.
    // (a campaign runs thousands of these, and a call of its own costs each one some fifty instructions)
    #[inline(always)]
    pub fn run<T: Target>(
        &mut self,
        target: &mut T,
        workload: &T::Workload,
        settings: RunSettings,
    ) -> Result<Verdict, AllocError>
        requires { self.old.table.names ≡ T.names }
        ensures ok { IfOk result (λ verdict. verdict ≡ verdict_with (T.asks target.old workload.now) T.names
            settings.seed settings.max_hits settings.stream self.old.table.scenario) }
        ensures asked { OnOk result (self.new.buffers ≡ (outcome (T.asks target.old workload.now)
            (given_of self.old.table.scenario T.names settings.seed settings.stream settings.max_hits)).asked) }
        ensures few { OnOk result (length self.new.buffers ≤ settings.max_hits) }
        ensures setup { target.new ≡ target.old }
    {
        let buffers = mem::replace(&mut self.buffers, SessionBuffers::new(self.alloc));
        let RunSettings {
            seed,
            stream,
            max_hits,
        } = settings;
        let mut session = Session::over_in(buffers, &self.table, seed, stream, max_hits)?;
        let verdict = run_session(target, workload, &mut session)?;
        self.buffers = session.into_buffers();
        Ok(verdict)
    }
}
