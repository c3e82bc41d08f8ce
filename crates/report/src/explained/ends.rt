//! What an explained run prints of its end, after its hits, what stopped it and the faults that never acted.
ghost use Rattle.std.specs.Prelude.{◌≡◌, List, ℕ, string_bytes, IfOk};
ghost use Rattle.action_eval.specs.Answers.{Given};
ghost use Rattle.report.specs.ReportText.{text_of};
ghost use Rattle.target_trait.specs.Outcomes.{outcome};
ghost use Rattle.report.specs.explained.Explained.{given_in, no_end};

use std::alloc::{AllocError, Global};
use target_trait::{Case, Outcome, Target};

/// A run that was made: its case, and what it came to.
#[derive(Drop)]
pub struct MadeRun<'a> {
    pub case: &'a Case<'a>,
    pub outcome: &'a Outcome,
}

/// What explained runs of a target print of their end.
pub trait RunEnd<T: Target> {
    // The lines, by the setup, the workload and what the run is given.
    ghost lines: { Self → T → T.Workload → Given → List (List ℕ) };

    /// The text of these lines, each with its line feed, for a run that was made on the target. An error means that memory was refused. The target
    /// keeps its setup, after an error too.
    fn text(
        &self,
        alloc: Global,
        target: &mut T,
        workload: &T::Workload,
        run: &MadeRun<'_>,
    ) -> Result<String, AllocError>
        requires { run.now.outcome.now ≡ outcome (T.asks target.old workload.now) (given_in T.names run.now.case.now) }
        ensures text { IfOk result (λ text. string_bytes text
            ≡ text_of (lines self.now target.old workload.now (given_in T.names run.now.case.now))) }
        ensures setup { target.new ≡ target.old };
}

/// No line.
#[derive(Clone, Copy, Debug)]
pub struct NoEnd;

impl<T: Target> RunEnd<T> for NoEnd {
    ghost lines = { λ end setup workload. no_end };

    fn text(
        &self,
        alloc: Global,
        _target: &mut T,
        _workload: &T::Workload,
        _run: &MadeRun<'_>,
    ) -> Result<String, AllocError> {
        Ok(String::new(alloc))
    }
}
