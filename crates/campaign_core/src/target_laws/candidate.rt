//! A target about which nothing is proved: its calls without its laws, and what its runs came to.
ghost use Rattle.std.specs.Prelude.{◌≡◌, IfOk};
ghost use Rattle.action_eval.specs.Answers.{texts};
ghost use Rattle.campaign_core.specs.target_laws.Candidates.{look};
ghost use Rattle.campaign_core.specs.target_laws.inside.Lawful.{IsMadeOf};

use std::alloc::{AllocError, Global};
use target_trait::{Case, Target, Verdict, run_session, session_of};

/// What a run came to, as it is looked at.
#[derive(Debug, Drop)]
pub struct Looked {
    pub verdict: Verdict,
    /// The points that were asked, in order. A hit past the limit isn't among them.
    pub asked: Vec<u32>,
    /// Whether a point was asked after the run was stopped.
    pub is_asked_on: bool,
}

/// The calls of a [`Target`], without its laws. Nothing is known of a candidate except what its runs came to. Each target is a candidate.
pub trait Candidate {
    ghost use Rattle.std.specs.Prelude.{ℕ, List};
    ghost use Rattle.campaign_core.specs.target_laws.Candidates.{Look};

    type Workload;

    /// The names of its points.
    ghost names: { List (List ℕ) };

    /// A run on a workload was made, came to this, and led from one state of the candidate to another.
    ghost made: { Self.Workload → Self → Look → Self → Type 0 };

    /// The names of its points.
    fn points() -> &'static [&'static str]
        ensures { texts result.now ≡ names };

    /// Runs a case. An error means that memory was refused.
    fn look(
        &mut self,
        alloc: Global,
        workload: &Self::Workload,
        case: &Case<'_>,
    ) -> Result<Looked, AllocError>
        ensures { IfOk result (λ looked. made workload.now self.old
            (look case.now.scenario.now case.now.seed case.now.stream case.now.max_hits looked) self.new) };
}

impl<T: Target> Candidate for T {
    type Workload = T::Workload;

    ghost names = { T.names };

    ghost made = { λ workload before run after. IsMadeOf T.Target before workload run × (after ≡ before) };

    fn points() -> &'static [&'static str] {
        T::catalogue()
    }

    fn look(
        &mut self,
        alloc: Global,
        workload: &T::Workload,
        case: &Case<'_>,
    ) -> Result<Looked, AllocError> {
        let mut session = session_of(alloc, case, T::catalogue())?;
        let verdict = run_session(self, workload, &mut session)?;
        let asked = Vec::from_slice(alloc, session.trace())?;
        let is_asked_on = session.was_asked_after_stop();
        Ok(Looked {
            verdict,
            asked,
            is_asked_on,
        })
    }
}
