//! A target of one step, which breaks its promise if the step is refused.
ghost use Rattle.std.specs.Prelude.{[], ◌∷◌, codes};
ghost use Rattle.std.proofs.Common.{rules};
ghost use Rattle.part_tests.specs.OneStep.{step, step-within, step-halts};

use std::alloc::AllocError;
use target_trait::{Answer, Judgement, Session, Target};

/// A target whose setup is all that it has.
#[derive(Clone, Copy, Debug, Drop)]
pub struct OneStep;

impl Target for OneStep {
    type Workload = ();

    ghost names = { codes "one::step" ∷ [] };

    ghost label_of = { λ _. codes "one step" };

    ghost code_text = { λ _. codes "refused" };

    ghost asks = { λ _ _ answers. step answers };

    fn label(&self) -> &'static str {
        "one step"
    }

    fn catalogue() -> &'static [&'static str] {
        &["one::step"]
    }

    fn code_name(_code: u32) -> &'static str {
        "refused"
    }

    fn twin(&self) -> Result<Self, AllocError> {
        Ok(OneStep)
    }

    fn run(&mut self, _workload: &(), session: &mut Session<'_>) -> Result<Judgement, AllocError> {
        match session.hit(0)? {
            Answer::Return(_) => Ok(Judgement::Broken(4)),
            Answer::Go | Answer::Halt => Ok(Judgement::Kept),
        }
    }

    ghost within = { λ _ _ answers. step-within answers };

    ghost halts = { λ _ _ before after. step-halts before after };

    ghost lawful = { Prim.search rules };
}
