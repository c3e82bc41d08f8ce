//! A target that asks nothing, and whose judgement is always the same.
ghost use Rattle.std.specs.Prelude.{[], ◌∷◌, codes};
ghost use Rattle.std.proofs.Common.{rules};
ghost use Rattle.target_trait.specs.Play.{Done};
ghost use Rattle.target_trait.specs.declared.judgement.Judgement.TheVariants.{Broken};

use std::alloc::AllocError;
use target_trait::{Judgement, Session, Target};

/// A target whose promise is broken in each run.
#[derive(Clone, Copy, Debug, Drop)]
pub struct AlwaysBroken;

impl Target for AlwaysBroken {
    type Workload = ();

    ghost names = { codes "broken::point" ∷ [] };

    ghost label_of = { λ _. codes "always broken" };

    ghost code_text = { λ _. codes "broken" };

    ghost asks = { λ _ _ _. Done (Broken 0) };

    fn label(&self) -> &'static str {
        "always broken"
    }

    fn catalogue() -> &'static [&'static str] {
        &["broken::point"]
    }

    fn code_name(_code: u32) -> &'static str {
        "broken"
    }

    fn twin(&self) -> Result<Self, AllocError> {
        Ok(AlwaysBroken)
    }

    fn run(&mut self, _workload: &(), _session: &mut Session<'_>) -> Result<Judgement, AllocError> {
        Ok(Judgement::Broken(0))
    }

    ghost within = { λ _ _ _. tt };

    ghost halts = { λ _ _ _ _. tt };

    ghost lawful = { Prim.search rules };
}
