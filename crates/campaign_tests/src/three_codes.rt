//! A target of three points, each asked once, that breaks its promise in three ways.
ghost use Rattle.std.specs.Prelude.{codes};
ghost use Rattle.std.proofs.Common.{rules};
ghost use Rattle.campaign_tests.specs.ThreeCodes.{point_names, code_text, asks_of, asks-within, asks-halts};

use std::alloc::AllocError;
use target_trait::{Answer, Judgement, Session, Target};

/// A target whose outer points may not fail together, and whose inner one may not fail alone or before a halt.
#[derive(Clone, Copy, Debug, Drop)]
pub struct ThreeCodes;

impl Target for ThreeCodes {
    type Workload = ();

    ghost names = { point_names };

    ghost label_of = { λ _. codes "three codes" };

    ghost code_text = { code_text };

    ghost asks = { λ _ _ answers. asks_of answers };

    fn label(&self) -> &'static str {
        "three codes"
    }

    fn catalogue() -> &'static [&'static str] {
        &["three::a", "three::b", "three::c"]
    }

    fn code_name(code: u32) -> &'static str {
        match code {
            0 => "outer",
            1 => "cut",
            _ => "inner",
        }
    }

    fn twin(&self) -> Result<Self, AllocError> {
        Ok(ThreeCodes)
    }

    fn run(&mut self, _workload: &(), session: &mut Session<'_>) -> Result<Judgement, AllocError> {
        let first = session.hit(0)?;
        if let Answer::Halt = first {
            return Ok(Judgement::Kept);
        }
        let second = session.hit(1)?;
        if let Answer::Halt = second {
            return Ok(Judgement::Kept);
        }
        let third = session.hit(2)?;
        Ok(match (first, second, third) {
            (Answer::Return(_), _, Answer::Return(_)) => Judgement::Broken(0),
            (Answer::Go, Answer::Return(_), Answer::Halt) => Judgement::Broken(1),
            (Answer::Go, Answer::Return(_), Answer::Go) => Judgement::Broken(2),
            _ => Judgement::Kept,
        })
    }

    ghost within = { λ _ _ answers. asks-within answers };

    ghost halts = { λ _ _ before after. asks-halts before after };

    ghost lawful = { Prim.search rules };
}
