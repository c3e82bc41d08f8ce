//! A target whose runs wait for one another.
ghost use Rattle.std.specs.Prelude.{codes};
ghost use Rattle.std.proofs.Common.{rules};
ghost use Rattle.campaign_tests.specs.Steps.{point_names, asks_of, asks-within, asks-halts};

use std::alloc::AllocError;
use std::rt::Clock;
use std::sync::atomic::{AtomicU64, Ordering};
use target_checks::comes_to;
use target_trait::{Answer, Judgement, Session, Target};

/// The runs that were answered one Return and one Go, and those of them that waited in vain.
#[derive(Drop)]
pub struct Meeting {
    /// Whether such a run waits at all.
    pub waits: bool,
    /// How many such runs there were.
    pub came: AtomicU64,
    /// How many of them saw no other come.
    pub late: AtomicU64,
}

impl Meeting {
    /// A meeting to which nobody has come.
    pub fn new(waits: bool) -> Self {
        Meeting {
            waits,
            came: AtomicU64::new(0),
            late: AtomicU64::new(0),
        }
    }

    /// Counts a run in. The first, third and each further odd one waits for the next.
    fn meet<R: Clock>(&self, rt: &R) {
        let before = self.came.fetch_add(1, Ordering::SeqCst);
        let waits = self.waits && before % 2 == 0;
        if waits && !comes_to(rt, &self.came, before.saturating_add(2)) {
            self.late.fetch_add(1, Ordering::SeqCst);
        }
    }
}

/// A target of two points, each of which may fail alone, but not both. A run in which one fails meets the next such run.
#[derive(Drop)]
pub struct Meet<'a, R: Clock> {
    pub rt: &'a R,
}

impl<'a, R: Clock + Sync> Target for Meet<'a, R> {
    type Workload = Meeting;

    ghost names = { point_names };

    ghost label_of = { λ _. codes "meet" };

    ghost code_text = { λ _. codes "both" };

    ghost asks = { λ _ _ answers. asks_of answers };

    fn label(&self) -> &'static str {
        "meet"
    }

    fn catalogue() -> &'static [&'static str] {
        &["meet::a", "meet::b"]
    }

    fn code_name(_code: u32) -> &'static str {
        "both"
    }

    fn twin(&self) -> Result<Self, AllocError> {
        Ok(Meet { rt: self.rt })
    }

    fn run(
        &mut self,
        workload: &Meeting,
        session: &mut Session<'_>,
    ) -> Result<Judgement, AllocError> {
        let first = match session.hit(0)? {
            Answer::Go => false,
            Answer::Return(_) => true,
            Answer::Halt => return Ok(Judgement::Kept),
        };
        let second = match session.hit(1)? {
            Answer::Go => false,
            Answer::Return(_) => true,
            Answer::Halt => return Ok(Judgement::Kept),
        };
        if first && second {
            return Ok(Judgement::Broken(0));
        }
        if first || second {
            workload.meet(self.rt);
        }
        Ok(Judgement::Kept)
    }

    ghost within = { λ _ _ answers. asks-within answers };

    ghost halts = { λ _ _ before after. asks-halts before after };

    ghost lawful = { Prim.search rules };
}
