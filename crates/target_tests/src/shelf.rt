//! A component of two steps that says what is pending.
ghost use Rattle.std.specs.Prelude.{[], ◌∷◌, codes};
ghost use Rattle.std.proofs.Common.{rules};
ghost use Rattle.target_tests.specs.Shelf.{table, cut_table, shelf-within};

use std::alloc::{AllocError, Global};
use std::marker::Model;
use target_trait::{CrashProtocol, Judgement, Protocol};

/// How far a run has come.
#[derive(Clone, Copy, Debug)]
pub enum Shelf {
    Empty,
    FirstPut,
    FirstRefused,
    /// This many things were put.
    Over(u32),
}

/// A shelf onto which two things are put. All shelves have the same setup.
#[derive(Drop)]
pub struct TwoThings {
    alloc: Global,
}

impl Model for TwoThings {
    ghost Value = { Unit {0} };

    ghost view = { λ t. tt };
}

impl TwoThings {
    pub fn new(alloc: Global) -> Self {
        TwoThings { alloc }
    }
}

impl Protocol for TwoThings {
    type Workload = ();

    type State = Shelf;

    ghost names = { codes "shelf::put" ∷ [] };

    ghost label_of = { λ _. codes "two things" };

    ghost code_text = { λ _. codes "asked" };

    ghost table = { λ _ _. table };

    fn label(&self) -> &'static str {
        "two things"
    }

    fn catalogue() -> &'static [&'static str] {
        &["shelf::put"]
    }

    fn code_name(_code: u32) -> &'static str {
        "asked"
    }

    fn twin(&self) -> Result<Self, AllocError> {
        Ok(TwoThings::new(self.alloc))
    }

    fn begin(&self, _workload: &()) -> Result<Shelf, AllocError> {
        Ok(Shelf::Empty)
    }

    fn point(&self, _workload: &(), state: &Shelf) -> Option<u32> {
        match state {
            Shelf::Empty | Shelf::FirstPut | Shelf::FirstRefused => Some(0),
            Shelf::Over(_) => None,
        }
    }

    fn go(&self, _workload: &(), state: &mut Shelf) -> Result<(), AllocError> {
        *state = match *state {
            Shelf::Empty => Shelf::FirstPut,
            Shelf::FirstPut => Shelf::Over(2),
            Shelf::FirstRefused => Shelf::Over(1),
            Shelf::Over(count) => Shelf::Over(count),
        };
        Ok(())
    }

    fn fail(
        &self,
        _workload: &(),
        state: &mut Shelf,
        _text: Option<&str>,
    ) -> Result<(), AllocError> {
        *state = match *state {
            Shelf::Empty => Shelf::FirstRefused,
            Shelf::FirstPut => Shelf::Over(1),
            Shelf::FirstRefused => Shelf::Over(0),
            Shelf::Over(count) => Shelf::Over(count),
        };
        Ok(())
    }

    fn judge(&self, _workload: &(), _state: Shelf) -> Judgement {
        Judgement::Kept
    }

    ghost within = { λ _ _ state. shelf-within state };

    ghost lawful = { Prim.search rules };
}

impl CrashProtocol for TwoThings {
    ghost cut_table = { λ _ _. cut_table };

    fn catalogue_to_cut() -> &'static [&'static str] {
        &["shelf::put", "power::keep"]
    }

    fn alloc(&self) -> Global {
        self.alloc
    }

    fn pending(&self, _workload: &(), state: &Shelf) -> usize {
        match state {
            Shelf::Empty | Shelf::FirstRefused => 0,
            Shelf::FirstPut => 1,
            Shelf::Over(count) => *count as usize,
        }
    }

    fn judge_kept(&self, _workload: &(), _state: Shelf, kept: &[bool]) -> Judgement {
        if kept.is_empty() {
            Judgement::Kept
        } else {
            Judgement::Broken(5)
        }
    }

    ghost lawful_to_cut = { Prim.search rules };
}
