//! Verdicts of successive plans.
ghost use Rattle.std.specs.Prelude.{◌≡◌, ◌≤◌, [], length, IfOk, MatchOption, slice_range};
ghost use Rattle.result_book.specs.Says.{input_says};
ghost use Rattle.result_book.specs.Ranges.{IsLast};
ghost use Rattle.result_book.specs.Verdicts.{verdicts_from};
ghost use Rattle.result_book.specs.Runs.{input_runs, is_asked, runs_from, unreached_of};

use crate::input::RunInput;
use crate::numbered::{Numbered, verdict_of};
use crate::watched::is_asked;
use crate::workspace::Workspace;
use std::alloc::{AllocError, Global};
use std::marker::Model;
use std::ops::Range;
use target_trait::{Target, Verdict};

/// The verdicts of successive plans of an input, from a number on, and those of the input's watched points that none of their runs asks.
///
/// Only `run_over` makes one. So each verdict is that of its plan, under the stream of its plan's number, for one setup of the target: the type keeps
/// that. A range holds its input once, and 8 bytes for each plan.
#[derive(Drop)]
pub struct PlanRange<'a, T: Target> {
    input: &'a RunInput<'a, T>,
    first: u32,
    verdicts: Vec<Verdict>,
    unreached: Vec<u32>,
}

impl<'a, T: Target> Model for PlanRange<'a, T> {
    ghost use Rattle.result_book.specs.Ranges.{Stretch};

    ghost Value = { Stretch };

    ghost use Rattle.std.specs.Prelude.{◌+◌, ◌<◌, ◌^◌, length};
    ghost use Rattle.result_book.specs.Says.{input_says};
    ghost use Rattle.result_book.specs.Ranges.{AreSaid};

    ghost view = { λ r. record { first = r.first; verdicts = r.verdicts.items; unreached = r.unreached.items } };

    ghost invariant = { λ r. (r.first + length r.verdicts.items < 2 ^ 32)
        × ((setup : T) × AreSaid (input_says T.Target setup r.input.now) r.input.now.plans.now r.first r.verdicts.items) };
}

impl<'a, T: Target> PlanRange<'a, T> {
    /// Runs the plans of these numbers, in their order. The workspace serves run after run: it keeps the memory that it has taken, and what it holds
    /// before makes no difference. An error means that memory was refused. The target keeps its setup, even after an error.
    pub fn run_over(
        alloc: Global,
        target: &mut T,
        workspace: &mut Workspace,
        input: &'a RunInput<'a, T>,
        numbers: Range<u32>,
    ) -> Result<Self, AllocError>
        requires within { (numbers.start ≤ numbers.end) × (numbers.end ≤ length input.now.plans.now) }
        ensures ok { IfOk result (λ range. range ≡ record {
          first = numbers.start;
          verdicts = verdicts_from (input_says T.Target target.old input.now) numbers.start (slice_range input.now.plans.now numbers.start numbers.end);
          unreached = unreached_of input.now.watched.now
              (runs_from (input_runs T.Target target.old input.now) numbers.start (slice_range input.now.plans.now numbers.start numbers.end));
        }) }
        ensures setup { target.new ≡ target.old }
    {
        let rigger = input.plans.rigger(T::catalogue());
        let first = numbers.start;
        let end = numbers.end;
        let mut verdicts = Vec::with_capacity(alloc, (end - first) as usize)?;
        let mut unreached = Vec::from_slice(alloc, input.watched)?;
        for number in first..end {
            let verdict = verdict_of(target, &rigger, workspace, input, number, &mut unreached)?;
            verdicts.push(verdict)?;
        }
        Ok(PlanRange {
            input,
            first,
            verdicts,
            unreached,
        })
    }

    /// The verdicts, in the order of their plans.
    pub fn verdicts(&self) -> &[Verdict]
        ensures { result.now ≡ self.now.verdicts }
    {
        self.verdicts.as_slice()
    }

    /// Whether a point is one of the input's watched ones, and no run of the range asked it. Taking results out of the range doesn't change that.
    pub fn leaves(&self, point: u32) -> bool
        ensures { result ≡ is_asked point self.now.unreached }
    {
        is_asked(self.unreached.as_slice(), point)
    }

    /// Takes the last plan's result out of the range; `None` if the range is empty.
    pub fn pop(&mut self) -> Option<Numbered<'a, T>>
        ensures { MatchOption result ((self.old.verdicts ≡ []) × (self.new ≡ self.old)) (IsLast self.old self.new) }
    {
        let verdict = self.verdicts.pop()?;
        let number = self.first + self.verdicts.len() as u32;
        Some(Numbered {
            input: self.input,
            number,
            verdict,
        })
    }
}
