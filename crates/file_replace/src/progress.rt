//! How far a run has come.
ghost use Rattle.std.specs.Prelude.{◌≡◌};
ghost use Rattle.file_replace.specs.Judgement.{is_among};
ghost use Rattle.file_replace.specs.Steps.{begun, at_step, acknowledged, before_all, first_step};
ghost use Rattle.file_replace.specs.inside.Seen.{step_of};

use crate::contents::is_among;
use crate::rest::Rest;
use crate::stage::Stage;
use crate::work::Replacements;
use scenario_values::Chunks;
use std::marker::Model;

/// The first stage of a replacement.
fn first_stage<'w>(is_there: bool, chunks: &'w Chunks) -> Stage<'w>
    ensures { step_of result ≡ first_step is_there chunks.now }
{
    let rest = Rest::of(chunks);
    if is_there {
        Stage::Clearing(rest)
    } else {
        Stage::Creating(rest)
    }
}

/// How far the replacements of a workload have come. Contents are numbered: 0 is the old contents, 1 that of the first replacement.
#[derive(Drop)]
pub struct Progress<'w> {
    workload: &'w Replacements,
    stage: Stage<'w>,
    begun: usize,
    acknowledged: usize,
}

impl<'w> Model for Progress<'w> {
    ghost use Rattle.std.specs.Prelude.{◌≤◌, [], length, drop, slice_index_or};
    ghost use Rattle.file_replace.specs.Steps.{Tally};
    ghost use Rattle.file_replace.specs.inside.Seen.{step_of, all_contents, past_of};

    ghost Value = { Tally };

    ghost view = { λ p. record {
      step = step_of p.stage;
      whole = slice_index_or (all_contents p.workload.now.old p.workload.now.replacements) p.begun [];
      rest = drop p.begun p.workload.now.replacements;
      past = past_of (all_contents p.workload.now.old p.workload.now.replacements) p.acknowledged p.begun;
    } };

    ghost invariant = { λ p. (p.acknowledged ≤ p.begun) × (p.begun ≤ length p.workload.now.replacements) };
}

impl<'w> Progress<'w> {
    /// Before the first replacement.
    pub fn new(workload: &'w Replacements) -> Self
        ensures { result ≡ before_all workload.now }
    {
        Progress {
            workload,
            stage: Stage::Over,
            begun: 0,
            acknowledged: 0,
        }
    }

    /// Begins the next replacement, if there is one. If the name that it writes is there, it clears that first.
    pub fn begin(&mut self, is_there: bool)
        ensures { self.new ≡ begun is_there self.old }
    {
        let Some(next) = self.workload.as_slice().get(self.begun) else {
            self.stage = Stage::Over;
            return;
        };
        self.begun += 1;
        self.stage = first_stage(is_there, next);
    }

    /// Acknowledges the replacement under way.
    pub fn acknowledge(&mut self)
        ensures { self.new ≡ acknowledged self.old }
    {
        self.acknowledged = self.begun;
    }

    /// Goes on to a stage.
    pub fn go_to(&mut self, stage: Stage<'w>)
        ensures { self.new ≡ at_step self.old (step_of stage.entry) }
    {
        self.stage = stage;
    }

    /// The stage that comes next.
    pub fn stage(&self) -> Stage<'w>
        ensures { step_of result ≡ self.now.step }
    {
        self.stage
    }

    /// Whether these contents are allowed.
    #[inline(always)]
    pub fn allows(&self, bytes: &[u8]) -> bool
        ensures { result ≡ is_among bytes.now self.now.past.allowed }
    {
        is_among(self.workload, self.acknowledged, self.begun, bytes)
    }

    /// Whether these contents are the old ones, or those of a replacement that was begun.
    pub fn knows(&self, bytes: &[u8]) -> bool
        ensures { result ≡ is_among bytes.now self.now.past.known }
    {
        is_among(self.workload, 0, self.begun, bytes)
    }
}
