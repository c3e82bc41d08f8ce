//! The stage that a reduction is at, and how it steps on by what is known.
ghost use Rattle.std.specs.Prelude.{◌≡◌, ℕ, ◌+◌, ◌*◌, ◌^◌, ◌<◌, List, length, IfOk, Option, Bool};
ghost use Rattle.std.specs.FinMap as known_map;
ghost use Rattle.ddmin_parallel.specs.Rounds.{Candidate};
ghost use Rattle.ddmin_parallel.specs.inside.Candidates.{found as decision_of, CanBeCut};
ghost use Rattle.ddmin_parallel.specs.CoreEvents.{Position, after_decision, after_empty, at_round};
ghost use Rattle.ddmin_parallel.specs.inside.CoreStates.{IsLawful, IsSmall};
ghost use Rattle.ddmin_parallel.specs.inside.Stages.{position_of, position_in};
ghost use Rattle.ddmin_parallel.specs.inside.Cursors.{IsCounted, IsLook, IsStep, IsAdvanced, follow};

use crate::attempts::{Attempt, all_faults, attempt_at, candidate_count};
use crate::fault_set::FaultSet;
use crate::heard::Heard;
use crate::reduction::Reduction;
use std::alloc::{AllocError, Global};

/// The stage that a reduction is at.
#[derive(Drop)]
pub(crate) enum Stage {
    /// At the empty set. The reduction has this many faults.
    Empty(u32),
    Round(Round),
    End(Reduction),
}

/// The round of a set.
#[derive(Drop)]
pub(crate) struct Round {
    pub(crate) kept: Vec<u32>,
    pub(crate) parts: usize,
    /// How many tests were counted before.
    pub(crate) tests: u64,
}

/// How far a stage's round has come, so that no search has to begin at its first candidate again.
#[derive(Clone, Copy)]
pub(crate) struct Cursor {
    /// The candidates before this one are known to pass.
    pub(crate) place: usize,
    /// No candidate before this one is open.
    pub(crate) closed: usize,
    /// The same for the round after this one.
    pub(crate) ahead: usize,
}

impl Cursor {
    /// The cursor of a round that has come to a place, and of which nothing else is known.
    pub(crate) fn at(place: usize) -> Cursor
        ensures { result ≡ record { place = place; closed = place; ahead = 0 } }
    {
        Cursor {
            place,
            closed: place,
            ahead: 0,
        }
    }
}

/// What known answers say of a round.
#[derive(Drop)]
enum Look {
    /// The candidate at this place is not known, and all before it pass.
    Stuck(usize),
    /// The round is decided: the first candidate that fails, if one does, and the tests counted by then.
    Decided(Option<Attempt>, u64),
}

/// What known answers say of a stage.
#[derive(Drop)]
enum Step {
    /// The stage stays, and its round has come to this place.
    Stays(usize),
    Moves(Stage),
}

/// What the known answers say of a round that has come to a place.
fn looked_at(alloc: Global, heard: &Heard, round: &Round, place: usize) -> Result<Look, AllocError>
    requires cut { CanBeCut round.now.kept.items round.now.parts }
    requires counted { IsCounted (known_map.get heard.now) (position_in round.now) place }
    ensures { IfOk result (IsLook (known_map.get heard.now) round.now.kept.items round.now.parts round.now.tests) }
{
    let mut looked = round.tests.saturating_add(place as u64);
    for place in place..candidate_count(round.parts) {
        let attempt = attempt_at(alloc, round.kept.as_slice(), round.parts, place)?;
        let asked = attempt.packed(alloc)?;
        let Some(bad) = heard.get(&asked) else {
            return Ok(Look::Stuck(place));
        };
        looked = looked.saturating_add(1);
        if bad {
            return Ok(Look::Decided(Some(attempt), looked));
        }
    }
    Ok(Look::Decided(None, looked))
}

/// A round, or the end if there is nothing to leave out.
pub(crate) fn round_or_end(kept: Vec<u32>, parts: usize, tests: u64) -> Stage
    ensures { position_of result ≡ at_round kept.items parts tests }
{
    if kept.len() <= 1 {
        Stage::End(Reduction { kept, tests })
    } else {
        Stage::Round(Round { kept, parts, tests })
    }
}

/// The stage after this one, if the known answers decide it.
fn stepped(alloc: Global, heard: &Heard, stage: &Stage, place: usize) -> Result<Step, AllocError>
    requires lawful { IsLawful (position_of stage.now) }
    requires small { IsSmall (position_of stage.now) }
    requires counted { IsCounted (known_map.get heard.now) (position_of stage.now) place }
    ensures { IfOk result (IsStep (known_map.get heard.now) (position_of stage.now)) }
{
    match stage {
        Stage::Empty(faults) => match heard.get(&FaultSet::empty(alloc)) {
            None => Ok(Step::Stays(0)),
            Some(bad) => Ok(Step::Moves(after_empty_set(alloc, *faults, bad)?)),
        },
        Stage::Round(round) => match looked_at(alloc, heard, round, place)? {
            Look::Stuck(place) => Ok(Step::Stays(place)),
            Look::Decided(found, looked) => {
                Ok(Step::Moves(after_round(alloc, round, found, looked)?))
            }
        },
        Stage::End(_) => Ok(Step::Stays(0)),
    }
}

/// The stage after the empty set.
fn after_empty_set(alloc: Global, faults: u32, bad: bool) -> Result<Stage, AllocError>
    ensures { IfOk result (λ s. position_of s ≡ after_empty faults bad) }
{
    if bad {
        let kept = Vec::new(alloc);
        Ok(Stage::End(Reduction { kept, tests: 1 }))
    } else {
        let kept = all_faults(alloc, faults)?;
        Ok(round_or_end(kept, 2, 1))
    }
}

/// The stage after a round that was decided.
fn after_round(
    alloc: Global,
    round: &Round,
    found: Option<Attempt>,
    looked: u64,
) -> Result<Stage, AllocError>
    requires { length round.now.kept.items < 2 ^ 31 }
    ensures { IfOk result (λ s. position_of s ≡ after_decision round.now.kept.items round.now.parts (decision_of found looked)) }
{
    match found {
        Some(attempt) => Ok(round_or_end(attempt.set, attempt.parts, looked)),
        None => {
            let kept = Vec::from_slice(alloc, round.kept.as_slice())?;
            let tests = looked;
            if round.parts < kept.len() {
                let parts = (2 * round.parts).min(kept.len());
                Ok(Stage::Round(Round { kept, parts, tests }))
            } else {
                Ok(Stage::End(Reduction { kept, tests }))
            }
        }
    }
}

/// The furthest stage to which the known answers and the one that was heard lead, and how far its round has come. No stage if it is still this one.
pub(crate) fn advanced(
    alloc: Global,
    heard: &Heard,
    stage: &Stage,
    place: usize,
) -> Result<(Option<Stage>, usize), AllocError>
    requires lawful { IsLawful (position_of stage.now) }
    requires small { IsSmall (position_of stage.now) }
    requires counted { IsCounted (known_map.get heard.now) (position_of stage.now) place }
    ensures { IfOk result (λ r. IsAdvanced (known_map.get heard.now) (position_of stage.now) r.0 r.1) }
{
    let mut current = match stepped(alloc, heard, stage, place)? {
        Step::Stays(place) => return Ok((None, place)),
        Step::Moves(next) => next,
    };
    loop {
        match stepped(alloc, heard, &current, 0)? {
            Step::Moves(next) => current = next,
            Step::Stays(place) => return Ok((Some(current), place)),
        }
    }
}

/// The stage after this one, supposing that no candidate fails of which nothing is known. Its count of tests means nothing.
pub(crate) fn following(
    alloc: Global,
    stage: &Stage,
    failing: Option<Attempt>,
) -> Result<Stage, AllocError>
    requires small { IsSmall (position_of stage.now) }
    ensures { IfOk result (λ s. position_of s ≡ follow (position_of stage.now) failing) }
{
    match stage {
        Stage::Empty(faults) => after_empty_set(alloc, *faults, false),
        Stage::Round(round) => after_round(alloc, round, failing, 0),
        Stage::End(reduction) => {
            let kept = Vec::from_slice(alloc, reduction.kept.as_slice())?;
            let tests = reduction.tests;
            Ok(Stage::End(Reduction { kept, tests }))
        }
    }
}
