//! The search for the next request.
ghost use Rattle.std.specs.Prelude.{◌≡◌, IfOk, None};
ghost use Rattle.std.specs.FinMap as known_map;
ghost use Rattle.ddmin_parallel.specs.CoreEvents.{option_then, first_open, round_at};
ghost use Rattle.ddmin_parallel.specs.inside.Candidates.{CanBeCut};
ghost use Rattle.ddmin_parallel.specs.inside.CoreStates.{IsLawful, IsSmall};
ghost use Rattle.ddmin_parallel.specs.inside.Stages.{position_of, position_in};
ghost use Rattle.ddmin_parallel.specs.inside.Cursors.{IsFurther, Leads, onward, is_among};
ghost use Rattle.ddmin_parallel.specs.inside.Searches.{Finds, HasReached, HasShut, IsStuck, Opens};

use crate::attempts::{Attempt, attempt_at, candidate_count};
use crate::fault_set::FaultSet;
use crate::reducer_core::{Progress, TestRequest};
use crate::sets::place_of;
use crate::stage::{Cursor, Round, Stage, following};
use std::alloc::{AllocError, Global};

/// How a search for an open candidate ended. A candidate is open if it is neither known nor out.
#[derive(Drop)]
pub(crate) enum Scan {
    /// At an open candidate, and the place after it.
    Open(TestRequest, usize),
    /// At a candidate that is known to fail.
    Fails(Attempt, usize),
    /// At the end.
    Shut(usize),
}

/// Looks for an open candidate of a round, from a place on.
fn scanned_round(
    alloc: Global,
    progress: &Progress,
    round: &Round,
    from: usize,
) -> Result<Scan, AllocError>
    requires cut { CanBeCut round.now.kept.items round.now.parts }
    requires shut { HasShut progress.now (position_in round.now) from }
    ensures { IfOk result (Finds progress.now (position_in round.now)) }
{
    let count = candidate_count(round.parts);
    for place in from..count {
        let attempt = attempt_at(alloc, round.kept.as_slice(), round.parts, place)?;
        let packed = attempt.packed(alloc)?;
        match progress.known.get(&packed) {
            Some(bad) => {
                if bad {
                    return Ok(Scan::Fails(attempt, place));
                }
            }
            None => {
                if place_of(&packed, progress.out.as_slice()).is_none() {
                    return Ok(Scan::Open(TestRequest::of(attempt.set, packed), place + 1));
                }
            }
        }
    }
    Ok(Scan::Shut(count))
}

/// Looks for an open candidate of a stage, from a place on.
fn scanned(
    alloc: Global,
    progress: &Progress,
    stage: &Stage,
    from: usize,
) -> Result<Scan, AllocError>
    requires lawful { IsLawful (position_of stage.now) }
    requires small { IsSmall (position_of stage.now) }
    requires shut { HasShut progress.now (position_of stage.now) from }
    ensures { IfOk result (Finds progress.now (position_of stage.now)) }
{
    match stage {
        Stage::Empty(_) => {
            let set = FaultSet::empty(alloc);
            match progress.known.get(&set) {
                Some(_) => Ok(Scan::Shut(0)),
                None => {
                    if place_of(&set, progress.out.as_slice()).is_none() {
                        Ok(Scan::Open(TestRequest::of(Vec::new(alloc), set), 1))
                    } else {
                        Ok(Scan::Shut(0))
                    }
                }
            }
        }
        Stage::Round(round) => scanned_round(alloc, progress, round, from),
        Stage::End(_) => Ok(Scan::Shut(0)),
    }
}

/// The next request of the round after the present one, if there is one, and where the search for the request after it begins.
fn further_set(
    alloc: Global,
    progress: &Progress,
    failing: Option<Attempt>,
    from: usize,
) -> Result<(Option<TestRequest>, usize), AllocError>
    requires lawful { IsLawful (position_of progress.now.stage) }
    requires small { IsSmall (position_of progress.now.stage) }
    requires stuck { IsStuck progress.now }
    requires leads { Leads (known_map.get progress.now.known) (position_of progress.now.stage) failing }
    requires shut { HasShut progress.now (onward (known_map.get progress.now.known) (position_of progress.now.stage)) from }
    ensures { IfOk result
        (λ r. IsFurther (known_map.get progress.now.known) progress.now.out.items (position_of progress.now.stage) r.0 r.1) }
{
    let next = following(alloc, &progress.stage, failing)?;
    match scanned(alloc, progress, &next, from)? {
        Scan::Open(request, place) => Ok((Some(request), place)),
        Scan::Fails(_, place) => Ok((None, place)),
        Scan::Shut(place) => Ok((None, place)),
    }
}

/// The next request if the present round has none: one of the round after it, if there is one. And the cursor for the request after it.
fn open_beyond(
    alloc: Global,
    progress: &Progress,
    failing: Option<Attempt>,
    cursor: Cursor,
    ahead: bool,
) -> Result<(Option<TestRequest>, Cursor), AllocError>
    requires lawful { IsLawful (position_of progress.now.stage) }
    requires small { IsSmall (position_of progress.now.stage) }
    requires stuck { IsStuck progress.now }
    requires none { first_open (known_map.get progress.now.known) (is_among progress.now.out.items) (round_at (position_of progress.now.stage)) ≡ None }
    requires leads { Leads (known_map.get progress.now.known) (position_of progress.now.stage) failing }
    requires reached { HasReached progress.now cursor }
    ensures { IfOk result (Opens progress.now ahead) }
{
    if !ahead {
        return Ok((None, cursor));
    }
    let (request, ahead) = further_set(alloc, progress, failing, cursor.ahead)?;
    Ok((request, Cursor { ahead, ..cursor }))
}

/// The next request, if there is one, and the cursor for the request after it.
pub(crate) fn open_set(
    alloc: Global,
    progress: &Progress,
    ahead: bool,
) -> Result<(Option<TestRequest>, Cursor), AllocError>
    requires lawful { IsLawful (position_of progress.now.stage) }
    requires small { IsSmall (position_of progress.now.stage) }
    requires stuck { IsStuck progress.now }
    requires reached { HasReached progress.now progress.now.cursor }
    ensures { IfOk result (Opens progress.now ahead) }
{
    let cursor = progress.cursor;
    match scanned(alloc, progress, &progress.stage, cursor.closed)? {
        Scan::Open(request, closed) => Ok((Some(request), Cursor { closed, ..cursor })),
        Scan::Fails(attempt, closed) => {
            let cursor = Cursor { closed, ..cursor };
            open_beyond(alloc, progress, Some(attempt), cursor, ahead)
        }
        Scan::Shut(closed) => {
            let cursor = Cursor { closed, ..cursor };
            open_beyond(alloc, progress, None, cursor, ahead)
        }
    }
}
