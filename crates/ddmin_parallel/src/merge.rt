//! Whether the answers on a board come from the workers' own answers.
ghost use Rattle.std.specs.Prelude.{◌≡◌, Bool, IsTrue, map};
ghost use Rattle.std.specs.List.{list_any, list_all};
ghost use Rattle.ddmin_parallel.specs.Logs.{is_backed, is_event_backed, is_told, says};
ghost use Rattle.ddmin_parallel.specs.InsideBoard.{event_of};

use crate::board::{Board, Event, is_said};
use crate::fault_set::FaultSet;
use std::alloc::Global;

/// Whether the pair at this place says this of the set.
fn is_said_at(set: &FaultSet, fails: bool, told: &[(FaultSet, bool)], place: usize) -> bool
    ensures { IsTrue result → IsTrue (list_any (says set.now fails) told.now) }
{
    match told.get(place) {
        Some(pair) => is_said(set, fails, &pair.0, pair.1),
        None => false,
    }
}

/// If the pair that says this of the set is the next one of some worker, goes past it, and returns true. False if it is the next one of no worker.
fn goes_past(
    set: &FaultSet,
    fails: bool,
    pairs: &[Vec<(FaultSet, bool)>],
    places: &mut [usize],
) -> bool
    ensures { IsTrue result → IsTrue (is_told set.now fails pairs.now) }
{
    for (told, place) in pairs.iter().zip(places) {
        if is_said_at(set, fails, told.as_slice(), *place) {
            *place = place.saturating_add(1);
            return true;
        }
    }
    false
}

/// Whether an event puts no answer, or one that is the next of some worker; then it goes past that.
fn is_next(event: &Event, pairs: &[Vec<(FaultSet, bool)>], places: &mut [usize]) -> bool
    ensures { IsTrue result → IsTrue (is_event_backed pairs.now (event_of event.now)) }
{
    match event {
        Event::Put(set, fails) => goes_past(set, *fails, pairs, places),
        Event::Take(_) | Event::GiveBack(_) | Event::Recall => true,
    }
}

/// Whether each answer that the events put is, in turn, the next of some worker.
fn are_in_turn(events: &[Event], pairs: &[Vec<(FaultSet, bool)>], places: &mut [usize]) -> bool
    ensures { IsTrue result → IsTrue (list_all (is_event_backed pairs.now) (map event_of events.now)) }
{
    for event in events {
        if !is_next(event, pairs, places) {
            return false;
        }
    }
    true
}

/// Whether the answers that were put are a merge of the workers' pairs, each worker's pairs in their order. Then each answer is one of the pairs. It
/// is false, too, if memory was refused.
fn is_merged(alloc: Global, board: &Board, faults: u32, pairs: &[Vec<(FaultSet, bool)>]) -> bool
    ensures { IsTrue result → IsTrue (is_backed board.now faults pairs.now) }
{
    let Ok(mut places) = vec![in alloc; 0usize; pairs.len()] else {
        return false;
    };
    board.faults() == faults && are_in_turn(board.events(), pairs, places.as_mut_slice())
}

/// What `Board::backed` says. That looks at each pair for each answer, so it is asked only if the pairs come in another order than the answers: as a
/// rule, if a worker's answer found no memory.
pub fn is_backed_by(
    alloc: Global,
    board: &Board,
    faults: u32,
    pairs: &[Vec<(FaultSet, bool)>],
) -> bool
    ensures { result ≡ is_backed board.now faults pairs.now }
{
    is_merged(alloc, board, faults, pairs) || board.backed(faults, pairs)
}
