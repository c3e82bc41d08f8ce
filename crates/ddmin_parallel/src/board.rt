//! A core with the list of its events, and whether answers back that list.
ghost use Rattle.std.specs.Prelude.{◌≡◌, ◌+◌, ◌<◌, ◌≤◌, [], ◌∷◌, ◌++◌, ◌&&◌, if◌then◌else◌, not, map, vec_len, vec_capacity, option_copied};
ghost use Rattle.std.specs.Prelude.{IsTrue, IfOk, OnOk, OnErr, IfErr};
ghost use Rattle.ddmin_parallel.specs.CoreEvents.{position, is_out, Put, GiveBack, Recall};
ghost use Rattle.ddmin_parallel.specs.Requests.{IsFinished, IsPutFault};
ghost use Rattle.std.specs.List.{list_any, list_all};
ghost use Rattle.ddmin_parallel.specs.Logs.{state_of, with_event, log_after_take, log_after_give_back, log_after_recall};
ghost use Rattle.ddmin_parallel.specs.Logs.{is_backed, is_event_backed, is_told, says};
ghost use Rattle.ddmin_parallel.specs.CoreEvents.{next, same_set};
ghost use Rattle.ddmin_parallel.specs.InsideBoard.{event_of};

use crate::fault_set::FaultSet;
use crate::reducer_core::{Core, RequestFault, TestRequest};
use crate::reduction::Reduction;
use std::alloc::{AllocError, Global};
use std::marker::Model;

/// What changed a core. A call that is refused, hands out nothing or changes nothing is no event.
#[derive(Drop)]
pub enum Event {
    /// A set was handed out.
    Take(FaultSet),
    /// A set was answered: whether it fails.
    Put(FaultSet, bool),
    /// A set that was out was given back, unanswered.
    GiveBack(FaultSet),
    /// All sets that were out were given back.
    Recall,
}

/// A core with the list of its events, whose replay it always is.
#[derive(Drop)]
pub struct Board {
    core: Core,
    events: Vec<Event>,
}

impl Model for Board {
    ghost use Rattle.ddmin_parallel.specs.Logs.{Log, log_code};

    ghost Value = { Log };

    ghost coded = { log_code };

    ghost use Rattle.ddmin_parallel.specs.InsideBoard.{log_of, IsBoard};

    ghost view = { log_of };

    ghost invariant = { IsBoard };
}

/// Whether two pairs of a set and its answer are equal.
pub fn is_said(set: &FaultSet, fails: bool, other: &FaultSet, said: bool) -> bool
    ensures { result ≡ (same_set set.now other.now && (if fails then said else not said)) }
{
    let same = set.is(other);
    let agreed = if fails { said } else { !said };
    same && agreed
}

/// Whether a worker's pairs have this answer to the set.
fn is_told_by(set: &FaultSet, fails: bool, told: &[(FaultSet, bool)]) -> bool
    ensures { result ≡ list_any (says set.now fails) told.now }
{
    for pair in told {
        if is_said(set, fails, &pair.0, pair.1) {
            return true;
        }
    }
    false
}

/// Whether some worker's pairs have this answer to the set.
fn is_told_of(set: &FaultSet, fails: bool, pairs: &[Vec<(FaultSet, bool)>]) -> bool
    ensures { result ≡ is_told set.now fails pairs.now }
{
    for told in pairs {
        if is_told_by(set, fails, told.as_slice()) {
            return true;
        }
    }
    false
}

/// Whether an event puts no answer, or one that some worker's pairs have.
fn is_one_backed(event: &Event, pairs: &[Vec<(FaultSet, bool)>]) -> bool
    ensures { result ≡ is_event_backed pairs.now (event_of event.now) }
{
    match event {
        Event::Put(set, fails) => is_told_of(set, *fails, pairs),
        Event::Take(_) | Event::GiveBack(_) | Event::Recall => true,
    }
}

/// Whether each answer that the events put is in some worker's pairs.
fn are_backed(events: &[Event], pairs: &[Vec<(FaultSet, bool)>]) -> bool
    ensures { result ≡ list_all (is_event_backed pairs.now) (map event_of events.now) }
{
    for event in events {
        if !is_one_backed(event, pairs) {
            return false;
        }
    }
    true
}

/// Adds an event, in the place that was reserved for it.
fn note(events: &mut Vec<Event>, event: Event)
    requires { vec_len events.old < vec_capacity events.old }
    ensures items { events.new.items ≡ events.old.items ++ event ∷ [] }
    ensures len { vec_len events.new ≡ vec_len events.old + 1 }
    ensures capacity { vec_capacity events.new ≡ vec_capacity events.old }
{
    events.push_reserved(event);
}

impl Board {
    /// Begins the reduction of the faults `0 .. faults`, with no event yet. There may be up to 4,096 faults. It takes no memory.
    pub fn start(alloc: Global, faults: u32) -> Board
        requires { faults ≤ 4096 }
        ensures { result ≡ record { faults = faults; events = [] } }
    {
        Board {
            core: Core::start(alloc, faults),
            events: Vec::new(alloc),
        }
    }

    pub(crate) fn faults(&self) -> u32
        ensures { result ≡ self.now.faults }
    {
        self.core.faults()
    }

    /// The events, the first one first.
    pub fn events(&self) -> &[Event]
        ensures { map event_of result.now ≡ self.now.events }
    {
        self.events.as_slice()
    }

    /// Hands out the next request, as `Core::take` does. Room for this event and for the one that ends the request is reserved first, so an `Err`
    /// changes nothing.
    pub fn take(&mut self, alloc: Global, ahead: bool) -> Result<Option<TestRequest>, AllocError>
        ensures request { IfOk result (λ request. request ≡ next (state_of self.old) ahead) }
        ensures event { IfOk result (λ request. self.new ≡ log_after_take self.old request) }
        ensures err { OnErr result (self.new ≡ self.old) }
    {
        let Some(room) = self.core.out_len().checked_add(2) else {
            return Err(AllocError);
        };
        self.events.reserve(room)?;
        match self.core.take_two(alloc, ahead)? {
            None => Ok(None),
            Some((request, copy)) => {
                note(&mut self.events, Event::Take(copy));
                Ok(Some(request))
            }
        }
    }

    /// Takes the answer to a request, as `Core::put` does. An `Err` hands the request back and changes nothing.
    pub fn put(
        &mut self,
        alloc: Global,
        request: TestRequest,
        fails: bool,
    ) -> Result<(), RequestFault>
        ensures ok { OnOk result (IsTrue (is_out (state_of self.old) request)) }
        ensures event { OnOk result (self.new ≡ with_event self.old (Put request fails)) }
        ensures err { OnErr result (self.new ≡ self.old) }
        ensures fault { IfErr result (IsPutFault (state_of self.old) request) }
    {
        if !self.core.has_out(request.packed()) {
            return Err(RequestFault::Stranger(request));
        }
        let copy = match request.packed().copied(alloc) {
            Ok(copy) => copy,
            Err(_) => return Err(RequestFault::Memory(request)),
        };
        match self.core.put(alloc, request, fails) {
            Ok(()) => {
                note(&mut self.events, Event::Put(copy, fails));
                Ok(())
            }
            Err(fault) => Err(fault),
        }
    }

    /// Gives a request's set back, unanswered. If the set isn't out, that is no event. It takes no memory.
    pub fn give_back(&mut self, request: TestRequest)
        ensures { self.new ≡ log_after_give_back self.old request }
    {
        let set = request.into_packed();
        if self.core.end_request(&set) {
            note(&mut self.events, Event::GiveBack(set));
        }
    }

    /// Gives all sets back. If none is out, that is no event. It takes no memory.
    pub fn recall(&mut self)
        ensures { self.new ≡ log_after_recall self.old }
    {
        if self.core.out_len() > 0 {
            self.core.recall();
            note(&mut self.events, Event::Recall);
        }
    }

    /// The reduction; `None` as long as the events don't lead to its end. It takes no memory.
    pub fn finished(&self) -> Option<&Reduction>
        ensures { IsFinished (position (state_of self.now)) (option_copied result) }
    {
        self.core.finished()
    }

    /// Whether the board was started with this number of faults, and each answer that was put is one of these pairs of a set and whether it fails.
    pub fn backed(&self, faults: u32, pairs: &[Vec<(FaultSet, bool)>]) -> bool
        ensures { result ≡ is_backed self.now faults pairs.now }
    {
        self.core.faults() == faults && are_backed(self.events.as_slice(), pairs)
    }

    /// The core alone, without the list of its events.
    pub(crate) fn into_core(self) -> Core
        ensures { result ≡ state_of self }
    {
        let Board { core, events } = self;
        drop(events);
        core
    }
}
