//! The reduction as a function of its events: requests that it hands out, and answers that come in any order. It knows nothing of threads.
ghost use Rattle.std.specs.Prelude.{◌≡◌, ◌≤◌, [], ◌∷◌, ◌++◌, length, IsTrue, IfOk, OnOk, OnErr, IfErr, IfSome, option_copied};
ghost use Rattle.std.specs.FinMap as known_map;
ghost use Rattle.ddmin_parallel.specs.CoreEvents.{begin, apply, position, next, after_take, option_then, is_out, Put, GiveBack, Recall};
ghost use Rattle.ddmin_parallel.specs.inside.CoreStates.{IsLawful, IsSmall, AreOpen};
ghost use Rattle.ddmin_parallel.specs.Requests.{IsPutFault, IsFault, IsFinished};
ghost use Rattle.ddmin_parallel.specs.inside.Stages.{position_of};
ghost use Rattle.ddmin_parallel.specs.inside.Cursors.{is_among, next_at, out_after, moved, stage_after};
ghost use Rattle.ddmin_parallel.specs.inside.Searches.{HasReached, IsSettled, IsStuck};

use crate::fault_set::FaultSet;
use crate::heard::Heard;
use crate::known::Known;
use crate::open::open_set;
use crate::reduction::Reduction;
use crate::sets::{place_of, take_from};
use crate::stage::{Cursor, Stage, advanced};
use std::alloc::{AllocError, Global};
use std::marker::Model;

/// A set of faults that was handed out to be tested.
#[derive(Drop)]
pub struct TestRequest {
    set: Vec<u32>,
    /// The same set, packed, for a board's events.
    packed: FaultSet,
}

impl Model for TestRequest {
    ghost use Rattle.std.specs.Prelude.{ℕ, List};

    ghost Value = { List ℕ };

    ghost view = { λ c. c.set.items };

    ghost use Rattle.ddmin_parallel.specs.inside.Packed.{IsPackedRequest};

    ghost invariant = { IsPackedRequest };
}

impl TestRequest {
    /// The request for a set, given it and the same packed.
    pub(crate) fn of(set: Vec<u32>, packed: FaultSet) -> TestRequest
        requires { packed ≡ set.items }
        ensures { result ≡ set.items }
    {
        TestRequest { set, packed }
    }

    /// The set, ascending.
    pub fn set(&self) -> &[u32]
        ensures { result.now ≡ self.now }
    {
        self.set.as_slice()
    }

    /// The set, packed.
    pub(crate) fn packed(&self) -> &FaultSet
        ensures { result.now ≡ self.now }
    {
        &self.packed
    }

    pub(crate) fn into_packed(self) -> FaultSet
        ensures { result ≡ self }
    {
        self.packed
    }
}

/// Why an answer was refused. The request comes back, and nothing has changed.
#[derive(Drop)]
pub enum RequestFault {
    /// The request's set is not out.
    Stranger(TestRequest),
    /// Memory for the answer was refused.
    Memory(TestRequest),
}

/// A reduction that hands out requests and takes their answers in any order. It is the replay of its events: where it stands and which request comes
/// next depend on them alone.
#[derive(Drop)]
pub struct Core {
    faults: u32,
    progress: Progress,
}

/// How far a reduction has come: what is known, which sets are out, and the stage that it is at, with its cursor.
#[derive(Drop)]
pub(crate) struct Progress {
    pub(crate) known: Known,
    pub(crate) out: Vec<FaultSet>,
    pub(crate) stage: Stage,
    pub(crate) cursor: Cursor,
}

impl Model for Core {
    ghost use Rattle.ddmin_parallel.specs.CoreEvents.{State};
    ghost use Rattle.ddmin_parallel.specs.inside.CoreStates.{state_code};

    ghost Value = { State };

    ghost coded = { state_code };

    ghost use Rattle.ddmin_parallel.specs.inside.Inside.{state_of, IsCore};

    ghost view = { state_of };

    ghost invariant = { IsCore };
}

/// The cursor when a stage has come to a place. If `is_anew` (the stage is new, or a set is now known to fail), the rest of the old cursor doesn't
/// hold any more.
fn moved_cursor(cursor: Cursor, place: usize, is_anew: bool) -> Cursor
    ensures { result ≡ moved cursor place is_anew }
{
    if is_anew {
        Cursor::at(place)
    } else {
        Cursor { place, ..cursor }
    }
}

/// Goes on to the next stage, if there is one.
fn go_on(stage: &mut Stage, next: Option<Stage>)
    ensures { position_of stage.new ≡ position_of (stage_after stage.old next) }
{
    if let Some(next) = next {
        *stage = next;
    }
}

/// Adds an answer to what is known. An `Err` changes nothing.
fn learn(alloc: Global, known: &mut Known, set: &FaultSet, fails: bool) -> Result<(), AllocError>
    ensures ok { OnOk result (known.new ≡ known_map.insert known.old set.now fails) }
    ensures err { OnErr result (known.new ≡ known.old) }
{
    let copy = set.copied(alloc)?;
    known.insert(copy, fails)
}

/// Adds a copy of a set to those that are out, and returns another copy. An `Err` changes nothing.
fn add_out(alloc: Global, out: &mut Vec<FaultSet>, set: &FaultSet) -> Result<FaultSet, AllocError>
    ensures copy { IfOk result (λ other. other ≡ set.now) }
    ensures out { OnOk result (out.new.items ≡ out.old.items ++ set.now ∷ []) }
    ensures err { OnErr result (out.new.items ≡ out.old.items) }
{
    let other = set.copied(alloc)?;
    let copy = set.copied(alloc)?;
    out.reserve(1)?;
    out.push_reserved(copy);
    Ok(other)
}

impl Progress {
    /// Puts an answer among what is known, and moves the stage on. An `Err` changes nothing.
    fn settle(
        &mut self,
        alloc: Global,
        request: TestRequest,
        fails: bool,
    ) -> Result<(), RequestFault>
        requires lawful { IsLawful (position_of self.old.stage) }
        requires small { IsSmall (position_of self.old.stage) }
        requires open_sets { AreOpen self.old.known self.old.out.items }
        requires reached { HasReached self.old self.old.cursor }
        ensures ok { OnOk result (IsSettled self.old request fails self.new) }
        ensures err { OnErr result (self.new ≡ self.old) }
        ensures fault { IfErr result (IsFault self.old.out.items request) }
        ensures reached { HasReached self.new self.new.cursor }
    {
        if place_of(&request.packed, self.out.as_slice()).is_none() {
            return Err(RequestFault::Stranger(request));
        }
        let heard = Heard::of(&self.known, &request.packed, fails);
        let (next, place) = match advanced(alloc, &heard, &self.stage, self.cursor.place) {
            Ok(advance) => advance,
            Err(_) => return Err(RequestFault::Memory(request)),
        };
        match learn(alloc, &mut self.known, &request.packed, fails) {
            Ok(()) => {}
            Err(_) => return Err(RequestFault::Memory(request)),
        }
        take_from(&request.packed, &mut self.out);
        let is_anew = fails | next.is_some();
        self.cursor = moved_cursor(self.cursor, place, is_anew);
        go_on(&mut self.stage, next);
        Ok(())
    }

    /// Hands out the next request, with a copy of its set. An `Err` hands out none.
    fn hand_out(
        &mut self,
        alloc: Global,
        ahead: bool,
    ) -> Result<Option<(TestRequest, FaultSet)>, AllocError>
        requires lawful { IsLawful (position_of self.old.stage) }
        requires small { IsSmall (position_of self.old.stage) }
        requires stuck { IsStuck self.old }
        requires reached { HasReached self.old self.old.cursor }
        ensures request { IfOk result (λ o. option_then (λ r. r.0) o
            ≡ next_at (known_map.get self.old.known) (is_among self.old.out.items) (position_of self.old.stage) ahead) }
        ensures copy { IfOk result (λ o. IfSome o (λ r. r.1 ≡ r.0)) }
        ensures out { IfOk result (λ o. self.new.out.items ≡ out_after self.old.out.items (option_then (λ r. r.0) o)) }
        ensures err { OnErr result (self.new.out.items ≡ self.old.out.items) }
        ensures kept { (self.new.known ≡ self.old.known) × (self.new.stage ≡ self.old.stage) }
        ensures reached { HasReached self.new self.new.cursor }
    {
        let (found, next) = open_set(alloc, self, ahead)?;
        let request = match found {
            None => {
                self.cursor = next;
                return Ok(None);
            }
            Some(request) => request,
        };
        let other = add_out(alloc, &mut self.out, &request.packed)?;
        self.cursor = next;
        Ok(Some((request, other)))
    }
}

impl Core {
    /// Begins the reduction of the faults `0 .. faults`. There may be up to 4,096 faults. It takes no memory.
    pub fn start(alloc: Global, faults: u32) -> Core
        requires { faults ≤ 4096 }
        ensures { result ≡ begin faults }
    {
        let stage = if faults == 0 {
            Stage::End(Reduction {
                kept: Vec::new(alloc),
                tests: 0,
            })
        } else {
            Stage::Empty(faults)
        };
        Core {
            faults,
            progress: Progress {
                known: Known::new(alloc),
                out: Vec::new(alloc),
                stage,
                cursor: Cursor::at(0),
            },
        }
    }

    /// Hands out the next request: the first candidate of the present round that is neither known nor out and doesn't follow one known to fail. If
    /// there is none and `ahead` is on, it does the same one round further. `None` comes only if the core is finished or a request is out. An `Err`
    /// changes nothing.
    pub fn take(&mut self, alloc: Global, ahead: bool) -> Result<Option<TestRequest>, AllocError>
        ensures request { IfOk result (λ request. request ≡ next self.old ahead) }
        ensures event { IfOk result (λ request. self.new ≡ after_take self.old request) }
        ensures err { OnErr result (self.new ≡ self.old) }
    {
        match self.take_two(alloc, ahead)? {
            None => Ok(None),
            Some((request, _)) => Ok(Some(request)),
        }
    }

    /// The same, with a copy of the request's set.
    pub(crate) fn take_two(
        &mut self,
        alloc: Global,
        ahead: bool,
    ) -> Result<Option<(TestRequest, FaultSet)>, AllocError>
        ensures request { IfOk result (λ o. option_then (λ r. r.0) o ≡ next self.old ahead) }
        ensures copy { IfOk result (λ o. IfSome o (λ r. r.1 ≡ r.0)) }
        ensures event { IfOk result (λ o. self.new ≡ after_take self.old (option_then (λ r. r.0) o)) }
        ensures err { OnErr result (self.new ≡ self.old) }
    {
        self.progress.hand_out(alloc, ahead)
    }

    /// Takes the answer to any request that is out. The core moves only as far as the known answers decide every earlier candidate. An `Err` hands
    /// the request back and changes nothing.
    pub fn put(
        &mut self,
        alloc: Global,
        request: TestRequest,
        fails: bool,
    ) -> Result<(), RequestFault>
        ensures ok { OnOk result (IsTrue (is_out self.old request)) }
        ensures event { OnOk result (self.new ≡ apply self.old (Put request fails)) }
        ensures err { OnErr result (self.new ≡ self.old) }
        ensures fault { IfErr result (IsPutFault self.old request) }
    {
        self.progress.settle(alloc, request, fails)
    }

    /// How many faults there are.
    pub fn faults(&self) -> u32
        ensures { result ≡ self.now.faults }
    {
        self.faults
    }

    /// How many sets are out.
    pub(crate) fn out_len(&self) -> usize
        ensures { result ≡ length self.now.out }
    {
        self.progress.out.len()
    }

    /// Whether a set is out.
    pub(crate) fn has_out(&self, set: &FaultSet) -> bool
        ensures { result ≡ is_out self.now set.now }
    {
        place_of(set, self.progress.out.as_slice()).is_some()
    }

    /// Gives back all sets that are out. What is known stays. It takes no memory.
    pub fn recall(&mut self)
        ensures { self.new ≡ apply self.old Recall }
    {
        self.progress.out.clear();
        self.progress.cursor = Cursor::at(self.progress.cursor.place);
    }

    /// Gives a request's set back, unanswered; it will be handed out again. If the set isn't out, that changes nothing. It takes no memory.
    pub fn give_back(&mut self, request: TestRequest)
        ensures { self.new ≡ apply self.old (GiveBack request) }
    {
        self.end_request(&request.packed);
    }

    /// Takes a set from those that are out, and returns whether it was among them.
    pub(crate) fn end_request(&mut self, set: &FaultSet) -> bool
        ensures was { result ≡ is_out self.old set.now }
        ensures event { self.new ≡ apply self.old (GiveBack set.now) }
    {
        let was_out = take_from(set, &mut self.progress.out);
        self.progress.cursor = Cursor::at(self.progress.cursor.place);
        was_out
    }

    /// The reduction; `None` as long as the known answers don't lead to its end. It takes no memory.
    pub fn finished(&self) -> Option<&Reduction>
        ensures { IsFinished (position self.now) (option_copied result) }
    {
        match &self.progress.stage {
            Stage::End(reduction) => Some(reduction),
            Stage::Empty(_) | Stage::Round(_) => None,
        }
    }
}
