//! Requests of a reduction of eight faults, of which two are needed.

use crate::check::{Fault, demand};
use ddmin_parallel::{Board, Core, Event, FaultSet, Reduction, RequestFault, TestRequest};
use std::alloc::{AllocError, Global};

/// The faults 2 and 6, as bits.
const NEEDED: u32 = 0b100_0100;

/// A set of eight faults as bits.
fn bits_of(set: &[u32]) -> u32 {
    set.iter()
        .fold(0, |bits, fault| bits | 1u32.wrapping_shl(*fault))
}

/// The same for a packed set. It takes no memory.
fn packed_bits(set: &FaultSet) -> u32 {
    let mut bits = 0;
    for (first, last) in set.runs() {
        for fault in *first..=*last {
            bits |= 1u32.wrapping_shl(fault);
        }
    }
    bits
}

/// Something that hands out requests and takes their answers.
trait Requests {
    fn take(&mut self, alloc: Global) -> Result<Option<TestRequest>, AllocError>;

    fn put(&mut self, alloc: Global, request: TestRequest, fails: bool) -> Result<(), RequestFault>;

    fn finished(&self) -> Option<&Reduction>;

    /// What else it says of itself, as a number.
    fn mark(&self) -> u64;
}

impl Requests for Core {
    fn take(&mut self, alloc: Global) -> Result<Option<TestRequest>, AllocError> {
        Core::take(self, alloc, true)
    }

    fn put(
        &mut self,
        alloc: Global,
        request: TestRequest,
        fails: bool,
    ) -> Result<(), RequestFault> {
        Core::put(self, alloc, request, fails)
    }

    fn finished(&self) -> Option<&Reduction> {
        Core::finished(self)
    }

    fn mark(&self) -> u64 {
        0
    }
}

/// A number for an event.
fn mark_of(event: &Event) -> u64 {
    match event {
        Event::Take(set) => u64::from(packed_bits(set)) * 4,
        Event::Put(set, false) => u64::from(packed_bits(set)) * 4 + 1,
        Event::Put(set, true) => u64::from(packed_bits(set)) * 4 + 2,
        Event::GiveBack(set) => u64::from(packed_bits(set)) * 4 + 3,
        Event::Recall => u64::MAX,
    }
}

impl Requests for Board {
    fn take(&mut self, alloc: Global) -> Result<Option<TestRequest>, AllocError> {
        Board::take(self, alloc, true)
    }

    fn put(
        &mut self,
        alloc: Global,
        request: TestRequest,
        fails: bool,
    ) -> Result<(), RequestFault> {
        Board::put(self, alloc, request, fails)
    }

    fn finished(&self) -> Option<&Reduction> {
        Board::finished(self)
    }

    fn mark(&self) -> u64 {
        self.events().iter().fold(0u64, |mark, event| {
            mark.wrapping_mul(1025).wrapping_add(mark_of(event))
        })
    }
}

/// What it says of itself.
fn tell<C: Requests>(requests: &C) -> (bool, u64) {
    (requests.finished().is_some(), requests.mark())
}

/// Takes a request, and once more if that is refused.
fn take_again<C: Requests>(alloc: Global, requests: &mut C) -> Result<Option<TestRequest>, Fault> {
    let before = tell(requests);
    if let Ok(request) = requests.take(alloc) {
        return Ok(request);
    }
    demand(tell(requests) == before)?;
    requests.take(alloc).map_err(|_| Fault::Broken)
}

/// Puts the answer to a request, and once more if that is refused and the request has come back.
fn put_again<C: Requests>(
    alloc: Global,
    requests: &mut C,
    request: TestRequest,
) -> Result<(), Fault> {
    let bits = bits_of(request.set());
    let fails = bits & NEEDED == NEEDED;
    let before = tell(requests);
    match requests.put(alloc, request, fails) {
        Ok(()) => Ok(()),
        Err(RequestFault::Stranger(_)) => Err(Fault::Broken),
        Err(RequestFault::Memory(request)) => {
            demand(bits_of(request.set()) == bits && tell(requests) == before)?;
            demand(requests.put(alloc, request, fails).is_ok())
        }
    }
}

/// Answers the requests two by two, the second of each two first, to the end of the reduction.
fn answered<C: Requests>(alloc: Global, requests: &mut C) -> Result<(), Fault> {
    for _ in 0..100u32 {
        let Some(first) = take_again(alloc, requests)? else {
            break;
        };
        if let Some(second) = take_again(alloc, requests)? {
            put_again(alloc, requests, second)?;
        }
        put_again(alloc, requests, first)?;
    }
    let Some(found) = requests.finished() else {
        return Err(Fault::Broken);
    };
    demand(found.kept.as_slice() == [2, 6].as_slice() && found.tests == 29)
}

pub fn cores_requests(alloc: Global) -> Result<(), Fault> {
    answered(alloc, &mut Core::start(alloc, 8))
}

pub fn boards_requests(alloc: Global) -> Result<(), Fault> {
    answered(alloc, &mut Board::start(alloc, 8))
}
