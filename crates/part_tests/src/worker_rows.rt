ghost use Rattle.std.specs.Prelude.{◌≡◌, ◌<◌, ◌≤◌, ◌&&◌, nat_eq};
ghost use Rattle.std.specs.List.{list_any};

use crate::made::{Counts, Culprits};
use crate::plain_rows::{is_found, needs_both};
use crate::probes::has;
use crate::workers::{Size, Twin, reduced_by};
use ddmin_parallel::{Probe, Reduction, reduce_by_core, reduce_plain};
use std::alloc::{AllocError, Global};
use std::rt::Clock;
use std::sync::Wait;
use std::sync::atomic::{AtomicU64, Ordering};
use std::thread;
use std::thread::Threads;
use std::time::Duration;
use work_gate::{FreeGate, Gate, Phase};

const TURNS: u32 = 10_000;

/// Two workers, of eight faults.
const TWO: Size = Size {
    workers: 2,
    faults: 8,
};

/// Two that wait for each other, each for at most this many turns of a millisecond; and how many turns each had left.
#[derive(Drop)]
struct Meeting {
    first: AtomicU64,
    second: AtomicU64,
    late: AtomicU64,
}

impl Meeting {
    fn new() -> Meeting {
        Meeting {
            first: AtomicU64::new(0),
            second: AtomicU64::new(0),
            late: AtomicU64::new(0),
        }
    }

    fn wait_for<R: Clock>(&self, rt: &R, other: &AtomicU64) {
        for _ in 0..TURNS {
            if other.load(Ordering::SeqCst) > 0 {
                return;
            }
            let _slept = thread::sleep(rt, Duration::from_millis(1));
        }
        self.late.fetch_add(1, Ordering::SeqCst);
    }

    fn meet<R: Clock>(&self, rt: &R, is_first: bool) {
        if is_first {
            self.first.fetch_add(1, Ordering::SeqCst);
            self.wait_for(rt, &self.second);
        } else {
            self.second.fetch_add(1, Ordering::SeqCst);
            self.wait_for(rt, &self.first);
        }
    }

    /// Whether both came, and neither waited in vain.
    fn was_held(&self) -> bool {
        self.first.load(Ordering::SeqCst) == 1
            && self.second.load(Ordering::SeqCst) == 1
            && self.late.load(Ordering::SeqCst) == 0
    }
}

/// Holds request 0 until request 1 has arrived, and request 1 until request 0 has.
#[derive(Drop)]
struct MeetingGate<'a, R: Clock> {
    rt: &'a R,
    meeting: &'a Meeting,
}

impl<'a, R: Clock + Sync> Gate for MeetingGate<'a, R> {
    fn arrive(&self, phase: Phase, number: u32) {
        if phase == Phase::Requests && number < 2 {
            self.meeting.meet(self.rt, number == 0);
        }
    }
}

#[test]
fn two_requests_meet_at_the_gate(rt: HostRuntime) -> Result<(), AllocError> {
    let meeting = Meeting::new();
    let gate = MeetingGate {
        rt: &rt,
        meeting: &meeting,
    };
    let found = reduced_by(&rt, rt.alloc(), &gate, &needs_both(2, 6), &TWO)?;
    assert!(&rt; is_found(&found, &[2, 6], 29));
    assert!(&rt; meeting.was_held());
    Ok(())
}

/// A set of eight faults as a number below 256.
fn code_of(set: &[u32]) -> usize {
    let mut code = 0;
    for fault in set {
        if *fault < 8 {
            code |= 1usize << *fault;
        }
    }
    code
}

/// Needs the faults 2 and 6. The tests of the empty set and of the first half of eight faults wait for each
/// other. How often each set was tested stands in a table.
#[derive(Drop)]
struct Meets<'a, R: Clock> {
    rt: &'a R,
    meeting: &'a Meeting,
    asked: &'a [AtomicU64],
}

impl<'a, R: Clock + Sync> Probe for Meets<'a, R> {
    ghost answers = { λ p s. list_any (nat_eq 2) s && list_any (nat_eq 6) s };

    fn test(&mut self, set: &[u32]) -> Result<bool, AllocError> {
        if let Some(asked) = self.asked.get(code_of(set)) {
            asked.fetch_add(1, Ordering::SeqCst);
        }
        if set.is_empty() {
            self.meeting.meet(self.rt, true);
        }
        if set == [0, 1, 2, 3].as_slice() {
            self.meeting.meet(self.rt, false);
        }
        Ok(has(set, 2) && has(set, 6))
    }
}

impl<'a, R: Clock + Sync> Twin for Meets<'a, R> {
    fn twin(&self, alloc: Global) -> Result<Meets<'a, R>, AllocError> {
        let _ = alloc;
        Ok(Meets {
            rt: self.rt,
            meeting: self.meeting,
            asked: self.asked,
        })
    }
}

fn counters(alloc: Global, count: usize) -> Result<Vec<AtomicU64>, AllocError> {
    let mut counters = Vec::new(alloc);
    for _ in 0..count {
        counters.push(AtomicU64::new(0))?;
    }
    Ok(counters)
}

fn are_at_most_one(counters: &[AtomicU64]) -> bool {
    for counter in counters {
        if counter.load(Ordering::SeqCst) > 1 {
            return false;
        }
    }
    true
}

// Wrong bodies: all_work_on_one_thread, every_worker_leaves_at_once, probe_asked_under_the_lock. Each waits in vain, or asks a set twice.
#[test]
fn two_requests_meet_in_the_test(rt: HostRuntime) -> Result<(), AllocError> {
    let meeting = Meeting::new();
    let asked = counters(rt.alloc(), 256)?;
    let probe = Meets {
        rt: &rt,
        meeting: &meeting,
        asked: asked.as_slice(),
    };
    let found = reduced_by(&rt, rt.alloc(), &FreeGate, &probe, &TWO)?;
    assert!(&rt; is_found(&found, &[2, 6], 29));
    assert!(&rt; meeting.was_held());
    assert!(&rt; are_at_most_one(asked.as_slice()));
    Ok(())
}

/// Needs the faults 2 and 6, and refuses its first tests.
#[derive(Drop)]
struct Refuses {
    refusals: u32,
}

impl Probe for Refuses {
    ghost answers = { λ p s. list_any (nat_eq 2) s && list_any (nat_eq 6) s };

    fn test(&mut self, set: &[u32]) -> Result<bool, AllocError> {
        if self.refusals > 0 {
            self.refusals -= 1;
            return Err(AllocError);
        }
        Ok(has(set, 2) && has(set, 6))
    }
}

impl Twin for Refuses {
    fn twin(&self, alloc: Global) -> Result<Refuses, AllocError> {
        let _ = alloc;
        Ok(Refuses {
            refusals: self.refusals,
        })
    }
}

/// The caller's thread finishes what workers that left have not done.
#[test]
fn workers_that_leave(rt: HostRuntime) -> Result<(), AllocError> {
    let alloc = rt.alloc();
    let once = Refuses { refusals: 1 };
    let three = Size {
        workers: 3,
        faults: 8,
    };
    let found = reduced_by(&rt, alloc, &FreeGate, &once, &three)?;
    assert!(&rt; is_found(&found, &[2, 6], 29));
    let always = Refuses { refusals: 1000 };
    assert!(&rt; reduced_by(&rt, alloc, &FreeGate, &always, &three).is_err());
    Ok(())
}

/// The reductions by 1, 2 and 8 workers are this one.
fn is_by_workers<R: Threads + Wait + Sync, P: Twin>(
    rt: &R,
    alloc: Global,
    probe: &P,
    faults: u32,
    plain: &Reduction,
) -> Result<bool, AllocError>
    requires { faults ≤ 4096 }
{
    for workers in [1, 2, 8] {
        let size = Size { workers, faults };
        let found = reduced_by(rt, alloc, &FreeGate, probe, &size)?;
        if !is_found(&found, plain.kept.as_slice(), plain.tests) {
            return Ok(false);
        }
    }
    Ok(true)
}

/// The reductions by the plain recursion, by a core and by 1, 2 and 8 workers are the same.
fn is_the_same<R: Threads + Wait + Sync, P: Twin>(
    rt: &R,
    alloc: Global,
    probe: &mut P,
    faults: u32,
) -> Result<bool, AllocError>
    requires { faults ≤ 4096 }
{
    let plain = reduce_plain(alloc, probe, faults)?;
    let by_core = reduce_by_core(alloc, probe, faults)?;
    if !is_found(&by_core, plain.kept.as_slice(), plain.tests) {
        return Ok(false);
    }
    is_by_workers(rt, alloc, probe, faults, &plain)
}

/// Numbers that look random, one after the other: Knuth's multiplier for 64 bits, and its upper half.
#[derive(Drop)]
struct Numbers {
    state: u64,
}

impl Numbers {
    fn next(&mut self) -> u32 {
        self.state = self
            .state
            .wrapping_mul(6364136223846793005)
            .wrapping_add(1442695040888963407);
        (self.state >> 32) as u32
    }
}

/// Draws the culprits: about one in eight faults.
fn made_culprits(
    alloc: Global,
    numbers: &mut Numbers,
    faults: u32,
) -> Result<Culprits, AllocError> {
    let mut all = Vec::new(alloc);
    for fault in 0..faults {
        if numbers.next() % 8 == 0 {
            all.push(fault)?;
        }
    }
    Ok(Culprits { all })
}

#[test]
fn made_sets_of_culprits(rt: HostRuntime) -> Result<(), AllocError> {
    let alloc = rt.alloc();
    let mut numbers = Numbers { state: 20261122 };
    for _ in 0..100 {
        let faults = numbers.next() % 40;
        let mut probe = made_culprits(alloc, &mut numbers, faults)?;
        assert!(&rt; is_the_same(&rt, alloc, &mut probe, faults)?);
    }
    Ok(())
}

fn made_counts(numbers: &mut Numbers) -> Counts {
    Counts {
        step: numbers.next() % 4 + 1,
        rest: numbers.next() % 4,
        divisor: numbers.next() % 4 + 2,
        wanted: numbers.next() % 4,
    }
}

#[test]
fn made_tests_of_no_shape(rt: HostRuntime) -> Result<(), AllocError> {
    let alloc = rt.alloc();
    let mut numbers = Numbers { state: 1126 };
    for _ in 0..100 {
        let faults = numbers.next() % 40;
        let mut probe = made_counts(&mut numbers);
        assert!(&rt; is_the_same(&rt, alloc, &mut probe, faults)?);
    }
    Ok(())
}
