use crate::meet::{Meet, Meeting};
use crate::running::{reported, settings};
use campaign_core::{Host, Subject};
use std::alloc::Global;
use std::process::Abort;
use std::rt::Clock;
use std::sync::Wait;
use std::sync::atomic::{AtomicU64, Ordering};
use std::test::Fail;
use std::thread::Threads;
use target_checks::comes_to;
use work_gate::{Gate, Phase};

/// Two that wait for each other, and how many of them waited in vain.
#[derive(Drop)]
struct Pair {
    arrived: [AtomicU64; 2],
    late: AtomicU64,
}

impl Pair {
    fn new() -> Pair {
        Pair {
            arrived: [AtomicU64::new(0), AtomicU64::new(0)],
            late: AtomicU64::new(0),
        }
    }

    fn meet<R: Clock>(&self, rt: &R, is_first: bool) {
        let [first, second] = &self.arrived;
        let (own, other) = if is_first {
            (first, second)
        } else {
            (second, first)
        };
        own.fetch_add(1, Ordering::SeqCst);
        if !comes_to(rt, other, 1) {
            self.late.fetch_add(1, Ordering::SeqCst);
        }
    }

    /// Whether each came once, and neither waited in vain.
    fn has_met(&self) -> bool {
        let [first, second] = &self.arrived;
        first.load(Ordering::SeqCst) == 1
            && second.load(Ordering::SeqCst) == 1
            && self.late.load(Ordering::SeqCst) == 0
    }
}

/// Holds one number of a phase until the next one has arrived, and that one until the first has.
#[derive(Drop)]
struct PairGate<'a, R: Clock> {
    rt: &'a R,
    phase: Phase,
    first: u32,
    second: u32,
    pair: Pair,
}

impl<'a, R: Clock + Sync> Gate for PairGate<'a, R> {
    fn arrive(&self, phase: Phase, number: u32) {
        if phase == self.phase && (number == self.first || number == self.second) {
            self.pair.meet(self.rt, number == self.first);
        }
    }
}

/// Two of a phase meet at the gate, in a campaign of two workers on a target of two points that may not fail together.
fn meet_at_the_gate<R: Clock + Threads + Wait + Sync + Abort>(
    rt: &R,
    alloc: Global,
    phase: Phase,
    first: u32,
    second: u32,
) -> Result<(), Fail> {
    let gate = PairGate {
        rt,
        phase,
        first,
        second,
        pair: Pair::new(),
    };
    let host = Host {
        rt,
        alloc,
        gate: &gate,
    };
    let subject = Subject {
        target: &Meet { rt },
        workload: &Meeting::new(false),
        settings: &settings(alloc, 2, true, Vec::new(alloc)),
    };
    let Ok((_, failure)) = reported(&host, &subject) else {
        return Err(Fail::from("no report"));
    };
    assert_eq!(rt; failure, Some(7));
    assert!(rt; gate.pair.has_met());
    Ok(())
}

// Refuses the wrong bodies all_work_on_one_thread and every_worker_leaves_at_once: the caller's thread arrives at no gate.
#[test]
fn two_meet_at_the_gate(rt: HostRuntime) -> Result<(), Fail> {
    for (phase, first, second) in [
        (Phase::Plans, 1, 2),
        // the requests of a reduction of two faults: none of them, and the first one ahead of its answer
        (Phase::Requests, 0, 1),
    ] {
        meet_at_the_gate(&rt, rt.alloc(), phase, first, second)?;
    }
    Ok(())
}
