//! A gate that counts how often each plan arrives, and what the plans came to.

use std::alloc::{AllocError, Global};
use std::sync::atomic::{AtomicU64, Ordering};
use work_gate::{Ended, Gate, Phase, Stage};

/// A gate that holds nobody, and counts the plans that arrive.
#[derive(Drop)]
pub struct Arrivals {
    /// How often each plan arrived, by its number.
    arrived: Vec<AtomicU64>,
    /// Arrivals of numbers that no plan has.
    strangers: AtomicU64,
    /// How many plans were expected, over all calls.
    expected: AtomicU64,
    /// How many plans have ended, as the gate heard, and how many of them fail.
    ended: AtomicU64,
    failing: AtomicU64,
}

impl Arrivals {
    /// A gate for this many plans, none of which has arrived. An error means that memory was refused.
    pub fn new(alloc: Global, plans: u32) -> Result<Self, AllocError> {
        let mut arrived = Vec::new(alloc);
        for _ in 0..plans {
            arrived.push(AtomicU64::new(0))?;
        }
        Ok(Arrivals {
            arrived,
            strangers: AtomicU64::new(0),
            expected: AtomicU64::new(0),
            ended: AtomicU64::new(0),
            failing: AtomicU64::new(0),
        })
    }

    /// Whether the first `count` plans arrived once each, and no other plan did.
    pub fn came_once(&self, plans: usize) -> bool {
        let came = self.arrived.iter().enumerate();
        self.strangers.load(Ordering::SeqCst) == 0
            && came
                .map(|(number, times)| (number < plans, times.load(Ordering::SeqCst)))
                .all(|(comes, times)| times == u64::from(comes))
    }

    /// How many plans were expected.
    pub fn expected(&self) -> u64 {
        self.expected.load(Ordering::SeqCst)
    }

    /// How many plans have ended.
    pub fn ended(&self) -> u64 {
        self.ended.load(Ordering::SeqCst)
    }

    /// How many of these fail.
    pub fn failing(&self) -> u64 {
        self.failing.load(Ordering::SeqCst)
    }
}

impl Gate for Arrivals {
    fn arrive(&self, phase: Phase, number: u32) {
        if phase == Phase::Plans {
            let times = match self.arrived.as_slice().get(number as usize) {
                Some(times) => times,
                None => &self.strangers,
            };
            times.fetch_add(1, Ordering::SeqCst);
        }
    }

    fn expect(&self, _stage: Stage, count: u32) {
        self.expected.fetch_add(u64::from(count), Ordering::SeqCst);
    }

    fn is_watched(&self) -> bool {
        true
    }

    fn ended(&self, ended: Ended) {
        self.ended
            .fetch_add(u64::from(ended.plans), Ordering::SeqCst);
        self.failing
            .fetch_add(u64::from(ended.failing), Ordering::SeqCst);
    }
}
