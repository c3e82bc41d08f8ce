//! A wait for another thread.

use std::rt::Clock;
use std::sync::atomic::{AtomicU64, Ordering};
use std::thread;
use std::time::Duration;

/// How often a wait looks. It sleeps a millisecond after each look.
const TURNS: u32 = 10_000;

/// Whether a count that other threads raise comes to this much within some ten seconds. With it, a test that expects two threads to meet fails if
/// they don't, and doesn't wait for ever.
pub fn comes_to<C: Clock>(clock: &C, count: &AtomicU64, wanted: u64) -> bool {
    for _ in 0..TURNS {
        if count.load(Ordering::SeqCst) >= wanted {
            return true;
        }
        let _slept = thread::sleep(clock, Duration::from_millis(1));
    }
    false
}
