//! A campaign of so many plans that workers take them in rows: what the gate hears of them, and the report.
ghost use Rattle.std.specs.Prelude.{◌≤◌};

use crate::running::{reported, settings};
use crate::three_codes::ThreeCodes;
use campaign_core::{Host, Subject};
use std::alloc::Global;
use std::process::Abort;
use std::str;
use std::sync::Wait;
use std::test::Fail;
use std::thread::Threads;
use target_checks::Arrivals;

// The empty plan, one of three for each of the three points, and the storms. They are no whole number of rows of 16.
const STORMS: u32 = 1100;

const PLANS: u32 = 1110;

/// How many plans fail by this report.
fn failing_in(text: &[u8]) -> u64 {
    let Ok(text) = str::from_utf8(text) else {
        return 0;
    };
    let mut failing = 0u64;
    for line in text.lines() {
        if line.starts_with("verdict ") && line.contains(" fail ") {
            failing = failing.saturating_add(1);
        }
    }
    failing
}

/// The report from this many workers, whose gate has seen each plan once and how many fail. The first failure is plan 4, in which the inner point
/// fails alone.
fn counted_report<R: Threads + Wait + Sync + Abort>(
    rt: &R,
    alloc: Global,
    workers: u32,
) -> Result<Vec<u8>, Fail>
    requires some { 1 ≤ workers }
    requires few { workers ≤ 64 }
{
    let gate = Arrivals::new(alloc, PLANS)?;
    let mut settings = settings(alloc, workers, false, Vec::new(alloc));
    settings.storms = STORMS;
    let host = Host {
        rt,
        alloc,
        gate: &gate,
    };
    let subject = Subject {
        target: &ThreeCodes,
        workload: &(),
        settings: &settings,
    };
    let Ok((text, failure)) = reported(&host, &subject) else {
        return Err(Fail::from("no report"));
    };
    assert_eq!(rt; failure, Some(4));
    assert!(rt; gate.came_once(PLANS as usize));
    let told = [gate.expected(), gate.ended(), gate.failing()];
    let plans = u64::from(PLANS);
    assert_eq!(rt; told, [plans, plans, failing_in(text.as_slice())]);
    Ok(text)
}

#[test]
fn many_plans_arrive_once_each(rt: HostRuntime) -> Result<(), Fail> {
    let alloc = rt.alloc();
    let alone = counted_report(&rt, alloc, 1)?;
    let shared = counted_report(&rt, alloc, 4)?;
    assert!(rt; alone.as_slice() == shared.as_slice());
    Ok(())
}
