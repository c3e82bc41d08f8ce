//! Writers that take few bytes at a time, and writers that fail.

use crate::late_sync::{LATE_SYNC, LATE_SYNC_REPORT};
use crate::streams::{Answered, answer, has_ended, whole_run};
use campaign_main::{Exit, FreeGate, Host, Order, Out, Which, perform, status};
use std::alloc::Global;
use std::process::Abort;
use std::sync::Wait;
use std::test::Fail;
use std::thread::Threads;
use target_checks::{Narrow, Trouble};

/// What a command comes to over this writer.
fn written<H: Threads + Wait + Sync>(
    rt: &H,
    alloc: Global,
    order: &Order,
    writer: Narrow,
) -> Answered {
    answer(rt, alloc, order, &mut LATE_SYNC.as_bytes(), writer)
}

/// The output ends after this text, and the fault says so.
fn ends_after(rt: &impl Abort, alloc: Global, did: &Answered, text: &[u8]) -> Result<(), Fail> {
    let written = text.len();
    assert!(rt; did.has_failed);
    let line = format!(in alloc; "write failed after {written} bytes\n")?;
    has_ended(rt, did, Exit::Write(written as u64), text, line.as_bytes());
    Ok(())
}

/// What goes wrong at a write.
const TROUBLES: [Trouble; 3] = [Trouble::Broken, Trouble::Interrupted, Trouble::TakesNothing];

/// A writer of one byte a write, which goes wrong at each write of the report in turn, in one of three ways after the other.
#[test]
fn tells_what_was_written(rt: HostRuntime) -> Result<(), Fail> {
    let text = LATE_SYNC_REPORT.as_bytes();
    let order = whole_run();
    for count in 0..text.len() {
        let fails_at = (count as u64).saturating_add(1);
        let writer = Narrow::failing(rt.alloc(), 1, fails_at, TROUBLES[count % 3]);
        let did = written(&rt, rt.alloc(), &order, writer);
        ends_after(&rt, rt.alloc(), &did, &text[..count])?;
    }
    Ok(())
}

#[test]
fn each_command_tells_what_was_written(rt: HostRuntime) -> Result<(), Fail> {
    let alloc = rt.alloc();
    let orders = [
        (whole_run(), "target rep"),
        (Order::Plans, "plan 0 non"),
        (
            Order::Try(Which::Scenario(String::new(alloc))),
            "verdict pa",
        ),
        (
            Order::Reduce(Which::Scenario(String::new(alloc))),
            "verdict pa",
        ),
    ];
    for (order, front) in &orders {
        let writer = Narrow::failing(alloc, 10, 2, Trouble::Broken);
        let did = written(&rt, alloc, order, writer);
        ends_after(&rt, alloc, &did, front.as_bytes())?;
    }
    Ok(())
}

/// A writer of one byte a write gets the whole report.
#[test]
fn narrow_writer_gets_the_whole_report(rt: HostRuntime) {
    let writer = Narrow::new(rt.alloc(), 1);
    let did = written(&rt, rt.alloc(), &whole_run(), writer);
    assert!(rt; !did.has_failed);
    has_ended(&rt, &did, Exit::Found, LATE_SYNC_REPORT.as_bytes(), b"");
}

/// The end of a command that is refused and whose line can't be written.
#[test]
fn a_line_that_cannot_be_written_changes_no_end(rt: HostRuntime) {
    let mut output = Out::new(Vec::new(rt.alloc()));
    let mut faults = Out::new(Narrow::new(rt.alloc(), 0));
    let mut reader = b"".as_slice();
    let host = Host {
        rt: &rt,
        alloc: rt.alloc(),
        gate: &FreeGate,
    };
    let exit = perform(&host, &whole_run(), &mut reader, &mut output, &mut faults);
    assert_eq!(rt; exit, Exit::Refused);
}

#[test]
fn ends_have_their_statuses(rt: HostRuntime) {
    let ends = [
        Exit::Kept,
        Exit::Found,
        Exit::Refused,
        Exit::Memory,
        Exit::Write(7),
        Exit::Doubted,
    ];
    for (end, want) in ends.iter().zip([0, 1, 2, 3, 4, 5]) {
        assert_eq!(rt; status(end), want);
    }
}
