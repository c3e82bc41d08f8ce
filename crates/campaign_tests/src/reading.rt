//! Readers that give too much, too little at once, or fail.

use crate::late_sync::{LATE_SYNC, LATE_SYNC_REPORT};
use crate::streams::{Answered, Torn, answer, has_ended, whole_run};
use campaign_main::{Exit, LIMIT, ReadFault, read_all};
use std::alloc::{AllocError, Global};
use std::sync::Wait;
use std::test::Fail;
use std::thread::Threads;
use target_checks::Narrow;

// Bytes of one letter. It has no clause, so that no proof writes the bytes out.
fn letters(alloc: Global, count: usize) -> Result<Vec<u8>, AllocError> {
    vec![in alloc; b'#'; count]
}

/// What a campaign comes to if its settings are read a byte at a time and one read fails.
fn torn<H: Threads + Wait + Sync>(rt: &H, alloc: Global, bytes: &[u8], fails_at: u32) -> Answered {
    let mut reader = Torn {
        bytes,
        reads: 0,
        fails_at,
    };
    answer(
        rt,
        alloc,
        &whole_run(),
        &mut reader,
        Narrow::new(alloc, 4096),
    )
}

#[test]
fn refuses_what_cannot_be_read(rt: HostRuntime) {
    for fails_at in 1..=4 {
        let did = torn(&rt, rt.alloc(), b"\xff\xff\xff", fails_at);
        has_ended(&rt, &did, Exit::Refused, b"", b"settings: not readable\n");
    }
}

/// Past the limit, a read that would fail isn't reached.
#[test]
fn reads_a_byte_past_the_limit_and_no_more(rt: HostRuntime) -> Result<(), Fail> {
    assert_eq!(rt; LIMIT, 1_048_576);
    let long = letters(rt.alloc(), LIMIT + 1)?;
    let did = torn(&rt, rt.alloc(), &long, 1_048_578);
    has_ended(&rt, &did, Exit::Refused, b"", b"settings: too long\n");
    Ok(())
}

#[test]
fn reads_on_after_short_reads(rt: HostRuntime) {
    let did = torn(&rt, rt.alloc(), LATE_SYNC.as_bytes(), 0);
    has_ended(&rt, &did, Exit::Found, LATE_SYNC_REPORT.as_bytes(), b"");
}

/// How many bytes the text has that is read from this many.
fn length(alloc: Global, count: usize) -> Result<Result<usize, ReadFault>, AllocError> {
    let bytes = letters(alloc, count)?;
    Ok(read_all(alloc, &mut bytes.as_slice()).map(|text| text.len()))
}

#[test]
fn reads_to_the_end_and_up_to_the_limit(rt: HostRuntime) -> Result<(), Fail> {
    let alloc = rt.alloc();
    assert!(rt; matches!(length(alloc, 0)?, Ok(0)));
    assert!(rt; matches!(length(alloc, LIMIT)?, Ok(1_048_576)));
    assert!(rt; matches!(length(alloc, LIMIT + 1)?, Err(ReadFault::TooLong)));
    Ok(())
}
