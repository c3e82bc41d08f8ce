//! The sink of a campaign's text, and the gate that holds nobody.

use std::process::Abort;
use std::test::Fail;
use target_checks::{Narrow, Trouble};
use target_trait::{Out, Sink};
use work_gate::{FreeGate, Gate, Phase};

/// What is written, what is reported of it, and whether the sink has failed then.
type Row = (&'static [u8], Result<usize, ()>, bool);

/// These are written, one after the other, and reported so.
fn writes<S: Sink>(rt: &impl Abort, out: &mut S, rows: &[Row]) {
    for (bytes, told, has_failed) in rows {
        assert!(rt; out.write(bytes) == *told, "{told:?}");
        assert!(rt; out.failed() == *has_failed, "{told:?}");
    }
}

#[test]
fn tells_what_was_written(rt: HostRuntime) -> Result<(), Fail> {
    let mut out = Out::new(Vec::from_slice(rt.alloc(), b"a")?);
    writes(&rt, &mut out, &[(b"bc", Ok(2), false), (b"", Ok(0), false)]);
    assert_eq!(rt; out.into_writer().as_slice(), b"abc".as_slice());
    Ok(())
}

#[test]
fn stays_failed_after_an_error(rt: HostRuntime) {
    let mut out = Out::new(Narrow::failing(rt.alloc(), 2, 2, Trouble::Interrupted));
    let rows: [Row; 3] = [
        (b"abc", Ok(2), false),
        (b"c", Err(()), true),
        (b"c", Ok(1), true),
    ];
    writes(&rt, &mut out, &rows);
}

#[test]
fn fails_where_bytes_are_not_taken(rt: HostRuntime) {
    let mut out = Out::new(Narrow::new(rt.alloc(), 0));
    writes(&rt, &mut out, &[(b"", Ok(0), false), (b"c", Ok(0), true)]);
}

#[test]
fn the_free_gate_holds_nobody() {
    FreeGate.arrive(Phase::Plans, 0);
    FreeGate.arrive(Phase::Requests, u32::MAX);
}
