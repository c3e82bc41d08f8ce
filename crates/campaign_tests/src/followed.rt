//! Answers that are followed, from readers that give them a byte at a time, and to writers that go wrong.

use crate::streams::{Answered, Torn, has_ended};
use campaign_main::{Exit, Out, Sink, perform_follow};
use std::alloc::Global;
use target_checks::{Narrow, Trouble};

const SETTINGS: &str = "\
target = \"outside\"
depth = 1
[outside]
label = \"one point\"
codes = [\"lost\"]
points = [\"a\"]
";

/// 12, 18 and 17 bytes.
const ANSWERS: &str = "pass\tnone\ta\npass\ta=1*return\ta\npass\ta=1*panic\ta\n";

/// What following comes to, over answers that are read a byte at a time. One of the reads, counted from 1, fails; at 0 none does.
fn followed(alloc: Global, answers: &str, fails_at: u32, writer: Narrow) -> Answered {
    let mut reader = Torn {
        bytes: answers.as_bytes(),
        reads: 0,
        fails_at,
    };
    let mut output = Out::new(writer);
    let mut faults = Out::new(Vec::new(alloc));
    let mut settings = SETTINGS.as_bytes();
    let exit = perform_follow(alloc, &mut settings, &mut reader, &mut output, &mut faults);
    let has_failed = output.failed();
    Answered {
        exit,
        output: output.into_writer().bytes,
        has_failed,
        fault: faults.into_writer(),
    }
}

#[test]
fn asks_for_each_scenario_once(rt: HostRuntime) {
    let did = followed(rt.alloc(), ANSWERS, 0, Narrow::new(rt.alloc(), 4096));
    has_ended(&rt, &did, Exit::Kept, b"none\na=1*return\na=1*panic\n", b"");
}

/// The first twelve reads give the line of `none`.
#[test]
fn asks_for_what_was_known_before_a_read_failed(rt: HostRuntime) {
    let fault = b"answers: not readable\n";
    for fails_at in 1..=12 {
        let did = followed(rt.alloc(), ANSWERS, fails_at, Narrow::new(rt.alloc(), 3));
        has_ended(&rt, &did, Exit::Refused, b"none\n", fault);
    }
    for fails_at in 13..=47 {
        let did = followed(rt.alloc(), ANSWERS, fails_at, Narrow::new(rt.alloc(), 3));
        has_ended(
            &rt,
            &did,
            Exit::Refused,
            b"none\na=1*return\na=1*panic\n",
            fault,
        );
    }
}

/// Nothing is left after the last answer, so a read behind it isn't made.
#[test]
fn reads_no_more_once_nothing_is_left(rt: HostRuntime) {
    let did = followed(rt.alloc(), ANSWERS, 48, Narrow::new(rt.alloc(), 4096));
    has_ended(&rt, &did, Exit::Kept, b"none\na=1*return\na=1*panic\n", b"");
}

#[test]
fn refuses_a_line_without_its_end_at_the_end_alone(rt: HostRuntime) {
    let did = followed(
        rt.alloc(),
        "pass\tnone\ta",
        0,
        Narrow::new(rt.alloc(), 4096),
    );
    has_ended(
        &rt,
        &did,
        Exit::Refused,
        b"none\n",
        b"answers: line 1: not ended; a line feed is missing, so the line may have been cut off: delete it\n",
    );
}

/// The first look writes 5 bytes by two writes of up to 4, and the second begins with the third write.
#[test]
fn counts_what_all_looks_wrote(rt: HostRuntime) {
    for (fails_at, written) in [(1, 0), (2, 4), (3, 5), (4, 9), (8, 25)] {
        let writer = Narrow::failing(rt.alloc(), 4, fails_at, Trouble::Broken);
        let did = followed(rt.alloc(), ANSWERS, 0, writer);
        let whole = b"none\na=1*return\na=1*panic\n";
        assert_eq!(rt; did.exit, Exit::Write(written));
        assert_eq!(rt; did.output.as_slice(), &whole[..written as usize]);
        assert!(rt; did.has_failed);
    }
}
