//! Deliveries whose power cut keeps some of what is pending. One message is delivered, in the chunks `He` and `llo`. Each row is a scenario with the
//! verdict of its run, and with how often the cut asks: once for each pending write, in the order in which they were made.

use crate::runs::{Row, comes_to};
use maildir_target::{Maildir, Messages, TORN, Variant};
use scenario_values::{Chunks, Text};
use std::alloc::{AllocError, Global};
use std::process::Abort;
use std::test::Fail;
use target_checks::outcome_of;
use target_trait::{Verdict, WithCut};

const PASS: Verdict = Verdict::Pass;

const TORN_MAIL: Verdict = Verdict::Fail(TORN);

/// The message.
fn one_message(alloc: Global) -> Result<Messages, AllocError> {
    let mut chunks = Vec::new(alloc);
    chunks.push(Text::copy_of(alloc, "He")?)?;
    chunks.push(Text::copy_of(alloc, "llo")?)?;
    let mut messages = Vec::new(alloc);
    messages.push(Chunks::new(alloc, chunks.as_slice())?)?;
    Ok(Messages::new(messages))
}

/// Runs of a variant with their cuts come to these.
fn come_to(rt: &impl Abort, alloc: Global, variant: Variant, rows: &[Row<'_>]) -> Result<(), Fail> {
    let workload = one_message(alloc)?;
    let mut target = WithCut::new(Maildir::new(alloc, variant));
    for row in rows {
        comes_to(rt, alloc, &mut target, &workload, *row)?;
    }
    Ok(())
}

// The name under `tmp/`, the chunks, the name under `new/` and the end of that under `tmp/`. The chunks are synced before the link is made.
const SOUND: [Row<'static>; 11] = [
    ("power::keep=return", PASS, 0),
    ("maildir::sync_dir=1*return", PASS, 3),
    (
        "maildir::sync_dir=1*return;power::keep=1*off->1*return",
        PASS,
        3,
    ),
    (
        "maildir::sync_dir=1*return;power::keep=2*off->1*return",
        PASS,
        3,
    ),
    ("maildir::sync_dir=1*panic;power::keep=return", PASS, 3),
    ("maildir::link=1*panic;power::keep=return", PASS, 1),
    ("maildir::sync=1*panic;power::keep=1*off->return", PASS, 3),
    // half of `He` is left in a file without a name
    ("maildir::write=1*return;power::keep=return", PASS, 1),
    // two attempts of which nothing lasts: for each a name, two chunks, and the end of the name
    ("maildir::sync=return;power::keep=return", PASS, 8),
    ("maildir::sync=return;power::keep=4*off->1*return", PASS, 8),
    // a run that is cut short has no cut
    (
        "maildir::sync=1*pause;power::keep=return",
        Verdict::Unresolved,
        0,
    ),
];

#[test]
fn the_sound_delivery_survives_each_cut(rt: HostRuntime) -> Result<(), Fail> {
    come_to(&rt, rt.alloc(), Variant::Sound, &SOUND)
}

// The name under `new/` is the second pending write, before any chunk.
const LINK_FIRST: [Row<'static>; 11] = [
    ("power::keep=return", PASS, 0),
    ("maildir::write=1*panic", PASS, 2),
    ("maildir::write=1*panic;power::keep=1*return", PASS, 2),
    (
        "maildir::write=1*panic;power::keep=1*off->1*return",
        TORN_MAIL,
        2,
    ),
    ("maildir::write=1*panic;power::keep=return", TORN_MAIL, 2),
    // with one of its chunks, with both, and both without it
    (
        "maildir::sync=1*panic;power::keep=1*off->2*return",
        TORN_MAIL,
        4,
    ),
    ("maildir::sync=1*panic;power::keep=1*off->return", PASS, 4),
    ("maildir::sync=1*panic;power::keep=2*off->return", PASS, 4),
    // both are synced
    (
        "maildir::unlink=1*panic;power::keep=1*off->1*return",
        PASS,
        2,
    ),
    // the first attempt's name lasts with the second one's, and of its file nothing, or half a chunk
    ("maildir::write=1*return", TORN_MAIL, 1),
    ("maildir::write=1*return;power::keep=return", TORN_MAIL, 1),
];

#[test]
fn link_first_is_torn_where_the_link_is_kept(rt: HostRuntime) -> Result<(), Fail> {
    come_to(&rt, rt.alloc(), Variant::LinkFirst, &LINK_FIRST)
}

// The name under `new/` is the first pending write, and the chunks follow.
const DELIVER_IN_NEW: [Row<'static>; 15] = [
    ("power::keep=return", PASS, 0),
    ("maildir::write=1*panic", PASS, 1),
    ("maildir::write=1*panic;power::keep=1*return", TORN_MAIL, 1),
    // without its chunks, with all, and they without it
    ("maildir::sync=1*panic;power::keep=1*return", TORN_MAIL, 3),
    ("maildir::sync=1*panic;power::keep=return", PASS, 3),
    ("maildir::sync=1*panic;power::keep=1*off->return", PASS, 3),
    // the second chunk behind zeros
    (
        "maildir::sync=1*panic;power::keep=1*return->1*off->1*return",
        TORN_MAIL,
        3,
    ),
    // both are synced
    ("maildir::sync_dir=1*return;power::keep=return", PASS, 1),
    ("maildir::link=return;power::keep=return", PASS, 0),
    // the first name is taken away, and the second attempt's directory is synced, or isn't: then the first name may be kept, and its end lost
    ("maildir::sync=1*return;power::keep=return", PASS, 2),
    (
        "maildir::sync=1*return;maildir::sync_dir=1*return;power::keep=1*return",
        TORN_MAIL,
        5,
    ),
    (
        "maildir::sync=1*return;maildir::sync_dir=1*return;power::keep=return",
        PASS,
        5,
    ),
    (
        "maildir::sync=1*return;maildir::sync_dir=1*return;power::keep=4*off->1*return",
        PASS,
        5,
    ),
    // it can't be taken away, and nothing more is asked
    ("maildir::sync=1*return;maildir::unlink=1*return", PASS, 3),
    (
        "maildir::sync=1*return;maildir::unlink=1*return;power::keep=1*return",
        TORN_MAIL,
        3,
    ),
];

#[test]
fn deliver_in_new_is_torn_where_the_name_is_kept(rt: HostRuntime) -> Result<(), Fail> {
    come_to(&rt, rt.alloc(), Variant::DeliverInNew, &DELIVER_IN_NEW)
}

// Scenarios, and the points that are asked: of the seven no link, and an unlink to clean up alone.
const POINTS: [(&str, &[u32]); 3] = [
    ("", &[0, 1, 2, 2, 3, 6]),
    (
        "maildir::sync=1*return",
        &[0, 1, 2, 2, 3, 5, 0, 1, 2, 2, 3, 6],
    ),
    (
        "maildir::sync=1*return;maildir::unlink=1*return",
        &[0, 1, 2, 2, 3, 5],
    ),
];

#[test]
fn deliver_in_new_links_nothing(rt: HostRuntime) -> Result<(), Fail> {
    let alloc = rt.alloc();
    let workload = one_message(alloc)?;
    let mut target = Maildir::new(alloc, Variant::DeliverInNew);
    for (scenario, points) in POINTS {
        let told = outcome_of(alloc, &mut target, &workload, scenario, 1000)?;
        assert_eq!(rt; told.asked.as_slice(), points, "at {scenario}");
    }
    Ok(())
}
