//! File replacements whose power cut keeps some of what is pending. A file of `old` is replaced once, by the chunks `ne` and `w`: the pending writes
//! are the name of the new file, its two chunks, and the rename, in this order, except what a sync has made last.

use crate::runs::{Row, comes_to};
use file_replace::{Replace, TORN, Variant};
use std::alloc::Global;
use std::process::Abort;
use std::test::Fail;
use target_checks::small_workload;
use target_trait::{Verdict, WithCut};

const TORN_FILE: Verdict = Verdict::Fail(TORN);

const PASS: Verdict = Verdict::Pass;

/// Runs of a variant with their cuts come to these.
fn come_to(rt: &impl Abort, alloc: Global, variant: Variant, rows: &[Row<'_>]) -> Result<(), Fail> {
    let workload = small_workload(alloc)?;
    for row in rows {
        let mut target = WithCut::new(Replace::new(alloc, variant));
        comes_to(rt, alloc, &mut target, &workload, *row)?;
    }
    Ok(())
}

// The file is renamed before it is synced: if the cut keeps the rename alone, `target` holds nothing.
const RENAME_FIRST: [Row<'static>; 4] = [
    (
        "replace::sync=1*return;power::keep=3*off->1*return",
        TORN_FILE,
        4,
    ),
    ("replace::sync=1*return", PASS, 4),
    ("replace::sync=1*return;power::keep=return", PASS, 4),
    ("power::keep=return", PASS, 0),
];

#[test]
fn rename_first_is_torn_where_the_rename_is_kept(rt: HostRuntime) -> Result<(), Fail> {
    come_to(&rt, rt.alloc(), Variant::RenameFirst, &RENAME_FIRST)
}

const LATE_SYNC: [Row<'static>; 4] = [
    (
        "replace::sync_dir=1*return;power::keep=3*off->1*return",
        TORN_FILE,
        4,
    ),
    (
        "replace::sync_dir=1*panic;power::keep=2*off->return",
        TORN_FILE,
        4,
    ),
    // without the cut's answers all is lost, and the old contents are there
    ("replace::sync_dir=1*return", PASS, 4),
    // what was torn without a kept write is torn as before
    ("replace::sync=1*return", TORN_FILE, 2),
];

#[test]
fn late_sync_is_torn_where_the_rename_is_kept(rt: HostRuntime) -> Result<(), Fail> {
    come_to(&rt, rt.alloc(), Variant::LateSync, &LATE_SYNC)
}

// The sound variant has synced the file when it renames it, so that nothing but two names is pending after that.
const SOUND: [Row<'static>; 9] = [
    ("replace::sync_dir=1*return;power::keep=1*return", PASS, 2),
    ("replace::rename=1*panic;power::keep=1*return", PASS, 1),
    (
        "replace::sync_dir=1*return;power::keep=1*off->1*return",
        PASS,
        2,
    ),
    (
        "replace::rename=1*panic;power::keep=1*off->1*return",
        PASS,
        1,
    ),
    ("replace::sync_dir=1*return;power::keep=return", PASS, 2),
    ("replace::rename=1*panic;power::keep=return", PASS, 1),
    ("replace::sync_dir=1*return;power::keep=off", PASS, 2),
    ("replace::rename=1*panic;power::keep=off", PASS, 1),
    ("replace::sync=1*panic;power::keep=1*off->return", PASS, 3),
];

#[test]
fn the_sound_variant_survives_each_cut(rt: HostRuntime) -> Result<(), Fail> {
    come_to(&rt, rt.alloc(), Variant::Sound, &SOUND)
}

// A sync that failed is taken for one that went well: acknowledged, with both chunks pending.
const IGNORE_SYNC: [Row<'static>; 2] = [
    (
        "replace::sync=1*return;power::keep=1*off->1*return",
        TORN_FILE,
        2,
    ),
    ("replace::sync=1*return;power::keep=return", PASS, 2),
];

#[test]
fn ignore_sync_is_torn_where_a_chunk_is_kept(rt: HostRuntime) -> Result<(), Fail> {
    come_to(&rt, rt.alloc(), Variant::IgnoreSync, &IGNORE_SYNC)
}

// There is no file but the one that is replaced: once its name is gone, only what is kept of the new one stands there. Pending are the old name's
// end, the new name, and the two chunks, except what a sync has made last.
const IN_PLACE: [Row<'static>; 8] = [
    (
        "replace::create=1*return;power::keep=1*return",
        TORN_FILE,
        1,
    ),
    // all is lost: the old contents are there
    ("replace::create=1*return", PASS, 1),
    // the old name isn't taken away
    ("replace::clear=1*return;power::keep=return", PASS, 0),
    // half of the first chunk is there, and nothing cleans it up
    ("replace::write=1*return;power::keep=return", TORN_FILE, 3),
    // the file isn't synced, and its name is kept without the chunks, or with both
    (
        "replace::sync=1*return;power::keep=1*off->1*return",
        TORN_FILE,
        4,
    ),
    ("replace::sync=1*return;power::keep=return", PASS, 4),
    // it is synced, and only names are pending
    (
        "replace::sync_dir=1*return;power::keep=1*off->1*return",
        PASS,
        2,
    ),
    ("power::keep=return", PASS, 0),
];

#[test]
fn in_place_is_torn_where_the_end_of_the_old_name_is_kept(rt: HostRuntime) -> Result<(), Fail> {
    come_to(&rt, rt.alloc(), Variant::InPlace, &IN_PLACE)
}
