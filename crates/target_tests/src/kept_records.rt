//! Commits whose power cut keeps some of what is pending in the logs. Two participants wish yes, in one transaction or in two. What is pending is each
//! record that its log wasn't forced after, in the order in which the records were made over all logs, and a kept record keeps those before it in its log.

ghost use Rattle.std.specs.Prelude.{◌≡◌, length, IfOk};

use crate::runs::comes_to;
use commit_target::{Commit, LOST, SPLIT, Transactions, Variant, Vote, Votes};
use std::alloc::{AllocError, Global};
use std::process::Abort;
use std::test::Fail;
use target_checks::outcome_of;
use target_trait::{Outcome, Verdict, WithCut};

const PASS: Verdict = Verdict::Pass;

const SPLIT_ENDS: Verdict = Verdict::Fail(SPLIT);

const LOST_COMMIT: Verdict = Verdict::Fail(LOST);

/// The wishes of a transaction.
fn both_yes(alloc: Global) -> Result<Votes, AllocError>
    ensures { IfOk result (λ votes. length votes ≡ 2) }
{
    let mut votes = Vec::new(alloc);
    votes.push(Vote::Yes)?;
    votes.push(Vote::Yes)?;
    Ok(Votes::new(votes))
}

fn one(alloc: Global) -> Result<Transactions, AllocError> {
    let mut transactions = Vec::new(alloc);
    transactions.push(both_yes(alloc)?)?;
    Ok(Transactions::new(2, transactions))
}

fn two(alloc: Global) -> Result<Transactions, AllocError> {
    let mut transactions = Vec::new(alloc);
    transactions.push(both_yes(alloc)?)?;
    transactions.push(both_yes(alloc)?)?;
    Ok(Transactions::new(2, transactions))
}

/// A scenario, the verdict of its run, how many points are asked, those of the cut among them, and how often the cut asks.
type Row = (&'static str, Verdict, usize, usize);

/// A run of a variant comes to this.
fn comes_to_asking(
    rt: &impl Abort,
    alloc: Global,
    variant: Variant,
    workload: &Transactions,
    row: Row,
) -> Result<(), Fail> {
    let (scenario, verdict, asked, keeps) = row;
    let target = &mut WithCut::new(Commit::new(alloc, variant));
    let points = comes_to(rt, alloc, target, workload, (scenario, verdict, keeps))?;
    assert_eq!(rt; points, asked, "at {scenario}");
    Ok(())
}

/// The runs of a variant come to these.
fn come_to(
    rt: &impl Abort,
    alloc: Global,
    variant: Variant,
    workload: &Transactions,
    rows: &[Row],
) -> Result<(), Fail> {
    for row in rows {
        comes_to_asking(rt, alloc, variant, workload, *row)?;
    }
    Ok(())
}

// A pending end record comes after all commit records, and a pending abort record changes no end.
const SOUND: [Row; 9] = [
    // the end record is pending
    ("", PASS, 14, 1),
    ("power::keep=return", PASS, 14, 1),
    ("power::keep=panic", PASS, 14, 1),
    // the abort records of both
    ("commit::force_commit=1*return", PASS, 11, 2),
    (
        "commit::force_commit=1*return;power::keep=1*return",
        PASS,
        11,
        2,
    ),
    (
        "commit::force_commit=1*return;power::keep=1*off->1*return",
        PASS,
        11,
        2,
    ),
    (
        "commit::force_commit=1*return;power::keep=return",
        PASS,
        11,
        2,
    ),
    // nothing is pending: an acknowledgement is missing, or nobody was told
    ("commit::send_ack=1*return;power::keep=return", PASS, 13, 0),
    (
        "commit::send_outcome=1*panic;power::keep=return",
        PASS,
        8,
        0,
    ),
];

#[test]
fn the_sound_variant_survives_each_cut(rt: HostRuntime) -> Result<(), Fail> {
    let workload = one(rt.alloc())?;
    come_to(&rt, rt.alloc(), Variant::Sound, &workload, &SOUND)
}

// The commit record of the second transaction forces what the coordinator has pending of the first. Otherwise that is the first pending record.
const SOUND_TWICE: [Row; 4] = [
    ("power::keep=return", PASS, 27, 1),
    // the first's end record, and then the abort record of the second participant, whose yes alone arrived in the second transaction
    ("commit::send_prepare=2*off->1*return", PASS, 20, 2),
    (
        "commit::send_prepare=2*off->1*return;power::keep=1*return",
        PASS,
        20,
        2,
    ),
    (
        "commit::send_prepare=2*off->1*return;power::keep=1*off->1*return",
        PASS,
        20,
        2,
    ),
];

#[test]
fn records_are_pending_over_all_logs(rt: HostRuntime) -> Result<(), Fail> {
    let workload = two(rt.alloc())?;
    come_to(&rt, rt.alloc(), Variant::Sound, &workload, &SOUND_TWICE)
}

/// The run has this verdict, and asks this many points.
fn ends(rt: &impl Abort, told: &Outcome, verdict: Verdict, asked: usize) {
    assert_eq!(rt; told.verdict, verdict);
    assert_eq!(rt; told.asked.len(), asked);
}

const CUT_SHORT: [Row; 2] = [
    (
        "commit::send_ack=1*off->1*pause;power::keep=return",
        Verdict::Unresolved,
        13,
        0,
    ),
    ("power::keep=1*pause", Verdict::Unresolved, 14, 1),
];

// A pause, and the limit, end a run as everywhere: there is no cut then, and the hit past the limit isn't asked.
#[test]
fn a_run_that_is_cut_short_has_no_cut(rt: HostRuntime) -> Result<(), Fail> {
    let workload = one(rt.alloc())?;
    come_to(&rt, rt.alloc(), Variant::Sound, &workload, &CUT_SHORT)?;
    let target = &mut WithCut::new(Commit::new(rt.alloc(), Variant::Sound));
    for (max_hits, verdict) in [(13, Verdict::Unresolved), (14, PASS)] {
        let told = outcome_of(rt.alloc(), target, &workload, "", max_hits)?;
        ends(&rt, &told, verdict, max_hits as usize);
    }
    Ok(())
}

// A prepare record that wasn't forced is pending until its log is forced. If the outcome doesn't arrive, a kept prepare record makes up for it.
const LAZY_PREPARE: [Row; 7] = [
    // the first participant's, and the second has committed
    ("commit::send_outcome=1*return", SPLIT_ENDS, 12, 1),
    (
        "commit::send_outcome=1*return;power::keep=1*return",
        PASS,
        12,
        1,
    ),
    // both participants'
    ("commit::send_outcome=return", LOST_COMMIT, 11, 2),
    (
        "commit::send_outcome=return;power::keep=1*return",
        SPLIT_ENDS,
        11,
        2,
    ),
    (
        "commit::send_outcome=return;power::keep=1*off->1*return",
        SPLIT_ENDS,
        11,
        2,
    ),
    (
        "commit::send_outcome=return;power::keep=return",
        PASS,
        11,
        2,
    ),
    (
        "commit::send_outcome=1*panic;power::keep=1*off->return",
        SPLIT_ENDS,
        10,
        2,
    ),
];

#[test]
fn lazy_prepare_is_as_the_prepare_records_are_kept(rt: HostRuntime) -> Result<(), Fail> {
    let workload = one(rt.alloc())?;
    come_to(
        &rt,
        rt.alloc(),
        Variant::LazyPrepare,
        &workload,
        &LAZY_PREPARE,
    )
}

// Both prepare records of the first participant are pending, since no outcome arrives there. If the later one is kept, so is the earlier one.
const LAZY_PREPARE_TWICE: [Row; 4] = [
    (
        "commit::send_outcome=1*return->1*off->1*return",
        SPLIT_ENDS,
        24,
        2,
    ),
    (
        "commit::send_outcome=1*return->1*off->1*return;power::keep=1*return",
        SPLIT_ENDS,
        24,
        2,
    ),
    (
        "commit::send_outcome=1*return->1*off->1*return;power::keep=1*off->1*return",
        PASS,
        24,
        2,
    ),
    // the second outcome arrives, and its record forces both
    ("commit::send_outcome=1*return", PASS, 25, 1),
];

#[test]
fn a_kept_record_keeps_those_before_it(rt: HostRuntime) -> Result<(), Fail> {
    let workload = two(rt.alloc())?;
    come_to(
        &rt,
        rt.alloc(),
        Variant::LazyPrepare,
        &workload,
        &LAZY_PREPARE_TWICE,
    )
}

// The end record is pending before anybody is told. If it is kept, a participant that inquires is told abort.
const END_FIRST: [Row; 10] = [
    ("power::keep=return", PASS, 14, 1),
    ("commit::send_outcome=1*return", PASS, 12, 1),
    (
        "commit::send_outcome=1*return;power::keep=1*return",
        SPLIT_ENDS,
        12,
        1,
    ),
    ("commit::send_outcome=1*panic", PASS, 9, 1),
    (
        "commit::send_outcome=1*panic;power::keep=1*return",
        LOST_COMMIT,
        9,
        1,
    ),
    (
        "commit::send_outcome=return;power::keep=return",
        LOST_COMMIT,
        10,
        1,
    ),
    (
        "commit::force_outcome=1*off->1*return;power::keep=return",
        SPLIT_ENDS,
        13,
        1,
    ),
    // both have committed
    ("commit::send_ack=1*return;power::keep=return", PASS, 14, 1),
    // nothing is decided
    (
        "commit::force_commit=1*return;power::keep=return",
        PASS,
        11,
        2,
    ),
    (
        "commit::force_commit=1*panic;power::keep=return",
        PASS,
        7,
        0,
    ),
];

#[test]
fn end_first_is_broken_where_the_end_record_is_kept(rt: HostRuntime) -> Result<(), Fail> {
    let workload = one(rt.alloc())?;
    come_to(&rt, rt.alloc(), Variant::EndFirst, &workload, &END_FIRST)
}

// If an acknowledgement is missing, nothing more is asked, so that no later commit record forces the end record.
const END_FIRST_TWICE: [Row; 5] = [
    ("", PASS, 27, 1),
    ("commit::send_ack=1*return", PASS, 14, 1),
    ("commit::send_outcome=1*return", PASS, 12, 1),
    ("commit::force_outcome=1*off->1*return", PASS, 13, 1),
    // an abort needs no acknowledgement: the second transaction follows, and ends well
    ("commit::send_vote=1*return", PASS, 21, 1),
];

#[test]
fn end_first_gives_up_where_an_acknowledgement_is_missing(rt: HostRuntime) -> Result<(), Fail> {
    let workload = two(rt.alloc())?;
    come_to(
        &rt,
        rt.alloc(),
        Variant::EndFirst,
        &workload,
        &END_FIRST_TWICE,
    )
}
