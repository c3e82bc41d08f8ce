//! Runs of the journal, on two transactions, of two records and of one, and with power cuts that keep some of what is pending.

use crate::runs::{Row, asks, comes_to};
use journal_target::{Journal, LOST, Records, TORN, Transactions, Variant};
use scenario_grammar::print;
use scenario_values::Text;
use std::alloc::{AllocError, Global};
use std::process::Abort;
use std::test::Fail;
use target_checks::{first_failure, outcome_of};
use target_trait::{ByTable, Target, Verdict, WithCut};

const APPEND: u32 = 0;

const COMMIT: u32 = 1;

const SYNC: u32 = 2;

fn records(alloc: Global, texts: &[&str]) -> Result<Records, AllocError> {
    let mut records = Vec::new(alloc);
    for text in texts {
        records.push(Text::copy_of(alloc, text)?)?;
    }
    Ok(Records::new(records))
}

fn two(alloc: Global) -> Result<Transactions, AllocError> {
    let mut transactions = Vec::new(alloc);
    transactions.push(records(alloc, &["a", "bc"])?)?;
    transactions.push(records(alloc, &["d"])?)?;
    Ok(Transactions::new(transactions))
}

fn three(alloc: Global) -> Result<Transactions, AllocError> {
    let mut transactions = Vec::new(alloc);
    transactions.push(records(alloc, &["a", "bc"])?)?;
    transactions.push(records(alloc, &["d"])?)?;
    transactions.push(records(alloc, &["e", "f"])?)?;
    Ok(Transactions::new(transactions))
}

const ALL: &[u32] = &[
    APPEND, APPEND, SYNC, COMMIT, SYNC, APPEND, SYNC, COMMIT, SYNC,
];

// The first transaction is given up at its second record, the second goes on.
const SECOND_FAILS: &str = "journal::append=1*off->1*return";

const NO_SYNC: &str = "journal::sync=return";

// Nothing lasts but the records of the first transaction.
const ONE_SYNC_ALONE: &str = "journal::sync=1*off->return";

// Without a commit record.
const SHORT: &[u32] = &[APPEND, APPEND, SYNC, APPEND, SYNC];

// With one sync for the records and the commit record.
const ONE_SYNC_EACH: &[u32] = &[APPEND, APPEND, COMMIT, SYNC, APPEND, COMMIT, SYNC];

// A variant and a scenario; the verdict, and the points that are asked. A later sync makes up for one that failed.
const RUNS: [(Variant, &str, Verdict, &[u32]); 12] = [
    (Variant::Sound, "", Verdict::Pass, ALL),
    (
        Variant::Sound,
        SECOND_FAILS,
        Verdict::Pass,
        &[APPEND, APPEND, APPEND, SYNC, COMMIT, SYNC],
    ),
    (Variant::Sound, NO_SYNC, Verdict::Pass, SHORT),
    (
        Variant::Sound,
        ONE_SYNC_ALONE,
        Verdict::Pass,
        &[APPEND, APPEND, SYNC, COMMIT, SYNC, APPEND, SYNC],
    ),
    (Variant::EarlyAck, "", Verdict::Pass, ALL),
    (Variant::EarlyAck, NO_SYNC, Verdict::Pass, SHORT),
    (
        Variant::EarlyAck,
        ONE_SYNC_ALONE,
        Verdict::Fail(LOST),
        &[APPEND, APPEND, SYNC, COMMIT, SYNC, APPEND, SYNC],
    ),
    (
        Variant::EarlyAck,
        "journal::sync=1*off->1*return",
        Verdict::Pass,
        ALL,
    ),
    (Variant::NoCommitRecord, "", Verdict::Pass, SHORT),
    (
        Variant::NoCommitRecord,
        SECOND_FAILS,
        Verdict::Fail(TORN),
        &[APPEND, APPEND, APPEND, SYNC],
    ),
    (Variant::OneSync, "", Verdict::Pass, ONE_SYNC_EACH),
    (Variant::OneSync, NO_SYNC, Verdict::Pass, ONE_SYNC_EACH),
];

#[test]
fn runs_have_their_verdicts(rt: HostRuntime) -> Result<(), Fail> {
    let workload = two(rt.alloc())?;
    for (variant, scenario, verdict, asked) in RUNS {
        let mut journal = ByTable::new(Journal::new(rt.alloc(), variant));
        let told = outcome_of(rt.alloc(), &mut journal, &workload, scenario, 1000)?;
        asks(&rt, &told, verdict, asked, scenario);
    }
    Ok(())
}

/// The variant passes each single fault, or the first that it doesn't pass is printed so.
fn fails_first(
    rt: &impl Abort,
    alloc: Global,
    variant: Variant,
    want: Option<&str>,
) -> Result<(), Fail> {
    let mut journal = ByTable::new(Journal::new(alloc, variant));
    let printed = match first_failure(alloc, &mut journal, &two(alloc)?)? {
        Some(scenario) => Some(print(alloc, &scenario)?),
        None => None,
    };
    assert_eq!(rt; printed.as_ref().map(|text| text.as_str()), want);
    Ok(())
}

// What is pending is lost here, so that one sync for both is as good as two.
#[test]
fn single_faults_show_two_of_the_flaws(rt: HostRuntime) -> Result<(), Fail> {
    for (variant, want) in [
        (Variant::Sound, None),
        (Variant::EarlyAck, Some(ONE_SYNC_ALONE)),
        (Variant::NoCommitRecord, Some(SECOND_FAILS)),
        (Variant::OneSync, None),
    ] {
        fails_first(&rt, rt.alloc(), variant, want)?;
    }
    Ok(())
}

/// The run of a variant with its cut comes to this.
fn with_its_cut(
    rt: &impl Abort,
    alloc: Global,
    variant: Variant,
    workload: &Transactions,
    row: Row<'_>,
) -> Result<(), Fail> {
    let mut journal = WithCut::new(ByTable::new(Journal::new(alloc, variant)));
    comes_to(rt, alloc, &mut journal, workload, row)?;
    Ok(())
}

// Scenarios with what is pending at the end of their runs. First the two records and the commit record of the first transaction, as its only sync
// halts; then the record and the commit record of the second one, as its only sync fails.
const KEPT: [Row<'static>; 8] = [
    ("", Verdict::Pass, 0),
    ("journal::sync=1*panic", Verdict::Pass, 3),
    (
        "journal::sync=1*panic;power::keep=2*off->1*return",
        Verdict::Fail(TORN),
        3,
    ),
    (
        "journal::sync=1*panic;power::keep=1*off->2*return",
        Verdict::Fail(TORN),
        3,
    ),
    (
        "journal::sync=1*panic;power::keep=2*return",
        Verdict::Pass,
        3,
    ),
    ("journal::sync=1*panic;power::keep=return", Verdict::Pass, 3),
    (
        "journal::sync=1*off->1*return;power::keep=1*off->1*return",
        Verdict::Fail(TORN),
        2,
    ),
    (
        "journal::sync=1*off->1*return;power::keep=1*return",
        Verdict::Pass,
        2,
    ),
];

#[test]
fn one_sync_is_torn_where_the_commit_record_is_kept(rt: HostRuntime) -> Result<(), Fail> {
    let workload = two(rt.alloc())?;
    for row in KEPT {
        with_its_cut(&rt, rt.alloc(), Variant::OneSync, &workload, row)?;
    }
    Ok(())
}

// Scenarios with how many appends are pending at the end of the sound journal's runs. The records of the first transaction, if their sync halts, and
// with them that of the second one, if each sync fails. Then the whole commit record of the first and the record of the second; and half of the
// commit record and the record of the second.
const PENDING: [(&str, usize); 5] = [
    ("journal::sync=1*panic", 2),
    ("journal::sync=return", 3),
    ("journal::sync=1*off->1*panic", 1),
    ("journal::sync=1*off->return", 2),
    (
        "journal::append_commit=1*return;journal::sync=1*off->return",
        2,
    ),
];

// Each set of at most three pending appends.
const SETS: [&str; 8] = [
    "off",
    "1*return",
    "1*off->1*return",
    "2*return",
    "2*off->1*return",
    "1*return->1*off->1*return",
    "1*off->2*return",
    "return",
];

#[test]
fn the_sound_variant_survives_each_cut(rt: HostRuntime) -> Result<(), Fail> {
    let workload = two(rt.alloc())?;
    for (faults, pending) in PENDING {
        for set in SETS {
            let scenario = format!(in rt.alloc(); "{faults};power::keep={set}")?;
            let row = (scenario.as_str(), Verdict::Pass, pending);
            with_its_cut(&rt, rt.alloc(), Variant::Sound, &workload, row)?;
        }
    }
    Ok(())
}

// The first transaction is given up at its second record, which is written by half, and the second one at its commit record, of which the mark alone is
// written. The mark is kept, the record behind it is lost, and the one behind that is kept: the mark is followed by zeros, which are the number of no
// transaction. Were the first one numbered 0, it would be taken for committed.
#[test]
fn lost_bytes_commit_no_transaction(rt: HostRuntime) -> Result<(), Fail> {
    let shown = "journal::append=1*off->1*return;journal::append_commit=1*return;\
                 journal::sync=1*off->1*panic;power::keep=1*return->1*off->1*return";
    let workload = three(rt.alloc())?;
    let row = (shown, Verdict::Pass, 3);
    with_its_cut(&rt, rt.alloc(), Variant::Sound, &workload, row)
}

#[test]
fn a_twin_has_the_same_setup(rt: HostRuntime) -> Result<(), Fail> {
    let twin = ByTable::new(Journal::new(rt.alloc(), Variant::EarlyAck)).twin()?;
    assert_eq!(rt; twin.label(), "journal early_ack");
    assert_eq!(rt; ByTable::<Journal>::code_name(TORN), "torn");
    Ok(())
}
