//! What the bundled targets say of their pending writes: a line for each write for which the power cut of a run asks, in the order in which the
//! writes were made.
ghost use Rattle.std.specs.Prelude.{◌≡◌, length, IfOk};

use commit_target::{Commit, Transactions, Variant as Committing, Vote, Votes};
use file_replace::{Replace, Variant as Replacing};
use maildir_target::{Maildir, Messages, Variant as Delivering};
use scenario_grammar::parse;
use scenario_values::{Chunks, Scenario, Text};
use std::alloc::{AllocError, Global};
use std::process::Abort;
use std::test::Fail;
use target_checks::small_workload;
use target_trait::Case;

/// A run under a scenario.
fn case_of(scenario: &Scenario) -> Case<'_> {
    Case {
        scenario,
        seed: 7,
        stream: 0,
        max_hits: 1000,
    }
}

/// The lines are these.
fn are(rt: &impl Abort, calls: &[String], lines: &[&str], scenario: &str) {
    assert_eq!(rt; calls.len(), lines.len(), "at {scenario}");
    for (call, line) in calls.iter().zip(lines) {
        assert_eq!(rt; call.as_str(), *line, "at {scenario}");
    }
}

/// The lines of a run.
type Lines = &'static [&'static str];

const RENAMED: Lines = &[
    "create tmp",
    "append tmp 0",
    "append tmp 2",
    "rename tmp target",
];

// A variant and a scenario, and the lines. A sync makes the chunks last, and that of the directory the names. What the cut keeps or loses changes
// no line.
const REPLACED: [(Replacing, &str, Lines); 8] = [
    (Replacing::Sound, "", &[]),
    (
        Replacing::Sound,
        "replace::sync_dir=1*return",
        &["create tmp", "rename tmp target"],
    ),
    (
        Replacing::Sound,
        "replace::write=1*return",
        &["create tmp", "append tmp 0", "unlink tmp"],
    ),
    (
        Replacing::Sound,
        "replace::write=1*off->1*pause",
        &["create tmp", "append tmp 0"],
    ),
    (
        Replacing::RetryWrite,
        "replace::write=1*return;replace::sync=1*panic",
        &["create tmp", "append tmp 0", "append tmp 1", "append tmp 3"],
    ),
    (Replacing::RenameFirst, "replace::sync=1*return", RENAMED),
    (
        Replacing::RenameFirst,
        "replace::sync=1*return;power::keep=3*off->1*return",
        RENAMED,
    ),
    (
        Replacing::InPlace,
        "replace::sync=1*return",
        &[
            "unlink target",
            "create target",
            "append target 0",
            "append target 2",
        ],
    ),
];

#[test]
fn a_replacement_tells_its_writes(rt: HostRuntime) -> Result<(), Fail> {
    let alloc = rt.alloc();
    let workload = small_workload(alloc)?;
    for (variant, scenario, lines) in REPLACED {
        let faults = parse(alloc, scenario)?;
        let mut target = Replace::new(alloc, variant);
        let calls = target.pending_calls(alloc, &workload, &case_of(&faults))?;
        are(&rt, calls.as_slice(), lines, scenario);
    }
    Ok(())
}

/// A message of the chunks `He` and `llo`.
fn letter(alloc: Global) -> Result<Chunks, AllocError> {
    let mut chunks = Vec::new(alloc);
    chunks.push(Text::copy_of(alloc, "He")?)?;
    chunks.push(Text::copy_of(alloc, "llo")?)?;
    Chunks::new(alloc, chunks.as_slice())
}

fn one_letter(alloc: Global) -> Result<Messages, AllocError> {
    let mut messages = Vec::new(alloc);
    messages.push(letter(alloc)?)?;
    Ok(Messages::new(messages))
}

fn two_letters(alloc: Global) -> Result<Messages, AllocError> {
    let mut messages = Vec::new(alloc);
    messages.push(letter(alloc)?)?;
    messages.push(letter(alloc)?)?;
    Ok(Messages::new(messages))
}

/// Deliveries have these lines.
fn delivering_tells(
    rt: &impl Abort,
    alloc: Global,
    workload: &Messages,
    rows: &[(Delivering, &str, Lines)],
) -> Result<(), Fail> {
    for (variant, scenario, lines) in rows {
        let faults = parse(alloc, scenario)?;
        let mut target = Maildir::new(alloc, *variant);
        let calls = target.pending_calls(alloc, workload, &case_of(&faults))?;
        are(rt, calls.as_slice(), lines, scenario);
    }
    Ok(())
}

const DELIVERED: [(Delivering, &str, Lines); 4] = [
    (
        Delivering::Sound,
        "maildir::sync=1*panic",
        &["create tmp/1.1", "append tmp/1.1 0", "append tmp/1.1 2"],
    ),
    // of the first attempt half a chunk is left, and the second lasts
    (
        Delivering::Sound,
        "maildir::write=1*return",
        &["append tmp/1.1 0"],
    ),
    (
        Delivering::Sound,
        "maildir::sync=return",
        &[
            "create tmp/1.1",
            "append tmp/1.1 0",
            "append tmp/1.1 2",
            "unlink tmp/1.1",
            "create tmp/1.2",
            "append tmp/1.2 0",
            "append tmp/1.2 2",
            "unlink tmp/1.2",
        ],
    ),
    (
        Delivering::DeliverInNew,
        "maildir::sync=1*return;maildir::unlink=1*return",
        &["create new/1.1", "append new/1.1 0", "append new/1.1 2"],
    ),
];

const DELIVERED_TWICE: [(Delivering, &str, Lines); 1] = [(
    Delivering::Sound,
    "maildir::sync_dir=return",
    &[
        "create tmp/1.1",
        "link tmp/1.1 new/1.1",
        "unlink tmp/1.1",
        "create tmp/2.1",
        "link tmp/2.1 new/2.1",
        "unlink tmp/2.1",
    ],
)];

#[test]
fn a_delivery_tells_its_writes(rt: HostRuntime) -> Result<(), Fail> {
    let alloc = rt.alloc();
    delivering_tells(&rt, alloc, &one_letter(alloc)?, &DELIVERED)?;
    delivering_tells(&rt, alloc, &two_letters(alloc)?, &DELIVERED_TWICE)
}

/// The wishes of a transaction of two participants.
fn both_yes(alloc: Global) -> Result<Votes, AllocError>
    ensures { IfOk result (λ votes. length votes ≡ 2) }
{
    let mut votes = Vec::new(alloc);
    votes.push(Vote::Yes)?;
    votes.push(Vote::Yes)?;
    Ok(Votes::new(votes))
}

fn one_agreed(alloc: Global) -> Result<Transactions, AllocError> {
    let mut transactions = Vec::new(alloc);
    transactions.push(both_yes(alloc)?)?;
    Ok(Transactions::new(2, transactions))
}

fn two_agreed(alloc: Global) -> Result<Transactions, AllocError> {
    let mut transactions = Vec::new(alloc);
    transactions.push(both_yes(alloc)?)?;
    transactions.push(both_yes(alloc)?)?;
    Ok(Transactions::new(2, transactions))
}

/// Commits have these lines.
fn committing_tells(
    rt: &impl Abort,
    alloc: Global,
    workload: &Transactions,
    rows: &[(Committing, &str, Lines)],
) -> Result<(), Fail> {
    for (variant, scenario, lines) in rows {
        let faults = parse(alloc, scenario)?;
        let mut target = Commit::new(alloc, *variant);
        let calls = target.pending_calls(alloc, workload, &case_of(&faults))?;
        are(rt, calls.as_slice(), lines, scenario);
    }
    Ok(())
}

const ENDED: Lines = &["append coordinator end 1"];

const COMMITTED: [(Committing, &str, Lines); 3] = [
    (Committing::Sound, "", ENDED),
    (Committing::EndFirst, "commit::send_outcome=1*return", ENDED),
    (
        Committing::Sound,
        "commit::force_commit=1*return",
        &[
            "append participant 1 abort 1",
            "append participant 2 abort 1",
        ],
    ),
];

const COMMITTED_TWICE: [(Committing, &str, Lines); 2] = [
    // the second transaction reaches the second participant alone
    (
        Committing::Sound,
        "commit::send_prepare=2*off->1*return",
        &["append coordinator end 1", "append participant 2 abort 2"],
    ),
    // the first participant is told neither outcome
    (
        Committing::LazyPrepare,
        "commit::send_outcome=1*return->1*off->1*return",
        &[
            "append participant 1 prepare 1",
            "append participant 1 prepare 2",
        ],
    ),
];

#[test]
fn a_commit_tells_its_records(rt: HostRuntime) -> Result<(), Fail> {
    let alloc = rt.alloc();
    committing_tells(&rt, alloc, &one_agreed(alloc)?, &COMMITTED)?;
    committing_tells(&rt, alloc, &two_agreed(alloc)?, &COMMITTED_TWICE)
}
