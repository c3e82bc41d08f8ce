//! Judgements of the logs of a commit that no variant's run leaves.

use commit_target::{Kind, LOST, Logs, PHANTOM, Party, Record, SPLIT, Write, judge_logs};
use std::alloc::{AllocError, Global};
use std::process::Abort;
use target_trait::Judgement;

fn forced(party: Party, transaction: usize, kind: Kind) -> Write {
    Write::Force(party, Record { transaction, kind })
}

fn committed(participant: usize, transaction: usize) -> Write {
    forced(Party::Participant(participant), transaction, Kind::Commit)
}

/// The logs of this many participants, after these writes.
fn logs_of(alloc: Global, participants: usize, writes: &[Write]) -> Result<Logs, AllocError> {
    let mut logs = Logs::new(alloc);
    logs.clear(participants)?;
    for write in writes {
        logs.write(*write)?;
    }
    Ok(logs)
}

/// The transactions that the client was told of, how many were begun, and the judgement.
type Row = (&'static [usize], usize, Judgement);

/// The logs of two participants, after these writes, are judged so.
fn are_judged(
    rt: &impl Abort,
    alloc: Global,
    writes: &[Write],
    rows: &[Row],
) -> Result<(), AllocError> {
    let mut logs = logs_of(alloc, 2, writes)?;
    for (told, begun, judgement) in rows {
        let judged = judge_logs(&mut logs, 2, told, *begun);
        assert_eq!(rt; judged, *judgement, "at {told:?} of {begun}");
    }
    Ok(())
}

#[test]
fn a_commit_that_nobody_told_is_a_phantom(rt: HostRuntime) -> Result<(), AllocError> {
    const ROWS: [Row; 2] = [
        (&[], 1, Judgement::Broken(PHANTOM)),
        (&[0], 1, Judgement::Kept),
    ];
    are_judged(&rt, rt.alloc(), &[committed(0, 0), committed(1, 0)], &ROWS)
}

/// All have the first, nobody has the second, and the third is split.
#[test]
fn the_first_transaction_that_is_broken_is_named(rt: HostRuntime) -> Result<(), AllocError> {
    const ROWS: [Row; 3] = [
        (&[0, 1, 2], 3, Judgement::Broken(LOST)),
        (&[0, 2], 3, Judgement::Broken(SPLIT)),
        (&[0, 1, 2], 1, Judgement::Kept),
    ];
    let writes = [committed(0, 0), committed(1, 0), committed(0, 2)];
    are_judged(&rt, rt.alloc(), &writes, &ROWS)
}

const FIRST: Party = Party::Participant(0);

const END: Record = Record {
    transaction: 0,
    kind: Kind::End,
};

#[test]
fn who_prepared_inquires(rt: HostRuntime) -> Result<(), AllocError> {
    let mut logs = logs_of(rt.alloc(), 1, &[])?;
    for (write, judgement) in [
        (forced(FIRST, 0, Kind::Prepare), Judgement::Broken(LOST)),
        (forced(Party::Coordinator, 0, Kind::Commit), Judgement::Kept),
        // an end that doesn't last is forgotten
        (Write::Append(Party::Coordinator, END), Judgement::Kept),
        (
            Write::Force(Party::Coordinator, END),
            Judgement::Broken(LOST),
        ),
    ] {
        logs.write(write)?;
        assert_eq!(rt;
            judge_logs(&mut logs, 1, &[0], 1),
            judgement,
            "at {write:?}"
        );
    }
    Ok(())
}
