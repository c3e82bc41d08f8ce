//! The text of a report, and how much of it a failing writer was given.

use file_replace::{Replace, Variant};
use report::{Finding, Report, WriteFault, text, write_report};
use scenario_grammar::parse;
use std::alloc::Global;
use std::test::Fail;
use target_checks::{Narrow, Trouble};
use target_trait::{Out, Sink, Verdict};

/// The first failures of two codes, in the order of their plans and not of the codes.
fn findings(alloc: Global) -> Result<Vec<Finding>, Fail> {
    let mut all = Vec::new(alloc);
    for (number, code, plan, reduced, tests) in [
        (
            1,
            1,
            "replace::write=1*off->1*return;replace::sync=panic",
            "replace::sync=panic",
            4,
        ),
        (4, 0, "replace::sync=off->1*return", "", u64::MAX),
    ] {
        all.push(Finding {
            number,
            code,
            scenario: parse(alloc, plan)?,
            reduced: parse(alloc, reduced)?,
            tests,
        })?;
    }
    Ok(all)
}

const REPORT: &str = "target a label
seed 7
clean pass
census replace::clear 0
census replace::create 1
census replace::write 2
census replace::sync 1
census replace::rename 1
census replace::sync_dir 1
census replace::unlink 0
plans 5
verdict 0 pass
verdict 1 fail stale
verdict 2 unresolved
verdict 3 fail stale
verdict 4 fail torn
first 1 stale
scenario replace::write=1*off->1*return;replace::sync=panic
reduced replace::sync=panic
tests 4
first 4 torn
scenario replace::sync=off->1*return
reduced none
tests 18446744073709551615
";

#[test]
fn tells_each_finding_in_order(rt: HostRuntime) -> Result<(), Fail> {
    let verdicts = [
        Verdict::Pass,
        Verdict::Fail(1),
        Verdict::Unresolved,
        Verdict::Fail(1),
        Verdict::Fail(0),
    ];
    let report = Report {
        label: "a label",
        seed: 7,
        clean: Verdict::Pass,
        census: &[0, 1, 2, 1, 1, 1, 0],
        verdicts: &verdicts,
        unmet: 0,
        findings: findings(rt.alloc())?,
        growth: None,
    };
    let names = Replace::new(rt.alloc(), Variant::Sound);
    let text = text(rt.alloc(), &names, &report)?;
    assert_eq!(rt; text.as_slice(), REPORT.as_bytes());
    Ok(())
}

/// Each write of a report may be the one that goes wrong: of a byte at a time, or the second one, whatever the first took. The fault says how many
/// bytes were written.
#[test]
fn a_fault_tells_how_many_bytes_went_out(rt: HostRuntime) -> Result<(), Fail> {
    let text = REPORT.as_bytes();
    for trouble in [Trouble::Interrupted, Trouble::TakesNothing] {
        for room in 0..text.len() {
            for (at_once, fails_at) in [(1, (room as u64).saturating_add(1)), (room, 2)] {
                let mut out = Out::new(Narrow::failing(rt.alloc(), at_once, fails_at, trouble));
                let want = Err(WriteFault {
                    written: room as u64,
                });
                assert_eq!(rt; write_report(text, &mut out), want);
                assert!(rt; out.failed());
                assert_eq!(rt; out.into_writer().bytes.as_slice(), &text[..room]);
            }
        }
    }
    Ok(())
}

#[test]
fn a_report_is_written_whole(rt: HostRuntime) -> Result<(), Fail> {
    for at_once in [1, 1000] {
        let mut out = Out::new(Narrow::new(rt.alloc(), at_once));
        assert_eq!(rt; write_report(REPORT.as_bytes(), &mut out), Ok(()));
        assert!(rt; !out.failed());
        assert_eq!(rt; out.into_writer().bytes.as_slice(), REPORT.as_bytes());
    }
    Ok(())
}
