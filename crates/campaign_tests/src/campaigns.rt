use crate::meet::{Meet, Meeting};
use crate::running::{reported, settings};
use campaign_core::{Host, Subject};
use std::alloc::Global;
use std::process::Abort;
use std::rt::Clock;
use std::sync::Wait;
use std::sync::atomic::Ordering;
use std::test::Fail;
use std::thread::Threads;
use work_gate::FreeGate;

// Each point is asked once, so that there are 1 + 3 * 2 plans. In plans 1, 2, 4 and 5 one point fails, in 3 and 6 the run halts.
const ALL_PASS: &str = "target meet
seed 7
clean pass
census meet::a 1
census meet::b 1
plans 7
verdict 0 pass
verdict 1 pass
verdict 2 pass
verdict 3 pass
verdict 4 pass
verdict 5 pass
verdict 6 pass
first none
";

// The two points make plan 7, in which both fail, and plan 8, in which the run halts at the second. The reduction of plan 7 tests three sets: no
// fault, the first, and the second.
const PAIR_FAILS: &str = "target meet
seed 7
clean pass
census meet::a 1
census meet::b 1
plans 9
verdict 0 pass
verdict 1 pass
verdict 2 pass
verdict 3 pass
verdict 4 pass
verdict 5 pass
verdict 6 pass
verdict 7 fail both
verdict 8 pass
first 7 both
scenario meet::a=1*return;meet::b=1*return
reduced meet::a=1*return;meet::b=1*return
tests 3
";

/// Runs a campaign of two workers whose runs meet, or of one that waits for nobody. None waits in vain, and the report is this one. How many runs
/// came.
fn meets<R: Threads + Wait + Clock + Sync + Abort>(
    rt: &R,
    alloc: Global,
    waits: bool,
    pairs: bool,
    report: &str,
) -> Result<u64, Fail> {
    let meeting = Meeting::new(waits);
    let workers = if waits { 2 } else { 1 };
    let host = Host {
        rt,
        alloc,
        gate: &FreeGate,
    };
    let subject = Subject {
        target: &Meet { rt },
        workload: &meeting,
        settings: &settings(alloc, workers, pairs, Vec::new(alloc)),
    };
    let Ok((text, _)) = reported(&host, &subject) else {
        return Err(Fail::from("no report"));
    };
    assert_eq!(rt; text.as_slice(), report.as_bytes());
    assert_eq!(rt; meeting.late.load(Ordering::SeqCst), 0);
    Ok(meeting.came.load(Ordering::SeqCst))
}

// Refuses the wrong bodies all_work_on_one_thread and every_worker_leaves_at_once: for the plans, since the first run that waits would wait in vain;
// and, with probe_asked_under_the_lock, in the reduction, in which two tests of one fault meet inside their runs.
#[test]
fn runs_meet_and_one_that_waits_for_nobody_writes_the_same(rt: HostRuntime) -> Result<(), Fail> {
    for (waits, pairs, report, runs) in [
        (true, false, ALL_PASS, 4),
        (true, true, PAIR_FAILS, 6),
        (false, false, ALL_PASS, 4),
        (false, true, PAIR_FAILS, 6),
    ] {
        let came = meets(&rt, rt.alloc(), waits, pairs, report)?;
        assert_eq!(rt; came, runs, "of {waits} {pairs}");
    }
    Ok(())
}
