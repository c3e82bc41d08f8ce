//! Power cuts that ask which pending writes they keep.

use crate::runs::asks;
use crate::shelf::TwoThings;
use action_eval::{Session, Stop};
use scenario_grammar::parse;
use std::test::Fail;
use target_checks::outcome_of;
use target_trait::{ByTable, Verdict, WithCut, ask_cut};

const PUT: u32 = 0;

const KEEP: u32 = 1;

const BROKEN: Verdict = Verdict::Fail(5);

const NOTHING: Verdict = Verdict::Unresolved;

// A scenario and how many hits are answered; the verdict, and the points that are asked. Each thing that is put is a pending write, for which the cut
// asks once. The shelf is broken if it was asked at all.
const RUNS: [(&str, u32, Verdict, &[u32]); 13] = [
    ("", 9, BROKEN, &[PUT, PUT, KEEP, KEEP]),
    ("shelf::put=1*return", 9, BROKEN, &[PUT, PUT, KEEP]),
    ("shelf::put=return", 9, Verdict::Pass, &[PUT, PUT]),
    // a panic of the target is the end of its own run; one of the cut loses a write
    ("shelf::put=1*off->1*panic", 9, BROKEN, &[PUT, PUT, KEEP]),
    ("shelf::put=1*panic", 9, Verdict::Pass, &[PUT]),
    ("power::keep=1*panic", 9, BROKEN, &[PUT, PUT, KEEP, KEEP]),
    // nothing more is asked, not even by the cut, in a run that a pause or the limit cut short, and nothing is known of it, even if the target
    // panicked before
    ("shelf::put=1*pause", 9, NOTHING, &[PUT]),
    ("power::keep=1*pause", 9, NOTHING, &[PUT, PUT, KEEP]),
    (
        "shelf::put=1*off->1*panic;power::keep=1*pause",
        9,
        NOTHING,
        &[PUT, PUT, KEEP],
    ),
    ("", 4, BROKEN, &[PUT, PUT, KEEP, KEEP]),
    ("", 3, NOTHING, &[PUT, PUT, KEEP]),
    ("", 2, NOTHING, &[PUT, PUT]),
    ("", 1, NOTHING, &[PUT]),
];

#[test]
fn the_cut_asks_for_each_pending_write_of_a_whole_run(rt: HostRuntime) -> Result<(), Fail> {
    for (scenario, max_hits, verdict, asked) in RUNS {
        let mut shelf = WithCut::new(ByTable::new(TwoThings::new(rt.alloc())));
        let told = outcome_of(rt.alloc(), &mut shelf, &(), scenario, max_hits)?;
        asks(&rt, &told, verdict, asked, scenario);
    }
    Ok(())
}

// A return keeps the write for which it was asked; every other answer loses it.
#[test]
fn a_return_keeps_a_write(rt: HostRuntime) -> Result<(), Fail> {
    let scenario = parse(
        rt.alloc(),
        "power::keep=1*off->1*return->1*panic->1*return(x)->1*sleep(3)",
    )?;
    let names = ["shelf::put", "power::keep"];
    let mut session = Session::new(rt.alloc(), &scenario, &names, 7, 0, 9)?;
    let kept = ask_cut(rt.alloc(), &mut session, KEEP, 5)?;
    let expected = [false, true, false, true, false];
    let kept = kept.as_ref().map(|kept| kept.as_slice());
    assert!(rt; kept == Some(expected.as_slice()));
    assert!(rt; session.stopped() == Some(Stop::Panic));
    assert_eq!(rt; session.millis(), 3);
    Ok(())
}
