//! Runs of the transfer.

use crate::runs::asks;
use example_target::{Amount, Care, Transfer};
use std::alloc::Global;
use std::test::Fail;
use target_checks::outcome_of;
use target_trait::{Outcome, Target, Verdict};

/// The outcome of a transfer of 250 cents.
fn transferred(alloc: Global, care: Care, scenario: &str, max_hits: u32) -> Result<Outcome, Fail> {
    let amount = Amount { cents: 250 };
    let transfer = &mut Transfer::new(care);
    Ok(outcome_of(alloc, transfer, &amount, scenario, max_hits)?)
}

#[test]
fn asks_both_points_without_faults(rt: HostRuntime) -> Result<(), Fail> {
    for care in [Care::Careful, Care::Careless] {
        let told = transferred(rt.alloc(), care, "", 10)?;
        asks(&rt, &told, Verdict::Pass, &[0, 1], "");
        let rest = [told.notes.len() as u64, told.millis, told.words];
        assert!(rt; rest == [0, 0, 0]);
    }
    Ok(())
}

// How the transfer goes about, a scenario, and how many hits are answered; the verdict, and the points that are asked.
const RUNS: [(Care, &str, u32, Verdict, &[u32]); 7] = [
    // a refused give loses what isn't put back
    (
        Care::Careful,
        "transfer::give=return",
        10,
        Verdict::Pass,
        &[0, 1],
    ),
    (
        Care::Careless,
        "transfer::give=return",
        10,
        Verdict::Fail(0),
        &[0, 1],
    ),
    // a panic is judged, and a pause is not
    (
        Care::Careful,
        "transfer::give=panic",
        10,
        Verdict::Fail(0),
        &[0, 1],
    ),
    (
        Care::Careful,
        "transfer::give=pause",
        10,
        Verdict::Unresolved,
        &[0, 1],
    ),
    // the hit past the limit isn't asked
    (Care::Careful, "", 0, Verdict::Unresolved, &[]),
    (Care::Careful, "", 1, Verdict::Unresolved, &[0]),
    (Care::Careful, "", 2, Verdict::Pass, &[0, 1]),
];

#[test]
fn runs_have_their_verdicts(rt: HostRuntime) -> Result<(), Fail> {
    for (care, scenario, max_hits, verdict, asked) in RUNS {
        let told = transferred(rt.alloc(), care, scenario, max_hits)?;
        asks(&rt, &told, verdict, asked, scenario);
    }
    Ok(())
}

#[test]
fn tells_the_note_of_a_print(rt: HostRuntime) -> Result<(), Fail> {
    let noting = "transfer::give=print(x)";
    let told = transferred(rt.alloc(), Care::Careful, noting, 10)?;
    assert_eq!(rt; told.notes.len(), 1);
    assert_eq!(rt; told.notes[0].point, 1);
    Ok(())
}

#[test]
fn a_twin_has_the_same_setup(rt: HostRuntime) -> Result<(), Fail> {
    let twin = Transfer::new(Care::Careless).twin()?;
    assert_eq!(rt; twin.label(), "transfer careless");
    assert_eq!(rt; Transfer::catalogue().len(), 2);
    assert_eq!(rt; Transfer::code_name(0), "lost");
    Ok(())
}
