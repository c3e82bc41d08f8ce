//! What is known from answers.

use crate::shared::known;
use scenario_grammar::parse;
use std::alloc::Global;
use std::process::Abort;
use std::test::Fail;
use target_trait::Verdict;

/// By the answers the scenario has this verdict, or none.
fn has_verdict(
    rt: &impl Abort,
    alloc: Global,
    text: &str,
    of: &str,
    want: Option<Verdict>,
) -> Result<(), Fail> {
    let known = known(alloc, text)?;
    let scenario = parse(alloc, of)?;
    assert!(rt; known.verdict_of(alloc, &scenario)? == want, "{of}");
    Ok(())
}

/// By the answers each scenario has this verdict, or none.
fn have_verdicts(
    rt: &impl Abort,
    alloc: Global,
    text: &str,
    rows: &[(&str, Option<Verdict>)],
) -> Result<(), Fail> {
    for (of, want) in rows {
        has_verdict(rt, alloc, text, of, *want)?;
    }
    Ok(())
}

#[test]
fn nothing_is_known_by_no_answers(rt: HostRuntime) -> Result<(), Fail> {
    let rows = [("", None), ("p=return", None)];
    have_verdicts(&rt, rt.alloc(), "", &rows)
}

#[test]
fn each_verdict_is_known(rt: HostRuntime) -> Result<(), Fail> {
    let text =
        "pass\tnone\nunresolved\ta=pause\nfail torn\ta=return\nfail lost note\tb=return\nfail stale\tc=return\n";
    let rows = [
        ("", Some(Verdict::Pass)),
        ("a=pause", Some(Verdict::Unresolved)),
        ("a=return", Some(Verdict::Fail(0))),
        ("b=return", Some(Verdict::Fail(1))),
        ("c=return", Some(Verdict::Fail(2))),
        ("d=return", None),
    ];
    have_verdicts(&rt, rt.alloc(), text, &rows)
}

#[test]
fn answers_are_of_tidied_scenarios(rt: HostRuntime) -> Result<(), Fail> {
    let text = "pass\t a = 2*off -> 1*off->1*return ->off\npass\tb=0*return\n";
    let rows = [
        ("a=3*off->1*return", Some(Verdict::Pass)),
        ("a=1*off->2*off->1*return->5*off", Some(Verdict::Pass)),
        ("a=2*off->1*return", None),
        ("", Some(Verdict::Pass)),
    ];
    have_verdicts(&rt, rt.alloc(), text, &rows)
}

#[test]
fn counts_of_more_than_32_bits_are_not_joined(rt: HostRuntime) -> Result<(), Fail> {
    let text = "pass\ta=4294967295*off->1*off->2*off->1*return\n";
    let rows = [
        ("a=4294967295*off->3*off->1*return", Some(Verdict::Pass)),
        ("a=4294967294*off->4*off->1*return", None),
    ];
    have_verdicts(&rt, rt.alloc(), text, &rows)
}

#[test]
fn an_answer_may_stand_twice(rt: HostRuntime) -> Result<(), Fail> {
    let text = "fail torn\ta=return\npass\tnone\nfail torn\ta=return\npass\t\n";
    let rows = [
        ("a=return", Some(Verdict::Fail(0))),
        ("", Some(Verdict::Pass)),
    ];
    have_verdicts(&rt, rt.alloc(), text, &rows)
}
