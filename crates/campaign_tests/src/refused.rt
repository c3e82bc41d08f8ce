//! The first fault of a text of answers, and its line.

use crate::shared::answers;
use std::alloc::Global;
use std::process::Abort;
use std::test::Fail;

/// The line of the first fault of a text of answers, or `no fault`.
fn refusal(alloc: Global, text: &[u8]) -> Result<String, Fail> {
    Ok(match answers(alloc, text)? {
        Ok(_) => String::from_str(alloc, "no fault")?,
        Err(fault) => format!(in alloc; "{fault}")?,
    })
}

fn is_refused(rt: &impl Abort, alloc: Global, text: &[u8], want: &str) -> Result<(), Fail> {
    assert_eq!(rt; refusal(alloc, text)?.as_str(), want);
    Ok(())
}

/// Each text has this first fault.
fn are_refused(rt: &impl Abort, alloc: Global, rows: &[(&[u8], &str)]) -> Result<(), Fail> {
    for (text, want) in rows {
        is_refused(rt, alloc, text, want)?;
    }
    Ok(())
}

#[test]
fn no_answers_are_no_fault(rt: HostRuntime) -> Result<(), Fail> {
    is_refused(&rt, rt.alloc(), b"", "no fault")
}

#[test]
fn a_line_has_an_end_and_a_tab(rt: HostRuntime) -> Result<(), Fail> {
    const ROWS: [(&[u8], &str); 6] = [
        (
            b"pass\tnone",
            "answers: line 1: not ended; a line feed is missing, so the line may have been cut off: delete it",
        ),
        (
            b"pass\tnone\npass\ta=ret",
            "answers: line 2: not ended; a line feed is missing, so the line may have been cut off: delete it",
        ),
        (
            b"pass\tnone\npa",
            "answers: line 2: not ended; a line feed is missing, so the line may have been cut off: delete it",
        ),
        (
            b"\n",
            "answers: line 1: no tab; a verdict and a scenario are written with a tab between them",
        ),
        (
            b"pass\tnone\n\npass\tnone\n",
            "answers: line 2: no tab; a verdict and a scenario are written with a tab between them",
        ),
        (
            b"pass none\n",
            "answers: line 1: no tab; a verdict and a scenario are written with a tab between them",
        ),
    ];
    are_refused(&rt, rt.alloc(), &ROWS)
}

#[test]
fn bytes_are_text_without_control_bytes(rt: HostRuntime) -> Result<(), Fail> {
    const ROWS: [(&[u8], &str); 6] = [
        (
            b"pass\tnone\npass\t\xff=return\n",
            "answers: line 2: not UTF-8",
        ),
        (b"\xc3\npass none\n", "answers: line 1: not UTF-8"),
        (
            b"pass\ta=return\r\n",
            "answers: line 1: a control character in the scenario; a scenario has none",
        ),
        (
            b"pass\ta=return(\x00)\n",
            "answers: line 1: a control character in the scenario; a scenario has none",
        ),
        (
            b"pass\ta=return(\x7f)\n",
            "answers: line 1: a control character in the scenario; a scenario has none",
        ),
        (b"pass\t\xc3\xa9=return\n", "no fault"),
    ];
    are_refused(&rt, rt.alloc(), &ROWS)
}

#[test]
fn a_verdict_is_one_of_three_and_a_code_one_of_the_codes(rt: HostRuntime) -> Result<(), Fail> {
    const ROWS: [(&[u8], &str); 7] = [
        (
            b"Pass\tnone\n",
            "answers: line 1: no such verdict \"Pass\"; verdicts are pass, unresolved, and fail with a code",
        ),
        (
            b"\tnone\n",
            "answers: line 1: no such verdict \"\"; verdicts are pass, unresolved, and fail with a code",
        ),
        (
            b"fail\tnone\n",
            "answers: line 1: no such verdict \"fail\"; verdicts are pass, unresolved, and fail with a code",
        ),
        (
            b"pass \tnone\n",
            "answers: line 1: no such verdict \"pass \"; verdicts are pass, unresolved, and fail with a code",
        ),
        (b"fail \tnone\n", "answers: line 1: no such code \"\""),
        (
            b"fail torn \tnone\n",
            "answers: line 1: no such code \"torn \"",
        ),
        (
            b"fail lost\tnone\n",
            "answers: line 1: no such code \"lost\"",
        ),
    ];
    are_refused(&rt, rt.alloc(), &ROWS)
}

#[test]
fn a_scenario_has_its_own_first_fault(rt: HostRuntime) -> Result<(), Fail> {
    const ROWS: [(&[u8], &str); 3] = [
        (
            b"pass\tnone\npass\ta=return;b=101\n",
            "answers: line 2: UnknownTask entry 2 term 1",
        ),
        (b"pass\tNone\n", "answers: line 1: NoAction entry 1 term 0"),
        (
            b"pass\tnone;a=return\n",
            "answers: line 1: NoAction entry 1 term 0",
        ),
    ];
    are_refused(&rt, rt.alloc(), &ROWS)
}

#[test]
fn two_verdicts_of_one_scenario_contradict(rt: HostRuntime) -> Result<(), Fail> {
    const ROWS: [(&[u8], &str); 3] = [
        (
            b"pass\ta=return\npass\tnone\nfail torn\ta=return\n",
            "answers: line 3: contradicts line 1, which answers the same scenario otherwise",
        ),
        (
            b"fail torn\tnone\nfail torn\tb=0*return\nfail stale\t\n",
            "answers: line 3: contradicts line 1, which answers the same scenario otherwise",
        ),
        (
            b"unresolved\ta=2*off->return\npass\ta=1*off->1*off->return->off\n",
            "answers: line 2: contradicts line 1, which answers the same scenario otherwise",
        ),
    ];
    are_refused(&rt, rt.alloc(), &ROWS)
}

#[test]
fn the_first_faulty_line_is_told(rt: HostRuntime) -> Result<(), Fail> {
    const ROWS: [(&[u8], &str); 2] = [
        (
            b"pass\tnone\nfail torn\tnone\nno tab\npass",
            "answers: line 2: contradicts line 1, which answers the same scenario otherwise",
        ),
        (
            b"perhaps\ta=\x01\n",
            "answers: line 1: no such verdict \"perhaps\"; verdicts are pass, unresolved, and fail with a code",
        ),
    ];
    are_refused(&rt, rt.alloc(), &ROWS)
}
