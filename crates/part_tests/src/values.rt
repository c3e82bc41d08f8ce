//! The values that a text stands for.

use scenario_grammar::{Scenario, Task, Term, parse};
use std::process::Abort;
use std::test::Fail;

const TEXT: &str = "a=20%3*print(still alive!)->panic;b=0.0001%return(x(y))->return->return()";

/// The terms of an entry; without such an entry, none.
fn terms(scenario: &Scenario, entry: usize) -> &[Term] {
    if entry < scenario.len() {
        scenario.chain(entry)
    } else {
        &[]
    }
}

/// The term is of this share and count.
fn is_of(rt: &impl Abort, term: &Term, share: u32, count: Option<u32>) {
    assert_eq!(rt; term.share, share);
    assert_eq!(rt; term.count, count);
}

/// Whether the task is a `return` of this text.
fn is_return_of(task: &Task, wanted: &str) -> bool {
    matches!(task, Task::Return(Some(text)) if text.as_str() == wanted)
}

#[test]
fn entries_are_those_of_the_text(rt: HostRuntime) -> Result<(), Fail> {
    let scenario = parse(rt.alloc(), TEXT)?;
    assert_eq!(rt; scenario.len(), 2);
    for (name, entry) in [("b", Some(1)), ("c", None)] {
        assert_eq!(rt; scenario.entry_of(name), entry);
    }
    Ok(())
}

#[test]
fn shares_and_counts_are_those_of_the_text(rt: HostRuntime) -> Result<(), Fail> {
    let scenario = parse(rt.alloc(), TEXT)?;
    let [print, panic] = terms(&scenario, 0) else {
        return Err(Fail::from("two terms"));
    };
    is_of(&rt, print, 200000, Some(3));
    is_of(&rt, panic, 1000000, None);
    assert!(rt; matches!(&panic.task, Task::Panic(None)));
    Ok(())
}

#[test]
fn arguments_are_those_of_the_text(rt: HostRuntime) -> Result<(), Fail> {
    let scenario = parse(rt.alloc(), TEXT)?;
    let [nested, none, empty] = terms(&scenario, 1) else {
        return Err(Fail::from("three terms"));
    };
    is_of(&rt, nested, 1, None);
    assert!(rt; is_return_of(&nested.task, "x(y)"));
    assert!(rt; none.task != empty.task);
    Ok(())
}
