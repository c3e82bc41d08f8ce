//! Scenarios built, tidied, and with some of their faults alone.

use crate::reading::prints;
use scenario_grammar::{Place, Scenario, Task, Term, are_faults, build, faults, keep, parse, tidy};
use scenario_values::faults_are_counted;
use std::alloc::{AllocError, Global};
use std::process::Abort;
use std::test::Fail;

/// The least scenario that can fail: `a=panic`.
fn one_panic(alloc: Global) -> Result<Scenario, AllocError> {
    let panic = [Term {
        share: 1000000,
        count: None,
        task: Task::Panic(None),
    }];
    build(alloc, &[("a", &panic)])
}

/// The scenario with these of its faults alone.
fn kept(alloc: Global, scenario: &Scenario, set: &[u32]) -> Result<Scenario, Fail> {
    let count = faults(alloc, scenario)?.len();
    faults_are_counted();
    if count > 4096 || !are_faults(count as u32, set) {
        return Err("no set of faults".into());
    }
    Ok(keep(alloc, scenario, set)?)
}

/// The scenario's faults stand at these places.
fn has_faults(
    rt: &impl Abort,
    alloc: Global,
    scenario: &Scenario,
    places: &[Place],
) -> Result<(), Fail> {
    assert_eq!(rt; faults(alloc, scenario)?.as_slice(), places);
    Ok(())
}

/// Whether the scenario with these of its faults alone is the scenario itself.
fn is_whole(alloc: Global, scenario: &Scenario, set: &[u32]) -> Result<bool, Fail> {
    Ok(kept(alloc, scenario, set)? == *scenario)
}

/// Without what can't act the scenario is printed as this text.
fn tidies(rt: &impl Abort, alloc: Global, scenario: &Scenario, want: &str) -> Result<(), Fail> {
    prints(rt, alloc, &tidy(alloc, scenario)?, want)
}

/// Faults; how the scenario with these of its faults alone is printed, and how it is printed without what can't act.
type Kept = (&'static [u32], &'static str, &'static str);

/// With some of its faults alone the scenario is printed so.
fn keeps(rt: &impl Abort, alloc: Global, scenario: &Scenario, rows: &[Kept]) -> Result<(), Fail> {
    for (set, want, want_tidied) in rows {
        let kept = kept(alloc, scenario, set)?;
        prints(rt, alloc, &kept, want)?;
        tidies(rt, alloc, &kept, want_tidied)?;
    }
    Ok(())
}

#[test]
fn built_scenarios_print(rt: HostRuntime) -> Result<(), Fail> {
    let built = one_panic(rt.alloc())?;
    assert_eq!(rt; built.len(), 1);
    for (name, entry) in [("a", Some(0)), ("b", None)] {
        assert_eq!(rt; built.entry_of(name), entry);
    }
    prints(&rt, rt.alloc(), &built, "a=panic")
}

#[test]
fn all_faults_and_none(rt: HostRuntime) -> Result<(), Fail> {
    const ROWS: [Kept; 2] = [(&[0], "a=panic", "a=panic"), (&[], "a=off", "")];
    let alloc = rt.alloc();
    let built = one_panic(alloc)?;
    for (set, _, _) in ROWS {
        assert!(rt; is_whole(alloc, &built, set)? == !set.is_empty());
    }
    keeps(&rt, alloc, &built, &ROWS)
}

#[test]
fn kept_scenarios_print(rt: HostRuntime) -> Result<(), Fail> {
    const ROWS: [Kept; 2] = [
        (&[1], "p=20%2*off->1*panic", "p=20%2*off->1*panic"),
        (&[], "p=20%2*off->1*off", "p=20%2*off"),
    ];
    let alloc = rt.alloc();
    keeps(&rt, alloc, &parse(alloc, "p=20%2*return->1*panic")?, &ROWS)
}

#[test]
fn faults_have_places(rt: HostRuntime) -> Result<(), Fail> {
    const ROWS: [(&str, &[Place]); 3] = [
        ("a=panic", &[Place { entry: 0, term: 0 }]),
        ("a=off", &[]),
        (
            "a=off->panic;b=yield",
            &[Place { entry: 0, term: 1 }, Place { entry: 1, term: 0 }],
        ),
    ];
    let alloc = rt.alloc();
    for (text, places) in ROWS {
        has_faults(&rt, alloc, &parse(alloc, text)?, places)?;
    }
    Ok(())
}

#[test]
fn tidied_scenarios_print(rt: HostRuntime) -> Result<(), Fail> {
    const ROWS: [(&str, &str); 3] = [
        ("p=2*off->1*off->1*panic->1*off;q=off", "p=3*off->1*panic"),
        ("p=0*panic->1*off->return->panic", "p=1*off->return"),
        (
            "p=4294967295*off->1*off->panic",
            "p=4294967295*off->1*off->panic",
        ),
    ];
    let alloc = rt.alloc();
    for (text, want) in ROWS {
        tidies(&rt, alloc, &parse(alloc, text)?, want)?;
    }
    Ok(())
}
