//! Texts printed and read again, faults as they are written, and what a name and an argument may be.

use crate::reading::prints;
use scenario_grammar::{Kind, ScenarioFault, is_argument, is_name, parse, parse_printed};
use std::test::Fail;

#[test]
fn faults_are_written_with_their_place(rt: HostRuntime) -> Result<(), Fail> {
    let bad = ScenarioFault::Bad {
        kind: Kind::BadPercent,
        entry: 2,
        term: 3,
    };
    for (fault, line) in [
        (bad, "BadPercent entry 2 term 3"),
        (ScenarioFault::Memory, "no memory"),
    ] {
        assert_eq!(rt; fault.to_string(rt.alloc())?.as_str(), line);
    }
    Ok(())
}

#[test]
fn printed_texts_are_read_again(rt: HostRuntime) -> Result<(), Fail> {
    const TEXTS: [&str; 3] = [
        "",
        "a=return(x(y))->1*off->20.5%0*sleep(1)",
        "a->b=off;c=99.9999%print( hi )->panic()->4294967295*delay(1000000000)",
    ];
    let alloc = rt.alloc();
    for text in TEXTS {
        let Ok(again) = parse_printed(alloc, &parse(alloc, text)?) else {
            return Err(Fail::from("the same scenario"));
        };
        prints(&rt, alloc, &again, text)?;
    }
    Ok(())
}

#[test]
fn names_and_arguments(rt: HostRuntime) {
    for name in ["a", "replace::sync", "a b", "a->b", "é", "(%*"] {
        assert!(rt; is_name(name), "{name}");
    }
    for name in ["", " a", "a\n", "\ta", "a\r", "a;b", "a=b", " "] {
        assert!(rt; !is_name(name), "{name}");
    }
    for argument in ["", " x ", "x(y)", "a=b", "-", "- >", ">-", "\u{b}"] {
        assert!(rt; is_argument(argument), "{argument}");
    }
    for argument in [";", "a;b", "->", "x->y", "--->>"] {
        assert!(rt; !is_argument(argument), "{argument}");
    }
}
