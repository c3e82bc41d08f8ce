//! What grows if kinds of faults are listed for a point.
ghost use Rattle.std.specs.Prelude.{◌≤◌, length, IfOk};
ghost use Rattle.std.specs.List.{AllByRecursion};

use action_eval::{Argument, Kind};
use grown_plans::{Kinds, add_children};
use scenario_grammar::is_argument;
use std::alloc::{AllocError, Global};
use std::test::Fail;

/// The names of the points.
const POINTS: [&str; 2] = ["read", "close"];

/// What grows at a hit of each point.
const GROWN: [(u32, &str); 5] = [
    (0, "DROP"),
    (0, "panic"),
    (0, "EIO"),
    (1, "return"),
    (1, "panic"),
];

/// The text of a return; none if it can't be one.
fn argument(text: &str) -> Argument {
    if is_argument(text) {
        Argument::of(text).unwrap_or(Argument::none())
    } else {
        Argument::none()
    }
}

/// The kinds of the first point; nothing is said of the second one.
fn listed(alloc: Global) -> Result<Vec<Vec<Kind>>, AllocError>
    ensures { IfOk result (λ lists. AllByRecursion (λ kinds. length kinds.items ≤ 8) lists.items) }
{
    let mut kinds = Vec::new(alloc);
    kinds.push(Kind::OnceReturn(argument("DROP")))?;
    kinds.push(Kind::OncePanic)?;
    kinds.push(Kind::OnceReturn(argument("EIO")))?;
    let mut lists = Vec::new(alloc);
    lists.push(kinds)?;
    Ok(lists)
}

/// Whether a fault that acts once is this one: a return by its text, or a panic.
fn is_kind(kind: &Kind, word: &str) -> bool {
    match kind {
        Kind::OnceReturn(text) => text.as_str().unwrap_or("return") == word,
        Kind::OnwardReturn(_) => false,
        Kind::OncePanic => word == "panic",
    }
}

#[test]
fn children_come_in_the_order_of_the_kinds_that_are_listed(rt: HostRuntime) -> Result<(), Fail> {
    let alloc = rt.alloc();
    let lists = listed(alloc)?;
    let kinds = Kinds::with(&POINTS, lists.as_slice());
    let mut children = Vec::new(alloc);
    let mut counts = Vec::new(alloc);
    add_children(&mut children, &mut counts, &kinds, 0, &[], &[0, 1])?;
    assert_eq!(rt; children.len(), GROWN.len());
    for (child, (point, word)) in children.iter().zip(GROWN.iter()) {
        let fault = child.fault();
        assert_eq!(rt; fault.site.point, *point);
        assert!(rt; is_kind(&fault.kind, word), "{word}");
    }
    Ok(())
}
