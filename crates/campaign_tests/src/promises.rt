//! What reports to a depth promise, checked over components that are enumerated whole, and over some that are drawn: a slow program walks all
//! behaviours of a component, and knows nothing of how plans grow.
//!
//! For example the component `a[kept, a[kept, broken 1, kept], kept]` asks a point once more if that returned; if it returns again, it breaks its
//! promise, and otherwise it keeps it. To depth 1 the report has the run without faults, that of a return and that of a panic. One plan lies beyond
//! for a return and one for a panic of the second hit. The sticky return is the only number that fails.

use crate::behaviours::{Behaviour, Fault, Reply};
use crate::keeping::{Promise, broken_promises};
use crate::told::{Finding, Source, Told, told_of};
use crate::trees::{
    Component, Draws, Forest, Node, all_trees, trees_of_limit_1, trees_of_one_fault,
};
use std::alloc::{AllocError, Global};
use std::process::Abort;
use std::sync::Wait;
use std::test::Fail;
use std::thread::Threads;
use target_trait::{Judgement, Verdict};

/// How components of a forest are tried.
#[derive(Clone, Copy)]
struct Trial {
    /// The first component that is tried, and how far on the next one is, each time.
    first: usize,
    step: usize,
    depth: u32,
    limit: u32,
    has_cut: bool,
    source: Source,
}

/// The report of a component to a depth keeps its promises.
fn keeps_promises<R: Threads + Wait + Sync + Abort>(
    rt: &R,
    alloc: Global,
    component: &Component<'_>,
    depth: u32,
    source: Source,
) -> Result<(), Fail> {
    let told = told_of(rt, alloc, component, depth, source)?;
    let broken = broken_promises(alloc, component, &told)?;
    if !broken.is_empty() {
        let mut tree = String::new(alloc);
        component.write(&mut tree, component.root)?;
        let Component { limit, has_cut, .. } = *component;
        assert!(rt;
            false,
            "{broken:?} of {tree} to depth {depth}, limit {limit}, cut {has_cut}"
        );
    }
    Ok(())
}

/// The reports of the components of a forest keep their promises.
fn keep_promises<R: Threads + Wait + Sync + Abort>(
    rt: &R,
    alloc: Global,
    forest: &Forest,
    trial: Trial,
) -> Result<(), Fail> {
    for root in forest.roots.iter().skip(trial.first).step_by(trial.step) {
        let component = Component {
            nodes: forest.nodes.as_slice(),
            root: *root,
            limit: trial.limit,
            has_cut: trial.has_cut,
        };
        keeps_promises(rt, alloc, &component, trial.depth, trial.source)?;
    }
    Ok(())
}

/// Tries all components of a forest, with panics at both points.
fn all(depth: u32, limit: u32, source: Source) -> Trial {
    Trial {
        first: 0,
        step: 1,
        depth,
        limit,
        has_cut: false,
        source,
    }
}

/// All components of up to two hits, at a depth and a limit.
fn try_two_hits<R: Threads + Wait + Sync + Abort>(
    rt: &R,
    alloc: Global,
    trial: Trial,
) -> Result<(), Fail> {
    let forest = all_trees(alloc, 2)?;
    assert_eq!(rt; forest.roots.len(), 1298);
    keep_promises(rt, alloc, &forest, trial)
}

/// Components of up to three hits that differ as far as at most one fault acts.
fn try_three_hits<R: Threads + Wait + Sync + Abort>(
    rt: &R,
    alloc: Global,
    step: usize,
    source: Source,
) -> Result<(), Fail> {
    let forest = trees_of_one_fault(alloc, 3)?;
    assert_eq!(rt; forest.roots.len(), 24306);
    let mut trial = all(1, 4, source);
    trial.step = step;
    keep_promises(rt, alloc, &forest, trial)
}

/// Drawn components of up to five hits, depths 1 to 3 and limits 1 to 6. At the second point of every other one returns alone are tried.
fn try_drawn<R: Threads + Wait + Sync + Abort>(
    rt: &R,
    alloc: Global,
    seed: u64,
    count: u32,
    source: Source,
) -> Result<(), Fail> {
    let mut draws = Draws::new(seed);
    for number in 0..count {
        let mut nodes = Vec::new(alloc);
        let root = draws.add_tree(&mut nodes, 5)?;
        let component = Component {
            nodes: nodes.as_slice(),
            root,
            limit: draws.below(6) + 1,
            has_cut: number % 2 == 1,
        };
        let depth = draws.below(3) + 1;
        keeps_promises(rt, alloc, &component, depth, source)?;
    }
    Ok(())
}

/// Each component of two points, if one hit is answered.
#[test]
fn reports_of_all_components_of_limit_1(rt: HostRuntime) -> Result<(), Fail> {
    let alloc = rt.alloc();
    let forest = trees_of_limit_1(alloc)?;
    assert_eq!(&rt; forest.roots.len(), 66);
    for has_cut in [false, true] {
        for (depth, source) in [
            (0, Source::Growth),
            (1, Source::Report),
            (2, Source::Report),
        ] {
            let mut trial = all(depth, 1, source);
            trial.has_cut = has_cut;
            keep_promises(&rt, alloc, &forest, trial)?;
        }
    }
    Ok(())
}

#[test]
fn all_components_of_two_hits_to_depth_0(rt: HostRuntime) -> Result<(), Fail> {
    try_two_hits(&rt, rt.alloc(), all(0, 2, Source::Growth))?;
    try_two_hits(&rt, rt.alloc(), all(0, 4, Source::Growth))
}

#[test]
fn all_components_of_two_hits_to_depth_1_of_limit_2(rt: HostRuntime) -> Result<(), Fail> {
    try_two_hits(&rt, rt.alloc(), all(1, 2, Source::Growth))
}

#[test]
fn all_components_of_two_hits_to_depth_1_of_limit_4(rt: HostRuntime) -> Result<(), Fail> {
    try_two_hits(&rt, rt.alloc(), all(1, 4, Source::Growth))
}

#[test]
fn all_components_of_two_hits_to_depth_2_of_limit_4(rt: HostRuntime) -> Result<(), Fail> {
    try_two_hits(&rt, rt.alloc(), all(2, 4, Source::Growth))
}

/// Every other one, and the others: in two tests, since each has its time.
#[test]
fn reports_of_components_of_two_hits_to_depth_2(rt: HostRuntime) -> Result<(), Fail> {
    let mut trial = all(2, 2, Source::Report);
    trial.step = 2;
    try_two_hits(&rt, rt.alloc(), trial)
}

#[test]
fn reports_of_the_other_components_of_two_hits_to_depth_2(rt: HostRuntime) -> Result<(), Fail> {
    let mut trial = all(2, 2, Source::Report);
    trial.first = 1;
    trial.step = 2;
    try_two_hits(&rt, rt.alloc(), trial)
}

/// Every seventh of those of two hits, with returns alone at their second point.
#[test]
fn reports_of_components_with_a_cut_to_depth_1(rt: HostRuntime) -> Result<(), Fail> {
    let mut trial = all(1, 4, Source::Report);
    trial.step = 7;
    trial.has_cut = true;
    try_two_hits(&rt, rt.alloc(), trial)
}

/// Every 29th of 24306. The step has no divisor with how many trees there may be at a place of another one, so that each of them is there in some of
/// those that are tried.
#[test]
fn components_of_three_hits_to_depth_1(rt: HostRuntime) -> Result<(), Fail> {
    try_three_hits(&rt, rt.alloc(), 29, Source::Growth)
}

#[test]
fn reports_of_components_of_three_hits_to_depth_1(rt: HostRuntime) -> Result<(), Fail> {
    try_three_hits(&rt, rt.alloc(), 127, Source::Report)
}

#[test]
fn drawn_components(rt: HostRuntime) -> Result<(), Fail> {
    try_drawn(&rt, rt.alloc(), 7, 500, Source::Growth)
}

#[test]
fn reports_of_drawn_components(rt: HostRuntime) -> Result<(), Fail> {
    try_drawn(&rt, rt.alloc(), 8, 150, Source::Report)
}

/// A node that keeps its promise if it panics.
fn ask(point: u32, goes: usize, returns: usize) -> Node {
    Node::Ask {
        point,
        goes,
        returns,
        panics: Judgement::Kept,
    }
}

/// A component whose report to depth 2 has every fact that can be wrong. It goes on at a and then at b, and keeps its promise. A return of b breaks
/// the promise with code 2, after one more hit of b. After each return of a it asks a once more, and the fourth return breaks the promise with code
/// 1.
fn rich_nodes() -> [Node; 9] {
    [
        Node::End(Judgement::Kept),
        Node::End(Judgement::Broken(1)),
        Node::End(Judgement::Broken(2)),
        ask(1, 2, 2),
        ask(1, 0, 3),
        ask(0, 0, 1),
        ask(0, 0, 5),
        ask(0, 0, 6),
        ask(0, 4, 7),
    ]
}

/// The component of these nodes.
fn rich(nodes: &[Node]) -> Component<'_> {
    Component {
        nodes,
        root: 8,
        limit: 6,
        has_cut: false,
    }
}

/// A return of the hits of a point from the first one up to this one, or of all.
fn return_of(point: u32, last: Option<u32>) -> Fault {
    Fault {
        point,
        first: 1,
        last,
        reply: Reply::Return,
    }
}

/// Number 0 has no fault. 1 to 4 have one, a return of a, a panic of a, a return of b and a panic of b. A return of a leads to one more hit of a,
/// which returns in 5 and panics in 6; a return of b leads to one more of b, in 7 and 8. In 9 the second hit of a returns as in 5, and so do all
/// further ones. In the run of 5 the third hit of a could return or panic too: these are beyond. 3 fails with code 2, and so does 7, by that fault
/// alone; 9 fails with code 1.
fn is_worked_out<R: Abort>(rt: &R, told: &Told) -> Result<(), Fail> {
    let Some(findings) = &told.findings else {
        return Err(Fail::from("no findings"));
    };
    assert_eq!(rt; told.levels.as_slice(), [1, 4, 4].as_slice());
    assert_eq!(rt; (told.onward, told.beyond), (1, 2));
    assert_eq!(rt; told.reached.as_slice(), [4, 2].as_slice());
    assert_eq!(rt; told.causes.as_slice(), [(3, 2), (9, 1)].as_slice());
    assert_eq!(rt; findings.len(), 2);
    assert_eq!(rt; (findings[0].number, findings[0].code), (3, 2));
    assert_eq!(rt;
        findings[0].reduced.as_slice(),
        [return_of(1, Some(1))].as_slice()
    );
    assert_eq!(rt; (findings[1].number, findings[1].code), (9, 1));
    assert_eq!(rt; told.behaviours.len(), 10);
    Ok(())
}

/// A fact of that report, made wrong.
#[derive(Clone, Copy, Debug)]
enum Wrong {
    Nothing,
    CauseLeftOut,
    /// The cause with a sticky fault is left out.
    StickyCauseLeftOut,
    CauseTwice,
    /// A cause is listed by its number with the code of the other one.
    CauseOfAnotherCode,
    /// Number 7 is listed, which fails without its second fault too.
    CauseWithNeedlessFault,
    BeyondOneMore,
    BeyondNone,
    /// A number of level 2 is counted to level 1.
    LevelOfAnother,
    ReachedWithoutFaults,
    FindingLeftOut,
    FindingTwice,
    FindingOfALaterNumber,
    ReducedTooFar,
    ReducedWithNeedlessFault,
    /// What fails is reduced to another fault, with which it fails as well.
    ReducedToAnother,
    VerdictOfAnother,
    NumberSkipped,
    /// The number with a sticky fault is left out, with everything that the report says of it.
    OnwardSkipped,
    NumberTwice,
}

/// Each wrong fact, and the promises that it breaks.
const WRONG: [(Wrong, &[Promise]); 20] = [
    (Wrong::Nothing, &[]),
    (
        Wrong::CauseLeftOut,
        &[Promise::IsCaused, Promise::AreListed],
    ),
    (Wrong::StickyCauseLeftOut, &[Promise::AreListed]),
    (Wrong::CauseTwice, &[Promise::AreListed]),
    (
        Wrong::CauseOfAnotherCode,
        &[Promise::IsCaused, Promise::IsCause, Promise::AreListed],
    ),
    (Wrong::CauseWithNeedlessFault, &[Promise::IsCause]),
    (Wrong::BeyondOneMore, &[Promise::HasSizes]),
    (Wrong::BeyondNone, &[Promise::Whole, Promise::HasSizes]),
    (Wrong::LevelOfAnother, &[Promise::HasSizes]),
    (Wrong::ReachedWithoutFaults, &[Promise::IsReached]),
    (Wrong::FindingLeftOut, &[Promise::EachIsFound]),
    (Wrong::FindingTwice, &[Promise::EachIsFound]),
    (
        Wrong::FindingOfALaterNumber,
        &[Promise::IsReduced, Promise::IsFewest],
    ),
    (Wrong::ReducedTooFar, &[Promise::IsReduced]),
    (
        Wrong::ReducedWithNeedlessFault,
        &[Promise::IsReduced, Promise::IsFewest],
    ),
    (Wrong::ReducedToAnother, &[Promise::IsFewest]),
    (Wrong::VerdictOfAnother, &[Promise::NothingSkipped]),
    (Wrong::NumberSkipped, &[Promise::NothingSkipped]),
    (Wrong::OnwardSkipped, &[Promise::FromThenOn]),
    (
        Wrong::NumberTwice,
        &[Promise::NothingTwice, Promise::AreSticky],
    ),
];

/// Makes a fact of the causes, sizes or numbers wrong.
fn spoil(alloc: Global, told: &mut Told, wrong: Wrong) -> Result<(), AllocError> {
    match wrong {
        Wrong::CauseLeftOut => {
            told.causes.remove(0);
        }
        Wrong::CauseOfAnotherCode => told.causes[0] = (3, 1),
        Wrong::StickyCauseLeftOut => {
            told.causes.pop();
        }
        Wrong::CauseTwice => {
            told.causes = Vec::from_slice(alloc, &[(3, 2), (3, 2), (9, 1)])?;
        }
        Wrong::CauseWithNeedlessFault => {
            told.causes = Vec::from_slice(alloc, &[(3, 2), (7, 2), (9, 1)])?;
        }
        Wrong::BeyondOneMore => told.beyond += 1,
        Wrong::BeyondNone => told.beyond = 0,
        Wrong::LevelOfAnother => told.levels = Vec::from_slice(alloc, &[1, 5, 3])?,
        Wrong::ReachedWithoutFaults => told.reached = Vec::from_slice(alloc, &[1, 1])?,
        Wrong::VerdictOfAnother => told.behaviours[4].verdict = Verdict::Unresolved,
        Wrong::NumberSkipped => {
            told.behaviours.remove(8);
            told.levels[2] = 3;
            told.causes[1] = (8, 1);
        }
        Wrong::OnwardSkipped => {
            told.behaviours.remove(9);
            told.onward = 0;
            told.causes.remove(1);
            told.reached[0] = 3;
        }
        Wrong::NumberTwice => {
            let hits = Vec::from_slice(alloc, told.behaviours[0].hits.as_slice())?;
            let verdict = told.behaviours[0].verdict;
            told.behaviours.push(Behaviour { hits, verdict })?;
            told.onward += 1;
        }
        _ => {}
    }
    Ok(())
}

/// Makes a fact of the findings wrong.
fn spoil_findings(
    alloc: Global,
    findings: &mut Vec<Finding>,
    wrong: Wrong,
) -> Result<(), AllocError> {
    match wrong {
        Wrong::FindingLeftOut => {
            findings.remove(0);
        }
        Wrong::FindingTwice => {
            let reduced = Vec::from_slice(alloc, findings[0].reduced.as_slice())?;
            findings.push(Finding {
                number: 3,
                code: 2,
                reduced,
            })?;
        }
        Wrong::FindingOfALaterNumber => findings[0].number = 7,
        Wrong::ReducedTooFar => {
            findings[1].reduced.pop();
        }
        Wrong::ReducedWithNeedlessFault => findings[0].reduced.push(return_of(0, Some(0)))?,
        Wrong::ReducedToAnother => findings[0].reduced[0] = return_of(1, None),
        Wrong::NumberSkipped => findings[1].number = 8,
        Wrong::OnwardSkipped => {
            findings.remove(1);
        }
        _ => {}
    }
    Ok(())
}

/// The facts of one report are those that were worked out by hand, and keep each promise. Each fact that is made wrong breaks the promises that it
/// belongs to, and no other.
#[test]
fn each_wrong_fact_is_found(rt: HostRuntime) -> Result<(), Fail> {
    let alloc = rt.alloc();
    let nodes = rich_nodes();
    let component = rich(&nodes);
    for (wrong, promises) in WRONG {
        let mut told = told_of(&rt, alloc, &component, 2, Source::Report)?;
        is_worked_out(&rt, &told)?;
        spoil(alloc, &mut told, wrong)?;
        if let Some(findings) = &mut told.findings {
            spoil_findings(alloc, findings, wrong)?;
        }
        let broken = broken_promises(alloc, &component, &told)?;
        assert_eq!(&rt;
            broken.as_slice(),
            promises,
            "where {wrong:?} is told wrong"
        );
    }
    Ok(())
}

/// A component that asks b and then a, whose third return breaks its promise, whatever b did. Numbers 1 to 4 have a return of b, a panic of b, a return
/// of a and a panic of a. 5 to 8 have one fault more, and no return of a more than two. 9 is 5, a return of b and one of a, with the one of a sticky,
/// and 10 is 7, two returns of a, with the second one sticky. Both fail. 9 fails without its return of b too, so that is left out, and 9 is no cause.
#[test]
fn a_fault_that_is_not_needed_is_left_out(rt: HostRuntime) -> Result<(), Fail> {
    let alloc = rt.alloc();
    let nodes = [
        Node::End(Judgement::Kept),
        Node::End(Judgement::Broken(1)),
        ask(0, 0, 1),
        ask(0, 0, 2),
        ask(0, 0, 3),
        ask(1, 4, 4),
    ];
    let component = Component {
        nodes: &nodes,
        root: 5,
        limit: 6,
        has_cut: false,
    };
    keeps_promises(&rt, alloc, &component, 2, Source::Report)?;
    let mut told = told_of(&rt, alloc, &component, 2, Source::Report)?;
    assert_eq!(&rt; told.causes.as_slice(), [(10, 1)].as_slice());
    told.causes = Vec::from_slice(alloc, &[(9, 1), (10, 1)])?;
    let broken = broken_promises(alloc, &component, &told)?;
    assert_eq!(&rt; broken.as_slice(), [Promise::IsCause].as_slice());
    let Some(findings) = &told.findings else {
        return Err(Fail::from("no findings"));
    };
    assert_eq!(&rt; findings.len(), 1);
    assert_eq!(&rt; findings[0].number, 9);
    assert_eq!(&rt;
        findings[0].reduced.as_slice(),
        [return_of(0, None)].as_slice()
    );
    Ok(())
}
