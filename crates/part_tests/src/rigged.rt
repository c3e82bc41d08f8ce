//! Worked examples of rigged hits.
ghost use Rattle.std.specs.Prelude.{◌<◌, length};

use crate::hits::answers;
use action_eval::{Argument, FaultTable, Kind, Rig, Session, Site, have_lawful_texts};
use scenario_grammar::{is_argument, parse};
use std::alloc::Global;
use std::process::Abort;
use std::test::Fail;

/// The names of the points.
const POINTS: [&str; 2] = ["open", "write"];

const OPEN: u32 = 0;

const WRITE: u32 = 1;

/// The point, the number of its hit, and what is done there.
type Hit = (u32, u32, Kind);

fn rig(place: Hit) -> Rig {
    let (point, hit, kind) = place;
    Rig {
        site: Site { point, hit },
        kind,
    }
}

/// The text of a return; none if it can't be one.
fn argument(text: &str) -> Argument {
    if is_argument(text) {
        Argument::of(text).unwrap_or(Argument::none())
    } else {
        Argument::none()
    }
}

/// How four hits of a point are answered over a fault table, a letter each.
fn over(alloc: Global, table: &FaultTable<'_>, point: u32) -> Result<String, Fail>
    requires { point < length table.now.names }
{
    let mut session = Session::over(alloc, table, 7, 0, 1000)?;
    Ok(answers(alloc, &mut session, point, 4)?)
}

/// How they are answered under a scenario.
fn under(alloc: Global, scenario: &str, point: u32) -> Result<String, Fail> {
    if point as usize >= POINTS.len() {
        return Err(Fail::from("no such point"));
    }
    let scenario = parse(alloc, scenario)?;
    let mut session = Session::new(alloc, &scenario, &POINTS, 7, 0, 1000)?;
    Ok(answers(alloc, &mut session, point, 4)?)
}

/// Two rigged hits, the scenario that says the same, and how four hits of each point are answered.
#[derive(Drop)]
struct Rigged {
    first: Hit,
    second: Hit,
    scenario: &'static str,
    letters: [&'static str; 2],
}

/// The hits are answered so, over the rigged hits and under the scenario.
fn both(
    rt: &impl Abort,
    alloc: Global,
    table: &mut FaultTable<'_>,
    row: &Rigged,
) -> Result<(), Fail> {
    let rigs = [rig(row.first), rig(row.second)];
    have_lawful_texts(&rigs);
    table.load(&POINTS, &rigs)?;
    for (point, letters) in [(OPEN, row.letters[0]), (WRITE, row.letters[1])] {
        assert_eq!(rt; over(alloc, table, point)?.as_str(), letters);
        assert_eq!(rt; under(alloc, row.scenario, point)?.as_str(), letters);
    }
    Ok(())
}

#[test]
fn rigged_hits_are_answered_as_their_scenario_says(rt: HostRuntime) -> Result<(), Fail> {
    let mut table = FaultTable::new(rt.alloc());
    let rows = [
        Rigged {
            first: (OPEN, 2, Kind::OnceReturn(Argument::none())),
            second: (WRITE, 3, Kind::OncePanic),
            scenario: "open=1*off->1*return;write=2*off->1*panic",
            letters: ["GRGG", "GGH"],
        },
        Rigged {
            first: (WRITE, 1, Kind::OnceReturn(Argument::none())),
            second: (WRITE, 3, Kind::OnwardReturn(Argument::none())),
            scenario: "write=1*return->1*off->return",
            letters: ["GGGG", "RGRR"],
        },
        Rigged {
            first: (OPEN, 1, Kind::OnceReturn(argument("EIO"))),
            second: (OPEN, 2, Kind::OnwardReturn(argument("DROP"))),
            scenario: "open=1*return(EIO)->return(DROP)",
            letters: ["EDDD", "GGGG"],
        },
    ];
    for row in &rows {
        both(&rt, rt.alloc(), &mut table, row)?;
    }
    Ok(())
}

#[test]
fn texts_of_more_than_32_bytes_are_refused(rt: HostRuntime) {
    for (text, fits) in [
        ("a text that has just 32 bytes...", true),
        ("a text that has just 33 bytes....", false),
    ] {
        assert!(rt; is_argument(text));
        assert!(rt; Argument::of(text).is_some() == fits, "{text}");
    }
}
