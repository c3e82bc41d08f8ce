//! Hits of a session.
ghost use Rattle.std.specs.Prelude.{◌≡◌, ◌≤◌, ◌<◌, length};

use crate::check::{Fault, demand};
use action_eval::{Answer, Session};
use scenario_grammar::parse;
use std::alloc::Global;

const POINTS: [&str; 3] = ["shares", "counts", "notes"];

// The first point takes a word at each hit and never acts. The second returns at its third hit. The third takes words until it has left three notes:
// that is six words, as a program in another language drew them for seed 7 and stream 5.
const SCENARIO: &str = "shares=50%0*print->0%panic;counts=2*off->1*return;notes=60%3*print(a)";

/// Hits of each point: with all three, more than the room that a session makes at first.
const ROUNDS: u32 = 100;

/// What a session says of its run.
#[derive(Clone, Copy, PartialEq, Eq)]
struct Told {
    asked: usize,
    words: u64,
    notes: usize,
    is_stopped: bool,
}

fn tell(session: &Session<'_>) -> Told {
    Told {
        asked: session.trace().len(),
        words: session.words(),
        notes: session.notes().len(),
        is_stopped: session.stopped().is_some(),
    }
}

/// 1 if a hit of the point is answered Return, 0 if it is answered otherwise; none if it is refused.
fn returns(session: &mut Session<'_>, point: u32) -> Option<u32>
    requires { point < length session.old.given.catalogue }
    ensures { session.new.given ≡ session.old.given }
{
    if session.stopped().is_some() {
        return None;
    }
    match session.hit(point) {
        Ok(Answer::Return(_)) => Some(1),
        Ok(Answer::Go | Answer::Halt) => Some(0),
        Err(_) => None,
    }
}

/// Hits a point, and once more if that is refused: then nothing has changed, and the second hit is answered.
fn returns_again(session: &mut Session<'_>, point: u32) -> Result<u32, Fault>
    requires { point < length session.old.given.catalogue }
    ensures { session.new.given ≡ session.old.given }
{
    let before = tell(session);
    if let Some(count) = returns(session, point) {
        return Ok(count);
    }
    demand(tell(session) == before)?;
    returns(session, point).ok_or(Fault::Broken)
}

/// Hits all points in turn, and returns how many of the hits are answered Return.
fn all_returns(session: &mut Session<'_>) -> Result<u32, Fault>
    requires { 3 ≤ length session.old.given.catalogue }
{
    let mut count = 0u32;
    for _ in 0..ROUNDS {
        for point in 0..3 {
            count = count.saturating_add(returns_again(session, point)?);
        }
    }
    Ok(count)
}

pub fn hits(alloc: Global) -> Result<(), Fault> {
    let Ok(scenario) = parse(alloc, SCENARIO) else {
        return Err(Fault::Memory);
    };
    let mut session = Session::new(alloc, &scenario, &POINTS, 7, 5, 1000)?;
    demand(all_returns(&mut session)? == 1)?;
    let expected = Told {
        asked: 300,
        words: 106,
        notes: 3,
        is_stopped: false,
    };
    demand(tell(&session) == expected)
}
