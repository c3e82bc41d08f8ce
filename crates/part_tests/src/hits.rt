//! Worked examples of what terms do.
ghost use Rattle.std.specs.Prelude.{◌<◌, length};

use action_eval::{Answer, Note, Session, Stop};
use rand_chacha::ChaCha8Rng;
use rand_core::SeedableRng;
use rand_core::utils::NextWord;
use scenario_grammar::parse;
use std::alloc::{AllocError, Global};
use std::process::Abort;
use std::test::Fail;

/// The names of the points.
const POINTS: [&str; 6] = ["used", "shares", "half", "panic", "pause", "notes"];

const USED: u32 = 0;

const SHARES: u32 = 1;

const HALF: u32 = 2;

const PANIC: u32 = 3;

const PAUSE: u32 = 4;

const NOTES: u32 = 5;

/// The scenario of the examples: a chain for each point.
const SCENARIO: &str =
    "used=2*off->1*return;shares=50%0*print->0%panic;half=50%return;panic=panic;pause=pause;notes=1*print(a)->1*sleep(5)->1*delay(7)->60%print(b)";

/// The generator of a stream of words for the seed 7: ChaCha8 with that seed in eight bytes, low byte first, and 24 zeros.
fn words_of(stream: u64) -> ChaCha8Rng {
    let mut seed = [0; 32];
    seed[0] = 7;
    let mut generator = ChaCha8Rng::from_seed(seed);
    generator.set_stream(stream);
    generator
}

/// The letter of a return: the first one of its text, if it has one.
fn letter_of(text: Option<&str>) -> char {
    match text {
        Some(text) => text.chars().next().unwrap_or('R'),
        None => 'R',
    }
}

/// The answers of hits of a point, a letter each, as far as the session goes.
pub fn answers(
    alloc: Global,
    session: &mut Session<'_>,
    point: u32,
    count: u32,
) -> Result<String, AllocError>
    requires { point < length session.old.given.catalogue }
{
    let mut letters = String::new(alloc);
    for _ in 0..count {
        if session.stopped().is_some() {
            break;
        }
        letters.push(match session.hit(point)? {
            Answer::Go => 'G',
            Answer::Return(text) => letter_of(text),
            Answer::Halt => 'H',
        })?;
    }
    Ok(letters)
}

/// What a session says of its run, without the notes' texts.
#[derive(Clone, Copy, Debug, PartialEq, Eq)]
struct Told {
    asked: usize,
    words: u64,
    millis: u64,
    notes: usize,
    stopped: Option<Stop>,
}

fn tell(session: &Session<'_>) -> Told {
    Told {
        asked: session.trace().len(),
        words: session.words(),
        millis: session.millis(),
        notes: session.notes().len(),
        stopped: session.stopped(),
    }
}

/// How this many hits of a point are answered, by a session of this many hits, and what it says of the run then.
fn said(
    alloc: Global,
    stream: u64,
    max_hits: u32,
    point: u32,
    count: u32,
) -> Result<(String, Told), Fail> {
    if point as usize >= POINTS.len() {
        return Err(Fail::from("no such point"));
    }
    let scenario = parse(alloc, SCENARIO)?;
    let mut session = Session::new(alloc, &scenario, &POINTS, 7, stream, max_hits)?;
    let letters = answers(alloc, &mut session, point, count)?;
    Ok((letters, tell(&session)))
}

#[test]
fn a_used_up_term_makes_way_and_takes_no_word(rt: HostRuntime) -> Result<(), Fail> {
    for (point, count, letters, words) in [(USED, 5, "GGRGG", 0), (SHARES, 3, "GGG", 3)] {
        let (said, told) = said(rt.alloc(), 0, 1000, point, count)?;
        assert_eq!(rt; said.as_str(), letters);
        assert_eq!(rt; told.words, words, "at {letters}");
    }
    Ok(())
}

#[test]
fn a_term_acts_where_its_word_is_below_its_share(rt: HostRuntime) -> Result<(), Fail> {
    let mut generator = words_of(5);
    let mut expected = String::new(rt.alloc());
    for _ in 0..100u32 {
        expected.push(if generator.next_word() % 1_000_000 < 500_000 {
            'R'
        } else {
            'G'
        })?;
    }
    let (letters, told) = said(rt.alloc(), 5, 1000, HALF, 100)?;
    assert_eq!(rt; letters.as_str(), expected.as_str());
    assert_eq!(rt; told.words, 100);
    Ok(())
}

#[test]
fn a_session_stops_at_its_limit_at_a_panic_and_at_a_pause(rt: HostRuntime) -> Result<(), Fail> {
    for (point, letters, stop, asked) in [
        (USED, "GGH", Stop::Limit, 2),
        (PANIC, "H", Stop::Panic, 1),
        (PAUSE, "H", Stop::Paused, 1),
    ] {
        let (said, told) = said(rt.alloc(), 0, 2, point, 9)?;
        assert_eq!(rt; said.as_str(), letters);
        assert_eq!(rt; told.stopped, Some(stop));
        assert_eq!(rt; told.asked, asked);
    }
    Ok(())
}

/// The points that a session was asked after this many hits of a point, and the notes that it leaves.
fn left(alloc: Global, point: u32, count: u32) -> Result<(Vec<u32>, Vec<Note>), Fail> {
    if point as usize >= POINTS.len() {
        return Err(Fail::from("no such point"));
    }
    let scenario = parse(alloc, SCENARIO)?;
    let mut session = Session::new(alloc, &scenario, &POINTS, 7, 0, 1000)?;
    answers(alloc, &mut session, point, count)?;
    let mut asked = Vec::new(alloc);
    asked.extend_from_slice(session.trace())?;
    Ok((asked, session.into_notes()))
}

/// There is one note, of this point and text.
fn is_one_note(rt: &impl Abort, notes: &[Note], point: u32, text: &str) -> Result<(), Fail> {
    let [note] = notes else {
        return Err(Fail::from("one note"));
    };
    assert_eq!(rt; note.point, point);
    let Some(noted) = &note.text else {
        return Err(Fail::from("a note with its text"));
    };
    assert_eq!(rt; noted.as_str(), text);
    Ok(())
}

#[test]
fn notes_and_milliseconds_add_up(rt: HostRuntime) -> Result<(), Fail> {
    let (letters, told) = said(rt.alloc(), 0, 1000, NOTES, 3)?;
    assert_eq!(rt; letters.as_str(), "GGG");
    assert_eq!(rt; told.millis, 12);
    let (asked, notes) = left(rt.alloc(), NOTES, 3)?;
    assert_eq!(rt; asked.as_slice(), [NOTES, NOTES, NOTES].as_slice());
    is_one_note(&rt, &notes, NOTES, "a")
}
