//! What is wrong with a text of answers.
ghost use Rattle.std.specs.Prelude.{◌≡◌, Some};
ghost use Rattle.answer_text.specs.FaultText.{fault_text, line_of};
ghost use Rattle.answer_text.specs.declared.fault.LineError.TheVariants.{Memory as Lacking};
ghost use Rattle.answer_text.specs.declared.fault.AnswersFault.TheVariants.{Memory};

use scenario_grammar::{Kind, Text};
use std::alloc::{AllocError, AllocFailed};
use std::error::Error;
use std::fmt;

/// What is wrong with a line. Its text says so, and for most faults also what would be right: `no such verdict "passed"; verdicts are pass,
/// unresolved, and fail with a code`. Which codes or points there are isn't in the text: whoever has the settings adds them.
#[derive(Debug, Drop, PartialEq, Eq)]
pub enum LineFault {
    /// The last line has no line feed at its end, as after a writer that was killed: the next answer would join it.
    NotEnded,
    /// The line isn't UTF-8.
    NotUtf8,
    /// The line has no tab.
    NoTab,
    /// This text before the first tab is neither `pass` nor `unresolved`, and doesn't begin with `fail` and a space.
    UnknownVerdict(Text),
    /// What follows `fail` and a space, this text, is none of the codes' names.
    UnknownCode(Text),
    /// An ASCII control character stands in the scenario.
    ControlByte,
    /// The text after the first tab, up to a second one, spells no scenario. The grammar of scenarios says what is wrong, and in which piece and
    /// which term, both numbered from 1.
    Scenario { kind: Kind, entry: u32, term: u32 },
    /// The hits of the run are needed, and the line has no second tab.
    NoHits,
    /// The text between two `;` of the hits names no point, with or without a count before it. This text was to be the name.
    UnknownPoint(Text),
    /// The text before the `*` of hits in a row is no number from 2 to 65536 as it is written in decimals, or the line has more than 65536 hits in
    /// all.
    BadCount,
    /// The hits name the point of this name twice in a row, where one count is needed.
    NotJoined(Text),
    /// The line contradicts the line of this number, from 1, which is the first to answer the same tidied scenario: it has another verdict, other
    /// hits, or only one of the two lines has hits.
    Contradicts(u32),
}

impl fmt::Display for LineFault {
    ghost output = { λ fault. Some (fault_text fault) };

    fn fmt<W: fmt::Write>(&self, f: &mut fmt::Formatter<W>) -> fmt::Result {
        match self {
            LineFault::NotEnded => f.write_str(
                "not ended; a line feed is missing, so the line may have been cut off: delete it",
            ),
            LineFault::NotUtf8 => f.write_str("not UTF-8"),
            LineFault::NoTab => f.write_str(
                "no tab; a verdict and a scenario are written with a tab between them",
            ),
            LineFault::UnknownVerdict(word) => {
                let word = word.as_str();
                write!(
                    f,
                    "no such verdict \"{word}\"; verdicts are pass, unresolved, and fail with a code"
                )
            }
            LineFault::UnknownCode(name) => write!(f, "no such code \"{}\"", name.as_str()),
            LineFault::ControlByte => {
                f.write_str("a control character in the scenario; a scenario has none")
            }
            LineFault::Scenario { kind, entry, term } => {
                write!(f, "{kind} entry {entry} term {term}")
            }
            LineFault::NoHits => f.write_str(
                "no hits; with a depth they stand behind a second tab, or - if nobody knows them",
            ),
            LineFault::UnknownPoint(name) => write!(f, "no such point \"{}\"", name.as_str()),
            LineFault::BadCount => f.write_str("bad count"),
            LineFault::NotJoined(name) => {
                let name = name.as_str();
                write!(
                    f,
                    "one point twice in a row; write it once with its count, such as 2*{name}"
                )
            }
            LineFault::Contradicts(line) => {
                write!(
                    f,
                    "contradicts line {line}, which answers the same scenario otherwise"
                )
            }
        }
    }
}

/// Why a line gives no answer.
#[derive(Debug, Drop)]
pub enum LineError {
    Bad(LineFault),
    Memory,
}

impl From<AllocError> for LineError {
    ghost from_gives = { λ _ error. error ≡ Lacking };

    fn from(_: AllocError) -> LineError {
        LineError::Memory
    }
}

impl<T: Drop> From<AllocFailed<T>> for LineError {
    ghost from_gives = { λ _ error. error ≡ Lacking };

    fn from(_: AllocFailed<T>) -> LineError {
        LineError::Memory
    }
}

/// Why a text gives no answers: its first fault, or that memory was refused.
#[derive(Debug, Drop, PartialEq, Eq)]
pub enum AnswersFault {
    /// The text has more than 268435456 bytes.
    TooLong,
    /// What is wrong with the line of this number, from 1.
    Line(u32, LineFault),
    /// Memory was refused.
    Memory,
}

impl fmt::Display for AnswersFault {
    ghost output = { λ fault. Some (line_of fault) };

    fn fmt<W: fmt::Write>(&self, f: &mut fmt::Formatter<W>) -> fmt::Result {
        match self {
            AnswersFault::TooLong => f.write_str("answers: too long"),
            AnswersFault::Line(number, fault) => write!(f, "answers: line {number}: {fault}"),
            AnswersFault::Memory => f.write_str("no memory"),
        }
    }
}

impl Error for AnswersFault {}

impl From<AllocError> for AnswersFault {
    ghost from_gives = { λ _ fault. fault ≡ Memory };

    fn from(_: AllocError) -> AnswersFault {
        AnswersFault::Memory
    }
}
