//! What is wrong with a scenario text.
ghost use Rattle.std.specs.Prelude.{◌≡◌, Some};
ghost use Rattle.scenario_grammar.specs.declared.fault.TermError.TheVariants.{Memory};
ghost use Rattle.scenario_grammar.specs.declared.fault.ScenarioFault.TheVariants.{Memory as Lacking};
ghost use Rattle.scenario_grammar.specs.FaultText.{kind_text, fault_text};

use std::alloc::{AllocError, AllocFailed};
use std::error::Error;
use std::fmt;

/// What is wrong.
#[derive(Clone, Copy, Debug, PartialEq, Eq)]
pub enum Kind {
    /// A piece without `=`.
    NoAction,
    /// A piece whose name is empty.
    NoName,
    /// A term with `(` whose last character isn't `)`.
    Parentheses,
    /// What stands before the first `%` of a head isn't a number: one or more digits, and perhaps a point and one to four digits.
    BadPercent,
    /// What stands before the first `*` isn't a number of digits alone, up to 4294967295.
    BadCount,
    /// What is left of the head is none of the eight tasks.
    UnknownTask,
    /// The argument of `sleep` or `delay` is missing, or isn't a number of digits alone, up to 1000000000.
    BadMillis,
    /// A text of more than 65536 bytes.
    TooLong,
    /// The 257th piece that isn't blank, the 257th term of a chain, or the 4097th fault.
    TooMany,
}

impl fmt::Display for Kind {
    ghost output = { λ kind. Some (kind_text kind) };

    fn fmt<W: fmt::Write>(&self, f: &mut fmt::Formatter<W>) -> fmt::Result {
        f.write_str(match self {
            Kind::NoAction => "NoAction",
            Kind::NoName => "NoName",
            Kind::Parentheses => "Parentheses",
            Kind::BadPercent => "BadPercent",
            Kind::BadCount => "BadCount",
            Kind::UnknownTask => "UnknownTask",
            Kind::BadMillis => "BadMillis",
            Kind::TooLong => "TooLong",
            Kind::TooMany => "TooMany",
        })
    }
}

/// Why one term isn't read, without its place.
#[derive(Debug, Drop)]
pub enum TermError {
    Memory,
    Bad(Kind),
}

impl From<AllocError> for TermError {
    ghost from_gives = { λ _ e. e ≡ Memory };

    fn from(_e: AllocError) -> TermError {
        TermError::Memory
    }
}

impl<T: Drop> From<AllocFailed<T>> for TermError {
    ghost from_gives = { λ _ e. e ≡ Memory };

    fn from(_e: AllocFailed<T>) -> TermError {
        TermError::Memory
    }
}

/// Why a text is no scenario, or that memory ran out.
#[derive(Debug, Drop, PartialEq, Eq)]
pub enum ScenarioFault {
    /// The first fault of the text: what is wrong, in which piece and in which term. Both are numbered from 1. A fault of the piece itself has term
    /// 0; a text that is too long has piece 0 and term 0.
    Bad { kind: Kind, entry: u32, term: u32 },
    /// Memory was refused.
    Memory,
}

impl fmt::Display for ScenarioFault {
    ghost output = { λ fault. Some (fault_text fault) };

    fn fmt<W: fmt::Write>(&self, f: &mut fmt::Formatter<W>) -> fmt::Result {
        match self {
            ScenarioFault::Bad { kind, entry, term } => {
                write!(f, "{kind} entry {entry} term {term}")
            }
            ScenarioFault::Memory => write!(f, "no memory"),
        }
    }
}

impl Error for ScenarioFault {}

impl From<AllocError> for ScenarioFault {
    ghost from_gives = { λ _ e. e ≡ Lacking };

    fn from(_e: AllocError) -> ScenarioFault {
        ScenarioFault::Memory
    }
}

impl<T: Drop> From<AllocFailed<T>> for ScenarioFault {
    ghost from_gives = { λ _ e. e ≡ Lacking };

    fn from(_e: AllocFailed<T>) -> ScenarioFault {
        ScenarioFault::Memory
    }
}
