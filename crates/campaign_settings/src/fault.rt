//! Why a text gives no settings.
ghost use Rattle.std.specs.Prelude.{◌≡◌, Some};
ghost use Rattle.campaign_settings.specs.Lines.{line_of};
ghost use Rattle.campaign_settings.specs.declared.fault.SettingsFault.TheVariants.{Memory};

use crate::keys::{Key, Place};
use scenario_grammar::Kind;
use std::alloc::{AllocError, AllocFailed};
use std::error::Error;
use std::fmt;

/// Why a text gives no settings: its first fault, or that memory ran out.
#[derive(Debug, Drop)]
pub enum SettingsFault {
    /// The text has more than 1048576 bytes.
    TooLong,
    /// The text is no TOML.
    NotToml,
    /// A key that the table may not have: the least one, in byte order.
    UnknownKey(Place, String),
    /// A key that has to be there is missing.
    Missing(Key),
    /// A value isn't of its key's type.
    WrongType(Key),
    /// A value is of its key's type, but out of its range.
    OutOfRange(Key),
    /// The text of a listed scenario, numbered from 0, spells none: what is wrong, in which piece and in which term, both numbered from 1, as
    /// `scenario_grammar` reports it.
    Scenario {
        number: u32,
        kind: Kind,
        entry: u32,
        term: u32,
    },
    /// Memory was refused.
    Memory,
}

impl fmt::Display for SettingsFault {
    ghost output = { λ fault. Some (line_of fault) };

    fn fmt<W: fmt::Write>(&self, f: &mut fmt::Formatter<W>) -> fmt::Result {
        match self {
            SettingsFault::TooLong => f.write_str("settings: too long"),
            SettingsFault::NotToml => f.write_str("settings: not TOML"),
            SettingsFault::UnknownKey(place, name) => match place {
                Place::Top(_) | Place::Own | Place::Worded => {
                    write!(f, "settings: unknown key {name}")
                }
                Place::Kinds => write!(f, "settings: unknown key {}.{name}", Key::Kinds),
                Place::Within(target) => write!(f, "settings: unknown key {target}.{name}"),
            },
            SettingsFault::Missing(key) => write!(f, "settings: missing {key}"),
            SettingsFault::WrongType(key) => write!(f, "settings: wrong type {key}"),
            SettingsFault::OutOfRange(key) => write!(f, "settings: out of range {key}"),
            SettingsFault::Scenario {
                number,
                kind,
                entry,
                term,
            } => write!(
                f,
                "settings: scenario {number}: {kind} entry {entry} term {term}"
            ),
            SettingsFault::Memory => f.write_str("no memory"),
        }
    }
}

impl Error for SettingsFault {}

impl From<AllocError> for SettingsFault {
    ghost from_gives = { λ _ fault. fault ≡ Memory };

    fn from(_: AllocError) -> SettingsFault {
        SettingsFault::Memory
    }
}

impl<T: Drop> From<AllocFailed<T>> for SettingsFault {
    ghost from_gives = { λ _ fault. fault ≡ Memory };

    fn from(_: AllocFailed<T>) -> SettingsFault {
        SettingsFault::Memory
    }
}
