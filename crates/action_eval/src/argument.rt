//! The arguments of rigged faults.
ghost use Rattle.std.specs.Prelude.{◌≡◌, ◌≤◌, ◌↔◌, true, None, length, option_map, IfSome, IsSome};
ghost use Rattle.scenario_values.specs.Scenario.{is_argument};
ghost use Rattle.action_eval.specs.RiggedScenario.{is_same_text, most_text};

use std::marker::Model;
use std::str;

/// The most bytes that the text of a rigged hit has.
pub const MOST_TEXT: usize = 32;

/// The text with which a rigged hit fails, or none. A text is a lawful argument of at most 32 bytes. They lie in the value itself, so that faults are
/// plain values. Contracts see the text's bytes, or that there is none.
#[derive(Clone, Copy, Debug)]
pub struct Argument {
    is_some: bool,
    len: u8,
    bytes: [u8; 32],
}

impl Model for Argument {
    ghost use Rattle.std.specs.Prelude.{◌-◌, ◌++◌, ℕ, List, Option, length};

    ghost Value = { Option (List ℕ) };

    ghost use Rattle.action_eval.specs.inside.Arguments.{IsKept, is_there, seen, seen_bytes, seen_len, seen_there, text_in, zeros};

    ghost view = { λ a. seen a.is_some a.len a.bytes };

    ghost invariant = { λ a. IsKept a.is_some a.len a.bytes };

    ghost inverse = { λ o. record {
      is_some = is_there o;
      len = length (text_in o);
      bytes = text_in o ++ zeros (32 - length (text_in o));
    } };

    ghost inverse_ok = { λ a kept i. record {
      is_some = seen_there a.is_some a.len a.bytes i;
      len = seen_len a.is_some a.len a.bytes kept i;
      bytes = seen_bytes a.is_some a.len a.bytes kept i;
    } };
}

impl Argument {
    /// No text.
    pub fn none() -> Self
        ensures { result ≡ None }
    {
        Argument {
            is_some: false,
            len: 0,
            bytes: [0; 32],
        }
    }

    /// This text, which has to be a lawful argument; `None` if it has more than 32 bytes.
    pub fn of(text: &str) -> Option<Self>
        requires { is_argument text.now ≡ true }
        ensures fits { IsSome result ↔ (length text.now ≤ most_text) }
        ensures some { IfSome result (λ argument. argument ≡ Some text.now) }
    {
        let source = text.as_bytes();
        if source.len() > MOST_TEXT {
            return None;
        }
        let mut bytes = [0; 32];
        bytes[..source.len()].copy_from_slice(source);
        Some(Argument {
            is_some: true,
            len: source.len() as u8,
            bytes,
        })
    }

    /// The text, if there is one.
    pub fn as_str(&self) -> Option<&str>
        ensures { option_map (λ text. text.now) result ≡ self.now }
    {
        if !self.is_some {
            return None;
        }
        match str::from_utf8(&self.bytes[..usize::from(self.len)]) {
            Ok(text) => Some(text),
            Err(_) => unreachable!(),
        }
    }
}

impl Argument {
    /// Whether the text, if there is one, may stand in a scenario. It always may.
    pub(crate) fn is_lawful(&self) -> bool
        ensures { IfSome self.now (λ text. (is_argument text ≡ true) × (length text ≤ most_text)) }
    {
        usize::from(self.len) <= MOST_TEXT
    }
}

/// Whether two arguments are the same text, or both none.
pub fn is_same_text(one: &Argument, other: &Argument) -> bool
    ensures { result ≡ is_same_text one.now other.now }
{
    match (one.as_str(), other.as_str()) {
        (None, None) => true,
        (Some(one), Some(other)) => one == other,
        _ => false,
    }
}
