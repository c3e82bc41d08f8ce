//! A line that was written, as a key.
ghost use Rattle.std.specs.Prelude.{◌≡◌, IfOk};
ghost use Rattle.std.proofs.Common.{rules};
ghost use Rattle.std.specs.Cmp.Rules.{comparing, hashing};
ghost use Rattle.std.specs.Hash as fed;
ghost use Rattle.std.specs.Str.{bytes_eq};

use std::alloc::{AllocError, Global};
use std::hash::{Hash, Hasher};
use std::marker::Model;

/// A line that was written. Two lines are equal if their bytes are.
#[derive(Debug, Drop)]
pub struct ToldLine {
    bytes: Vec<u8>,
}

impl Model for ToldLine {
    ghost use Rattle.std.specs.Prelude.{List, ℕ};

    ghost Value = { List ℕ };

    ghost view = { λ line. line.bytes.items };
}

impl ToldLine {
    /// A copy of these bytes.
    pub fn copy_of(alloc: Global, bytes: &[u8]) -> Result<ToldLine, AllocError>
        ensures { IfOk result (λ line. line ≡ bytes.now) }
    {
        Ok(ToldLine {
            bytes: Vec::from_slice(alloc, bytes)?,
        })
    }
}

impl PartialEq for ToldLine {
    ghost eq = { bytes_eq };

    ghost laws = { Prim.search (comparing, rules) };

    fn eq(&self, other: &ToldLine) -> bool {
        self.bytes.as_slice() == other.bytes.as_slice()
    }
}

impl Eq for ToldLine {
    ghost laws = { Prim.search (comparing, rules) };
}

impl Hash for ToldLine {
    ghost hash_input = { λ line. fed.slice fed.u8 line };

    ghost respects_eq = { Prim.search (hashing, rules) };

    fn hash<H: Hasher>(&self, state: &mut H) {
        self.bytes.as_slice().hash(state);
    }
}
