//! The workload: old contents, and replacements.
ghost use Rattle.std.specs.Prelude.{◌≡◌, ◌≤◌, length};

use scenario_values::{Chunks, Text};
use std::marker::Model;

/// The workload of a run: the old contents, at most 65,536 bytes, and in order the new contents of the replacements, at most 1,000, each in
/// chunks. A chunk is written by a step of its own.
#[derive(Debug, Drop)]
pub struct Replacements {
    old: Text,
    replacements: Vec<Chunks>,
}

impl Model for Replacements {
    ghost use Rattle.std.specs.Prelude.{◌≤◌, length};
    ghost use Rattle.file_replace.specs.Work.{Work, IsWork};

    ghost Value = { Work };

    ghost view = { λ w. record { old = w.old; replacements = w.replacements.items } };

    ghost invariant = { λ w. IsWork (record { old = w.old; replacements = w.replacements.items }) };
}

impl Replacements {
    /// A workload of these old contents and replacements, which are moved in. It takes no memory.
    pub fn new(old: Text, replacements: Vec<Chunks>) -> Self
        requires old { length old ≤ 65536 }
        requires few { length replacements.items ≤ 1000 }
        ensures { result ≡ record { old = old; replacements = replacements.items } }
    {
        Replacements { old, replacements }
    }

    /// The old contents.
    pub fn old(&self) -> &Text
        ensures { result.now ≡ self.now.old }
    {
        &self.old
    }

    /// The replacements, in order.
    pub fn as_slice(&self) -> &[Chunks]
        ensures { result.now ≡ self.now.replacements }
    {
        self.replacements.as_slice()
    }
}
