//! What is written on standard error.
ghost use Rattle.std.specs.Prelude.{Some};
ghost use Rattle.campaign_progress.specs.Line.{shown_text};

use crate::told::Told;
use std::fmt;

/// What is written on standard error.
#[derive(Clone, Copy, Debug)]
pub enum Shown {
    /// On the line that is written over, which takes the place of what stood on it.
    Over(Told),
    /// On a line of its own, without control bytes but the line feed at its end.
    Line(Told),
    /// Nothing: what stood on the line that is written over is erased.
    Nothing,
}

impl fmt::Display for Shown {
    ghost output = { λ shown. Some (shown_text shown) };

    fn fmt<W: fmt::Write>(&self, f: &mut fmt::Formatter<W>) -> fmt::Result {
        match self {
            Shown::Over(told) => write!(f, "\r\x1b[K{told}"),
            Shown::Line(told) => writeln!(f, "{told}"),
            Shown::Nothing => f.write_str("\r\x1b[K"),
        }
    }
}
