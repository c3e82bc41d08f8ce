//! How two recorded runs contradict each other, and the line that reports it.
ghost use Rattle.std.specs.Prelude.{Some};
ghost use Rattle.answered_runs.specs.Broken.{broken_text};

use std::fmt;

/// How a recorded run contradicts another one.
#[derive(Clone, Copy, Debug, PartialEq, Eq)]
pub enum Conflict {
    /// Its hit of this number, from 1, isn't that of the other run, or only one of the two has it.
    Hits(u32),
    /// It has the same hits, or hits that nobody knows, and another verdict.
    Verdict,
    /// It goes on after a pause, which ends every run.
    Paused,
}

/// A recorded run that contradicts another one, so that no component has both.
#[derive(Clone, Copy, Debug, PartialEq, Eq)]
pub struct BrokenRun {
    /// The number of the line that records it, from 1.
    pub line: u32,
    /// The number of the line that records the other run.
    pub earlier: u32,
    /// How the two contradict each other.
    pub how: Conflict,
}

impl fmt::Display for BrokenRun {
    ghost output = { λ broken. Some (broken_text broken) };

    fn fmt<W: fmt::Write>(&self, f: &mut fmt::Formatter<W>) -> fmt::Result {
        let line = self.line;
        let earlier = self.earlier;
        match self.how {
            Conflict::Hits(hit) => {
                write!(
                    f,
                    "answers: line {line}: hits differ from line {earlier} at hit {hit}"
                )
            }
            Conflict::Verdict => {
                write!(
                    f,
                    "answers: line {line}: verdict differs from line {earlier}"
                )
            }
            Conflict::Paused => write!(f, "answers: line {line}: goes on after a pause"),
        }
    }
}
