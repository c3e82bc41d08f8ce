//! A gate that names each plan before it is run.
ghost use Rattle.std.specs.Prelude.{Some};
ghost use Rattle.campaign_progress.specs.Line.{begun_text};

use std::fmt;
use std::io::Eprint;
use work_gate::{Gate, Phase};

/// What a worker is about to begin: a plan, or a test of a reduction, by the number of [`Gate::arrive`].
#[derive(Clone, Copy, Debug)]
pub struct Begun {
    pub phase: Phase,
    pub number: u32,
}

impl fmt::Display for Begun {
    ghost output = { λ begun. Some (begun_text begun.phase begun.number) };

    fn fmt<W: fmt::Write>(&self, f: &mut fmt::Formatter<W>) -> fmt::Result {
        let number = self.number;
        match self.phase {
            Phase::Plans => write!(f, "plan {number}"),
            Phase::Requests => write!(f, "test {number}"),
        }
    }
}

/// A gate that holds nobody, and names on standard error what is about to begin, in a line of its own: `plan 17`, or `test 3` of a reduction.
///
/// It is for a component without a proof, in which a fault ends the program at once: the plan that was running then is among the last lines. With one
/// worker it is the last line. If there are more than 1,024 plans, which are run in rows, it is one of the last 16, and with more than 16,384 plans
/// one of the last 64. If there is no line, the run without faults was running.
#[derive(Drop)]
pub struct Naming<'a, H: Eprint> {
    rt: &'a H,
}

impl<'a, H: Eprint> Naming<'a, H> {
    /// A gate that writes to this standard error.
    pub fn new(rt: &'a H) -> Self {
        Naming { rt }
    }
}

impl<'a, H: Eprint + Sync> Gate for Naming<'a, H> {
    fn arrive(&self, phase: Phase, number: u32) {
        let begun = Begun { phase, number };
        // If standard error doesn't take it, nothing else changes.
        let _ = self.rt.eprintln(begun);
    }
}
