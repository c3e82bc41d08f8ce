//! The texts that say how far the work is.
ghost use Rattle.std.specs.Prelude.{Some};
ghost use Rattle.campaign_progress.specs.Line.{growth_text, standing_text, title_text, told_text};

use crate::pace::Pace;
use std::fmt;
use work_gate::Stage;

/// How far the plans of a stage are.
#[derive(Clone, Copy, Debug)]
pub struct Standing {
    pub stage: Stage,
    /// How many of them have begun.
    pub begun: u32,
    /// How many there are.
    pub expected: u32,
    /// How many of the plans that have ended, in this stage and before, fail.
    pub failing: u32,
    pub pace: Pace,
    /// How many plans of the next level have grown from the plans that have ended.
    pub children: u32,
}

/// How far the work is.
#[derive(Clone, Copy, Debug)]
pub enum Told {
    /// The plans of a stage.
    Plans(Standing),
    /// The tests of all reductions so far: how many have begun.
    Tests { begun: u32 },
}

impl fmt::Display for Standing {
    ghost output = { λ standing. Some (standing_text standing) };

    fn fmt<W: fmt::Write>(&self, f: &mut fmt::Formatter<W>) -> fmt::Result {
        let Standing {
            stage,
            begun,
            expected,
            failing,
            pace,
            children,
        } = *self;
        let title = Title { stage };
        let growth = Growth { children };
        write!(
            f,
            "{title}{begun} of {expected}, {failing} failing{pace}{growth}"
        )
    }
}

impl fmt::Display for Told {
    ghost output = { λ told. Some (told_text told) };

    fn fmt<W: fmt::Write>(&self, f: &mut fmt::Formatter<W>) -> fmt::Result {
        match self {
            Told::Plans(standing) => write!(f, "{standing}"),
            Told::Tests { begun } => write!(f, "reducing: test {begun}"),
        }
    }
}

// What stands before the number of a plan.
#[derive(Clone, Copy)]
struct Title {
    stage: Stage,
}

impl fmt::Display for Title {
    ghost output = { λ title. Some (title_text title.stage) };

    fn fmt<W: fmt::Write>(&self, f: &mut fmt::Formatter<W>) -> fmt::Result {
        match self.stage {
            Stage::Listed => f.write_str("plans "),
            Stage::Level(faults) => write!(f, "level {faults}: plan "),
            Stage::Onward => f.write_str("onward: plan "),
        }
    }
}

// How many plans of the next level there are so far.
#[derive(Clone, Copy)]
struct Growth {
    children: u32,
}

impl fmt::Display for Growth {
    ghost output = { λ growth. Some (growth_text growth.children) };

    fn fmt<W: fmt::Write>(&self, f: &mut fmt::Formatter<W>) -> fmt::Result {
        if self.children == 0 {
            Ok(())
        } else {
            write!(f, "; {} in the next so far", self.children)
        }
    }
}
