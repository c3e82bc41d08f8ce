//! Terms, and what they do: a term of the FAILPOINTS variable of fail-rs, as a value.
ghost use Rattle.std.specs.Prelude.{◌≡◌, IfOk};
ghost use Rattle.scenario_values.specs.Scenario.{is_off};

use crate::text::Text;
use std::alloc::AllocError;

/// What a term does when it acts. The tasks and their arguments are those of fail-rs. No argument and an empty argument are different. A lawful
/// argument holds no `;` and no `->`.
#[derive(Clone, Debug, Drop, PartialEq, Eq)]
pub enum Task {
    /// Nothing. Each other task makes its term a fault.
    Off,
    /// The operation fails, with this text if there is one.
    Return(Option<Text>),
    /// This many milliseconds, 0 to 1000000000, are added to the simulated time.
    Sleep(u32),
    /// The component stops, with this text if there is one.
    Panic(Option<Text>),
    /// A note, with this text if there is one.
    Print(Option<Text>),
    /// The component stops for good, and nothing is known of what it would have done.
    Pause,
    /// Nothing that can be seen.
    Yield,
    /// As `Sleep`; fail-rs waits busily here.
    Delay(u32),
}

/// The share of a term that acts at each hit that reaches it: a million millionths.
pub const FULL_SHARE: u32 = 1_000_000;

/// How often a term acts, how many times, and what it does then.
#[derive(Clone, Debug, Drop, PartialEq, Eq)]
pub struct Term {
    /// At how many of the hits that reach the term it acts, in millionths, 0 to 1000000. fail-rs writes a percentage.
    pub share: u32,
    /// How many times the term acts at most, 0 to 4294967295; `None` is without a limit.
    pub count: Option<u32>,
    pub task: Task,
}

fn clone_argument(argument: &Option<Text>) -> Result<Option<Text>, AllocError>
    ensures { IfOk result (λ t. t ≡ argument.now) }
{
    match argument {
        None => Ok(None),
        Some(text) => Ok(Some(text.try_clone()?)),
    }
}

impl Task {
    /// A copy.
    pub fn try_clone(&self) -> Result<Task, AllocError>
        ensures { IfOk result (λ t. t ≡ self.now) }
    {
        Ok(match self {
            Task::Off => Task::Off,
            Task::Return(argument) => Task::Return(clone_argument(argument)?),
            Task::Sleep(millis) => Task::Sleep(*millis),
            Task::Panic(argument) => Task::Panic(clone_argument(argument)?),
            Task::Print(argument) => Task::Print(clone_argument(argument)?),
            Task::Pause => Task::Pause,
            Task::Yield => Task::Yield,
            Task::Delay(millis) => Task::Delay(*millis),
        })
    }
}

impl Term {
    /// A copy.
    pub fn try_clone(&self) -> Result<Term, AllocError>
        ensures { IfOk result (λ t. t ≡ self.now) }
    {
        Ok(Term {
            share: self.share,
            count: self.count,
            task: self.task.try_clone()?,
        })
    }
}

/// Whether the task is `Off`: a term of any other task is a fault.
pub fn is_off(task: &Task) -> bool
    ensures { result ≡ is_off task.now }
{
    matches!(task, Task::Off)
}
