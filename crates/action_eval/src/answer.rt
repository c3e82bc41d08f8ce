//! How hits are answered, and what the tasks of terms do.
ghost use Rattle.std.specs.Prelude.{◌≡◌, ◌++◌, OnOk, OnErr};
ghost use Rattle.scenario_values.specs.declared.term.Task.TheVariants as task;
ghost use Rattle.action_eval.specs.Answers.{did, reply_of, reply_of_answer, millis_of, stop_of, notes_of_task};

use scenario_values::{Task, Text};
use std::alloc::AllocError;

/// The answer to a hit.
#[derive(Clone, Copy, Debug)]
pub enum Answer<'a> {
    /// The operation goes on.
    Go,
    /// The operation fails, with the term's argument if it has one.
    Return(Option<&'a str>),
    /// The component stops here.
    Halt,
}

/// What stopped a session.
#[derive(Clone, Copy, Debug, PartialEq, Eq)]
pub enum Stop {
    /// A `panic` acted.
    Panic,
    /// A `pause` acted; nothing would end it.
    Paused,
    /// One more point was hit than the session answers.
    Limit,
}

/// What a `print` leaves when it acts.
#[derive(Debug, Drop)]
pub struct Note {
    /// The number of the point in the catalogue.
    pub point: u32,
    /// The term's argument, if it has one.
    pub text: Option<Text>,
}

/// What a task does to the hit at which it acts.
#[derive(Clone, Copy, Debug)]
pub struct Effect<'a> {
    /// How the hit is answered.
    pub answer: Answer<'a>,
    /// Why the run stops, if it does.
    pub stop: Option<Stop>,
    /// How many simulated milliseconds the hit takes.
    pub millis: u32,
}

/// What a task does to the hit at which it acts. Without a task that is nothing.
// All three are found by one look at the task.
pub fn effect_of(task: Option<&Task>) -> Effect<'_>
    ensures answer { reply_of_answer result.answer ≡ reply_of (did task.entry) }
    ensures stop { result.stop ≡ stop_of (did task.entry) }
    ensures millis { result.millis ≡ millis_of (did task.entry) }
{
    let (answer, stop, millis) = match task {
        Some(Task::Return(Some(text))) => (Answer::Return(Some(text.as_str())), None, 0),
        Some(Task::Return(None)) => (Answer::Return(None), None, 0),
        Some(Task::Panic(_)) => (Answer::Halt, Some(Stop::Panic), 0),
        Some(Task::Pause) => (Answer::Halt, Some(Stop::Paused), 0),
        Some(Task::Sleep(millis) | Task::Delay(millis)) => (Answer::Go, None, *millis),
        _ => (Answer::Go, None, 0),
    };
    Effect {
        answer,
        stop,
        millis,
    }
}

/// Adds the note of a `print`.
// Few tasks print. It is a call, so that the other tasks don't pay for what a copy of a text needs.
#[cold]
#[inline(never)]
fn push_print(notes: &mut Vec<Note>, point: u32, text: &Option<Text>) -> Result<(), AllocError>
    ensures ok { OnOk result (notes.new.items ≡ notes.old.items ++ notes_of_task point (task.Print text.now)) }
    ensures err { OnErr result (notes.new.items ≡ notes.old.items) }
{
    let text = match text {
        Some(text) => Some(text.try_clone()?),
        None => None,
    };
    notes.push(Note { point, text })?;
    Ok(())
}

/// Adds the note of a task that acts, if it leaves one.
pub fn push_note(notes: &mut Vec<Note>, point: u32, task: &Task) -> Result<(), AllocError>
    ensures ok { OnOk result (notes.new.items ≡ notes.old.items ++ notes_of_task point task.now) }
    ensures err { OnErr result (notes.new.items ≡ notes.old.items) }
{
    match task {
        Task::Print(text) => push_print(notes, point, text),
        _ => Ok(()),
    }
}
