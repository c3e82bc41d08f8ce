//! How a command ended.
ghost use Rattle.std.specs.Prelude.{◌≡◌};
ghost use Rattle.campaign_main.specs.Commands.{of_verdict};
ghost use Rattle.campaign_main.specs.Exit.{status_of, concluded, exit_of};

use report::is_fail;
use target_trait::Verdict;

/// How a command ended.
#[derive(Clone, Copy, Debug, PartialEq, Eq)]
pub enum Exit {
    /// The command's text was written, and no verdict in it is fail.
    Kept,
    /// The command's text was written, and a verdict in it is fail.
    Found,
    /// What was read has a fault, or couldn't be read.
    Refused,
    /// Memory was refused.
    Memory,
    /// A write failed after this many bytes of the text.
    Write(u64),
    /// The command's text was written, and no verdict in it is fail, but the command is strict and there are notes.
    Doubted,
}

/// What a text comes to, once it was written whole.
#[derive(Clone, Copy, Debug, PartialEq, Eq)]
pub enum Conclusion {
    /// No verdict in it is fail.
    Clean,
    /// A verdict in it is fail.
    Failed,
    /// No verdict in it is fail, but there are notes that count, as the command is strict.
    Doubtful,
}

/// What a command returns whose text was written whole.
#[derive(Debug, Drop)]
pub struct Answered {
    /// What its text comes to.
    pub conclusion: Conclusion,
    /// The notes on it: lines, or nothing.
    pub notes: String,
}

/// The exit status of the program: 0 for Kept, 1 for Found, 2 for Refused, 3 for Memory, 4 for a failed write, 5 for Doubted.
pub fn status(exit: &Exit) -> u8
    ensures { result ≡ status_of exit.now }
{
    match exit {
        Exit::Kept => 0,
        Exit::Found => 1,
        Exit::Refused => 2,
        Exit::Memory => 3,
        Exit::Write(_) => 4,
        Exit::Doubted => 5,
    }
}

/// Failed if a verdict in the text is fail; Doubtful if there are notes that count; else Clean.
pub(crate) fn concluded(found: bool, doubted: bool) -> Conclusion
    ensures { result ≡ concluded found doubted }
{
    match (found, doubted) {
        (true, _) => Conclusion::Failed,
        (false, true) => Conclusion::Doubtful,
        (false, false) => Conclusion::Clean,
    }
}

/// How a command ends whose text was written: Found if a verdict fails; Doubted if a strict command has notes; else Kept.
pub(crate) fn exit_of(conclusion: Conclusion) -> Exit
    ensures { result ≡ exit_of conclusion }
{
    match conclusion {
        Conclusion::Clean => Exit::Kept,
        Conclusion::Failed => Exit::Found,
        Conclusion::Doubtful => Exit::Doubted,
    }
}

/// What a command returns whose text has one verdict.
pub(crate) fn judged(verdict: Verdict, notes: String) -> Answered
    ensures conclusion { result.conclusion ≡ of_verdict verdict }
    ensures notes { result.notes ≡ notes }
{
    Answered {
        conclusion: concluded(is_fail(verdict), false),
        notes,
    }
}
