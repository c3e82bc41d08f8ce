//! The text of answers, read.
ghost use Rattle.std.specs.Prelude.{◌≡◌, ◌<◌, ◌≤◌, ◌+◌, ◌^◌, false, length, List, IfOk, IfErr, OnOk, Ok};
ghost use Rattle.answer_text.specs.declared.fault.AnswersFault.TheVariants.{Memory};
ghost use Rattle.answer_text.specs.declared.runs.RunLine.{RunLine};
ghost use Rattle.answer_text.specs.Answers.{Says};
ghost use Rattle.answer_text.specs.FirstFault.{Gives};
ghost use Rattle.answer_text.specs.Known.{Knows};
ghost use Rattle.answer_text.specs.Runs.{Tells, TellsAnswers, TellsRuns, answers_of, known_answers, known_runs, known_strangers, runs_of, told_in};
ghost use Rattle.answer_text.specs.inside.Books.{Holds, fault_at, read_line};

use crate::cuts::cut_line;
use crate::fault::{AnswersFault, LineError, LineFault};
use crate::line::run_in;
use crate::names::PointNames;
use crate::runs::Runs;
use scenario_grammar::Text;
use std::alloc::Global;

/// The longest text of answers, in bytes.
pub const LIMIT: usize = 268435456;

/// Reads one line. After an `Err` the runs are of no use.
#[tactic(auto, unfolding(crate::specs::inside::Books::read_line))]
fn read_line(
    alloc: Global,
    codes: &[Text],
    points: &PointNames<'_>,
    needed: bool,
    runs: &mut Runs,
    number: u32,
    line: &[u8],
) -> Result<(), LineError>
    requires { length codes.now < 2 ^ 32 }
    ensures { Gives (λ _. runs.new) result (read_line needed codes.now points.now runs.old number line.now) }
{
    let run = run_in(alloc, codes, points, needed, line)?;
    runs.note(alloc, points, number, run)
}

/// The fault of the text for what is wrong with the line of this number.
fn fault_at(number: u32, error: LineError) -> AnswersFault
    ensures { result ≡ fault_at number error }
{
    match error {
        LineError::Bad(fault) => AnswersFault::Line(number, fault),
        LineError::Memory => AnswersFault::Memory,
    }
}

/// Reads the lines of a text, up to its first fault.
fn read_lines(
    alloc: Global,
    codes: &[Text],
    points: &PointNames<'_>,
    needed: bool,
    text: &[u8],
) -> Result<Runs, AnswersFault>
    requires few { length codes.now < 2 ^ 32 }
    requires short { length text.now ≤ 268435456 }
    ensures found { IfOk result (Holds needed codes.now points.now text.now) }
    ensures refused { IfErr result (λ fault. Tells fault needed codes.now points.now text.now) }
{
    let mut runs = Runs::new(alloc);
    let mut number = 1;
    let mut rest = text;
    while let Some((line, after)) = cut_line(rest) {
        if let Err(error) = read_line(alloc, codes, points, needed, &mut runs, number, line) {
            return Err(fault_at(number, error));
        }
        number += 1;
        rest = after;
    }
    if !rest.is_empty() {
        return Err(AnswersFault::Line(number, LineFault::NotEnded));
    }
    Ok(runs)
}

/// The runs that a text of answers records. `needed` says whether each line has to have hits.
fn read_text(
    alloc: Global,
    codes: &[Text],
    points: &[Text],
    needed: bool,
    text: &[u8],
) -> Result<Runs, AnswersFault>
    requires codes { length codes.now < 2 ^ 32 }
    requires points { length points.now < 2 ^ 32 }
    ensures found { IfOk result (Holds needed codes.now points.now text.now) }
    ensures refused { IfErr result (λ fault. Tells fault needed codes.now points.now text.now) }
{
    if text.len() > LIMIT {
        return Err(AnswersFault::TooLong);
    }
    let points = PointNames::new(alloc, points)?;
    read_lines(alloc, codes, &points, needed, text)
}

/// Reads a text of answers: lines `VERDICT<TAB>SCENARIO` or `VERDICT<TAB>SCENARIO<TAB>HITS`, each ended by a line feed. A verdict is `pass`,
/// `unresolved`, or `fail` and the name of a code, whose number is its place among the names. A scenario is `none`, or any spelling of one, and is
/// taken as tidied. The hits are those of the run in order, each the name of a point, joined by `;`. For n from 2 on, n hits of one point in a row
/// are `n*point`. There are at most 65536 hits. No hits are the empty text; `-` stands for the hits of an unresolved run if they aren't known. A line
/// may repeat what an earlier one says.
///
/// The text may have up to 268435456 bytes: 65536 answers of 4096 bytes each, or 4096 answers of the longest scenarios.
///
/// `Err` is the first fault of the text with its line, or that memory was refused. The length is checked first, and then each line, in order.
/// [`LineFault`] lists what is checked of a line, in this order: whether it is ended, its bytes, its tab, its verdict, its code, control characters,
/// the first fault of its scenario, its hits, and whether an earlier line has the same tidied scenario with another verdict or other hits.
pub fn read(
    alloc: Global,
    codes: &[Text],
    points: &[Text],
    text: &[u8],
) -> Result<Runs, AnswersFault>
    requires codes { length codes.now < 2 ^ 32 }
    requires points { length points.now < 2 ^ 32 }
    // The runs are exactly what the text says.
    ensures found { IfOk result (λ runs. (said : List RunLine) × Says false codes.now points.now text.now said × Knows (told_in runs) said) }
    // The recorded run of a scenario is that of the first line that answers it.
    ensures known { IfOk result (λ runs. told_in runs ≡ known_answers codes.now points.now text.now) }
    ensures strangers { IfOk result (λ runs. runs.strangers ≡ known_strangers points.now (answers_of codes.now points.now text.now)) }
    ensures read { OnOk result ((lines : List RunLine) × (answers_of codes.now points.now text.now ≡ Ok lines)) }
    // A fault that is returned is the first one.
    ensures refused { IfErr result (λ fault. TellsAnswers fault codes.now points.now text.now) }
    // A text without a fault is refused only if memory was.
    ensures only { (said : List RunLine) → Says false codes.now points.now text.now said → IfErr result (λ fault. fault ≡ Memory) }
{
    read_text(alloc, codes, points, false, text)
}

/// Reads a text of answers that have to record their hits. It is read as by [`read`], except that a line without a second tab is refused. Hits may
/// still be `-`.
pub fn read_runs(
    alloc: Global,
    codes: &[Text],
    points: &[Text],
    text: &[u8],
) -> Result<Runs, AnswersFault>
    requires codes { length codes.now < 2 ^ 32 }
    requires points { length points.now < 2 ^ 32 }
    // The recorded run of a scenario is that of the first line that answers it.
    ensures known { IfOk result (λ runs. told_in runs ≡ known_runs codes.now points.now text.now) }
    ensures strangers { IfOk result (λ runs. runs.strangers ≡ known_strangers points.now (runs_of codes.now points.now text.now)) }
    ensures read { OnOk result ((lines : List RunLine) × (runs_of codes.now points.now text.now ≡ Ok lines)) }
    // A fault that is returned is the first one.
    ensures refused { IfErr result (λ fault. TellsRuns fault codes.now points.now text.now) }
{
    read_text(alloc, codes, points, true, text)
}
