//! Questions on a component that somebody else runs, over any readers and any sinks.
ghost use Rattle.std.specs.Prelude.{◌≡◌, false, string_bytes, IfSome, Ok};
ghost use Rattle.campaign_core.specs.Writes.{change};
ghost use Rattle.campaign_main.specs.Ends.{EndsAs, IsNoted, Leaves, OnWhole, TellsAs, TellsOf};
ghost use Rattle.campaign_main.specs.QuestionNotes.{question_notes};
ghost use Rattle.campaign_main.specs.Questions.{EndsAnswered, EndsQuestion, IsNotAnswered, NotesQuestion, TellsOfQuestion, TellsWhy, subject_in, subject_of, written_for};

use crate::answer_notes::is_question_doubted;
use crate::answering::{Answer, answer_question};
use crate::exit::{Exit, concluded, exit_of};
use crate::input::read_bytes;
use crate::lines::{cut_off, end_question, end_unreadable_answers, note};
use crate::subject::read_outside;
use answer_text::LIMIT;
use command_words::Question;
use outside_campaign::OutsideCampaign;
use report::write_report;
use std::alloc::Global;
use std::io::Read;
use target_trait::Sink;

/// Writes an answer, and then the notes on it to the sink of faults.
fn write_answer<W: Sink, E: Sink>(
    question: &Question,
    answer: &Answer,
    output: &mut W,
    faults: &mut E,
) -> Exit
    requires output { W.has_failed output.old ≡ false }
    requires faults { E.has_failed faults.old ≡ false }
    ensures end { let a = answer.now in
        EndsAs result (written_for question.now a.text.items a.found (string_bytes a.notes)) (change W.Sink output.old output.new) }
    ensures told { let a = answer.now in
        TellsAs result (written_for question.now a.text.items a.found (string_bytes a.notes)) (change E.Sink faults.old faults.new) }
{
    match write_report(answer.text.as_slice(), output) {
        Ok(()) => {
            let notes = answer.notes.as_str();
            note(notes, faults);
            exit_of(concluded(answer.found, is_question_doubted(question, notes)))
        }
        Err(fault) => cut_off(fault.written, faults),
    }
}

/// Answers a question by a text of answers.
fn answer_by<W: Sink, E: Sink>(
    alloc: Global,
    question: &Question,
    campaign: &OutsideCampaign<'_>,
    answers: &[u8],
    output: &mut W,
    faults: &mut E,
) -> Exit
    requires output { W.has_failed output.old ≡ false }
    requires faults { E.has_failed faults.old ≡ false }
    ensures end { EndsAnswered question.now (subject_in campaign.now) answers.now result
        (change W.Sink output.old output.new) }
    ensures told { TellsOf
        (IsNoted (question_notes question.now campaign.now.settings.now campaign.now.outside.now answers.now) (change E.Sink faults.old faults.new))
        (TellsWhy question.now (Ok (subject_in campaign.now)) answers.now (change E.Sink faults.old faults.new))
        result (change E.Sink faults.old faults.new) }
{
    match answer_question(alloc, question, campaign, answers) {
        Ok(answer) => write_answer(question, &answer, output, faults),
        Err(fault) => end_question(alloc, campaign.outside, &fault, faults),
    }
}

/// Answers a question on a component that settings describe, by the answers that a reader has left.
fn answer_on<A: Read, W: Sink, E: Sink>(
    alloc: Global,
    question: &Question,
    campaign: &OutsideCampaign<'_>,
    answers: &mut A,
    output: &mut W,
    faults: &mut E,
) -> Exit
    requires output { W.has_failed output.old ≡ false }
    requires faults { E.has_failed faults.old ≡ false }
    ensures end { IfSome (A.remaining answers.old)
        (λ bytes. EndsAnswered question.now (subject_in campaign.now) bytes result
        (change W.Sink output.old output.new)) }
    ensures noted { OnWhole result (IfSome (A.remaining answers.old)
        (λ bytes. IsNoted (question_notes question.now campaign.now.settings.now campaign.now.outside.now bytes)
        (change E.Sink faults.old faults.new))) }
    ensures cause { result ≡ Exit.Refused → IfSome (A.remaining answers.old)
        (λ bytes. IsNotAnswered question.now (Ok (subject_in campaign.now)) bytes (change E.Sink faults.old faults.new)) }
    ensures output { Leaves result (change W.Sink output.old output.new) }
    ensures told { TellsOfQuestion result (change E.Sink faults.old faults.new) }
{
    match read_bytes(alloc, answers, LIMIT) {
        Ok(bytes) => answer_by(alloc, question, campaign, bytes.as_slice(), output, faults),
        Err(fault) => end_unreadable_answers(fault, faults),
    }
}

/// Reads settings, and answers a question on the component that they describe, which somebody else runs: which scenarios are still to be tried, how
/// many, the report, the interim report, or the recorded run of a scenario. What is known of the component comes from a second reader: a text of
/// answers, of which up to 268435456 bytes are read. If the settings are refused, no answers are read. This is how it ends:
///
/// | End | When | The output has | The sink of faults has |
/// |---|---|---|---|
/// | Kept | the text has no failure | the whole text | the notes, if any |
/// | Found | the text has a failure | the whole text | the notes, if any |
/// | Doubted | as Kept, but the question is strict and there are notes | the whole text | the notes |
/// | Refused | the question is refused, as said below | nothing | one line, on the first fault |
/// | Memory | memory was refused | nothing | one line |
/// | Write | the output failed | a part of the text, of as many bytes as Write says | one line |
///
/// A question is refused if the settings can't be read or have a fault, choose a bundled target, or have more than 65536 plans; if the answers can't
/// be read or have a fault, of which the first is named; and, for a report, if something is still to be tried. With a depth it is also refused if
/// two recorded runs contradict each other. A run can't be explained if its text spells no scenario, which comes before all faults of the answers, if
/// no answer records it, or if the answer has no hits. A line that can't be written, or not whole, changes no end.
///
/// The notes are a line for each name that no point of the component has, in the scenarios that the settings list and in those that are answered:
/// `answers: line 3: no point is named NAME`. There is also one for each listed scenario in which a control character stands. A strict report adds
/// what it doesn't show. Notes are written once the whole text is in the output.
///
/// The report is that of every component that agrees with the answers. Such a component is a function from tidied scenarios to verdicts or, with a
/// depth, one whose next hit is a function of the answers to its earlier hits.
///
/// If contracts see the readers' bytes, as those of slices, the contract says which text and which fault come. If they see what a sink wrote, as with
/// [`target_trait::Out`] over a `Vec`, it says which bytes were written. For others it says what that of [`crate::perform`] does.
pub fn perform_outside<R: Read, A: Read, W: Sink, E: Sink>(
    alloc: Global,
    question: &Question,
    settings: &mut R,
    answers: &mut A,
    output: &mut W,
    faults: &mut E,
) -> Exit
    requires output { W.has_failed output.old ≡ false }
    requires faults { E.has_failed faults.old ≡ false }
    ensures end { IfSome (R.remaining settings.old) (λ given. IfSome (A.remaining answers.old)
        (λ bytes. EndsQuestion question.now (subject_of given) bytes result (change W.Sink output.old output.new))) }
    ensures noted { OnWhole result (IfSome (R.remaining settings.old) (λ given. IfSome (A.remaining answers.old)
        (λ bytes. NotesQuestion question.now (subject_of given) bytes (change E.Sink faults.old faults.new)))) }
    ensures cause { result ≡ Exit.Refused → IfSome (R.remaining settings.old)
        (λ given. IfSome (A.remaining answers.old) (λ bytes. IsNotAnswered question.now (subject_of given) bytes (change E.Sink faults.old faults.new))) }
    ensures output { Leaves result (change W.Sink output.old output.new) }
    ensures told { TellsOfQuestion result (change E.Sink faults.old faults.new) }
{
    match read_outside(alloc, settings, faults) {
        Ok(given) => {
            let campaign = OutsideCampaign {
                outside: &given.outside,
                settings: &given.campaign,
            };
            answer_on(alloc, question, &campaign, answers, output, faults)
        }
        Err(end) => end,
    }
}
