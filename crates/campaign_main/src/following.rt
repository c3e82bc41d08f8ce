//! What is still to be tried on a component that somebody else runs, while its answers come.
ghost use Rattle.std.specs.Prelude.{◌≡◌, ◌<◌, ℕ, List, Option, Ok, false, length, string_bytes, IfErr, IfOk, IfSome, IsErrOf, OnOk};
ghost use Rattle.std.specs.Io.KnownBytes.{Appends, Consumes};
ghost use Rattle.campaign_core.specs.Writes.{change};
ghost use Rattle.command_words.specs.declared.words.Question.TheVariants.{Asks};
ghost use Rattle.campaign_main.specs.declared.following.FollowFault.TheVariants.{Question as Asked, Unread};
ghost use Rattle.campaign_main.specs.Ends.{OnWhole};
ghost use Rattle.campaign_main.specs.Following.{EndsFollow, EndsFollowed, IsNotFollowed, LeavesFollow, NotesFollow, lines_with};
ghost use Rattle.campaign_main.specs.QuestionNotes.{question_notes};
ghost use Rattle.campaign_main.specs.Questions.{IsAnswer, TellsOfQuestion, subject_in, subject_of};
ghost use Rattle.campaign_main.specs.inside.Looks.{ComesToFollow, IsOfItsLines, LookFails, TellFails};

use crate::answering::{Answer, answer_question};
use crate::exit::Exit;
use crate::input::{ReadFault, read_lines};
use crate::lines::{end_question, end_unreadable_answers, note};
use crate::subject::read_outside;
use crate::told::Told;
use answer_text::LIMIT;
use command_words::Question;
use outside_campaign::{OutsideCampaign, QuestionFault};
use report::{WriteFault, write_report};
use std::alloc::Global;
use std::io::Read;
use target_trait::Sink;

/// Why answers weren't followed to an end.
#[derive(Debug, Drop)]
pub enum FollowFault {
    /// A look had no answer, or the output failed.
    Question(QuestionFault),
    /// The answers couldn't be read.
    Unread(ReadFault),
}

impl From<QuestionFault> for FollowFault {
    ghost from_gives = { λ cause fault. fault ≡ Asked cause };

    fn from(cause: QuestionFault) -> FollowFault {
        FollowFault::Question(cause)
    }
}

impl From<ReadFault> for FollowFault {
    ghost from_gives = { λ cause fault. fault ≡ Unread cause };

    fn from(cause: ReadFault) -> FollowFault {
        FollowFault::Unread(cause)
    }
}

/// Writes those lines of a text that weren't written before, by one write if the sink takes them all. A fault counts what was written before too.
fn tell<W: Sink>(
    alloc: Global,
    told: &mut Told,
    text: &[u8],
    output: &mut W,
) -> Result<(), QuestionFault>
    requires output { W.has_failed output.old ≡ false }
    requires told { IsOfItsLines told.old }
    ensures lines { OnOk result (told.new.lines.keys ≡ lines_with told.old.lines.keys text.now) }
    ensures text { OnOk result (IsOfItsLines told.new) }
    ensures written { (start : Option (List ℕ)) → Appends start (W.told output.old) told.old.text.items
        → OnOk result (Appends start (W.told output.new) told.new.text.items) }
    ensures sound { OnOk result (W.has_failed output.new ≡ false) }
    ensures fault { IfErr result (TellFails told.old.lines.keys text.now (change W.Sink output.old output.new)) }
{
    let before = told.text.len();
    told.add_all(alloc, text)?;
    let (_, new) = told.text.as_slice().split_at(before);
    match write_report(new, output) {
        Ok(()) => Ok(()),
        Err(fault) => Err(QuestionFault::from(WriteFault {
            written: before as u64 + fault.written,
        })),
    }
}

/// Asks by the answers so far, and writes the lines that weren't written before.
fn look<W: Sink>(
    alloc: Global,
    campaign: &OutsideCampaign<'_>,
    answers: &[u8],
    told: &mut Told,
    output: &mut W,
) -> Result<Answer, QuestionFault>
    requires output { W.has_failed output.old ≡ false }
    requires told { IsOfItsLines told.old }
    ensures answer { IfOk result (λ a. IsAnswer Asks (subject_in campaign.now) answers.now a.text.items false) }
    ensures notes { IfOk result (λ a. string_bytes a.notes
        ≡ question_notes Asks campaign.now.settings.now campaign.now.outside.now answers.now) }
    ensures lines { IfOk result (λ a. told.new.lines.keys ≡ lines_with told.old.lines.keys a.text.items) }
    ensures text { OnOk result (IsOfItsLines told.new) }
    ensures written { (start : Option (List ℕ)) → Appends start (W.told output.old) told.old.text.items
        → OnOk result (Appends start (W.told output.new) told.new.text.items) }
    ensures sound { OnOk result (W.has_failed output.new ≡ false) }
    ensures fault { IfErr result (LookFails (subject_in campaign.now) answers.now told.old.lines.keys (change W.Sink output.old output.new)) }
{
    let question = Question::Asks;
    let answer = answer_question(alloc, &question, campaign, answers)?;
    tell(alloc, told, answer.text.as_slice(), output)?;
    Ok(answer)
}

/// Looks at the answers that a reader gives, until nothing is left to be tried or the reader ends. What comes of it are the notes on the last look.
fn follow_answers<A: Read, W: Sink>(
    alloc: Global,
    campaign: &OutsideCampaign<'_>,
    answers: &mut A,
    output: &mut W,
) -> Result<String, FollowFault>
    requires { W.has_failed output.old ≡ false }
    ensures follow { (read : List ℕ) × Consumes (A.remaining answers.old) (A.remaining answers.new) read
        × ComesToFollow (subject_in campaign.now) read (A.remaining answers.new) (change W.Sink output.old output.new) result }
    ensures too_long { IsErrOf result (FollowFault.Unread ReadFault.TooLong) → IfSome (A.remaining answers.old) (λ bytes. LIMIT < length bytes) }
{
    let mut known = Vec::new(alloc);
    let mut told = Told::new(alloc);
    loop {
        let answer = look(alloc, campaign, known.as_slice(), &mut told, output)?;
        if answer.text.is_empty() {
            return Ok(answer.notes);
        }
        if !read_lines(answers, &mut known, LIMIT)? {
            return Ok(answer.notes);
        }
    }
}

/// Follows the answers on a component that settings describe.
fn follow_on<A: Read, W: Sink, E: Sink>(
    alloc: Global,
    campaign: &OutsideCampaign<'_>,
    answers: &mut A,
    output: &mut W,
    faults: &mut E,
) -> Exit
    requires output { W.has_failed output.old ≡ false }
    requires faults { E.has_failed faults.old ≡ false }
    ensures end { IfSome (A.remaining answers.old) (λ bytes. EndsFollowed (subject_in campaign.now) bytes result (change W.Sink output.old output.new)) }
    ensures noted { OnWhole result (IfSome (A.remaining answers.old) (λ bytes. NotesFollow (Ok (subject_in campaign.now)) bytes
        (change E.Sink faults.old faults.new))) }
    ensures cause { result ≡ Exit.Refused → IfSome (A.remaining answers.old) (λ bytes. IsNotFollowed (Ok (subject_in campaign.now)) bytes
        (change E.Sink faults.old faults.new)) }
    ensures output { LeavesFollow result (change W.Sink output.old output.new) }
    ensures told { TellsOfQuestion result (change E.Sink faults.old faults.new) }
{
    match follow_answers(alloc, campaign, answers, output) {
        Ok(notes) => {
            note(notes.as_str(), faults);
            Exit::Kept
        }
        Err(FollowFault::Question(fault)) => end_question(alloc, campaign.outside, &fault, faults),
        Err(FollowFault::Unread(fault)) => end_unreadable_answers(fault, faults),
    }
}

/// Reads settings, and writes which scenarios are still to be tried on the component that they describe, which somebody else runs, while its answers
/// come: each scenario is written as soon as it is known, once. Answers come from a second reader: a text of whole lines, of which up to 268435456 bytes
/// are read. If the settings are refused, no answers are read.
///
/// It looks at the answers again and again: first at none at all, and then whenever what has come is whole lines. Each look asks by all answers
/// so far, as `perform_outside` does, and writes those of the lines that no look before it wrote, by one write if the sink takes them all. What comes
/// during a look is there for the next, so a reader that is slow to be asked costs no look for each of its lines. This is how it ends:
///
/// | End | When | The output has | The sink of faults has |
/// |---|---|---|---|
/// | Kept | a look leaves nothing to be tried, or the reader has ended | the lines of all looks, each once | the notes on the last look, if any |
/// | Refused | the settings or a look are refused, as said at `perform_outside` | the lines of the looks before | one line, on the first fault |
/// | Memory | memory was refused | the lines of the looks before | one line |
/// | Write | the output failed | a part of the lines, of as many bytes as Write says | one line |
///
/// A line that can't be written, or not whole, changes no end. The first look is at no answers though some may be there, so it asks for what they
/// answer: pass over that.
///
/// If contracts see the readers' bytes, as those of slices, the contract says which lines and which fault come, by some looks at growing parts of the
/// answers: at which parts depends on the reads. If they see what a sink wrote, as with [`target_trait::Out`] over a `Vec`, it says which bytes were
/// written. For others it says what that of [`crate::perform`] does.
pub fn perform_follow<R: Read, A: Read, W: Sink, E: Sink>(
    alloc: Global,
    settings: &mut R,
    answers: &mut A,
    output: &mut W,
    faults: &mut E,
) -> Exit
    requires output { W.has_failed output.old ≡ false }
    requires faults { E.has_failed faults.old ≡ false }
    ensures end { IfSome (R.remaining settings.old) (λ given. IfSome (A.remaining answers.old)
        (λ bytes. EndsFollow (subject_of given) bytes result (change W.Sink output.old output.new))) }
    ensures noted { OnWhole result (IfSome (R.remaining settings.old) (λ given. IfSome (A.remaining answers.old)
        (λ bytes. NotesFollow (subject_of given) bytes (change E.Sink faults.old faults.new)))) }
    ensures cause { result ≡ Exit.Refused → IfSome (R.remaining settings.old)
        (λ given. IfSome (A.remaining answers.old) (λ bytes. IsNotFollowed (subject_of given) bytes (change E.Sink faults.old faults.new))) }
    ensures output { LeavesFollow result (change W.Sink output.old output.new) }
    ensures told { TellsOfQuestion result (change E.Sink faults.old faults.new) }
{
    match read_outside(alloc, settings, faults) {
        Ok(given) => {
            let campaign = OutsideCampaign {
                outside: &given.outside,
                settings: &given.campaign,
            };
            follow_on(alloc, &campaign, answers, output, faults)
        }
        Err(end) => end,
    }
}
