//! The ends of commands: what is noted on a text, or the line that says why there is none. A line that can't be written changes no end.
ghost use Rattle.std.specs.Prelude.{◌≡◌, ◌++◌, ℕ, List, false, IfOk, OnOk, string_bytes};
ghost use Rattle.campaign_settings.specs.declared.fault.SettingsFault.TheVariants as settings;
ghost use Rattle.campaign_main.specs.Commands.{bad_answers, broken_run, bundled_target, no_plan, not_answered, other_census, unseen_hits};
ghost use Rattle.campaign_core.specs.Writes.{change};
ghost use Rattle.campaign_main.specs.Ends.{IsEndOf, IsEndOfCommand, IsNoted, IsTold, RefusesWith};
ghost use Rattle.campaign_main.specs.FaultLines.{answers_read_line, cut_off_line, joined_names, memory_line, names_text, read_fault_line, refusal_line, right_text, scenario_line, settings_line};
ghost use Rattle.campaign_main.specs.Questions.{IsEndOfQuestion};

use crate::escaping::escaped_line;
use crate::exit::{Answered, Exit, exit_of};
use crate::fault::CommandFault;
use crate::input::ReadFault;
use answer_text::{AnswersFault, LineFault};
use answered_runs::BrokenRun;
use campaign_core::CampaignFault;
use campaign_given::Outside;
use campaign_settings::SettingsFault;
use itoa::Buffer;
use outside_campaign::{OutsideFault, QuestionFault, borrowed};
use report::{WriteFault, write_report, write_scenario};
use scenario_grammar::{Scenario, ScenarioFault, Text};
use std::alloc::{AllocError, Global};
use std::fmt::Write;
use target_trait::Sink;

/// Writes a line, or as much of it as the sink takes.
fn tell<E: Sink>(line: &[u8], faults: &mut E)
    requires { E.has_failed faults.old ≡ false }
    ensures { IsTold line.now (change E.Sink faults.old faults.new) }
{
    let _ = write_report(line, faults);
}

/// Writes the notes on a text, or as much of them as the sink takes. Without notes it writes nothing.
pub fn note<E: Sink>(lines: &str, faults: &mut E)
    requires { E.has_failed faults.old ≡ false }
    ensures { IsNoted lines.now (change E.Sink faults.old faults.new) }
{
    if !lines.is_empty() {
        tell(lines.as_bytes(), faults);
    }
}

/// Ends as refused, with these lines.
pub fn refused<E: Sink>(lines: &str, faults: &mut E) -> Exit
    requires { E.has_failed faults.old ≡ false }
    ensures end { result ≡ Exit.Refused }
    ensures told { IsTold lines.now (change E.Sink faults.old faults.new) }
{
    tell(lines.as_bytes(), faults);
    Exit::Refused
}

/// Ends because memory was refused.
pub fn no_memory<E: Sink>(faults: &mut E) -> Exit
    requires { E.has_failed faults.old ≡ false }
    ensures end { result ≡ Exit.Memory }
    ensures told { IsTold memory_line (change E.Sink faults.old faults.new) }
{
    tell(b"no memory\n", faults);
    Exit::Memory
}

/// Ends as refused, with a line. If memory for the line was refused, that is the end.
pub fn refused_by<E: Sink>(line: Result<String, AllocError>, faults: &mut E) -> Exit
    requires { E.has_failed faults.old ≡ false }
    ensures { (text : List ℕ) → IfOk line (λ l. string_bytes l ≡ text)
        → RefusesWith text result (change E.Sink faults.old faults.new) }
{
    match line {
        Ok(line) => refused(line.as_str(), faults),
        Err(AllocError) => no_memory(faults),
    }
}

/// Ends because the settings couldn't be read.
pub fn end_unreadable_settings<E: Sink>(fault: ReadFault, faults: &mut E) -> Exit
    requires { E.has_failed faults.old ≡ false }
    ensures end { RefusesWith (read_fault_line fault) result (change E.Sink faults.old faults.new) }
    ensures memory { fault ≡ ReadFault.Memory → result ≡ Exit.Memory }
{
    match fault {
        ReadFault::TooLong => refused("settings: too long\n", faults),
        ReadFault::NotUtf8 => refused("settings: not UTF-8\n", faults),
        ReadFault::NotReadable => refused("settings: not readable\n", faults),
        ReadFault::Memory => no_memory(faults),
    }
}

/// The line for a fault of the settings.
fn settings_line(alloc: Global, fault: &SettingsFault) -> Result<String, AllocError>
    ensures { IfOk result (λ line. string_bytes line ≡ settings_line fault.now) }
{
    let told = format!(in alloc; "{fault}")?;
    escaped_line(alloc, told.as_str())
}

/// Ends because the settings have a fault.
pub fn end_bad_settings<E: Sink>(alloc: Global, fault: &SettingsFault, faults: &mut E) -> Exit
    requires { E.has_failed faults.old ≡ false }
    ensures end { RefusesWith (settings_line fault.now) result (change E.Sink faults.old faults.new) }
    ensures memory { fault.now ≡ settings.Memory → result ≡ Exit.Memory }
{
    if let SettingsFault::Memory = fault {
        return no_memory(faults);
    }
    refused_by(settings_line(alloc, fault), faults)
}

/// The line for a scenario's fault.
fn scenario_line(alloc: Global, fault: &ScenarioFault) -> Result<String, AllocError>
    ensures { IfOk result (λ line. string_bytes line ≡ scenario_line fault.now) }
{
    format!(in alloc; "scenario: {fault}\n")
}

/// Ends because a text spells no scenario.
fn end_bad_scenario<E: Sink>(alloc: Global, fault: &ScenarioFault, faults: &mut E) -> Exit
    requires { E.has_failed faults.old ≡ false }
    ensures { IsEndOf (CommandFault.Scenario fault.now) result (change E.Sink faults.old faults.new) }
{
    if let ScenarioFault::Memory = fault {
        return no_memory(faults);
    }
    refused_by(scenario_line(alloc, fault), faults)
}

/// The line for a number that no plan has.
fn plan_line(alloc: Global, number: u16) -> Result<String, AllocError>
    ensures { IfOk result (λ line. string_bytes line ≡ refusal_line (no_plan number)) }
{
    format!(in alloc; "plan: out of range {number}\n")
}

/// Writes the line that says how many bytes were written before a write failed, or as much of it as the sink takes. It takes no memory.
fn write_cut_off<E: Sink>(written: u64, faults: &mut E) -> Result<(), WriteFault>
    requires { E.has_failed faults.old ≡ false }
    ensures { IsTold (cut_off_line written) (change E.Sink faults.old faults.new) }
{
    let mut digits = Buffer::new();
    write_report(b"write failed after ", faults)?;
    write_report(digits.format(written).as_bytes(), faults)?;
    write_report(b" bytes\n", faults)
}

/// Ends because a write failed once this many bytes were written.
pub fn cut_off<E: Sink>(written: u64, faults: &mut E) -> Exit
    requires { E.has_failed faults.old ≡ false }
    ensures end { result ≡ Exit.Write written }
    ensures told { IsTold (cut_off_line written) (change E.Sink faults.old faults.new) }
{
    let _ = write_cut_off(written, faults);
    Exit::Write(written)
}

/// Ends because what was done with a target gave no whole text.
fn end_unwritten<E: Sink>(fault: CampaignFault, faults: &mut E) -> Exit
    requires { E.has_failed faults.old ≡ false }
    ensures { IsEndOf (CommandFault.Campaign fault) result (change E.Sink faults.old faults.new) }
{
    match fault {
        CampaignFault::TooManyPlans => refused("too many plans\n", faults),
        CampaignFault::Memory => no_memory(faults),
        CampaignFault::Write(written) => cut_off(written, faults),
    }
}

/// Ends because a command didn't write its whole text.
fn end_command<E: Sink>(alloc: Global, fault: &CommandFault, faults: &mut E) -> Exit
    requires { E.has_failed faults.old ≡ false }
    ensures { IsEndOf fault.now result (change E.Sink faults.old faults.new) }
{
    match fault {
        CommandFault::Scenario(cause) => end_bad_scenario(alloc, cause, faults),
        CommandFault::Plan(number) => refused_by(plan_line(alloc, *number), faults),
        CommandFault::Campaign(cause) => end_unwritten(*cause, faults),
        CommandFault::Unlawful(line) => refused(line.as_str(), faults),
        CommandFault::Outside => refused(
            "settings: target outside: only plans, asks and report\n",
            faults,
        ),
        CommandFault::OutsideWithDepth => refused(
            "settings: target outside with a depth: only asks and report\n",
            faults,
        ),
    }
}

/// Ends a command by what it came to: writes the notes on its text, or why the text wasn't written whole.
pub fn end_outcome<E: Sink>(
    alloc: Global,
    outcome: Result<Answered, CommandFault>,
    faults: &mut E,
) -> Exit
    requires { E.has_failed faults.old ≡ false }
    ensures { IsEndOfCommand outcome result (change E.Sink faults.old faults.new) }
{
    match outcome {
        Ok(answered) => {
            note(answered.notes.as_str(), faults);
            exit_of(answered.conclusion)
        }
        Err(fault) => end_command(alloc, &fault, faults),
    }
}

/// Ends because a question is about a bundled target.
pub fn refuse_bundled<E: Sink>(faults: &mut E) -> Exit
    requires { E.has_failed faults.old ≡ false }
    ensures end { result ≡ Exit.Refused }
    ensures told { IsTold (refusal_line bundled_target) (change E.Sink faults.old faults.new) }
{
    refused(
        "settings: target not outside: only run, plans, try, reduce and explain\n",
        faults,
    )
}

/// Ends because the answers couldn't be read.
pub fn end_unreadable_answers<E: Sink>(fault: ReadFault, faults: &mut E) -> Exit
    requires { E.has_failed faults.old ≡ false }
    ensures end { RefusesWith (answers_read_line fault) result (change E.Sink faults.old faults.new) }
    ensures memory { fault ≡ ReadFault.Memory → result ≡ Exit.Memory }
{
    match fault {
        ReadFault::TooLong => refused("answers: too long\n", faults),
        ReadFault::NotUtf8 => refused("answers: not readable\n", faults),
        ReadFault::NotReadable => refused("answers: not readable\n", faults),
        ReadFault::Memory => no_memory(faults),
    }
}

/// Names with commas between them.
fn joined_names(alloc: Global, names: &[Text]) -> Result<String, AllocError>
    ensures { IfOk result (λ text. string_bytes text ≡ joined_names names.now) }
{
    borrowed(alloc, names)?.join(alloc, ", ")
}

/// Appends which codes or points there are, such as `; codes are torn, stale`.
fn write_names(
    alloc: Global,
    line: &mut String,
    what: &str,
    names: &[Text],
) -> Result<(), AllocError>
    ensures { OnOk result (string_bytes line.new ≡ string_bytes line.old ++ names_text what.now names.now) }
{
    if names.is_empty() {
        return write!(line, "; there are no {what}");
    }
    let names = joined_names(alloc, names)?;
    write!(line, "; {what} are {names}")
}

/// Appends the names that the settings have, if the fault is one that they lack.
fn write_right(
    alloc: Global,
    line: &mut String,
    outside: &Outside,
    fault: &AnswersFault,
) -> Result<(), AllocError>
    ensures { OnOk result (string_bytes line.new ≡ string_bytes line.old ++ right_text outside.now fault.now) }
{
    match fault {
        AnswersFault::Line(_, LineFault::UnknownCode(_)) => {
            write_names(alloc, line, "codes", outside.codes.as_slice())
        }
        AnswersFault::Line(_, LineFault::UnknownPoint(_)) => {
            write_names(alloc, line, "points", outside.points.as_slice())
        }
        _ => Ok(()),
    }
}

/// The line for a fault of the answers on a component. A name that the settings lack is followed by those that they have.
fn answers_line(
    alloc: Global,
    outside: &Outside,
    fault: &AnswersFault,
) -> Result<String, AllocError>
    ensures { IfOk result (λ line. string_bytes line ≡ refusal_line (bad_answers outside.now fault.now)) }
{
    let mut told = format!(in alloc; "{fault}")?;
    write_right(alloc, &mut told, outside, fault)?;
    escaped_line(alloc, told.as_str())
}

/// The line for an answer that records another census than the settings have.
fn census_line(alloc: Global, line: u32) -> Result<String, AllocError>
    ensures { IfOk result (λ text. string_bytes text ≡ refusal_line (other_census line)) }
{
    format!(in alloc;
        "answers: line {line}: hits differ from the settings; the hits of none are those of outside.hits\n"
    )
}

/// The line for a scenario that is still to be tried.
fn waiting_line(alloc: Global, scenario: &Scenario) -> Result<String, AllocError>
    ensures { IfOk result (λ line. string_bytes line ≡ refusal_line (not_answered scenario.now)) }
{
    let mut line = String::from_str(alloc, "not answered ")?;
    write_scenario(alloc, &mut line, scenario)?;
    line.push_str("\n")?;
    Ok(line)
}

/// The line for two recorded runs that contradict each other.
fn broken_line(alloc: Global, broken: &BrokenRun) -> Result<String, AllocError>
    ensures { IfOk result (λ line. string_bytes line ≡ refusal_line (broken_run broken.now)) }
{
    format!(in alloc; "{broken}\n")
}

/// The line for an answer without the hits of the run that is to be explained.
fn unseen_line(alloc: Global, line: u32) -> Result<String, AllocError>
    ensures { IfOk result (λ text. string_bytes text ≡ refusal_line (unseen_hits line)) }
{
    format!(in alloc;
        "answers: line {line}: hits unknown; only a run whose hits are recorded can be explained\n"
    )
}

/// Ends because a question on a component wasn't answered by a whole text.
pub fn end_question<E: Sink>(
    alloc: Global,
    outside: &Outside,
    fault: &QuestionFault,
    faults: &mut E,
) -> Exit
    requires { E.has_failed faults.old ≡ false }
    ensures { IsEndOfQuestion outside.now fault.now result (change E.Sink faults.old faults.new) }
{
    match fault {
        QuestionFault::Outside(OutsideFault::Answers(cause)) => {
            refused_by(answers_line(alloc, outside, cause), faults)
        }
        QuestionFault::Outside(OutsideFault::Census(line)) => {
            refused_by(census_line(alloc, *line), faults)
        }
        QuestionFault::Outside(OutsideFault::NotAnswered(scenario)) => {
            refused_by(waiting_line(alloc, scenario), faults)
        }
        QuestionFault::Outside(OutsideFault::Campaign(cause)) => end_unwritten(*cause, faults),
        QuestionFault::Broken(broken) => refused_by(broken_line(alloc, broken), faults),
        QuestionFault::Scenario(cause) => end_bad_scenario(alloc, cause, faults),
        QuestionFault::Unseen(line) => refused_by(unseen_line(alloc, *line), faults),
    }
}
