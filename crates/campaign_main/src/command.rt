//! The commands over one target.
ghost use Rattle.std.specs.Prelude.{◌≡◌, false, option_map, string_bytes, IfErr, IfOk, Ok, OnOk};
ghost use Rattle.campaign_core.specs.CommandTexts.{IsReducedToMinimal, LeavesOnly};
ghost use Rattle.campaign_core.specs.Headline.{campaign_in, first_failure};
ghost use Rattle.campaign_core.specs.Ran.{IsRan};
ghost use Rattle.campaign_core.specs.Writes.{WritesWhole, change};
ghost use Rattle.campaign_main.specs.Commands.{answer_with, explain_answer, form_in, notes_with, plans_answer, reduce_answer, report_in, run_answer, taken, taken_answer, try_answer};
ghost use Rattle.campaign_main.specs.Ends.{ComesTo, IsUntaken};
ghost use Rattle.campaign_main.specs.Notes.{notes_of};
ghost use Rattle.campaign_main.specs.Promises.{KeepsPromises, RunKeepsPromises};

use crate::exit::{Answered, Conclusion, concluded, judged};
use crate::fault::CommandFault;
use crate::notes::{is_doubted, listed_of, notes_on, report_notes_on};
use campaign_core::{
    CampaignFault, Ending, Host, Ran, Subject, ToExplain, explain_one, plan_list, plan_scenario,
    reduce_one, run_campaign, try_one, write_campaign,
};
use command_words::{Form, Order, VERSION, Which};
use report::{Form as ReportForm, Notes, RunEnd};
use scenario_grammar::{Scenario, parse};
use std::sync::Wait;
use std::thread::Threads;
use target_trait::{Sink, Target};
use work_gate::Gate;

/// What a document says of the program: its version, its command, and whether `target` or `answers` shows the runs.
pub fn notes_with(told_by: &'static str, command: &'static str) -> Notes<'static>
    ensures { result ≡ notes_with told_by.entry.now command.entry.now }
{
    Notes {
        version: VERSION,
        told_by,
        command,
    }
}

/// The form that a command's words name.
fn form_in(form: Form) -> ReportForm<'static>
    ensures { result ≡ form_in form }
{
    match form {
        Form::Whole => ReportForm::Whole,
        Form::Brief => ReportForm::Brief,
        Form::Json => ReportForm::Json(notes_with("target", "paklour run --json FILE")),
        Form::Junit => ReportForm::Junit,
        Form::Page => ReportForm::Page(notes_with("target", "paklour page FILE")),
    }
}

/// Writes the report of a campaign whose plans have run, in this form.
fn report_plans<T: Target + Send, W: Sink, H: Threads + Wait + Sync, G: Gate>(
    host: &Host<'_, G, H>,
    subject: &Subject<'_, T>,
    form: Form,
    ran: &Ran<'_>,
    output: &mut W,
) -> Result<Ending, CampaignFault>
where
    T::Workload: Sync,
    requires output { W.has_failed output.old ≡ false }
    requires ran { IsRan (campaign_in T.Target subject.now) ran.now }
    ensures text { OnOk result (WritesWhole (report_in form (campaign_in T.Target subject.now)) (change W.Sink output.old output.new)) }
    ensures first { IfOk result (λ ending. ending.first ≡ option_map (λ f. f.0) (first_failure (campaign_in T.Target subject.now))) }
    ensures promises { OnOk result (RunKeepsPromises (campaign_in T.Target subject.now)) }
    ensures fault { IfErr result (LeavesOnly (report_in form (campaign_in T.Target subject.now)) (change W.Sink output.old output.new)) }
{
    write_campaign(host, subject, &form_in(form), ran, output)
}

/// Runs a campaign, and writes its report.
fn run_plans<T: Target + Send, W: Sink, H: Threads + Wait + Sync, G: Gate>(
    host: &Host<'_, G, H>,
    subject: &Subject<'_, T>,
    form: Form,
    strict: bool,
    output: &mut W,
) -> Result<Answered, CommandFault>
where
    T::Workload: Sync,
    requires { W.has_failed output.old ≡ false }
    ensures text { ComesTo (run_answer form strict (campaign_in T.Target subject.now)) (change W.Sink output.old output.new) result }
    ensures promises { OnOk result (RunKeepsPromises (campaign_in T.Target subject.now)) }
{
    let ran = run_campaign(host, subject, strict)?;
    let notes = report_notes_on(host.alloc, subject, &ran, strict)?;
    let ending = report_plans(host, subject, form, &ran, output)?;
    let doubted = is_doubted(strict, notes.as_str());
    let conclusion = concluded(ending.first.is_some(), doubted);
    Ok(Answered { conclusion, notes })
}

/// Writes the list of a campaign's plans. The notes are on the listed scenarios.
fn list_plans<T: Target + Send, W: Sink, H: Threads + Wait + Sync, G: Gate>(
    host: &Host<'_, G, H>,
    subject: &Subject<'_, T>,
    output: &mut W,
) -> Result<Answered, CommandFault>
where
    T::Workload: Sync,
    requires { W.has_failed output.old ≡ false }
    ensures { ComesTo (plans_answer (campaign_in T.Target subject.now)) (change W.Sink output.old output.new) result }
{
    let notes = listed_of::<T>(host.alloc, subject.settings)?;
    plan_list(host, subject, output)?;
    Ok(Answered {
        conclusion: Conclusion::Clean,
        notes,
    })
}

/// The stream number and the scenario that a command takes. Nothing is written.
fn take_scenario<T: Target + Send, H: Threads + Wait + Sync, G: Gate>(
    host: &Host<'_, G, H>,
    subject: &Subject<'_, T>,
    which: &Which,
) -> Result<(u64, Scenario), CommandFault>
where
    T::Workload: Sync,
    ensures ok { IfOk result (λ t. taken (campaign_in T.Target subject.now) which.now ≡ Ok t) }
    ensures fault { IfErr result (IsUntaken (taken (campaign_in T.Target subject.now) which.now)) }
{
    match which {
        Which::Scenario(text) => Ok((0, parse(host.alloc, text.as_str())?)),
        Which::Plan(number) => {
            let number = *number;
            match plan_scenario(host, subject, u32::from(number))? {
                Some(scenario) => Ok((u64::from(number), scenario)),
                None => Err(CommandFault::Plan(number)),
            }
        }
    }
}

/// The same, with the notes on the scenario. Nothing is written.
fn take_noted<T: Target + Send, H: Threads + Wait + Sync, G: Gate>(
    host: &Host<'_, G, H>,
    subject: &Subject<'_, T>,
    which: &Which,
) -> Result<(u64, Scenario, String), CommandFault>
where
    T::Workload: Sync,
    ensures ok { IfOk result (λ t. taken (campaign_in T.Target subject.now) which.now ≡ Ok (t.0, t.1)) }
    ensures notes { IfOk result (λ t. string_bytes t.2 ≡ notes_of T.names t.1) }
    ensures fault { IfErr result (IsUntaken (taken (campaign_in T.Target subject.now) which.now)) }
{
    let (stream, scenario) = take_scenario(host, subject, which)?;
    let lines = notes_on(host.alloc, T::catalogue(), &scenario)?;
    Ok((stream, scenario, lines))
}

/// Tries the scenario that the command takes.
fn try_which<T: Target + Send, W: Sink, H: Threads + Wait + Sync, G: Gate>(
    host: &Host<'_, G, H>,
    subject: &Subject<'_, T>,
    which: &Which,
    output: &mut W,
) -> Result<Answered, CommandFault>
where
    T::Workload: Sync,
    requires { W.has_failed output.old ≡ false }
    ensures { let c = campaign_in T.Target subject.now in
        ComesTo (taken_answer (try_answer c) (taken c which.now)) (change W.Sink output.old output.new) result }
{
    let (stream, scenario, notes) = take_noted(host, subject, which)?;
    let verdict = try_one(host.alloc, subject, stream, &scenario, output)?;
    Ok(judged(verdict, notes))
}

/// Explains the run of the scenario that the command takes, and its end.
fn explain_which<T: Target + Send, D: RunEnd<T>, W: Sink, H: Threads + Wait + Sync, G: Gate>(
    host: &Host<'_, G, H>,
    subject: &Subject<'_, T>,
    end: &D,
    which: &Which,
    output: &mut W,
) -> Result<Answered, CommandFault>
where
    T::Workload: Sync,
    requires { W.has_failed output.old ≡ false }
    ensures { let s = subject.now in let c = campaign_in T.Target s in
        ComesTo (taken_answer (explain_answer (D.lines end.now s.target.now s.workload.now) c) (taken c which.now))
        (change W.Sink output.old output.new) result }
{
    let (stream, scenario, notes) = take_noted(host, subject, which)?;
    let what = ToExplain {
        stream,
        scenario: &scenario,
        end,
    };
    let verdict = explain_one(host.alloc, subject, &what, output)?;
    Ok(judged(verdict, notes))
}

/// Reduces the scenario that the command takes.
fn reduce_which<T: Target + Send, W: Sink, H: Threads + Wait + Sync, G: Gate>(
    host: &Host<'_, G, H>,
    subject: &Subject<'_, T>,
    which: &Which,
    output: &mut W,
) -> Result<Answered, CommandFault>
where
    T::Workload: Sync,
    requires { W.has_failed output.old ≡ false }
    ensures text { let c = campaign_in T.Target subject.now in
        ComesTo (taken_answer (reduce_answer c) (taken c which.now)) (change W.Sink output.old output.new) result }
    ensures minimal { let c = campaign_in T.Target subject.now in
        OnOk result (IfOk (taken c which.now) (λ t. IsReducedToMinimal c t.0 t.1)) }
{
    let (stream, scenario, notes) = take_noted(host, subject, which)?;
    let verdict = reduce_one(host, subject, stream, &scenario, output)?;
    Ok(judged(verdict, notes))
}

/// Does what is ordered with this target, and writes the command's text. An explained run prints this end. No plan is run once more, whatever the
/// order says: a proved target's verdict is the same each time.
///
/// If the whole text was written, it returns what the text comes to, and the notes on it. Otherwise nothing was written, or the fault says how many
/// bytes of the text, fewer than all, went out. Only in the latter case the output has failed.
pub fn command<T: Target + Send, D: RunEnd<T>, W: Sink, H: Threads + Wait + Sync, G: Gate>(
    host: &Host<'_, G, H>,
    subject: &Subject<'_, T>,
    end: &D,
    order: &Order,
    output: &mut W,
) -> Result<Answered, CommandFault>
where
    T::Workload: Sync,
    requires { W.has_failed output.old ≡ false }
    ensures text { let s = subject.now in
        ComesTo (answer_with (D.lines end.now s.target.now s.workload.now) order.now (campaign_in T.Target s))
        (change W.Sink output.old output.new) result }
    ensures promises { OnOk result (KeepsPromises order.now (campaign_in T.Target subject.now)) }
{
    match order {
        Order::Run { form, strict } => run_plans(host, subject, *form, *strict, output),
        Order::Plans => list_plans(host, subject, output),
        Order::Try(which) => try_which(host, subject, which, output),
        Order::Reduce(which) => reduce_which(host, subject, which, output),
        Order::Explain(which) => explain_which(host, subject, end, which, output),
    }
}
