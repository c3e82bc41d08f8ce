//! The commands over a target that the program brings itself, over any reader and any sinks.
ghost use Rattle.std.specs.Prelude.{◌≡◌, ℕ, List, false, IfErr, IfOk, IfSome, OnOk, string_bytes};
ghost use Rattle.campaign_core.specs.Headline.{campaign_in, campaign_on};
ghost use Rattle.campaign_core.specs.declared.ending.CampaignFault.TheVariants.{Memory};
ghost use Rattle.campaign_settings.specs.declared.own.OwnSettings.{OwnSettings};
ghost use Rattle.campaign_main.specs.declared.fault.CommandFault.TheVariants.{Campaign};
ghost use Rattle.campaign_main.specs.Commands.{Answer, answer_with, order_answer};
ghost use Rattle.campaign_core.specs.Writes.{change};
ghost use Rattle.campaign_main.specs.Ends.{ComesTo, EndsAs, EndsBy, Leaves, NotesBy, OnWhole, RefusesBy, RefusesWith, Tells, TellsAs, TellsRefusal};
ghost use Rattle.campaign_main.specs.Promises.{KeepsPromises};
ghost use Rattle.campaign_main.specs.OwnTarget.{OwnKeepsPromises, own_text_answer, own_words_line, target_answer, worded_answer, worded_text_answer};

use crate::command::command;
use crate::exit::{Answered, Exit};
use crate::fault::CommandFault;
use crate::input::read_all;
use crate::lines::{end_bad_settings, end_outcome, end_unreadable_settings, refused_by};
use campaign_core::{Host, Subject, broken_law};
use campaign_settings::{OwnSettings, Settings};
use command_words::Order;
use report::{NoEnd, RunEnd};
use std::alloc::{AllocError, Global};
use std::io::Read;
use std::sync::Wait;
use std::thread::Threads;
use target_trait::{Sink, Target};
use work_gate::Gate;

/// Checks the laws of a target that may not be proved. If it breaks one, the error is the line that refuses the command.
///
/// A proved target breaks none, so the error then means that memory was refused. The caller's target isn't touched.
fn check_lawful<T: Target>(alloc: Global, subject: &Subject<'_, T>) -> Result<(), CommandFault>
    ensures { IfErr result (λ fault. fault ≡ Campaign Memory) }
{
    let Subject {
        target,
        workload,
        settings,
    } = subject;
    match broken_law(alloc, *target, *workload, settings.seed, settings.max_hits)? {
        None => Ok(()),
        Some(law) => {
            let line = format!(in alloc; "target: {law}\n")?;
            Err(CommandFault::Unlawful(line))
        }
    }
}

/// Does what is ordered with a target that the program brings itself, as [`command`] does. The target's laws are checked first. If it breaks
/// one, which no proved target does, the command is refused.
pub fn own_command<T: Target + Send, D: RunEnd<T>, W: Sink, H: Threads + Wait + Sync, G: Gate>(
    host: &Host<'_, G, H>,
    subject: &Subject<'_, T>,
    end: &D,
    order: &Order,
    output: &mut W,
) -> Result<Answered, CommandFault>
where
    T::Workload: Sync,
    requires { W.has_failed output.old ≡ false }
    ensures text { let s = subject.now in
        ComesTo (answer_with (D.lines end.now s.target.now s.workload.now) order.now (campaign_in T.Target s))
        (change W.Sink output.old output.new) result }
    ensures promises { OnOk result (KeepsPromises order.now (campaign_in T.Target subject.now)) }
{
    check_lawful(host.alloc, subject)?;
    command(host, subject, end, order, output)
}

/// Does what is ordered with this target and its workload, by these settings, and writes the command's text to the output. It is what
/// [`perform_target`] does once it has read the settings, with the same lines and ends.
///
/// The target's laws are checked first, as there: if it breaks one, which no proved target does, the command is refused.
pub fn perform_settings<T: Target + Send, W: Sink, E: Sink, H: Threads + Wait + Sync, G: Gate>(
    host: &Host<'_, G, H>,
    order: &Order,
    subject: &Subject<'_, T>,
    output: &mut W,
    faults: &mut E,
) -> Exit
where
    T::Workload: Sync,
    requires output { W.has_failed output.old ≡ false }
    requires faults { E.has_failed faults.old ≡ false }
    ensures end { EndsAs result (order_answer order.now (campaign_in T.Target subject.now)) (change W.Sink output.old output.new) }
    ensures told { TellsAs result (order_answer order.now (campaign_in T.Target subject.now)) (change E.Sink faults.old faults.new) }
    ensures promises { OnWhole result (KeepsPromises order.now (campaign_in T.Target subject.now)) }
{
    let outcome = own_command(host, subject, &NoEnd, order, output);
    end_outcome(host.alloc, outcome, faults)
}

/// Does what is ordered with this target, by the settings that a text gives.
fn target_text<T: Target + Send, W: Sink, E: Sink, H: Threads + Wait + Sync, G: Gate>(
    host: &Host<'_, G, H>,
    order: &Order,
    target: &mut T,
    workload: &T::Workload,
    text: &str,
    output: &mut W,
    faults: &mut E,
) -> Exit
where
    T::Workload: Sync,
    requires output { W.has_failed output.old ≡ false }
    requires faults { E.has_failed faults.old ≡ false }
    ensures end { EndsAs result (own_text_answer order.now (campaign_on T.Target target.old workload.now) text.now) (change W.Sink output.old output.new) }
    ensures told { TellsAs result (own_text_answer order.now (campaign_on T.Target target.old workload.now) text.now)
        (change E.Sink faults.old faults.new) }
    ensures promises { OnWhole result (OwnKeepsPromises order.now (campaign_on T.Target target.old workload.now) text.now) }
{
    match Settings::read_own(host.alloc, text) {
        Ok(settings) => {
            let subject = Subject {
                target: &*target,
                workload,
                settings: &settings,
            };
            perform_settings(host, order, &subject, output, faults)
        }
        Err(fault) => end_bad_settings(host.alloc, &fault, faults),
    }
}

/// Reads settings, does what is ordered with this target and this workload, and writes the command's text to the output.
///
/// It is for a program that brings its own target. Commands, lines and ends are those of [`crate::perform`]. The settings have neither `target` nor
/// `variant` nor a target's table; each of these keys is refused as an unknown one is. If the settings are empty, each key has its default.
///
/// A target that isn't proved is checked first: if it breaks a law of [`campaign_core::broken_law`], the command is refused with a line that names the
/// law, such as `target: asks after a halt`.
///
/// [`crate::perform`] says what is returned, and for which readers and sinks the contract says which text, which fault and which reduced scenarios.
pub fn perform_target<
    T: Target + Send,
    R: Read,
    W: Sink,
    E: Sink,
    H: Threads + Wait + Sync,
    G: Gate,
>(
    host: &Host<'_, G, H>,
    order: &Order,
    target: &mut T,
    workload: &T::Workload,
    reader: &mut R,
    output: &mut W,
    faults: &mut E,
) -> Exit
where
    T::Workload: Sync,
    requires output { W.has_failed output.old ≡ false }
    requires faults { E.has_failed faults.old ≡ false }
    ensures end { EndsBy (target_answer T.Target target.old workload.now order.now) (R.remaining reader.old) result (change W.Sink output.old output.new) }
    ensures noted { NotesBy (target_answer T.Target target.old workload.now order.now) (R.remaining reader.old) result (change E.Sink faults.old faults.new) }
    ensures cause { RefusesBy (target_answer T.Target target.old workload.now order.now) (R.remaining reader.old) result (change E.Sink faults.old faults.new) }
    ensures promises { OnWhole result (IfSome (R.remaining reader.old) (OwnKeepsPromises order.now (campaign_on T.Target target.old workload.now))) }
    ensures output { Leaves result (change W.Sink output.old output.new) }
    ensures told { Tells order.now result (change E.Sink faults.old faults.new) }
{
    match read_all(host.alloc, reader) {
        Ok(text) => {
            let text = text.as_str();
            target_text(host, order, target, workload, text, output, faults)
        }
        Err(fault) => end_unreadable_settings(fault, faults),
    }
}

/// Reads the settings of a target that takes words, up to the reader's end: those of [`perform_target`] and, besides, a `variant` and a table `own`
/// ([`Settings::read_worded`]). From the words the program makes its target and its workload, and goes on with [`perform_settings`]; or it refuses
/// them by [`refuse_own_words`].
///
/// `Err` is the end of the command if the settings can't be read or are refused; its line has been written then. With `Ok` nothing has been written,
/// and a reader whose bytes contracts see is at its end.
pub fn read_own_settings<R: Read, E: Sink>(
    alloc: Global,
    reader: &mut R,
    faults: &mut E,
) -> Result<OwnSettings, Exit>
    requires { E.has_failed faults.old ≡ false }
    ensures ok { (answer : OwnSettings → Answer) → IfOk result (λ settings. IfSome (R.remaining reader.old)
        (λ bytes. worded_answer answer bytes ≡ answer settings)) }
    ensures untold { OnOk result (faults.new ≡ faults.old) }
    ensures told { IfErr result (λ end. (line : List ℕ) × RefusesWith line end (change E.Sink faults.old faults.new)) }
    ensures cause { (answer : OwnSettings → Answer) → IfErr result (λ end.
        RefusesBy (worded_answer answer) (R.remaining reader.old) end (change E.Sink faults.old faults.new)) }
{
    match read_all(alloc, reader) {
        Ok(text) => {
            let text = text.as_str();
            read_worded_text(alloc, text, faults)
        },
        Err(fault) => Err(end_unreadable_settings(fault, faults)),
    }
}

/// The settings that a text gives to a target that takes words, or the end of a command that is refused.
fn read_worded_text<E: Sink>(alloc: Global, text: &str, faults: &mut E) -> Result<OwnSettings, Exit>
    requires { E.has_failed faults.old ≡ false }
    ensures ok { (answer : OwnSettings → Answer) → IfOk result (λ settings. worded_text_answer answer text.now ≡ answer settings) }
    ensures untold { OnOk result (faults.new ≡ faults.old) }
    ensures told { IfErr result (λ end. (line : List ℕ) × RefusesWith line end (change E.Sink faults.old faults.new)) }
    ensures cause { (answer : OwnSettings → Answer) → IfErr result (λ end. end ≡ Exit.Refused
        → TellsRefusal (worded_text_answer answer text.now) (change E.Sink faults.old faults.new)) }
{
    match Settings::read_worded(alloc, text) {
        Ok(settings) => Ok(settings),
        Err(fault) => Err(end_bad_settings(alloc, &fault, faults)),
    }
}

/// Ends as refused because the program doesn't take the words in the settings, with the line `settings: own: ` and the reason, or because memory was
/// refused. The reason has no line feed.
pub fn refuse_own_words<E: Sink>(alloc: Global, reason: &str, faults: &mut E) -> Exit
    requires { E.has_failed faults.old ≡ false }
    ensures { RefusesWith (own_words_line reason.now) result (change E.Sink faults.old faults.new) }
{
    refused_by(own_words_line(alloc, reason), faults)
}

/// The line for words that the program doesn't take.
fn own_words_line(alloc: Global, reason: &str) -> Result<String, AllocError>
    ensures { IfOk result (λ line. string_bytes line ≡ own_words_line reason.now) }
{
    format!(in alloc; "settings: own: {reason}\n")
}
