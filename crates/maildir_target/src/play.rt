//! A run: message after message, up to the judgement.
ghost use Rattle.std.specs.Prelude.{◌≡◌, ◌+◌, ◌≤◌, length, IfOk, OnOk, MatchResult};
ghost use Rattle.action_eval.specs.Answers.{start};
ghost use Rattle.target_trait.specs.Play.{IsPlay, IsCutPlay};
ghost use Rattle.target_trait.specs.Cuts.{asks_with, with_keep};
ghost use Rattle.maildir_target.specs.declared.name.Attempt.TheVariants.{First};
ghost use Rattle.maildir_target.specs.Words.{point_names};
ghost use Rattle.maildir_target.specs.Steps.{asks_of, first_step};
ghost use Rattle.maildir_target.specs.Crash.{cut_of};
ghost use Rattle.maildir_target.specs.inside.Seen.{IsNamed, IsAt, IsBetween, HasLeft, IsOver};

use crate::attempt::attempt;
use crate::delivery::{Delivery, written_of};
use crate::disk::Device;
use crate::ended::Ended;
use crate::judge::{judge, judge_keeping};
use crate::mailbox::Mailbox;
use crate::messages::Messages;
use crate::name::Attempt;
use crate::variant::Variant;
use sim_device::{CrashDevice, FileDevice};
use std::alloc::{AllocError, Global};
use target_trait::{Judgement, Session, ask_cut};

/// Delivers a message, in two attempts at most.
fn deliver<D: Device>(
    first: &Delivery<'_>,
    mailbox: &mut Mailbox<D>,
    session: &mut Session<'_>,
) -> Result<(), Ended>
    requires first { first.now.attempt ≡ First }
    requires named { IsNamed first.now }
    requires at { IsAt D.stands first.now session.old mailbox.old (first_step first.now.variant) }
    ensures leaves { MatchResult result
        (λ _. IsBetween D.stands first.now.variant first.now.messages.now session.new mailbox.new first.now.message first.now.rest.now)
        (λ e. HasLeft D.stands first.now session.new mailbox.new e) }
    ensures given { session.new.given ≡ session.old.given }
{
    match attempt(first, mailbox, session) {
        Err(Ended::Failed) => {
            let second = Delivery {
                attempt: Attempt::Second,
                written: written_of(first.variant, first.message, Attempt::Second),
                ..*first
            };
            attempt(&second, mailbox, session)
        }
        ended => ended,
    }
}

/// Delivers the messages, one after another.
fn deliver_all<D: Device>(
    variant: Variant,
    messages: &Messages,
    mailbox: &mut Mailbox<D>,
    session: &mut Session<'_>,
) -> Result<(), AllocError>
    requires between { IsBetween D.stands variant messages.now session.old mailbox.old 0 messages.now }
    ensures over { OnOk result (IsOver D.stands variant messages.now session.new mailbox.new) }
    ensures given { session.new.given ≡ session.old.given }
{
    let mut message = 0;
    let mut rest = messages.as_slice();
    while let [chunks, more @ ..] = rest {
        message += 1;
        rest = more;
        let first = Delivery {
            variant,
            messages,
            message,
            attempt: Attempt::First,
            chunks,
            rest,
            written: written_of(variant, message, Attempt::First),
        };
        match deliver(&first, mailbox, session) {
            Ok(()) | Err(Ended::Failed) => {}
            Err(Ended::Halted) => return Ok(()),
            Err(Ended::Memory) => return Err(AllocError),
        }
    }
    Ok(())
}

/// Delivers the messages of a run on a device, which is cleared first, up to the run's judgement.
pub fn play_out<D: Device>(
    variant: Variant,
    messages: &Messages,
    mailbox: &mut Mailbox<D>,
    session: &mut Session<'_>,
) -> Result<(), AllocError>
    requires new { session.old ≡ start session.old.given }
    requires points { 7 ≤ length session.old.given.catalogue }
    ensures over { OnOk result (IsOver D.stands variant messages.now session.new mailbox.new) }
    ensures given { session.new.given ≡ session.old.given }
{
    mailbox.device.clear();
    mailbox.acknowledged.clear();
    deliver_all(variant, messages, mailbox, session)
}

/// Plays a run. The mailbox lends its memory.
pub fn play(
    variant: Variant,
    messages: &Messages,
    mailbox: &mut Mailbox<FileDevice>,
    session: &mut Session<'_>,
) -> Result<Judgement, AllocError>
    requires new { session.old ≡ start session.old.given }
    requires points { session.old.given.catalogue ≡ point_names }
    ensures play { IfOk result (IsPlay (asks_of variant messages.now) session.new) }
    ensures given { session.new.given ≡ session.old.given }
{
    play_out(variant, messages, mailbox, session)?;
    let judgement = judge(
        &mut mailbox.device,
        messages.as_slice(),
        mailbox.acknowledged.as_slice(),
    );
    Ok(judgement)
}

/// The number of the cut's point.
const KEEP: u32 = 7;

/// The names of the points, with that of the cut behind them.
pub const TO_CUT: &[&str] = &[
    "maildir::stat",
    "maildir::create",
    "maildir::write",
    "maildir::sync",
    "maildir::link",
    "maildir::unlink",
    "maildir::sync_dir",
    "power::keep",
];

/// Plays a run and its power cut, which keeps the writes for which its point returns. The mailbox lends its memory.
///
/// An error means that memory was refused. The session then has the hits up to there.
pub fn play_to_cut(
    alloc: Global,
    variant: Variant,
    messages: &Messages,
    mailbox: &mut Mailbox<CrashDevice>,
    session: &mut Session<'_>,
) -> Result<Judgement, AllocError>
    requires new { session.old ≡ start session.old.given }
    requires points { session.old.given.catalogue ≡ with_keep point_names }
    ensures play { IfOk result (IsCutPlay (asks_with (asks_of variant messages.now) (cut_of variant messages.now) 7) session.new) }
    ensures given { session.new.given ≡ session.old.given }
{
    play_out(variant, messages, mailbox, session)?;
    match ask_cut(alloc, session, KEEP, mailbox.device.pending().len())? {
        Some(kept) => judge_keeping(
            &mut mailbox.device,
            messages.as_slice(),
            mailbox.acknowledged.as_slice(),
            &kept,
        ),
        None => Ok(Judgement::Kept),
    }
}
