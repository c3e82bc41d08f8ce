//! A run: transaction after transaction, up to the judgement.
ghost use Rattle.std.specs.Prelude.{◌≡◌, ◌<◌, ◌≤◌, [], length, IfOk, OnOk};
ghost use Rattle.action_eval.specs.Answers.{start};
ghost use Rattle.target_trait.specs.Play.{IsPlay, IsCutPlay};
ghost use Rattle.target_trait.specs.Cuts.{asks_with, with_keep};
ghost use Rattle.commit_target.specs.Words.{point_names};
ghost use Rattle.commit_target.specs.Writes.{LogsStandFor};
ghost use Rattle.commit_target.specs.Steps.{SendPrepare, Over, at_step, begun, asks_of};
ghost use Rattle.commit_target.specs.Crash.{cut_of};
ghost use Rattle.commit_target.specs.inside.Seen.{LeadsOn, LeadsTo, StandsBy, EndedBy};

use crate::cut::Cut;
use crate::judge::{judge, judge_keeping};
use crate::logs::Logs;
use crate::outcomes::{commits, tell_abort, tell_commit};
use crate::progress::Progress;
use crate::script::Script;
use crate::votes::votes;
use std::alloc::{AllocError, Global};
use target_trait::{Judgement, Session, ask_cut};

/// Plays a transaction that was begun.
fn transaction(
    script: Script<'_>,
    progress: &mut Progress,
    logs: &mut Logs,
    session: &mut Session<'_>,
) -> Result<(), Cut>
    requires { StandsBy script session.old (at_step progress.old (SendPrepare 0)) logs.old }
    ensures given { session.new.given ≡ session.old.given }
    ensures notes { logs.new.notes ≡ logs.old.notes }
    ensures begun { progress.new.begun ≡ progress.old.begun }
    ensures led { LeadsTo result script.entry session.new progress.new logs.new (λ _. begun script.entry.workload.now progress.new) }
{
    votes(script, progress, logs, session)?;
    if progress.voters() == script.workload.participants() {
        if commits(script, progress, logs, session)? {
            return tell_commit(script, progress, logs, session);
        }
    }
    tell_abort(script, progress, logs, session)
}

/// Plays the transactions, one after another.
fn transactions(
    script: Script<'_>,
    progress: &mut Progress,
    logs: &mut Logs,
    session: &mut Session<'_>,
) -> Result<(), Cut>
    requires none { progress.old.begun ≡ 0 }
    requires stands { StandsBy script session.old (begun script.workload.now progress.old) logs.old }
    ensures given { session.new.given ≡ session.old.given }
    ensures notes { logs.new.notes ≡ logs.old.notes }
    ensures led { LeadsOn result script.entry session.new progress.new logs.new
        (λ _. EndedBy script.entry session.new (at_step progress.new Over) logs.new) }
{
    for _number in 0..script.workload.len() {
        progress.begin();
        transaction(script, progress, logs, session)?;
    }
    Ok(())
}

/// Plays a run from empty logs up to its judgement.
#[inline(always)]
pub fn play_out(
    script: Script<'_>,
    progress: &mut Progress,
    logs: &mut Logs,
    session: &mut Session<'_>,
) -> Result<(), AllocError>
    requires new { session.old ≡ start session.old.given }
    requires points { 7 ≤ length session.old.given.catalogue }
    requires empty { LogsStandFor script.workload.now.participants logs.old [] }
    ensures ended { OnOk result (EndedBy script.entry session.new (at_step progress.new Over) logs.new) }
    ensures given { session.new.given ≡ session.old.given }
    ensures notes { logs.new.notes ≡ logs.old.notes }
{
    progress.clear();
    match transactions(script, progress, logs, session) {
        Ok(()) | Err(Cut::Over) => Ok(()),
        Err(Cut::Refused) => Err(AllocError),
    }
}

/// Plays a run, restarts all parties, and judges.
pub fn play(
    script: Script<'_>,
    progress: &mut Progress,
    logs: &mut Logs,
    session: &mut Session<'_>,
) -> Result<Judgement, AllocError>
    requires new { session.old ≡ start session.old.given }
    requires points { session.old.given.catalogue ≡ point_names }
    ensures play { IfOk result (IsPlay (asks_of script.entry.variant script.entry.workload.now) session.new) }
    ensures given { session.new.given ≡ session.old.given }
    ensures some { 1 ≤ script.entry.workload.now.participants }
{
    let participants = script.workload.participants();
    logs.clear(participants)?;
    play_out(script, progress, logs, session)?;
    Ok(judge(logs, participants, progress.told(), progress.begun()))
}

/// The number of the cut's point.
const KEEP: u32 = 7;

/// The names of the points, with that of the cut behind them.
pub const TO_CUT: &[&str] = &[
    "commit::send_prepare",
    "commit::force_prepare",
    "commit::send_vote",
    "commit::force_commit",
    "commit::send_outcome",
    "commit::force_outcome",
    "commit::send_ack",
    "power::keep",
];

/// Plays a run and its power cut, which keeps the records for which its point returns, restarts all parties, and judges.
///
/// An error means that memory was refused. The session then has the hits up to there.
pub fn play_to_cut(
    alloc: Global,
    script: Script<'_>,
    progress: &mut Progress,
    logs: &mut Logs,
    session: &mut Session<'_>,
) -> Result<Judgement, AllocError>
    requires new { session.old ≡ start session.old.given }
    requires points { session.old.given.catalogue ≡ with_keep point_names }
    ensures play { let variant = script.entry.variant in let workload = script.entry.workload.now in
        IfOk result (IsCutPlay (asks_with (asks_of variant workload) (cut_of variant workload) 7) session.new) }
    ensures given { session.new.given ≡ session.old.given }
{
    logs.clear_to_note(script.workload.participants())?;
    play_out(script, progress, logs, session)?;
    match ask_cut(alloc, session, KEEP, logs.pending().len())? {
        Some(kept) => judge_keeping(logs, script.workload.participants(), progress, &kept),
        None => Ok(Judgement::Kept),
    }
}
