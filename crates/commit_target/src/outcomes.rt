//! The decision, and the second phase: the participants are told of it.
ghost use Rattle.std.specs.Prelude.{◌≡◌, ◌<◌, ◌≤◌, ◌+◌, OnOk, length, if◌then◌else◌};
ghost use Rattle.commit_target.specs.Steps.{ForceCommit, ForceCommitAgain, SendCommit, SendAbort, at_step, one_of, next_of};
ghost use Rattle.commit_target.specs.Steps.{abort_to, after_phase, after_no_commit, unacknowledged, aborted, committed, begun};
ghost use Rattle.commit_target.specs.inside.Batches.{AddsAll, abort_write};
ghost use Rattle.commit_target.specs.inside.Seen.{LeadsOn, LeadsTo, StandsBy, TellsNext};

use crate::cut::{Cut, ask};
use crate::logs::Logs;
use crate::marked::Manner;
use crate::points::Point;
use crate::progress::Progress;
use crate::records::{Kind, Party, Write};
use crate::script::Script;
use crate::variant::Variant;
use std::alloc::AllocError;
use target_trait::Session;

/// The points that are asked for a participant that is told of the commit, if nothing fails.
const ROUND: [u32; 3] = [
    Point::SendOutcome as u32,
    Point::ForceOutcome as u32,
    Point::SendAck as u32,
];

/// Forces the coordinator's commit record. end_first puts the end record behind it.
fn force_commit(
    script: Script<'_>,
    progress: &Progress,
    logs: &mut Logs,
    session: &mut Session<'_>,
) -> Result<bool, Cut>
    requires { StandsBy script session.old (at_step progress.now ForceCommit) logs.old }
    ensures given { session.new.given ≡ session.old.given }
    ensures notes { logs.new.notes ≡ logs.old.notes }
    ensures led { LeadsTo result script.entry session.new progress.now logs.new
        (λ forced. if forced then committed progress.now else after_no_commit script.entry.variant script.entry.workload.now progress.now) }
{
    if !ask(session, Point::ForceCommit as u32)? {
        return Ok(false);
    }
    logs.write(Write::Force(Party::Coordinator, progress.entry(Kind::Commit)))?;
    if let Some(end) = progress.early_write(script.variant) {
        logs.write(end)?;
    }
    Ok(true)
}

/// Tries the commit record once more, and goes on as if it stood.
fn force_commit_again(
    script: Script<'_>,
    progress: &Progress,
    logs: &mut Logs,
    session: &mut Session<'_>,
) -> Result<(), Cut>
    requires { StandsBy script session.old (at_step progress.now ForceCommitAgain) logs.old }
    ensures given { session.new.given ≡ session.old.given }
    ensures notes { logs.new.notes ≡ logs.old.notes }
    ensures led { LeadsTo result script.entry session.new progress.now logs.new (λ _. committed progress.now) }
{
    if !ask(session, Point::ForceCommit as u32)? {
        return Ok(());
    }
    logs.write(Write::Force(Party::Coordinator, progress.entry(Kind::Commit)))?;
    Ok(())
}

/// Whether the decision is commit, if every yes arrived. If it is, the client is told.
pub fn commits(
    script: Script<'_>,
    progress: &mut Progress,
    logs: &mut Logs,
    session: &mut Session<'_>,
) -> Result<bool, Cut>
    requires { StandsBy script session.old (at_step progress.old ForceCommit) logs.old }
    ensures given { session.new.given ≡ session.old.given }
    ensures notes { logs.new.notes ≡ logs.old.notes }
    ensures begun { progress.new.begun ≡ progress.old.begun }
    ensures led { LeadsTo result script.entry session.new progress.new logs.new
        (λ commits. if commits then at_step progress.new (SendCommit 0) else aborted script.entry.workload.now progress.new) }
{
    if !force_commit(script, progress, logs, session)? {
        match script.variant {
            Variant::TwoTries => {
                force_commit_again(script, progress, logs, session)?;
            }
            Variant::Sound | Variant::LazyPrepare | Variant::EarlyEnd | Variant::EndFirst => {
                return Ok(false);
            }
        }
    }
    progress.tell()?;
    Ok(true)
}

/// Tells the participant at this place, among those whose yes arrived, of the abort.
fn abort_to(
    script: Script<'_>,
    place: usize,
    progress: &Progress,
    logs: &mut Logs,
    session: &mut Session<'_>,
) -> Result<(), Cut>
    requires { StandsBy script session.old (at_step progress.now (SendAbort place)) logs.old }
    ensures given { session.new.given ≡ session.old.given }
    ensures notes { logs.new.notes ≡ logs.old.notes }
    ensures led { LeadsTo result script.entry session.new progress.now logs.new
        (λ _. abort_to script.entry.workload.now progress.now (next_of place (length progress.now.yes))) }
{
    if !ask(session, Point::SendOutcome as u32)? {
        return Ok(());
    }
    logs.write(Write::Append(
        Party::Participant(progress.voter(place)),
        progress.entry(Kind::Abort),
    ))?;
    Ok(())
}

/// Adds the abort record to the logs of the first `count` participants whose yes arrived.
fn abort_each(count: usize, progress: &Progress, logs: &mut Logs) -> Result<(), AllocError>
    ensures notes { logs.new.notes ≡ logs.old.notes }
    ensures adds { OnOk result (AddsAll logs.old logs.new (λ place. abort_write progress.now place) 0 count) }
{
    let entry = progress.entry(Kind::Abort);
    for place in 0..count {
        logs.write(Write::Append(Party::Participant(progress.voter(place)), entry))?;
    }
    Ok(())
}

/// Tells those whose yes arrived of the abort, from the first one on, as long as nothing comes between. Returns how many these are.
fn pass_aborts(
    script: Script<'_>,
    progress: &Progress,
    logs: &mut Logs,
    session: &mut Session<'_>,
) -> Result<usize, Cut>
    requires { StandsBy script session.old (aborted script.workload.now progress.now) logs.old }
    ensures given { session.new.given ≡ session.old.given }
    ensures notes { logs.new.notes ≡ logs.old.notes }
    ensures led { LeadsOn result script.entry session.new progress.now logs.new
        (λ n. (n ≤ length progress.now.yes)
        × StandsBy script.entry session.new (abort_to script.entry.workload.now progress.now (one_of n (length progress.now.yes))) logs.new) }
{
    let passed = session.pass(Point::SendOutcome as u32, progress.voters())?;
    abort_each(passed, progress, logs)?;
    Ok(passed)
}

/// Tells all participants whose yes arrived of the abort.
pub fn tell_abort(
    script: Script<'_>,
    progress: &Progress,
    logs: &mut Logs,
    session: &mut Session<'_>,
) -> Result<(), Cut>
    requires { StandsBy script session.old (aborted script.workload.now progress.now) logs.old }
    ensures given { session.new.given ≡ session.old.given }
    ensures notes { logs.new.notes ≡ logs.old.notes }
    ensures led { LeadsTo result script.entry session.new progress.now logs.new (λ _. begun script.entry.workload.now progress.now) }
{
    let passed = pass_aborts(script, progress, logs, session)?;
    for place in passed..progress.voters() {
        abort_to(script, place, progress, logs, session)?;
    }
    Ok(())
}

/// Tells a participant of the commit, and returns whether it has acknowledged that.
fn commit_to(
    script: Script<'_>,
    participant: usize,
    progress: &Progress,
    logs: &mut Logs,
    session: &mut Session<'_>,
) -> Result<bool, Cut>
    requires { StandsBy script session.old (at_step progress.now (SendCommit participant)) logs.old }
    ensures given { session.new.given ≡ session.old.given }
    ensures notes { logs.new.notes ≡ logs.old.notes }
    ensures led { LeadsOn result script.entry session.new progress.now logs.new
        (λ acknowledges. let told = (if acknowledges then progress.now else unacknowledged progress.now) in
        TellsNext script.entry session.new told (next_of participant script.entry.workload.now.participants) logs.new) }
{
    if !ask(session, Point::SendOutcome as u32)? {
        return Ok(false);
    }
    if !ask(session, Point::ForceOutcome as u32)? {
        return Ok(false);
    }
    logs.write(Write::Force(
        Party::Participant(participant),
        progress.entry(Kind::Commit),
    ))?;
    ask(session, Point::SendAck as u32)
}

/// Tells participants in a row, from this one on, of the commit, as long as nothing comes between. Returns how many these are.
fn pass_commits(
    script: Script<'_>,
    participant: usize,
    progress: &Progress,
    logs: &mut Logs,
    session: &mut Session<'_>,
) -> Result<usize, Cut>
    requires within { participant < script.workload.now.participants }
    requires stands { StandsBy script session.old (at_step progress.now (SendCommit participant)) logs.old }
    ensures given { session.new.given ≡ session.old.given }
    ensures notes { logs.new.notes ≡ logs.old.notes }
    ensures led { LeadsOn result script.entry session.new progress.now logs.new
        (λ n. let all = script.entry.workload.now.participants in (participant + n ≤ all)
        × TellsNext script.entry session.new progress.now (one_of (participant + n) all) logs.new) }
{
    let left = script.workload.participants() - participant;
    let passed = session.pass_rounds(&ROUND, left)?;
    let entry = progress.entry(Kind::Commit);
    logs.add_each(participant, passed, entry, Manner::Force)?;
    Ok(passed)
}

/// Tells participants of the commit, from this one on and at least this one. Returns the next participant.
fn some_commits(
    script: Script<'_>,
    participant: usize,
    progress: &mut Progress,
    logs: &mut Logs,
    session: &mut Session<'_>,
) -> Result<usize, Cut>
    requires within { participant < script.workload.now.participants }
    requires fits { script.workload.now.participants ≤ usize.MAX }
    requires stands { StandsBy script session.old (at_step progress.old (SendCommit participant)) logs.old }
    ensures given { session.new.given ≡ session.old.given }
    ensures notes { logs.new.notes ≡ logs.old.notes }
    ensures begun { progress.new.begun ≡ progress.old.begun }
    ensures led { LeadsOn result script.entry session.new progress.new logs.new
        (λ n. let all = script.entry.workload.now.participants in (participant < n) × (n ≤ all)
        × TellsNext script.entry session.new progress.new (one_of n all) logs.new) }
{
    let passed = pass_commits(script, participant, progress, logs, session)?;
    if passed > 0 {
        return Ok(participant + passed);
    }
    if !commit_to(script, participant, progress, logs, session)? {
        progress.miss();
    }
    Ok(participant + 1)
}

/// Tells all participants of the commit; then the coordinator ends it.
fn tell_all(
    script: Script<'_>,
    progress: &mut Progress,
    logs: &mut Logs,
    session: &mut Session<'_>,
) -> Result<(), Cut>
    requires { StandsBy script session.old (at_step progress.old (SendCommit 0)) logs.old }
    ensures given { session.new.given ≡ session.old.given }
    ensures notes { logs.new.notes ≡ logs.old.notes }
    ensures begun { progress.new.begun ≡ progress.old.begun }
    ensures led { LeadsTo result script.entry session.new progress.new logs.new
        (λ _. after_phase script.entry.variant script.entry.workload.now progress.new) }
{
    let all = script.workload.participants();
    let mut participant = 0;
    while participant < all {
        participant = some_commits(script, participant, progress, logs, session)?;
    }
    if let Some(end) = progress.end_write(script.variant) {
        logs.write(end)?;
    }
    Ok(())
}

/// The second phase of a commit. end_first gives up if an acknowledgement is missing afterwards.
pub fn tell_commit(
    script: Script<'_>,
    progress: &mut Progress,
    logs: &mut Logs,
    session: &mut Session<'_>,
) -> Result<(), Cut>
    requires { StandsBy script session.old (at_step progress.old (SendCommit 0)) logs.old }
    ensures given { session.new.given ≡ session.old.given }
    ensures notes { logs.new.notes ≡ logs.old.notes }
    ensures begun { progress.new.begun ≡ progress.old.begun }
    ensures led { LeadsTo result script.entry session.new progress.new logs.new (λ _. begun script.entry.workload.now progress.new) }
{
    tell_all(script, progress, logs, session)?;
    if progress.gives_up(script.variant) {
        return Err(Cut::Over);
    }
    Ok(())
}
