//! The first phase: each participant is asked to prepare, and votes.
ghost use Rattle.std.specs.Prelude.{◌≡◌, ◌<◌, ◌≤◌, ◌+◌, OnOk};
ghost use Rattle.commit_target.specs.declared.records.Kind.TheVariants.{Prepare};
ghost use Rattle.commit_target.specs.declared.records.Party.TheVariants.{Participant};
ghost use Rattle.commit_target.specs.Steps.{SendPrepare, ForcePrepare, SendVote, at_step, one_of};
ghost use Rattle.commit_target.specs.Steps.{prepare_to, vote_step, after_vote, decided, number, entry, prepare_write};
ghost use Rattle.commit_target.specs.Work.{wish};
ghost use Rattle.commit_target.specs.inside.Batches.{AddsAll, prepares, write_of};
ghost use Rattle.commit_target.specs.inside.Seen.{LeadsOn, LeadsTo, StandsBy};

use crate::cut::{Cut, ask};
use crate::logs::Logs;
use crate::marked::Manner;
use crate::points::Point;
use crate::progress::Progress;
use crate::records::Kind;
use crate::script::Script;
use crate::variant::Variant;
use crate::work::Vote;
use std::alloc::AllocError;
use target_trait::Session;

/// The points that are asked for a participant that wishes yes, if nothing fails.
const ROUND: [u32; 3] = [
    Point::SendPrepare as u32,
    Point::ForcePrepare as u32,
    Point::SendVote as u32,
];

/// Writes the prepare record of a participant that wishes yes. A participant that can't write it votes no.
fn prepare(
    script: Script<'_>,
    participant: usize,
    progress: &Progress,
    logs: &mut Logs,
    session: &mut Session<'_>,
) -> Result<Vote, Cut>
    requires { StandsBy script session.old (at_step progress.now (ForcePrepare participant)) logs.old }
    ensures given { session.new.given ≡ session.old.given }
    ensures notes { logs.new.notes ≡ logs.old.notes }
    ensures led { LeadsTo result script.entry session.new progress.now logs.new (λ vote. at_step progress.now (SendVote participant vote)) }
{
    if !ask(session, Point::ForcePrepare as u32)? {
        return Ok(Vote::No);
    }
    logs.write(progress.prepare_write(script.variant, participant))?;
    Ok(Vote::Yes)
}

/// The vote of a participant that was asked to prepare.
fn choose(
    script: Script<'_>,
    participant: usize,
    progress: &Progress,
    logs: &mut Logs,
    session: &mut Session<'_>,
) -> Result<Vote, Cut>
    requires { StandsBy script session.old
        (at_step progress.now (vote_step (wish script.workload.now (number progress.now) participant) participant)) logs.old }
    ensures given { session.new.given ≡ session.old.given }
    ensures notes { logs.new.notes ≡ logs.old.notes }
    ensures led { LeadsTo result script.entry session.new progress.now logs.new (λ vote. at_step progress.now (SendVote participant vote)) }
{
    match script.workload.wish(progress.number(), participant) {
        Vote::Yes => prepare(script, participant, progress, logs, session),
        Vote::No => Ok(Vote::No),
    }
}

/// Asks a participant to prepare, and takes its vote if that arrives.
fn vote(
    script: Script<'_>,
    participant: usize,
    progress: &mut Progress,
    logs: &mut Logs,
    session: &mut Session<'_>,
) -> Result<(), Cut>
    requires { StandsBy script session.old (at_step progress.old (SendPrepare participant)) logs.old }
    ensures given { session.new.given ≡ session.old.given }
    ensures notes { logs.new.notes ≡ logs.old.notes }
    ensures begun { progress.new.begun ≡ progress.old.begun }
    ensures led { LeadsTo result script.entry session.new progress.new logs.new (λ _. after_vote script.entry.workload.now progress.new participant) }
{
    if !ask(session, Point::SendPrepare as u32)? {
        return Ok(());
    }
    let vote = choose(script, participant, progress, logs, session)?;
    if !ask(session, Point::SendVote as u32)? {
        return Ok(());
    }
    progress.take_vote(participant, vote)?;
    Ok(())
}

/// How a participant adds its prepare record.
fn manner_of(variant: Variant) -> Manner
    ensures { prepares variant ≡ λ t i. write_of result (Participant i) (entry t Prepare) }
{
    match variant {
        Variant::LazyPrepare => Manner::Append,
        Variant::Sound | Variant::EarlyEnd | Variant::TwoTries | Variant::EndFirst => Manner::Force,
    }
}

/// Writes the prepare records of `count` participants in a row, from one on.
fn prepare_each(
    variant: Variant,
    first: usize,
    count: usize,
    progress: &Progress,
    logs: &mut Logs,
) -> Result<(), AllocError>
    requires { first + count ≤ usize.MAX }
    ensures notes { logs.new.notes ≡ logs.old.notes }
    ensures adds { OnOk result (AddsAll logs.old logs.new (λ i. prepare_write variant progress.now i) first count) }
{
    let entry = progress.entry(Kind::Prepare);
    logs.add_each(first, count, entry, manner_of(variant))
}

/// Takes the votes of participants in a row, from this one on, that wish yes, as long as nothing comes between. Returns how many these are.
fn pass_votes(
    script: Script<'_>,
    participant: usize,
    progress: &mut Progress,
    logs: &mut Logs,
    session: &mut Session<'_>,
) -> Result<usize, Cut>
    requires within { participant < script.workload.now.participants }
    requires fits { script.workload.now.participants ≤ usize.MAX }
    requires stands { StandsBy script session.old (at_step progress.old (SendPrepare participant)) logs.old }
    ensures given { session.new.given ≡ session.old.given }
    ensures notes { logs.new.notes ≡ logs.old.notes }
    ensures begun { progress.new.begun ≡ progress.old.begun }
    ensures led { LeadsOn result script.entry session.new progress.new logs.new
        (λ n. let workload = script.entry.workload.now in (participant + n ≤ workload.participants)
        × StandsBy script.entry session.new (prepare_to workload progress.new (one_of (participant + n) workload.participants)) logs.new) }
{
    let willing = script.workload.willing(progress.number(), participant);
    let passed = session.pass_rounds(&ROUND, willing)?;
    prepare_each(script.variant, participant, passed, progress, logs)?;
    progress.take_yes(participant, passed)?;
    Ok(passed)
}

/// Takes the votes of participants from this one on and at least this one. Returns the next participant.
fn some_votes(
    script: Script<'_>,
    participant: usize,
    progress: &mut Progress,
    logs: &mut Logs,
    session: &mut Session<'_>,
) -> Result<usize, Cut>
    requires within { participant < script.workload.now.participants }
    requires fits { script.workload.now.participants ≤ usize.MAX }
    requires stands { StandsBy script session.old (at_step progress.old (SendPrepare participant)) logs.old }
    ensures given { session.new.given ≡ session.old.given }
    ensures notes { logs.new.notes ≡ logs.old.notes }
    ensures begun { progress.new.begun ≡ progress.old.begun }
    ensures led { LeadsOn result script.entry session.new progress.new logs.new
        (λ next. let workload = script.entry.workload.now in (participant < next) × (next ≤ workload.participants)
        × StandsBy script.entry session.new (prepare_to workload progress.new (one_of next workload.participants)) logs.new) }
{
    let passed = pass_votes(script, participant, progress, logs, session)?;
    if passed > 0 {
        return Ok(participant + passed);
    }
    vote(script, participant, progress, logs, session)?;
    Ok(participant + 1)
}

/// Asks all participants.
pub fn votes(
    script: Script<'_>,
    progress: &mut Progress,
    logs: &mut Logs,
    session: &mut Session<'_>,
) -> Result<(), Cut>
    requires { StandsBy script session.old (at_step progress.old (SendPrepare 0)) logs.old }
    ensures given { session.new.given ≡ session.old.given }
    ensures notes { logs.new.notes ≡ logs.old.notes }
    ensures begun { progress.new.begun ≡ progress.old.begun }
    ensures led { LeadsTo result script.entry session.new progress.new logs.new (λ _. decided script.entry.workload.now progress.new) }
{
    let all = script.workload.participants();
    let mut participant = 0;
    while participant < all {
        participant = some_votes(script, participant, progress, logs, session)?;
    }
    Ok(())
}
