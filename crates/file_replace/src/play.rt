//! A run: question after question, up to the judgement.
ghost use Rattle.std.specs.Prelude.{◌≡◌, ◌+◌, ◌-◌, ◌<◌, ◌≤◌, [], length, IfOk, OnOk, OnErr, Some, None};
ghost use Rattle.sim_device.specs.Disk.{StandsFor};
ghost use Rattle.action_eval.specs.Answers.{start, replies};
ghost use Rattle.target_trait.specs.Play.{IsPlay, IsCutPlay};
ghost use Rattle.target_trait.specs.Cuts.{asks_with, with_keep};
ghost use Rattle.file_replace.specs.Words.{point_names};
ghost use Rattle.file_replace.specs.Steps.{asks_of, effects_of, point_at};
ghost use Rattle.file_replace.specs.Crash.{cut_of};
ghost use Rattle.file_replace.specs.inside.Seen.{step_of, Played};

use crate::disk::Device;
use crate::judge::{judge, judge_keeping};
use crate::progress::Progress;
use crate::stage::Stage;
use crate::steps::{fail, go, prepare, write_stage, written};
use crate::variant::Variant;
use crate::work::Replacements;
use sim_device::{CrashDevice, FileDevice};
use std::alloc::{AllocError, Global};
use target_trait::{Answer, Judgement, Session, ask_cut};

/// A point. Its number in the catalogue is its place here.
#[derive(Clone, Copy)]
enum Point {
    Clear,
    Create,
    Write,
    Sync,
    Rename,
    SyncDir,
    Unlink,
}

/// The point that a stage asks for.
fn point_of(stage: Stage<'_>) -> Option<u32>
    ensures { result ≡ point_at (step_of stage.entry) }
{
    match stage {
        Stage::Clearing(_) => Some(Point::Clear as u32),
        Stage::Creating(_) => Some(Point::Create as u32),
        Stage::Writing(_, _) | Stage::WritingAgain(_, _) => Some(Point::Write as u32),
        Stage::Syncing | Stage::SyncingRenamed | Stage::SyncingLate => Some(Point::Sync as u32),
        Stage::Renaming => Some(Point::Rename as u32),
        Stage::SyncingDir => Some(Point::SyncDir as u32),
        Stage::Cleaning => Some(Point::Unlink as u32),
        Stage::Over => None,
    }
}

/// Asks one point, and acts on its answer.
fn ask<D: Device>(
    variant: Variant,
    workload: &Replacements,
    point: u32,
    progress: &mut Progress<'_>,
    device: &mut D,
    session: &mut Session<'_>,
) -> Result<(), AllocError>
    requires points { 7 ≤ length session.old.given.catalogue }
    requires next { point_at progress.old.step ≡ Some point }
    requires played { Played D.stands variant workload.now session.old progress.old device.old }
    ensures given { session.new.given ≡ session.old.given }
    ensures played { OnOk result (Played D.stands variant workload.now session.new progress.new device.new) }
    ensures nearer { OnOk result (session.new.given.limit + 1 - length session.new.hits < session.old.given.limit + 1 - length session.old.hits) }
{
    match session.hit(point)? {
        Answer::Go => go(variant, progress, device)?,
        Answer::Return(_) => fail(variant, progress, device)?,
        Answer::Halt => progress.go_to(Stage::Over),
    }
    Ok(())
}

/// Asks for and writes chunk after chunk, as long as chunks are left and the answers are to go on. Chunks whose writes surely succeed are written
/// together.
fn write_on<D: Device>(
    variant: Variant,
    workload: &Replacements,
    progress: &mut Progress<'_>,
    device: &mut D,
    session: &mut Session<'_>,
) -> Result<(), AllocError>
    requires points { 7 ≤ length session.old.given.catalogue }
    requires played { Played D.stands variant workload.now session.old progress.old device.old }
    ensures given { session.new.given ≡ session.old.given }
    ensures played { OnOk result (Played D.stands variant workload.now session.new progress.new device.new) }
    ensures more { OnOk result (length session.old.hits ≤ length session.new.hits) }
{
    let name = written(variant);
    let mut stage = progress.stage();
    while let Stage::Writing(chunk, rest) = stage {
        match session.hit(Point::Write as u32)? {
            Answer::Go => device.append(name, chunk)?,
            Answer::Return(_) => {
                progress.go_to(stage);
                return fail(variant, progress, device);
            }
            Answer::Halt => {
                progress.go_to(Stage::Over);
                return Ok(());
            }
        }
        let passed = session.pass(Point::Write as u32, D::at_once(rest.len()))?;
        device.append_chunks(name, rest, passed)?;
        let (_, left) = rest.split_at(passed);
        stage = write_stage(variant, left);
    }
    progress.go_to(stage);
    Ok(())
}

/// Plays a run on a device, which is cleared first, up to its judgement.
pub fn play_out<'w, D: Device>(
    variant: Variant,
    workload: &'w Replacements,
    device: &mut D,
    session: &mut Session<'_>,
) -> Result<Progress<'w>, AllocError>
    requires new { session.old ≡ start session.old.given }
    requires points { 7 ≤ length session.old.given.catalogue }
    ensures played { IfOk result (λ progress. Played D.stands variant workload.now session.new progress device.new) }
    ensures over { IfOk result (λ progress. point_at progress.step ≡ None) }
    ensures given { session.new.given ≡ session.old.given }
{
    prepare(device, workload.old())?;
    let mut progress = Progress::new(workload);
    progress.begin(device.exists(written(variant)));
    while let Some(point) = point_of(progress.stage()) {
        ask(variant, workload, point, &mut progress, device, session)?;
        write_on(variant, workload, &mut progress, device, session)?;
    }
    Ok(progress)
}

/// Plays a run on a device, cuts the power, and judges.
fn play_through(
    variant: Variant,
    workload: &Replacements,
    device: &mut FileDevice,
    session: &mut Session<'_>,
) -> Result<Judgement, AllocError>
    requires new { session.old ≡ start session.old.given }
    requires points { session.old.given.catalogue ≡ point_names }
    ensures play { IfOk result (IsPlay (asks_of variant workload.now) session.new) }
    ensures given { session.new.given ≡ session.old.given }
    ensures left { OnOk result (StandsFor device.new (effects_of variant workload.now (replies session.new))) }
{
    let progress = play_out(variant, workload, device, session)?;
    Ok(judge(device, &progress))
}

/// Plays a run on a device, whatever that held before. The run's end is a power cut: what the device holds after it is what was judged.
///
/// An error means that memory was refused. The device then holds nothing, and the session has the hits up to there.
pub fn play(
    variant: Variant,
    workload: &Replacements,
    device: &mut FileDevice,
    session: &mut Session<'_>,
) -> Result<Judgement, AllocError>
    requires new { session.old ≡ start session.old.given }
    requires points { session.old.given.catalogue ≡ point_names }
    ensures play { IfOk result (IsPlay (asks_of variant workload.now) session.new) }
    ensures given { session.new.given ≡ session.old.given }
    ensures left { OnOk result (StandsFor device.new (effects_of variant workload.now (replies session.new))) }
    ensures err { OnErr result (StandsFor device.new []) }
{
    let played = play_through(variant, workload, device, session);
    if played.is_err() {
        device.clear();
    }
    played
}

/// The number of the cut's point.
const KEEP: u32 = 7;

/// The names of the points, with that of the cut behind them.
pub const TO_CUT: &[&str] = &[
    "replace::clear",
    "replace::create",
    "replace::write",
    "replace::sync",
    "replace::rename",
    "replace::sync_dir",
    "replace::unlink",
    "power::keep",
];

/// Plays a run on a device, which is cleared first, and its power cut, which keeps the writes for which its point returns.
///
/// An error means that memory was refused. The session then has the hits up to there.
pub fn play_to_cut(
    alloc: Global,
    variant: Variant,
    workload: &Replacements,
    device: &mut CrashDevice,
    session: &mut Session<'_>,
) -> Result<Judgement, AllocError>
    requires new { session.old ≡ start session.old.given }
    requires points { session.old.given.catalogue ≡ with_keep point_names }
    ensures play { IfOk result (IsCutPlay (asks_with (asks_of variant workload.now) (cut_of variant workload.now) 7) session.new) }
    ensures given { session.new.given ≡ session.old.given }
{
    let progress = play_out(variant, workload, device, session)?;
    match ask_cut(alloc, session, KEEP, device.pending().len())? {
        Some(kept) => judge_keeping(device, &progress, &kept),
        None => Ok(Judgement::Kept),
    }
}
