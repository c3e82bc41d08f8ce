//! What a replacement does at each stage, if its step succeeds and if it fails.
ghost use Rattle.std.specs.Prelude.{◌≡◌, ◌∷◌, ℕ, List, OnOk, is_none, false};
ghost use Rattle.sim_device.specs.FileEffects.{Effect, Append, Sync, SyncDir, Unlink};
ghost use Rattle.sim_device.specs.Disk.{entry_at};
ghost use Rattle.scenario_values.specs.chunked.Chunks.{half};
ghost use Rattle.file_replace.specs.inside.Left.{left};
ghost use Rattle.file_replace.specs.Words.{target, tmp, number_of, written_name};
ghost use Rattle.file_replace.specs.Steps.{on_go, on_return, prepared, failed, done, after_sync_dir, write_step, given_up, after_half, after_no_sync, after_sync, after_rename};
ghost use Rattle.file_replace.specs.inside.Ready.{IsReadyOn};
ghost use Rattle.file_replace.specs.inside.Seen.{step_of, Shows};
ghost use Rattle.file_replace.specs.inside.Devices.{Adds};

use crate::disk::{Device, Name};
use crate::progress::Progress;
use crate::rest::Rest;
use crate::stage::Stage;
use crate::variant::Variant;
use scenario_values::Text;
use std::alloc::AllocError;

/// The name under which the new contents are written.
pub fn written(variant: Variant) -> Name
    ensures { number_of result ≡ written_name variant }
{
    match variant {
        Variant::InPlace => Name::Target,
        Variant::Sound
        | Variant::LateSync
        | Variant::IgnoreSync
        | Variant::RetryWrite
        | Variant::RenameFirst => Name::Tmp,
    }
}

/// The stage after a write.
pub fn write_stage<'w>(variant: Variant, rest: Rest<'w>) -> Stage<'w>
    ensures { step_of result ≡ write_step variant (left rest.entry) }
{
    match rest.split_first() {
        Some((chunk, rest)) => Stage::Writing(chunk, rest),
        None => match variant {
            Variant::LateSync | Variant::RenameFirst => Stage::Renaming,
            Variant::Sound | Variant::IgnoreSync | Variant::RetryWrite | Variant::InPlace => {
                Stage::Syncing
            }
        },
    }
}

/// The stage after a sync.
fn synced_stage(variant: Variant) -> Stage<'static>
    ensures { step_of result ≡ after_sync variant }
{
    match variant {
        Variant::InPlace => Stage::SyncingDir,
        Variant::Sound
        | Variant::LateSync
        | Variant::IgnoreSync
        | Variant::RetryWrite
        | Variant::RenameFirst => Stage::Renaming,
    }
}

/// The stage after the rename.
fn renamed_stage(variant: Variant) -> Stage<'static>
    ensures { step_of result ≡ after_rename variant }
{
    match variant {
        Variant::RenameFirst => Stage::SyncingRenamed,
        Variant::Sound
        | Variant::LateSync
        | Variant::IgnoreSync
        | Variant::RetryWrite
        | Variant::InPlace => Stage::SyncingDir,
    }
}

/// Begins the next replacement.
fn next<D: Device>(variant: Variant, progress: &mut Progress<'_>, device: &D)
    ensures { (es : List Effect) → D.stands device.now es → Shows D.stands (failed variant progress.old es) progress.new device.now }
{
    progress.begin(device.exists(written(variant)));
}

/// Acknowledges the replacement under way, and begins the next.
fn finish<D: Device>(variant: Variant, progress: &mut Progress<'_>, device: &D)
    ensures { (es : List Effect) → D.stands device.now es → Shows D.stands (done variant progress.old es) progress.new device.now }
{
    progress.acknowledge();
    progress.begin(device.exists(written(variant)));
}

/// Removes `tmp`, and begins the next replacement.
fn clean<D: Device>(
    variant: Variant,
    progress: &mut Progress<'_>,
    device: &mut D,
) -> Result<(), AllocError>
    requires { is_none (entry_at (D.names device.old) tmp).live ≡ false }
    ensures { OnOk result ((es : List Effect) → D.stands device.old es
        → Shows D.stands (failed variant progress.old (Unlink tmp ∷ es)) progress.new device.new) }
{
    device.unlink(Name::Tmp)?;
    next(variant, progress, device);
    Ok(())
}

/// Makes the contents of `target` last, and acknowledges the replacement.
fn finish_late<D: Device>(variant: Variant, progress: &mut Progress<'_>, device: &mut D)
    requires { is_none (entry_at (D.names device.old) target).live ≡ false }
    ensures { (es : List Effect) → D.stands device.old es → Shows D.stands (done variant progress.old (Sync target ∷ es)) progress.new device.new }
{
    device.sync(Name::Target);
    finish(variant, progress, device);
}

/// Makes the names last, and goes on.
fn sync_dir<D: Device>(variant: Variant, progress: &mut Progress<'_>, device: &mut D)
    ensures { (es : List Effect) → D.stands device.old es → Shows D.stands (after_sync_dir variant progress.old (SyncDir ∷ es)) progress.new device.new }
{
    device.sync_dir();
    match variant {
        Variant::LateSync => progress.go_to(Stage::SyncingLate),
        Variant::Sound => finish(variant, progress, device),
        Variant::IgnoreSync => finish(variant, progress, device),
        Variant::RetryWrite => finish(variant, progress, device),
        Variant::RenameFirst => finish(variant, progress, device),
        Variant::InPlace => finish(variant, progress, device),
    }
}

/// Gives up what is written: `tmp` is removed next; if there is none, the next replacement begins.
fn give_up<D: Device>(variant: Variant, progress: &mut Progress<'_>, device: &D)
    ensures { (es : List Effect) → D.stands device.now es → Shows D.stands (given_up variant progress.old es) progress.new device.now }
{
    match variant {
        Variant::InPlace => next(variant, progress, device),
        Variant::Sound
        | Variant::LateSync
        | Variant::IgnoreSync
        | Variant::RetryWrite
        | Variant::RenameFirst => progress.go_to(Stage::Cleaning),
    }
}

/// Appends the first half of a chunk, and does what follows if no more of it can be written.
fn write_half<'w, D: Device>(
    variant: Variant,
    progress: &mut Progress<'w>,
    device: &mut D,
    chunk: &'w [u8],
    rest: Rest<'w>,
) -> Result<(), AllocError>
    requires { is_none (entry_at (D.names device.old) (written_name variant)).live ≡ false }
    ensures { OnOk result ((es : List Effect) → D.stands device.old es
        → Shows D.stands (after_half variant progress.old (Append (written_name variant) (half chunk.now) ∷ es) chunk.now (left rest.entry))
        progress.new device.new) }
{
    device.append(written(variant), &chunk[..chunk.len() / 2])?;
    match variant {
        Variant::RetryWrite => progress.go_to(Stage::WritingAgain(chunk, rest)),
        Variant::Sound
        | Variant::LateSync
        | Variant::IgnoreSync
        | Variant::RenameFirst
        | Variant::InPlace => give_up(variant, progress, device),
    }
    Ok(())
}

/// Does what follows if a sync fails.
fn not_synced<D: Device>(variant: Variant, progress: &mut Progress<'_>, device: &D)
    ensures { (es : List Effect) → D.stands device.now es → Shows D.stands (after_no_sync variant progress.old es) progress.new device.now }
{
    match variant {
        Variant::IgnoreSync => progress.go_to(Stage::Renaming),
        Variant::Sound
        | Variant::LateSync
        | Variant::RetryWrite
        | Variant::RenameFirst
        | Variant::InPlace => give_up(variant, progress, device),
    }
}

/// Does the step that was asked for.
pub fn go<D: Device>(
    variant: Variant,
    progress: &mut Progress<'_>,
    device: &mut D,
) -> Result<(), AllocError>
    requires { IsReadyOn variant progress.old.step (D.names device.old) }
    ensures { OnOk result ((es : List Effect) → D.stands device.old es
        → Shows D.stands (on_go variant progress.old es progress.old.step) progress.new device.new) }
{
    match progress.stage() {
        Stage::Clearing(rest) => {
            device.unlink(written(variant))?;
            progress.go_to(Stage::Creating(rest));
        }
        Stage::Creating(rest) => {
            device.create(written(variant))?;
            progress.go_to(write_stage(variant, rest));
        }
        Stage::Writing(chunk, rest) | Stage::WritingAgain(chunk, rest) => {
            device.append(written(variant), chunk)?;
            progress.go_to(write_stage(variant, rest));
        }
        Stage::Syncing => {
            device.sync(written(variant));
            progress.go_to(synced_stage(variant));
        }
        Stage::Renaming => {
            device.rename()?;
            progress.go_to(renamed_stage(variant));
        }
        Stage::SyncingRenamed => {
            device.sync(Name::Target);
            progress.go_to(Stage::SyncingDir);
        }
        Stage::SyncingDir => sync_dir(variant, progress, device),
        Stage::SyncingLate => finish_late(variant, progress, device),
        Stage::Cleaning => clean(variant, progress, device)?,
        Stage::Over => progress.go_to(Stage::Over),
    }
    Ok(())
}

/// Does what follows if the step that was asked for fails.
#[inline(always)]
pub fn fail<D: Device>(
    variant: Variant,
    progress: &mut Progress<'_>,
    device: &mut D,
) -> Result<(), AllocError>
    requires { IsReadyOn variant progress.old.step (D.names device.old) }
    ensures { OnOk result ((es : List Effect) → D.stands device.old es
        → Shows D.stands (on_return variant progress.old es progress.old.step) progress.new device.new) }
{
    match progress.stage() {
        Stage::Writing(chunk, rest) => write_half(variant, progress, device, chunk, rest)?,
        Stage::WritingAgain(chunk, _) => {
            device.append(written(variant), &chunk[..chunk.len() / 2])?;
            give_up(variant, progress, device);
        }
        Stage::Syncing => not_synced(variant, progress, device),
        Stage::Renaming => progress.go_to(Stage::Cleaning),
        Stage::Clearing(_)
        | Stage::Creating(_)
        | Stage::SyncingRenamed
        | Stage::SyncingDir
        | Stage::SyncingLate
        | Stage::Cleaning => next(variant, progress, device),
        Stage::Over => progress.go_to(Stage::Over),
    }
    Ok(())
}

/// Makes `target` hold the old contents; the name and the contents last.
pub fn prepare<D: Device>(device: &mut D, old: &Text) -> Result<(), AllocError>
    ensures { OnOk result (D.stands device.new (prepared old.now)) }
{
    device.clear();
    device.create(Name::Target)?;
    device.append(Name::Target, old.as_str().as_bytes())?;
    device.sync(Name::Target);
    device.sync_dir();
    Ok(())
}
