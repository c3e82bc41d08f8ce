//! The judgement: what `target` holds after a power cut.
ghost use Rattle.std.specs.Prelude.{◌≡◌, [], ◌∷◌, ℕ, List, Some, IfOk};
ghost use Rattle.file_replace.specs.Words.{target};
ghost use Rattle.sim_device.specs.FileEffects.{Effect, PowerCut, Live, held};
ghost use Rattle.sim_device.specs.Disk.{StandsFor, AddsEffect, Tells};
ghost use Rattle.file_replace.specs.Judgement.{judged_by, judged};

use crate::disk::{target_contents, target_kept};
use crate::progress::Progress;
use sim_device::{CrashDevice, FileDevice};
use std::alloc::AllocError;
use target_trait::Judgement;

/// The code of contents that were never written whole, or of no file at all.
pub const TORN: u32 = 0;
/// The code of contents that are no longer allowed.
pub const STALE: u32 = 1;

/// The judgement of what `target` holds.
#[inline(always)]
fn judgement(progress: &Progress<'_>, bytes: &[u8]) -> Judgement
    ensures { result ≡ judged_by progress.now.past (Some bytes.now) }
{
    if progress.allows(bytes) {
        Judgement::Kept
    } else if progress.knows(bytes) {
        Judgement::Broken(STALE)
    } else {
        Judgement::Broken(TORN)
    }
}

/// Cuts the power, and judges what `target` then holds.
pub fn judge(device: &mut FileDevice, progress: &Progress<'_>) -> Judgement
    ensures judged { (es : List Effect) → StandsFor device.old es → result ≡ judged progress.now.past es }
    ensures cut { AddsEffect device.old device.new (PowerCut []) }
{
    device.power_cut();
    match target_contents(device) {
        Some(bytes) => judgement(progress, bytes),
        None => Judgement::Broken(TORN),
    }
}

/// Cuts the power, keeps the pending writes for which the answers say so, and judges what `target` then holds. An error means that memory was
/// refused.
pub fn judge_keeping(
    device: &mut CrashDevice,
    progress: &Progress<'_>,
    keep: &[bool],
) -> Result<Judgement, AllocError>
    ensures { IfOk result (λ judgement. (es : List Effect) → Tells device.old es
        → judgement ≡ judged_by progress.now.past (held (PowerCut keep.now ∷ es) Live target)) }
{
    device.cut_keeping(keep)?;
    match target_kept(device) {
        Some(bytes) => Ok(judgement(progress, bytes)),
        None => Ok(Judgement::Broken(TORN)),
    }
}
