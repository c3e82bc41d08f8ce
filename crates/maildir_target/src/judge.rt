//! The judgement: what the names under `new/` hold after a power cut.
ghost use Rattle.std.specs.Prelude.{◌≡◌, ◌≤◌, [], ◌∷◌, ℕ, List, length, not, is_none, IfOk};
ghost use Rattle.sim_device.specs.FileEffects.{Effect, PowerCut};
ghost use Rattle.sim_device.specs.Disk.{StandsFor, AddsEffect, Tells};
ghost use Rattle.scenario_values.specs.chunked.Chunks.{joined};
ghost use Rattle.maildir_target.specs.Judgement.{Standing, held_in, differs, is_torn, has_torn, is_delivered, has_lost, judged_now, judged, standing};

use crate::disk::Device;
use crate::name::{Attempt, new_name};
use scenario_values::Chunks;
use sim_device::{CrashDevice, FileDevice};
use std::alloc::AllocError;
use target_trait::Judgement;

/// The code of a name under `new/` that holds anything but its whole message.
pub const TORN: u32 = 0;
/// The code of an acknowledged message without a name under `new/`.
pub const LOST: u32 = 1;

/// Whether a name is there and holds anything but these chunks.
fn differs<D: Device>(device: &D, name: u32, chunks: &Chunks) -> bool
    ensures { (s : Standing) → D.shows device.now s → result ≡ differs (joined chunks.now) (held_in s name) }
{
    match device.read(name) {
        Some(bytes) => !chunks.is_whole(bytes),
        None => false,
    }
}

/// Whether a name of this message under `new/` holds anything but the whole of it.
fn is_torn<D: Device>(device: &D, message: u16, chunks: &Chunks) -> bool
    ensures { (s : Standing) → D.shows device.now s → result ≡ is_torn s message (joined chunks.now) }
{
    differs(device, new_name(message, Attempt::First), chunks)
        || differs(device, new_name(message, Attempt::Second), chunks)
}

/// Whether one of these messages has such a name.
fn has_torn<D: Device>(device: &D, messages: &[Chunks]) -> bool
    requires { length messages.now ≤ 1000 }
    ensures { (s : Standing) → D.shows device.now s → result ≡ has_torn s 1 messages.now }
{
    let mut number = 1;
    for message in messages {
        if is_torn(device, number, message) {
            return true;
        }
        number += 1;
    }
    false
}

/// Whether a name is there.
fn is_there<D: Device>(device: &D, name: u32) -> bool
    ensures { (s : Standing) → D.shows device.now s → result ≡ not (is_none (s.leads name)) }
{
    device.read(name).is_some()
}

/// Whether a message has a name under `new/`.
fn is_delivered<D: Device>(device: &D, message: u16) -> bool
    ensures { (s : Standing) → D.shows device.now s → result ≡ is_delivered s message }
{
    is_there(device, new_name(message, Attempt::First))
        || is_there(device, new_name(message, Attempt::Second))
}

/// Whether one of these messages, by their numbers, has no name under `new/`.
fn has_lost<D: Device>(device: &D, messages: &[u16]) -> bool
    ensures { (s : Standing) → D.shows device.now s → result ≡ has_lost s messages.now }
{
    for message in messages {
        if !is_delivered(device, *message) {
            return true;
        }
    }
    false
}

/// Judges what stands on a device: these are the messages, and the numbers of those that were acknowledged.
fn judgement<D: Device>(device: &D, messages: &[Chunks], acknowledged: &[u16]) -> Judgement
    requires { length messages.now ≤ 1000 }
    ensures { (s : Standing) → D.shows device.now s → result ≡ judged_now messages.now acknowledged.now s }
{
    if has_torn(device, messages) {
        Judgement::Broken(TORN)
    } else if has_lost(device, acknowledged) {
        Judgement::Broken(LOST)
    } else {
        Judgement::Kept
    }
}

/// Cuts the power, and judges what the device then holds: these are the messages, and the numbers of those that were acknowledged.
pub fn judge(device: &mut FileDevice, messages: &[Chunks], acknowledged: &[u16]) -> Judgement
    requires { length messages.now ≤ 1000 }
    ensures judged { (es : List Effect) → StandsFor device.old es → result ≡ judged messages.now acknowledged.now es }
    ensures cut { AddsEffect device.old device.new (PowerCut []) }
{
    device.power_cut();
    judgement(device, messages, acknowledged)
}

/// Cuts the power, keeps the pending writes for which the answers say so, and judges what the device then holds. An error means that memory was
/// refused.
pub fn judge_keeping(
    device: &mut CrashDevice,
    messages: &[Chunks],
    acknowledged: &[u16],
    keep: &[bool],
) -> Result<Judgement, AllocError>
    requires { length messages.now ≤ 1000 }
    ensures { IfOk result (λ judgement. (es : List Effect) → Tells device.old es
        → judgement ≡ judged_now messages.now acknowledged.now (standing (PowerCut keep.now ∷ es))) }
{
    device.cut_keeping(keep)?;
    Ok(judgement(device, messages, acknowledged))
}
