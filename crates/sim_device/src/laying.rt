//! What is left by a power cut that keeps some of the pending writes.
ghost use Rattle.std.specs.Prelude.{◌≡◌, ◌↔◌, IsTrue, ◌∷◌, ◌<◌, [], true, false, Some, length, slice_index_or, if◌then◌else◌, IfSome, OnOk};
ghost use Rattle.sim_device.specs.Pending.{is_of_contents, kept};
ghost use Rattle.sim_device.specs.inside.Laid.{AreOfFiles, Lays, SettlesTo};

use crate::device::FileDevice;
use crate::pending::{Call, PendingWrite};
use std::alloc::AllocError;

/// Makes a change of a file's contents again, at its place.
fn lay_contents(
    device: &mut FileDevice,
    write: &PendingWrite,
    file: usize,
) -> Result<(), AllocError>
    requires file { write.now.file ≡ Some file }
    requires within { file < length device.old.files }
    requires contents { is_of_contents write.now.call ≡ true }
    ensures { OnOk result (Lays device.old device.new (write.now ∷ [])) }
{
    match write.call() {
        Call::Append(_, place) | Call::WriteAt(_, place) => {
            device.write_file(file, place, write.bytes())
        }
        Call::Truncate(_, count) => device.cut_file(file, count),
        Call::Create(_) | Call::Rename(..) | Call::Link(..) | Call::Unlink(_) => Ok(()),
    }
}

/// Makes a change of names again.
fn lay_names(device: &mut FileDevice, write: &PendingWrite) -> Result<(), AllocError>
    requires within { IfSome write.now.file (λ f. f < length device.old.files) }
    requires names { is_of_contents write.now.call ≡ false }
    ensures { OnOk result (Lays device.old device.new (write.now ∷ [])) }
{
    match write.call() {
        Call::Create(name) | Call::Link(_, name) => device.lead(name, write.file()),
        Call::Rename(from, to) => {
            device.lead(from, None)?;
            device.lead(to, write.file())
        }
        Call::Unlink(name) => device.lead(name, None),
        Call::Append(..) | Call::WriteAt(..) | Call::Truncate(..) => Ok(()),
    }
}

/// Whether a write concerns no file, or one of the first `files` files. Every pending write does, but from the effects alone that isn't known.
fn is_of_files(write: &PendingWrite, files: usize) -> bool
    ensures { IsTrue result ↔ IfSome write.now.file (λ file. file < files) }
{
    match write.file() {
        Some(file) => file < files,
        None => true,
    }
}

/// Makes a write again, over what is there.
fn lay(device: &mut FileDevice, write: &PendingWrite) -> Result<(), AllocError>
    requires { IfSome write.now.file (λ f. f < length device.old.files) }
    ensures { OnOk result (Lays device.old device.new (write.now ∷ [])) }
{
    if !write.is_of_contents() {
        return lay_names(device, write);
    }
    match write.file() {
        Some(file) => lay_contents(device, write, file),
        None => Ok(()),
    }
}

/// Whether the answers keep the write at this place.
fn keeps(keep: &[bool], place: usize) -> bool
    ensures { result ≡ slice_index_or keep.now place false }
{
    keep.get(place).copied().unwrap_or(false)
}

/// Makes a write again if it is kept.
fn lay_if(device: &mut FileDevice, write: &PendingWrite, is_kept: bool) -> Result<(), AllocError>
    ensures { IfSome write.now.file (λ f. f < length device.old.files)
        → OnOk result (Lays device.old device.new (if is_kept then write.now ∷ [] else [])) }
{
    if is_kept && is_of_files(write, device.files()) {
        return lay(device, write);
    }
    Ok(())
}

/// Makes the kept writes again, in the order in which they were made. Writes past the answers are lost.
fn lay_kept(
    device: &mut FileDevice,
    writes: &[PendingWrite],
    keep: &[bool],
) -> Result<(), AllocError>
    ensures { AreOfFiles writes.now (length device.old.files) → OnOk result (Lays device.old device.new (kept keep.now writes.now)) }
{
    for place in 0..writes.len() {
        lay_if(device, &writes[place], keeps(keep, place))?;
    }
    Ok(())
}

/// Cuts the power, and keeps some writes. After an error the device may hold anything.
pub fn cut_and_lay(
    device: &mut FileDevice,
    writes: &[PendingWrite],
    keep: &[bool],
) -> Result<(), AllocError>
    ensures { AreOfFiles writes.now (length device.old.files) → OnOk result (SettlesTo device.old device.new (kept keep.now writes.now)) }
{
    device.leave_lasting();
    lay_kept(device, writes, keep)?;
    device.settle();
    Ok(())
}
