//! The devices of a run, and its calls on them. A call can only be refused memory.
ghost use Rattle.std.specs.Prelude.{◌≡◌, ◌≤◌, ℕ, List, [], length, take, OnOk, IsOk, MatchOption, None, Some, is_some, is_none, false};
ghost use Rattle.sim_device.specs.FileEffects.{Effect, Append, Create, Sync, SyncDir, Rename, Unlink, Live, held, leads};
ghost use Rattle.sim_device.specs.Disk.{StandsFor, Tells, entry_at, reads};
ghost use Rattle.sim_device.specs.declared.names.Entry.{Entry};
ghost use Rattle.file_replace.specs.Words.{number_of, target, tmp};
ghost use Rattle.file_replace.specs.inside.Left.{left};
ghost use Rattle.file_replace.specs.inside.Devices.{Adds, with_chunks};

use crate::rest::Rest;
use sim_device::{CrashDevice, DeviceFault, FileDevice};
use std::alloc::AllocError;

/// A name on the device.
#[derive(Clone, Copy)]
pub enum Name {
    /// The name whose contents are replaced.
    Target,
    /// The name under which new contents are written before they take the place of the old ones.
    Tmp,
}

impl Name {
    /// The number that stands for the name on the device.
    pub fn number(self) -> u32
        ensures { result ≡ number_of self }
    {
        match self {
            Name::Target => 0,
            Name::Tmp => 1,
        }
    }
}

/// A device of files under names. An error means that memory was refused.
pub trait Device: Sized {
    // It stands for this list of effects, the newest first.
    ghost stands: { Self → List Effect → Type 0 };

    // What its names lead to.
    ghost names: { Self → List Entry };

    // How many of the next `chunks` chunks one call writes.
    ghost most: { ℕ → ℕ };

    /// A new device, with no names.
    fn clear(&mut self)
        ensures { stands self.new [] };

    /// A new file.
    fn create(&mut self, name: Name) -> Result<(), AllocError>
        requires { is_some (entry_at (names self.old) (number_of name)).live ≡ false }
        ensures { OnOk result (Adds stands self.old self.new (Create (number_of name))) };

    /// More bytes at the end of a file.
    fn append(&mut self, name: Name, bytes: &[u8]) -> Result<(), AllocError>
        requires { is_none (entry_at (names self.old) (number_of name)).live ≡ false }
        ensures { OnOk result (Adds stands self.old self.new (Append (number_of name) bytes.now)) };

    /// How many of the next `chunks` chunks one call writes.
    fn at_once(chunks: usize) -> usize
        ensures most { result ≡ most chunks }
        ensures few { result ≤ chunks };

    /// Appends the next `count` chunks to a file, one after another.
    fn append_chunks(
        &mut self,
        name: Name,
        chunks: Rest<'_>,
        count: usize,
    ) -> Result<(), AllocError>
        requires there { is_none (entry_at (names self.old) (number_of name)).live ≡ false }
        requires few { count ≤ most (length (left chunks)) }
        ensures { OnOk result ((es : List Effect) → stands self.old es → stands self.new (with_chunks (number_of name) (take count (left chunks.entry)) es)) };

    /// Makes the contents of a file last.
    fn sync(&mut self, name: Name)
        requires { is_none (entry_at (names self.old) (number_of name)).live ≡ false }
        ensures { Adds stands self.old self.new (Sync (number_of name)) };

    /// Removes a name.
    fn unlink(&mut self, name: Name) -> Result<(), AllocError>
        requires { is_none (entry_at (names self.old) (number_of name)).live ≡ false }
        ensures { OnOk result (Adds stands self.old self.new (Unlink (number_of name))) };

    /// Renames `tmp` to `target`.
    fn rename(&mut self) -> Result<(), AllocError>
        requires { is_none (entry_at (names self.old) tmp).live ≡ false }
        ensures { OnOk result (Adds stands self.old self.new (Rename tmp target)) };

    /// Makes the names last.
    fn sync_dir(&mut self)
        ensures { Adds stands self.old self.new SyncDir };

    /// Whether a name is there.
    fn exists(&self, name: Name) -> bool
        ensures { result ≡ is_some (entry_at (names self.now) (number_of name)).live };

    // Its names lead where the effects have led them.
    ghost led: { (device : Self) (effects : List Effect) (name : ℕ) → stands device effects
        → (entry_at (names device) name).live ≡ leads effects Live name };
}

impl Device for FileDevice {
    ghost stands = { StandsFor };

    ghost names = { λ device. device.names };

    ghost most = { λ chunks. chunks };

    fn clear(&mut self) {
        FileDevice::clear(self);
    }

    fn create(&mut self, name: Name) -> Result<(), AllocError> {
        self.must_create(name.number())
    }

    fn append(&mut self, name: Name, bytes: &[u8]) -> Result<(), AllocError> {
        self.must_append(name.number(), bytes)
    }

    fn at_once(chunks: usize) -> usize {
        chunks
    }

    fn append_chunks(
        &mut self,
        name: Name,
        chunks: Rest<'_>,
        count: usize,
    ) -> Result<(), AllocError> {
        let (bytes, _) = chunks.split_at(count);
        self.must_append(name.number(), bytes)
    }

    fn sync(&mut self, name: Name) {
        self.must_sync(name.number());
    }

    fn unlink(&mut self, name: Name) -> Result<(), AllocError> {
        self.must_unlink(name.number());
        Ok(())
    }

    fn rename(&mut self) -> Result<(), AllocError> {
        self.must_rename(Name::Tmp.number(), Name::Target.number())
    }

    fn sync_dir(&mut self) {
        FileDevice::sync_dir(self);
    }

    fn exists(&self, name: Name) -> bool {
        FileDevice::exists(self, name.number())
    }

    ghost led = { λ device effects name stands. stands.live name };
}

/// What `target` holds, if it is there.
pub fn target_contents(device: &FileDevice) -> Option<&[u8]>
    ensures { (es : List Effect) → StandsFor device.now es → MatchOption result (held es Live target ≡ None) (λ bytes. held es Live target ≡ Some bytes.now) }
{
    device.read(Name::Target.number()).ok()
}

/// The result of a call whose other faults are ruled out.
fn for_memory(answer: Result<(), DeviceFault>) -> Result<(), AllocError>
    ensures { OnOk result (IsOk answer) }
{
    match answer {
        Ok(()) => Ok(()),
        Err(_) => Err(AllocError),
    }
}

impl Device for CrashDevice {
    ghost stands = { Tells };

    ghost names = { λ device. device.disk.names };

    // each chunk is a pending write
    ghost most = { λ chunks. 0 };

    fn clear(&mut self) {
        CrashDevice::clear(self);
    }

    fn create(&mut self, name: Name) -> Result<(), AllocError> {
        for_memory(CrashDevice::create(self, name.number()))
    }

    fn append(&mut self, name: Name, bytes: &[u8]) -> Result<(), AllocError> {
        for_memory(CrashDevice::append(self, name.number(), bytes))
    }

    fn at_once(_chunks: usize) -> usize {
        0
    }

    fn append_chunks(
        &mut self,
        _name: Name,
        _chunks: Rest<'_>,
        _count: usize,
    ) -> Result<(), AllocError> {
        Ok(())
    }

    fn sync(&mut self, name: Name) {
        if CrashDevice::sync(self, name.number()).is_err() {
            unreachable!()
        }
    }

    fn unlink(&mut self, name: Name) -> Result<(), AllocError> {
        for_memory(CrashDevice::unlink(self, name.number()))
    }

    fn rename(&mut self) -> Result<(), AllocError> {
        for_memory(CrashDevice::rename(self, Name::Tmp.number(), Name::Target.number()))
    }

    fn sync_dir(&mut self) {
        CrashDevice::sync_dir(self);
    }

    fn exists(&self, name: Name) -> bool {
        self.disk().exists(name.number())
    }

    ghost led = { λ device effects name tells. tells.disk.live name };
}

/// What `target` holds on a device that says what is pending.
pub fn target_kept(device: &CrashDevice) -> Option<&[u8]>
    ensures { MatchOption result (reads device.now.disk target ≡ None) (λ bytes. reads device.now.disk target ≡ Some bytes.now) }
{
    device.read(Name::Target.number()).ok()
}
