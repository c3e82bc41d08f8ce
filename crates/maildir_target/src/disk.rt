//! The devices of a run. A call on them can only be refused memory.
ghost use Rattle.std.specs.Prelude.{◌≡◌, ◌≤◌, ◌-◌, ℕ, List, [], length, take, drop, OnOk, IsOk, MatchOption, None, Some, is_some, is_none, false};
ghost use Rattle.sim_device.specs.FileEffects.{Effect, Append, Create, Sync, SyncDir, Link, Unlink, Live, leads};
ghost use Rattle.sim_device.specs.Disk.{StandsFor, Tells, entry_at, reads};
ghost use Rattle.sim_device.specs.declared.names.Entry.{Entry};
ghost use Rattle.maildir_target.specs.Judgement.{Standing, standing, held_in};
ghost use Rattle.maildir_target.specs.inside.Devices.{Adds, with_chunks};

use scenario_values::Chunks;
use sim_device::{CrashDevice, DeviceFault, FileDevice};
use std::alloc::AllocError;

/// A device of files under names. An error means that memory was refused.
pub trait Device: Sized {
    // It stands for this list of effects, the newest first.
    ghost stands: { Self → List Effect → Type 0 };

    // What its names lead to.
    ghost names: { Self → List Entry };

    // How many of the next `chunks` chunks one call writes.
    ghost most: { ℕ → ℕ };

    // This stands on it.
    ghost shows: { Self → Standing → Type 0 };

    /// A new device, with no names.
    fn clear(&mut self)
        ensures { stands self.new [] };

    /// A new file.
    fn create(&mut self, name: u32) -> Result<(), AllocError>
        requires { is_some (entry_at (names self.old) name).live ≡ false }
        ensures { OnOk result (Adds stands self.old self.new (Create name)) };

    /// More bytes at the end of a file.
    fn append(&mut self, name: u32, bytes: &[u8]) -> Result<(), AllocError>
        requires { is_none (entry_at (names self.old) name).live ≡ false }
        ensures { OnOk result (Adds stands self.old self.new (Append name bytes.now)) };

    /// How many of the next `chunks` chunks one call writes.
    fn at_once(chunks: usize) -> usize
        ensures most { result ≡ most chunks }
        ensures few { result ≤ chunks };

    /// Appends the chunks from one place to before another to a file, one after another.
    fn append_chunks(
        &mut self,
        name: u32,
        chunks: &Chunks,
        from: usize,
        end: usize,
    ) -> Result<(), AllocError>
        requires there { is_none (entry_at (names self.old) name).live ≡ false }
        requires order { from ≤ end }
        requires within { end ≤ length chunks.now }
        requires few { end - from ≤ most (length chunks.now - from) }
        ensures { OnOk result ((es : List Effect) → stands self.old es → stands self.new (with_chunks name (take (end - from) (drop from chunks.now)) es)) };

    /// Makes the contents of a file last.
    fn sync(&mut self, name: u32)
        requires { is_none (entry_at (names self.old) name).live ≡ false }
        ensures { Adds stands self.old self.new (Sync name) };

    /// Links the file of one name under another name too.
    fn link(&mut self, from: u32, to: u32) -> Result<(), AllocError>
        requires from { is_none (entry_at (names self.old) from).live ≡ false }
        requires to { is_some (entry_at (names self.old) to).live ≡ false }
        ensures { OnOk result (Adds stands self.old self.new (Link from to)) };

    /// Removes a name.
    fn unlink(&mut self, name: u32) -> Result<(), AllocError>
        requires { is_none (entry_at (names self.old) name).live ≡ false }
        ensures { OnOk result (Adds stands self.old self.new (Unlink name)) };

    /// Makes the names last.
    fn sync_dir(&mut self)
        ensures { Adds stands self.old self.new SyncDir };

    /// Whether a name is there.
    fn exists(&self, name: u32) -> bool
        ensures { result ≡ is_some (entry_at (names self.now) name).live };

    /// What a name holds, if it is there.
    fn read(&self, name: u32) -> Option<&[u8]>
        ensures { (s : Standing) → shows self.now s → MatchOption result (held_in s name ≡ None) (λ bytes. held_in s name ≡ Some bytes.now) };

    // Its names lead where the effects have led them.
    ghost led: { (device : Self) (effects : List Effect) (name : ℕ) → stands device effects
        → (entry_at (names device) name).live ≡ leads effects Live name };
}

impl Device for FileDevice {
    ghost stands = { StandsFor };

    ghost names = { λ device. device.names };

    ghost most = { λ chunks. chunks };

    ghost shows = { λ device s. (es : List Effect) × (StandsFor device es × (s ≡ standing es)) };

    fn clear(&mut self) {
        FileDevice::clear(self);
    }

    fn create(&mut self, name: u32) -> Result<(), AllocError> {
        self.must_create(name)
    }

    fn append(&mut self, name: u32, bytes: &[u8]) -> Result<(), AllocError> {
        self.must_append(name, bytes)
    }

    fn at_once(chunks: usize) -> usize {
        chunks
    }

    fn append_chunks(
        &mut self,
        name: u32,
        chunks: &Chunks,
        from: usize,
        end: usize,
    ) -> Result<(), AllocError> {
        self.must_append(name, chunks.between(from, end))
    }

    fn sync(&mut self, name: u32) {
        self.must_sync(name);
    }

    fn link(&mut self, from: u32, to: u32) -> Result<(), AllocError> {
        self.must_link(from, to)
    }

    fn unlink(&mut self, name: u32) -> Result<(), AllocError> {
        self.must_unlink(name);
        Ok(())
    }

    fn sync_dir(&mut self) {
        FileDevice::sync_dir(self);
    }

    fn exists(&self, name: u32) -> bool {
        FileDevice::exists(self, name)
    }

    fn read(&self, name: u32) -> Option<&[u8]> {
        FileDevice::read(self, name).ok()
    }

    ghost led = { λ device effects name stands. stands.live name };
}

/// The result of a call whose other faults are ruled out.
fn for_memory(answer: Result<(), DeviceFault>) -> Result<(), AllocError>
    ensures { OnOk result (IsOk answer) }
{
    match answer {
        Ok(()) => Ok(()),
        Err(_) => Err(AllocError),
    }
}

impl Device for CrashDevice {
    ghost stands = { Tells };

    ghost names = { λ device. device.disk.names };

    // each chunk is a pending write
    ghost most = { λ chunks. 0 };

    ghost shows = { λ device s. (name : ℕ) → reads device.disk name ≡ held_in s name };

    fn clear(&mut self) {
        CrashDevice::clear(self);
    }

    fn create(&mut self, name: u32) -> Result<(), AllocError> {
        for_memory(CrashDevice::create(self, name))
    }

    fn append(&mut self, name: u32, bytes: &[u8]) -> Result<(), AllocError> {
        for_memory(CrashDevice::append(self, name, bytes))
    }

    fn at_once(_chunks: usize) -> usize {
        0
    }

    fn append_chunks(
        &mut self,
        _name: u32,
        _chunks: &Chunks,
        _from: usize,
        _end: usize,
    ) -> Result<(), AllocError> {
        Ok(())
    }

    fn sync(&mut self, name: u32) {
        if CrashDevice::sync(self, name).is_err() {
            unreachable!()
        }
    }

    fn link(&mut self, from: u32, to: u32) -> Result<(), AllocError> {
        for_memory(CrashDevice::link(self, from, to))
    }

    fn unlink(&mut self, name: u32) -> Result<(), AllocError> {
        for_memory(CrashDevice::unlink(self, name))
    }

    fn sync_dir(&mut self) {
        CrashDevice::sync_dir(self);
    }

    fn exists(&self, name: u32) -> bool {
        self.disk().exists(name)
    }

    fn read(&self, name: u32) -> Option<&[u8]> {
        CrashDevice::read(self, name).ok()
    }

    ghost led = { λ device effects name tells. tells.disk.live name };
}
