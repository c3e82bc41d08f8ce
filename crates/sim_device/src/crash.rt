//! A disk that knows which writes are pending.
ghost use Rattle.std.specs.Prelude.{◌≡◌, List, [], Some, None, MatchResult, OnOk, OnErr, is_some, is_none};
ghost use Rattle.sim_device.specs.FileEffects.{Effect, Create, Append, Write, Truncate, Sync, Link, Unlink, SyncDir, PowerCut};
ghost use Rattle.sim_device.specs.Disk.{AddsNoted, AddsNotedRename, Tells, entry_at, reads};
ghost use Rattle.sim_device.specs.Refusals.{Refuses, RefusesOnly, RefusesLink};

use crate::device::FileDevice;
use crate::fault::DeviceFault;
use crate::laying::cut_and_lay;
use crate::pending::{Call, PendingWrite, add_where, drop_names, drop_synced};
use std::alloc::{AllocError, Global};
use std::marker::Model;

/// A simulated disk of files under names, as `FileDevice` is, which also says which writes are pending. A power cut may keep any of them.
///
/// A disk writes out in an order of its own what was not synced. So after a power cut each pending write may be there or not, whatever became of the
/// others: for example a rename without the bytes that were written before it, or the second of two writes without the first. Bytes before a kept
/// write are zeros if nothing kept them.
///
/// A device stands for the list of the effects that it accepted since it was made or cleared; what is pending follows from that list. A refused call
/// changes nothing and adds no effect, except that a `cut_keeping` that is refused memory leaves a new device. Each pending write takes memory, so
/// here `unlink` may be refused too.
#[derive(Drop)]
pub struct CrashDevice {
    alloc: Global,
    device: FileDevice,
    writes: Vec<PendingWrite>,
}

impl Model for CrashDevice {
    ghost use Rattle.sim_device.specs.Disk.{Noted};

    ghost Value = { Noted };

    ghost view = { λ d. record { disk = d.device; pending = d.writes.items } };
}

impl CrashDevice {
    /// A device with no names. It takes no memory.
    pub fn new(alloc: Global) -> Self
        ensures { Tells result [] }
    {
        CrashDevice {
            alloc,
            device: FileDevice::new(alloc),
            writes: Vec::new(alloc),
        }
    }

    /// A new device, with no names. It takes no memory, and keeps what it has for the files to come.
    pub fn clear(&mut self)
        ensures { Tells self.new [] }
    {
        self.device.clear();
        self.writes.clear();
    }

    /// Makes a new, empty file under a name. Neither the name nor the file lasts yet.
    ///
    /// # Errors
    ///
    /// `Exists` if the name is there; otherwise only `Memory`.
    pub fn create(&mut self, name: u32) -> Result<(), DeviceFault>
        ensures ok { OnOk result (AddsNoted self.old self.new (Create name)) }
        ensures err { OnErr result (self.new ≡ self.old) }
        ensures fault { Refuses (is_some (entry_at self.old.disk.names name).live) DeviceFault.Exists result }
    {
        if self.device.exists(name) {
            return Err(DeviceFault::Exists);
        }
        let file = Some(self.device.files());
        self.writes.reserve(1)?;
        self.device.must_create(name)?;
        self.writes.push_reserved(PendingWrite::of_names(self.alloc, Call::Create(name), file));
        Ok(())
    }

    /// Leads the name `to` to the file of `from`, in place of any other, and removes `from`. Equal names change nothing.
    ///
    /// # Errors
    ///
    /// `NotFound` if `from` is not there; otherwise only `Memory`.
    pub fn rename(&mut self, from: u32, to: u32) -> Result<(), DeviceFault>
        ensures ok { OnOk result (AddsNotedRename self.old self.new from to) }
        ensures err { OnErr result (self.new ≡ self.old) }
        ensures fault { Refuses (is_none (entry_at self.old.disk.names from).live) DeviceFault.NotFound result }
    {
        let Some(file) = self.device.file_of(from) else {
            return Err(DeviceFault::NotFound);
        };
        if from == to {
            return Ok(());
        }
        self.writes.reserve(1)?;
        self.device.must_rename(from, to)?;
        self.writes.push_reserved(PendingWrite::of_names(
            self.alloc,
            Call::Rename(from, to),
            Some(file),
        ));
        Ok(())
    }

    /// Leads the name `to` to the file of `from` too.
    ///
    /// # Errors
    ///
    /// `NotFound` if `from` is not there, whether or not `to` is; otherwise `Exists` if `to` is there; otherwise only `Memory`.
    pub fn link(&mut self, from: u32, to: u32) -> Result<(), DeviceFault>
        ensures ok { OnOk result (AddsNoted self.old self.new (Link from to)) }
        ensures err { OnErr result (self.new ≡ self.old) }
        ensures fault { RefusesLink (entry_at self.old.disk.names from).live (entry_at self.old.disk.names to).live result }
    {
        let Some(file) = self.device.file_of(from) else {
            return Err(DeviceFault::NotFound);
        };
        if self.device.exists(to) {
            return Err(DeviceFault::Exists);
        }
        self.writes.reserve(1)?;
        self.device.must_link(from, to)?;
        self.writes.push_reserved(PendingWrite::of_names(
            self.alloc,
            Call::Link(from, to),
            Some(file),
        ));
        Ok(())
    }

    /// Removes a name. Its file stays under its other names, and under the removed one as far as that lasts.
    ///
    /// # Errors
    ///
    /// `NotFound` if the name is not there; otherwise only `Memory`.
    pub fn unlink(&mut self, name: u32) -> Result<(), DeviceFault>
        ensures ok { OnOk result (AddsNoted self.old self.new (Unlink name)) }
        ensures err { OnErr result (self.new ≡ self.old) }
        ensures fault { Refuses (is_none (entry_at self.old.disk.names name).live) DeviceFault.NotFound result }
    {
        if !self.device.exists(name) {
            return Err(DeviceFault::NotFound);
        }
        self.writes.reserve(1)?;
        self.device.must_unlink(name);
        self.writes.push_reserved(PendingWrite::of_names(self.alloc, Call::Unlink(name), None));
        Ok(())
    }

    /// Adds bytes at the end of a name's file. They do not last yet. No bytes make no pending write.
    ///
    /// # Errors
    ///
    /// `NotFound` if the name is not there; otherwise only `Memory`.
    pub fn append(&mut self, name: u32, bytes: &[u8]) -> Result<(), DeviceFault>
        ensures ok { OnOk result (AddsNoted self.old self.new (Append name bytes.now)) }
        ensures err { OnErr result (self.new ≡ self.old) }
        ensures fault { Refuses (is_none (entry_at self.old.disk.names name).live) DeviceFault.NotFound result }
    {
        let Some(file) = self.device.file_of(name) else {
            return Err(DeviceFault::NotFound);
        };
        let call = Call::Append(name, self.device.contents_of(file).len());
        let write = PendingWrite::of_contents(self.alloc, call, file, bytes)?;
        self.writes.reserve(1)?;
        self.device.must_append(name, bytes)?;
        add_where(&mut self.writes, write, !bytes.is_empty());
        Ok(())
    }

    /// Writes bytes at a place of a name's file, over those that are there, as pwrite(2) does: past its end the file grows, with zeros between
    /// its end and the place. To write no bytes changes nothing, and makes no pending write.
    ///
    /// # Errors
    ///
    /// `NotFound` if the name is not there; otherwise only `Memory`.
    pub fn write_at(&mut self, name: u32, place: usize, bytes: &[u8]) -> Result<(), DeviceFault>
        ensures ok { OnOk result (AddsNoted self.old self.new (Write name place bytes.now)) }
        ensures err { OnErr result (self.new ≡ self.old) }
        ensures fault { Refuses (is_none (entry_at self.old.disk.names name).live) DeviceFault.NotFound result }
    {
        let Some(file) = self.device.file_of(name) else {
            return Err(DeviceFault::NotFound);
        };
        let call = Call::WriteAt(name, place);
        let write = PendingWrite::of_contents(self.alloc, call, file, bytes)?;
        self.writes.reserve(1)?;
        self.device.must_write_at(name, place, bytes)?;
        add_where(&mut self.writes, write, !bytes.is_empty());
        Ok(())
    }

    /// Cuts a name's file to its first `count` bytes. If it has no more bytes, that changes nothing and makes no pending write.
    ///
    /// # Errors
    ///
    /// `NotFound` if the name is not there; otherwise only `Memory`.
    pub fn truncate(&mut self, name: u32, count: usize) -> Result<(), DeviceFault>
        ensures ok { OnOk result (AddsNoted self.old self.new (Truncate name count)) }
        ensures err { OnErr result (self.new ≡ self.old) }
        ensures fault { Refuses (is_none (entry_at self.old.disk.names name).live) DeviceFault.NotFound result }
    {
        let Some(file) = self.device.file_of(name) else {
            return Err(DeviceFault::NotFound);
        };
        let is_shorter = count < self.device.contents_of(file).len();
        let call = Call::Truncate(name, count);
        let write = PendingWrite::of_contents(self.alloc, call, file, &[])?;
        self.writes.reserve(1)?;
        self.device.must_truncate(name, count)?;
        add_where(&mut self.writes, write, is_shorter);
        Ok(())
    }

    /// Makes the contents of a name's file last: no write to it is pending any more. It makes no name last. It takes no memory.
    ///
    /// # Errors
    ///
    /// `NotFound` if the name is not there; no other.
    pub fn sync(&mut self, name: u32) -> Result<(), DeviceFault>
        ensures ok { OnOk result (AddsNoted self.old self.new (Sync name)) }
        ensures err { OnErr result (self.new ≡ self.old) }
        ensures fault { RefusesOnly (is_none (entry_at self.old.disk.names name).live) DeviceFault.NotFound result }
    {
        let Some(file) = self.device.file_of(name) else {
            return Err(DeviceFault::NotFound);
        };
        self.device.must_sync(name);
        drop_synced(&mut self.writes, file);
        Ok(())
    }

    /// Makes the names last as they are: those that are there stay, and those that are gone stay away. No change of names is pending any more. It
    /// makes no contents last. It takes no memory.
    pub fn sync_dir(&mut self)
        ensures { AddsNoted self.old self.new SyncDir }
    {
        self.device.sync_dir();
        drop_names(&mut self.writes);
    }

    /// Leaves only the names and contents that last: everything pending is lost, as by `cut_keeping` with no answers. It takes no memory.
    pub fn power_cut(&mut self)
        ensures { AddsNoted self.old self.new (PowerCut []) }
    {
        self.device.power_cut();
        self.writes.clear();
    }

    /// Cuts the power, and keeps the pending writes for which the answers, in the order of `pending`, say so. Writes past the answers are lost, and
    /// answers past the writes mean nothing. Afterwards everything that is left lasts, and nothing is pending.
    ///
    /// # Errors
    ///
    /// Only that memory was refused. The device is then a new one.
    pub fn cut_keeping(&mut self, keep: &[bool]) -> Result<(), AllocError>
        ensures ok { OnOk result (AddsNoted self.old self.new (PowerCut keep.now)) }
        ensures err { OnErr result (Tells self.new []) }
    {
        match cut_and_lay(&mut self.device, self.writes.as_slice(), keep) {
            Ok(()) => {
                self.writes.clear();
                Ok(())
            }
            Err(fault) => {
                self.clear();
                Err(fault)
            }
        }
    }

    /// The pending writes, in the order in which they were made. It takes no memory.
    pub fn pending(&self) -> &[PendingWrite]
        ensures { result.now ≡ self.now.pending }
    {
        &self.writes[..]
    }

    /// Lends what a name's file holds now. It takes no memory.
    ///
    /// # Errors
    ///
    /// `NotFound` if the name is not there; no other.
    pub fn read(&self, name: u32) -> Result<&[u8], DeviceFault>
        ensures { MatchResult result (λ bytes. reads self.now.disk name ≡ Some bytes.now)
            (λ fault. (fault ≡ DeviceFault.NotFound) × (reads self.now.disk name ≡ None)) }
    {
        let Some(file) = self.device.file_of(name) else {
            return Err(DeviceFault::NotFound);
        };
        Ok(self.device.contents_of(file))
    }

    /// The names that are there, by `exists` and `next_name`.
    pub fn disk(&self) -> &FileDevice
        ensures { result.now ≡ self.now.disk }
    {
        &self.device
    }
}
