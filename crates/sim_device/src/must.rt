//! Calls of a file device that can only be refused memory, because the caller knows which names are there.
ghost use Rattle.std.specs.Prelude.{◌≡◌, OnOk, OnErr, IsOk, IsErr, IfErr, is_some, is_none, false};
ghost use Rattle.sim_device.specs.declared.fault.DeviceFault.TheVariants.{Memory};
ghost use Rattle.sim_device.specs.FileEffects.{Create, Append, Write, Truncate, Sync, Link, Unlink};
ghost use Rattle.sim_device.specs.Disk.{entry_at, AddsEffect, AddsRename};

use crate::device::FileDevice;
use crate::fault::DeviceFault;
use std::alloc::AllocError;

/// The result of a call whose other faults are ruled out.
fn but_for_memory(answer: Result<(), DeviceFault>) -> Result<(), AllocError>
    requires { IfErr answer (λ fault. fault ≡ Memory) }
    ensures ok { OnOk result (IsOk answer) }
    ensures err { OnErr result (IsErr answer) }
{
    match answer {
        Ok(()) => Ok(()),
        Err(DeviceFault::Memory) => Err(AllocError),
        Err(DeviceFault::Exists | DeviceFault::NotFound) => unreachable!(),
    }
}

impl FileDevice {
    /// `create` of a name that is not there.
    ///
    /// # Errors
    ///
    /// Only that memory was refused. The device is then as it was.
    #[inline(always)]
    pub fn must_create(&mut self, name: u32) -> Result<(), AllocError>
        requires { is_some (entry_at self.old.names name).live ≡ false }
        ensures ok { OnOk result (AddsEffect self.old self.new (Create name)) }
        ensures err { OnErr result (self.new ≡ self.old) }
    {
        but_for_memory(self.create(name))
    }

    /// `append` to a name that is there.
    ///
    /// # Errors
    ///
    /// Only that memory was refused. The device is then as it was.
    pub fn must_append(&mut self, name: u32, bytes: &[u8]) -> Result<(), AllocError>
        requires { is_none (entry_at self.old.names name).live ≡ false }
        ensures ok { OnOk result (AddsEffect self.old self.new (Append name bytes.now)) }
        ensures err { OnErr result (self.new ≡ self.old) }
    {
        but_for_memory(self.append(name, bytes))
    }

    /// `write_at` of a name that is there.
    ///
    /// # Errors
    ///
    /// Only that memory was refused. The device is then as it was.
    pub fn must_write_at(&mut self, name: u32, place: usize, bytes: &[u8]) -> Result<(), AllocError>
        requires { is_none (entry_at self.old.names name).live ≡ false }
        ensures ok { OnOk result (AddsEffect self.old self.new (Write name place bytes.now)) }
        ensures err { OnErr result (self.new ≡ self.old) }
    {
        but_for_memory(self.write_at(name, place, bytes))
    }

    /// `truncate` of a name that is there.
    ///
    /// # Errors
    ///
    /// Only that memory was refused. The device is then as it was.
    pub fn must_truncate(&mut self, name: u32, count: usize) -> Result<(), AllocError>
        requires { is_none (entry_at self.old.names name).live ≡ false }
        ensures ok { OnOk result (AddsEffect self.old self.new (Truncate name count)) }
        ensures err { OnErr result (self.new ≡ self.old) }
    {
        but_for_memory(self.truncate(name, count))
    }

    /// `sync` of a name that is there. It takes no memory.
    pub fn must_sync(&mut self, name: u32)
        requires { is_none (entry_at self.old.names name).live ≡ false }
        ensures { AddsEffect self.old self.new (Sync name) }
    {
        match self.sync(name) {
            Ok(()) => {}
            Err(_) => unreachable!(),
        }
    }

    /// `rename` of a name that is there, to any name.
    ///
    /// # Errors
    ///
    /// Only that memory was refused. The device is then as it was.
    pub fn must_rename(&mut self, from: u32, to: u32) -> Result<(), AllocError>
        requires { is_none (entry_at self.old.names from).live ≡ false }
        ensures ok { OnOk result (AddsRename self.old self.new from to) }
        ensures err { OnErr result (self.new ≡ self.old) }
    {
        but_for_memory(self.rename(from, to))
    }

    /// `link` of a name that is there, to one that is not.
    ///
    /// # Errors
    ///
    /// Only that memory was refused. The device is then as it was.
    pub fn must_link(&mut self, from: u32, to: u32) -> Result<(), AllocError>
        requires from { is_none (entry_at self.old.names from).live ≡ false }
        requires to { is_some (entry_at self.old.names to).live ≡ false }
        ensures ok { OnOk result (AddsEffect self.old self.new (Link from to)) }
        ensures err { OnErr result (self.new ≡ self.old) }
    {
        but_for_memory(self.link(from, to))
    }

    /// `unlink` of a name that is there. It takes no memory.
    pub fn must_unlink(&mut self, name: u32)
        requires { is_none (entry_at self.old.names name).live ≡ false }
        ensures { AddsEffect self.old self.new (Unlink name) }
    {
        match self.unlink(name) {
            Ok(()) => {}
            Err(_) => unreachable!(),
        }
    }
}
