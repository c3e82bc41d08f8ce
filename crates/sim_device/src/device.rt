//! A disk of files under names.
ghost use Rattle.std.specs.Prelude.{◌≡◌, ◌≤◌, ◌<◌, ◌+◌, ◌++◌, ℕ, List, [], ◌∷◌, length, take, OnOk, OnErr, MatchResult, IfSome, is_some, is_none, slice_set, Some, None};
ghost use Rattle.sim_device.specs.FileEffects.{Effect, Create, Append, Write, Truncate, Sync, Link, Unlink, SyncDir, PowerCut, Live, held};
ghost use Rattle.sim_device.specs.Pending.{overwritten};
ghost use Rattle.sim_device.specs.Disk.{entry_at, held_at, StandsFor, AddsEffect, AddsRename, ChangesFile, ChangesName, IsNext};
ghost use Rattle.sim_device.specs.Refusals.{Refuses, RefusesOnly, RefusesLink};

use crate::fault::DeviceFault;
use crate::file::File;
use crate::names::Directory;
use std::alloc::{AllocError, Global};
use std::marker::Model;

/// A simulated disk of files under names, on which a power cut keeps only what was synced.
///
/// A name is a small number that the component under test chooses, mostly through an enum of its own. The device keeps a table of all numbers up to
/// the greatest one in use and some after it, so its memory grows with that number.
///
/// A device stands for the list of the effects that it accepted since it was made or cleared. A refused call changes nothing and adds no effect.
/// `clear` keeps the memory of names and files for those to come.
#[derive(Drop)]
pub struct FileDevice {
    alloc: Global,
    directory: Directory,
    // The first `used` files are in use, and the others are kept for their memory.
    files: Vec<File>,
    used: usize,
}

impl Model for FileDevice {
    ghost use Rattle.std.specs.Prelude.{take, length};
    ghost use Rattle.sim_device.specs.Disk.{Disk, Keeps};

    ghost Value = { Disk };

    ghost view = { λ d. record { names = d.directory; files = take d.used d.files.items } };

    ghost invariant = { λ d. Keeps d.directory d.used (length d.files.items) };
}

/// Adds bytes to one of these files.
fn append_at(files: &mut [File], file: usize, bytes: &[u8]) -> Result<(), AllocError>
    requires { file < length files.old }
    ensures ok { let old = held_at files.old file in
        OnOk result (files.new ≡ slice_set files.old file (record { live = old.live ++ bytes.now; lasting = old.lasting })) }
    ensures err { OnErr result (files.new ≡ files.old) }
{
    let file = &mut files[file];
    file.append(bytes)
}

/// Writes bytes at a place of one of these files.
fn write_in(files: &mut [File], file: usize, place: usize, bytes: &[u8]) -> Result<(), AllocError>
    requires { file < length files.old }
    ensures ok { let old = held_at files.old file in
        OnOk result (files.new ≡ slice_set files.old file (record { live = overwritten place bytes.now old.live; lasting = old.lasting })) }
    ensures err { OnErr result (files.new ≡ files.old) }
{
    let file = &mut files[file];
    file.write_at(place, bytes)
}

/// Leaves the first bytes of one of these files, at most `count`.
fn truncate_at(files: &mut [File], file: usize, count: usize) -> Result<(), AllocError>
    requires { file < length files.old }
    ensures ok { let old = held_at files.old file in
        OnOk result (files.new ≡ slice_set files.old file (record { live = take count old.live; lasting = old.lasting })) }
    ensures err { OnErr result (files.new ≡ files.old) }
{
    let file = &mut files[file];
    file.truncate(count)
}

/// Makes what a file holds last.
fn sync_at(files: &mut [File], file: usize)
    requires { file < length files.old }
    ensures { let old = held_at files.old file in
        files.new ≡ slice_set files.old file (record { live = old.live; lasting = old.live }) }
{
    let file = &mut files[file];
    file.sync();
}

/// Makes a file hold nothing.
fn clear_at(files: &mut [File], file: usize)
    requires { file < length files.old }
    ensures { files.new ≡ slice_set files.old file (record { live = []; lasting = [] }) }
{
    let file = &mut files[file];
    file.clear();
}

/// Makes a file that holds nothing the next one after those in use.
fn ready(alloc: Global, files: &mut Vec<File>, used: usize) -> Result<(), AllocError>
    requires { used ≤ length files.old.items }
    ensures ok { OnOk result (take (used + 1) files.new.items ≡ take used files.old.items ++ record { live = []; lasting = [] } ∷ []) }
    ensures room { OnOk result (used + 1 ≤ length files.new.items) }
    ensures same { take used files.new.items ≡ take used files.old.items }
    ensures few { length files.old.items ≤ length files.new.items }
{
    if used == files.len() {
        files.push(File::new(alloc))?;
        return Ok(());
    }
    clear_at(files, used);
    Ok(())
}

/// Leaves only what lasts, in the first `used` files.
fn cut_files(files: &mut [File], used: usize)
    requires { used ≤ length files.old }
    ensures { (f : ℕ) → f < used →
        held_at files.new f ≡ record { live = (held_at files.old f).lasting; lasting = (held_at files.old f).lasting } }
{
    for number in 0..used {
        let file = &mut files[number];
        file.cut();
    }
}

/// Makes what the first `used` files hold last.
fn sync_files(files: &mut [File], used: usize)
    requires { used ≤ length files.old }
    ensures { (f : ℕ) → f < used →
        held_at files.new f ≡ record { live = (held_at files.old f).live; lasting = (held_at files.old f).live } }
{
    for number in 0..used {
        let file = &mut files[number];
        file.sync();
    }
}

impl FileDevice {
    /// A device with no names. It takes no memory.
    pub fn new(alloc: Global) -> Self
        ensures { StandsFor result [] }
    {
        FileDevice {
            alloc,
            directory: Directory::new(alloc),
            files: Vec::new(alloc),
            used: 0,
        }
    }

    /// A new device, with no names. It takes no memory, and keeps what it has for the files to come.
    pub fn clear(&mut self)
        ensures { StandsFor self.new [] }
    {
        self.directory.clear();
        self.used = 0;
    }

    /// Makes a new, empty file under a name. Neither the name nor the file lasts yet.
    ///
    /// # Errors
    ///
    /// `Exists` if the name is there; otherwise only `Memory`.
    #[inline(always)]
    pub fn create(&mut self, name: u32) -> Result<(), DeviceFault>
        ensures ok { OnOk result (AddsEffect self.old self.new (Create name)) }
        ensures err { OnErr result (self.new ≡ self.old) }
        ensures fault { Refuses (is_some (entry_at self.old.names name).live) DeviceFault.Exists result }
    {
        if self.exists(name) {
            return Err(DeviceFault::Exists);
        }
        ready(self.alloc, &mut self.files, self.used)?;
        self.directory.point(name, self.used)?;
        self.used += 1;
        Ok(())
    }

    /// Adds bytes at the end of a name's file. They do not last yet.
    ///
    /// # Errors
    ///
    /// `NotFound` if the name is not there; otherwise only `Memory`.
    pub fn append(&mut self, name: u32, bytes: &[u8]) -> Result<(), DeviceFault>
        ensures ok { OnOk result (AddsEffect self.old self.new (Append name bytes.now)) }
        ensures err { OnErr result (self.new ≡ self.old) }
        ensures fault { Refuses (is_none (entry_at self.old.names name).live) DeviceFault.NotFound result }
    {
        let Some(file) = self.directory.live(name) else {
            return Err(DeviceFault::NotFound);
        };
        append_at(&mut self.files, file, bytes)?;
        Ok(())
    }

    /// Writes bytes at a place of a name's file, over those that are there, as pwrite(2) does: past its end the file grows, with zeros between
    /// its end and the place. To write no bytes changes nothing. What lasts stays until the file is synced.
    ///
    /// # Errors
    ///
    /// `NotFound` if the name is not there; otherwise only `Memory`.
    pub fn write_at(&mut self, name: u32, place: usize, bytes: &[u8]) -> Result<(), DeviceFault>
        ensures ok { OnOk result (AddsEffect self.old self.new (Write name place bytes.now)) }
        ensures err { OnErr result (self.new ≡ self.old) }
        ensures fault { Refuses (is_none (entry_at self.old.names name).live) DeviceFault.NotFound result }
    {
        let Some(file) = self.directory.live(name) else {
            return Err(DeviceFault::NotFound);
        };
        write_in(&mut self.files, file, place, bytes)?;
        Ok(())
    }

    /// Cuts a name's file to its first `count` bytes; if it has no more, that changes nothing. What lasts stays until the file is synced: a power cut
    /// before that brings the bytes back that were cut off.
    ///
    /// # Errors
    ///
    /// `NotFound` if the name is not there; otherwise only `Memory`.
    pub fn truncate(&mut self, name: u32, count: usize) -> Result<(), DeviceFault>
        ensures ok { OnOk result (AddsEffect self.old self.new (Truncate name count)) }
        ensures err { OnErr result (self.new ≡ self.old) }
        ensures fault { Refuses (is_none (entry_at self.old.names name).live) DeviceFault.NotFound result }
    {
        let Some(file) = self.directory.live(name) else {
            return Err(DeviceFault::NotFound);
        };
        truncate_at(&mut self.files, file, count)?;
        Ok(())
    }

    /// Makes the contents of a name's file last. It makes no name last. It takes no memory.
    ///
    /// # Errors
    ///
    /// `NotFound` if the name is not there; no other.
    pub fn sync(&mut self, name: u32) -> Result<(), DeviceFault>
        ensures ok { OnOk result (AddsEffect self.old self.new (Sync name)) }
        ensures err { OnErr result (self.new ≡ self.old) }
        ensures fault { RefusesOnly (is_none (entry_at self.old.names name).live) DeviceFault.NotFound result }
    {
        let Some(file) = self.directory.live(name) else {
            return Err(DeviceFault::NotFound);
        };
        sync_at(&mut self.files, file);
        Ok(())
    }

    /// Leads the name `to` to the file of `from`, in place of any other, and removes `from`. Equal names change nothing.
    ///
    /// # Errors
    ///
    /// `NotFound` if `from` is not there; otherwise only `Memory`.
    pub fn rename(&mut self, from: u32, to: u32) -> Result<(), DeviceFault>
        ensures ok { OnOk result (AddsRename self.old self.new from to) }
        ensures err { OnErr result (self.new ≡ self.old) }
        ensures fault { Refuses (is_none (entry_at self.old.names from).live) DeviceFault.NotFound result }
    {
        let Some(file) = self.directory.live(from) else {
            return Err(DeviceFault::NotFound);
        };
        if from == to {
            return Ok(());
        }
        self.directory.carry(file, from, to)?;
        Ok(())
    }

    /// Leads the name `to` to the file of `from` too.
    ///
    /// # Errors
    ///
    /// `NotFound` if `from` is not there, whether or not `to` is; otherwise `Exists` if `to` is there; otherwise only `Memory`.
    pub fn link(&mut self, from: u32, to: u32) -> Result<(), DeviceFault>
        ensures ok { OnOk result (AddsEffect self.old self.new (Link from to)) }
        ensures err { OnErr result (self.new ≡ self.old) }
        ensures fault { RefusesLink (entry_at self.old.names from).live (entry_at self.old.names to).live result }
    {
        let Some(file) = self.directory.live(from) else {
            return Err(DeviceFault::NotFound);
        };
        if self.exists(to) {
            return Err(DeviceFault::Exists);
        }
        self.directory.point(to, file)?;
        Ok(())
    }

    /// Removes a name. Its file stays under its other names, and under the removed one as far as that lasts. It takes no memory.
    ///
    /// # Errors
    ///
    /// `NotFound` if the name is not there; no other.
    pub fn unlink(&mut self, name: u32) -> Result<(), DeviceFault>
        ensures ok { OnOk result (AddsEffect self.old self.new (Unlink name)) }
        ensures err { OnErr result (self.new ≡ self.old) }
        ensures fault { RefusesOnly (is_none (entry_at self.old.names name).live) DeviceFault.NotFound result }
    {
        if !self.exists(name) {
            return Err(DeviceFault::NotFound);
        }
        self.directory.remove(name);
        Ok(())
    }

    /// Makes the names last as they are: those that are there stay, and those that are gone stay away. It makes no contents last. It takes no memory.
    /// Its time grows with the number of names in the table from the first to the last that changed since the last sync.
    pub fn sync_dir(&mut self)
        ensures { AddsEffect self.old self.new SyncDir }
    {
        self.directory.sync();
    }

    /// Leaves only the names and contents that last. It takes no memory.
    pub fn power_cut(&mut self)
        ensures { AddsEffect self.old self.new (PowerCut []) }
    {
        self.leave_lasting();
    }

    /// Lends what a name's file holds now. It takes no memory.
    ///
    /// # Errors
    ///
    /// `NotFound` if the name is not there; no other.
    pub fn read(&self, name: u32) -> Result<&[u8], DeviceFault>
        ensures { (es : List Effect) → StandsFor self.now es →
            MatchResult result (λ bytes. held es Live name ≡ Some bytes.now)
            (λ fault. (fault ≡ DeviceFault.NotFound) × (held es Live name ≡ None)) }
    {
        let Some(file) = self.directory.live(name) else {
            return Err(DeviceFault::NotFound);
        };
        Ok(self.files[file].read())
    }

    /// The least name that is there now and isn't below this one. It takes no memory. Its time grows with the number of names between the two.
    ///
    /// To go through all names, begin with `next_name(0)`, and ask each time from the number after the name that was found.
    pub fn next_name(&self, from: u32) -> Option<u32>
        ensures { IsNext self.now.names from result }
    {
        self.directory.next(from)
    }

    /// How many files there are.
    pub(crate) fn files(&self) -> usize
        ensures { result ≡ length self.now.files }
    {
        self.used
    }

    /// The number of a name's file now.
    pub(crate) fn file_of(&self, name: u32) -> Option<usize>
        ensures file { result ≡ (entry_at self.now.names name).live }
        ensures within { IfSome result (λ file. file < length self.now.files) }
    {
        self.directory.live(name)
    }

    /// What a file holds now.
    pub(crate) fn contents_of(&self, file: usize) -> &[u8]
        requires { file < length self.now.files }
        ensures { result.now ≡ (held_at self.now.files file).live }
    {
        self.files[file].read()
    }

    /// Leads a name to a file, or to none.
    pub(crate) fn lead(&mut self, name: u32, file: Option<usize>) -> Result<(), AllocError>
        requires { IfSome file (λ f. f < length self.old.files) }
        ensures ok { OnOk result (ChangesName self.old.names self.new.names name file) }
        ensures files { self.new.files ≡ self.old.files }
    {
        match file {
            Some(file) => self.directory.point(name, file),
            None => {
                self.directory.remove(name);
                Ok(())
            }
        }
    }

    /// Writes bytes at a place of a file.
    pub(crate) fn write_file(
        &mut self,
        file: usize,
        place: usize,
        bytes: &[u8],
    ) -> Result<(), AllocError>
        requires { file < length self.old.files }
        ensures ok { OnOk result (ChangesFile self.old.files self.new.files file (overwritten place bytes.now (held_at self.old.files file).live)) }
        ensures names { self.new.names ≡ self.old.names }
    {
        write_in(&mut self.files, file, place, bytes)
    }

    /// Leaves the first bytes of a file, at most `count`.
    pub(crate) fn cut_file(&mut self, file: usize, count: usize) -> Result<(), AllocError>
        requires { file < length self.old.files }
        ensures ok { OnOk result (ChangesFile self.old.files self.new.files file (take count (held_at self.old.files file).live)) }
        ensures names { self.new.names ≡ self.old.names }
    {
        truncate_at(&mut self.files, file, count)
    }

    /// Leaves only the names and contents that last.
    pub(crate) fn leave_lasting(&mut self)
        ensures names { (n : ℕ) → let old = entry_at self.old.names n in
            entry_at self.new.names n ≡ record { live = old.lasting; lasting = old.lasting } }
        ensures made { length self.new.files ≡ length self.old.files }
        ensures files { (f : ℕ) → f < length self.old.files → let old = held_at self.old.files f in
            held_at self.new.files f ≡ record { live = old.lasting; lasting = old.lasting } }
    {
        self.directory.cut();
        cut_files(&mut self.files, self.used);
    }

    /// Makes all names and contents that are there last.
    pub(crate) fn settle(&mut self)
        ensures names { (n : ℕ) → let old = entry_at self.old.names n in
            entry_at self.new.names n ≡ record { live = old.live; lasting = old.live } }
        ensures made { length self.new.files ≡ length self.old.files }
        ensures files { (f : ℕ) → f < length self.old.files → let old = held_at self.old.files f in
            held_at self.new.files f ≡ record { live = old.live; lasting = old.live } }
    {
        let directory = &mut self.directory;
        directory.sync();
        sync_files(&mut self.files, self.used);
    }

    /// Whether a name is there now. It takes no memory.
    pub fn exists(&self, name: u32) -> bool
        ensures { result ≡ is_some (entry_at self.now.names name).live }
    {
        self.directory.live(name).is_some()
    }
}
