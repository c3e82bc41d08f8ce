//! A single file.
ghost use Rattle.std.specs.Prelude.{◌≡◌, ◌≤◌, ◌+◌, ◌-◌, ◌++◌, [], drop, length, replicate, take, OnOk, OnErr};
ghost use Rattle.sim_device.specs.Pending.{overwritten};

use std::alloc::{AllocError, Global};
use std::marker::Model;
use std::mem;

/// A file by itself, under no name: what it holds, and how much of that lasts. It is the device of a component that keeps everything in one file.
/// `FileDevice` is made of such files.
///
/// It behaves as a file on a disk with a cache does for a program that calls write(2), pwrite(2), ftruncate(2) and fsync(2) of Linux.
#[derive(Drop)]
pub struct File {
    contents: Vec<u8>,
    // This many bytes last: the first ones of the contents, or of `synced` if one of them was changed since the last sync.
    lasting: usize,
    is_changed: bool,
    synced: Vec<u8>,
}

impl Model for File {
    ghost use Rattle.std.specs.Prelude.{◌≤◌, if◌then◌else◌, length, take};
    ghost use Rattle.sim_device.specs.Disk.{Held};

    ghost Value = { Held };

    ghost view = { λ f. record { live = f.contents.items; lasting = take f.lasting (if f.is_changed then f.synced.items else f.contents.items) } };

    ghost invariant = { λ f. f.lasting ≤ length (if f.is_changed then f.synced.items else f.contents.items) };
}

/// Replaces the contents by these bytes. After an error the file may hold anything.
fn refill(held: &mut Vec<u8>, bytes: &[u8]) -> Result<(), AllocError>
    ensures { OnOk result (held.new.items ≡ bytes.now) }
{
    held.clear();
    held.extend_from_slice(bytes)
}

/// Adds zeros at the end, up to this length.
fn lengthen(held: &mut Vec<u8>, end: usize) -> Result<(), AllocError>
    ensures ok { OnOk result (held.new.items ≡ held.old.items ++ replicate (end - length held.old.items) 0) }
    ensures err { OnErr result (held.new.items ≡ held.old.items) }
{
    if held.len() < end {
        held.resize(end, 0)?;
    }
    Ok(())
}

/// Writes bytes over those that are there, all of them within what is held.
fn lay_over(held: &mut Vec<u8>, place: usize, bytes: &[u8])
    requires { place + length bytes.now ≤ length held.old.items }
    ensures { held.new.items ≡ take place held.old.items ++ bytes.now ++ drop (place + length bytes.now) held.old.items }
{
    held[place..place + bytes.len()].copy_from_slice(bytes);
}

/// Writes bytes at a place, over those that are there.
fn overwrite(held: &mut Vec<u8>, place: usize, bytes: &[u8]) -> Result<(), AllocError>
    ensures ok { OnOk result (held.new.items ≡ overwritten place bytes.now held.old.items) }
    ensures err { OnErr result (held.new.items ≡ held.old.items) }
{
    if bytes.is_empty() {
        return Ok(());
    }
    let Some(end) = place.checked_add(bytes.len()) else {
        return Err(AllocError);
    };
    lengthen(held, end)?;
    lay_over(held, place, bytes);
    Ok(())
}

impl File {
    /// A file that holds nothing. It takes no memory.
    pub fn new(alloc: Global) -> Self
        ensures { result ≡ record { live = []; lasting = [] } }
    {
        File {
            contents: Vec::new(alloc),
            lasting: 0,
            is_changed: false,
            synced: Vec::new(alloc),
        }
    }

    /// Empties the file, and keeps its memory for the bytes to come.
    pub fn clear(&mut self)
        ensures { self.new ≡ record { live = []; lasting = [] } }
    {
        self.contents.clear();
        self.lasting = 0;
        self.is_changed = false;
    }

    /// Adds bytes at the end. They do not last yet.
    ///
    /// # Errors
    ///
    /// Only that memory was refused. The file is then as it was.
    // A single byte is added within the caller's loop.
    #[inline]
    pub fn append(&mut self, bytes: &[u8]) -> Result<(), AllocError>
        ensures ok { OnOk result (self.new ≡ record { live = self.old.live ++ bytes.now; lasting = self.old.lasting }) }
        ensures err { OnErr result (self.new ≡ self.old) }
    {
        if let [byte] = bytes {
            self.contents.push(*byte)?;
            return Ok(());
        }
        self.contents.extend_from_slice(bytes)
    }

    /// Writes bytes at a place, over those that are there, as pwrite(2) does: past the end the file grows, with zeros between its end and the
    /// place. To write no bytes changes nothing. What lasts stays until the next sync.
    ///
    /// # Errors
    ///
    /// Only that memory was refused. The file is then as it was.
    pub fn write_at(&mut self, place: usize, bytes: &[u8]) -> Result<(), AllocError>
        ensures ok { OnOk result (self.new ≡ record { live = overwritten place bytes.now self.old.live; lasting = self.old.lasting }) }
        ensures err { OnErr result (self.new ≡ self.old) }
    {
        if !self.is_changed && place < self.lasting {
            refill(&mut self.synced, &self.contents[..self.lasting])?;
            self.is_changed = true;
        }
        overwrite(&mut self.contents, place, bytes)
    }

    /// Cuts the file to its first `count` bytes; if it has no more, that changes nothing. What lasts stays until the next sync: a power cut before it
    /// brings the bytes back that were cut off.
    ///
    /// # Errors
    ///
    /// Only that memory was refused, and only if bytes that last are cut off. The file is then as it was.
    pub fn truncate(&mut self, count: usize) -> Result<(), AllocError>
        ensures ok { OnOk result (self.new ≡ record { live = take count self.old.live; lasting = self.old.lasting }) }
        ensures err { OnErr result (self.new ≡ self.old) }
    {
        if !self.is_changed && count < self.lasting {
            refill(&mut self.synced, &self.contents[..self.lasting])?;
            self.is_changed = true;
        }
        self.contents.truncate(count);
        Ok(())
    }

    /// Makes everything that is there last. It takes no memory.
    pub fn sync(&mut self)
        ensures { self.new ≡ record { live = self.old.live; lasting = self.old.live } }
    {
        self.lasting = self.contents.len();
        self.is_changed = false;
    }

    /// Leaves only what lasts, as a power cut does. It takes no memory.
    pub fn cut(&mut self)
        ensures { self.new ≡ record { live = self.old.lasting; lasting = self.old.lasting } }
    {
        if self.is_changed {
            mem::swap(&mut self.contents, &mut self.synced);
            self.is_changed = false;
        }
        self.contents.truncate(self.lasting);
    }

    /// Lends everything that is there. It takes no memory.
    pub fn read(&self) -> &[u8]
        ensures { result.now ≡ self.now.live }
    {
        self.contents.as_slice()
    }
}
