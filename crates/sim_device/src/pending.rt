//! Writes that are pending: the call that made each, and what it changes.
ghost use Rattle.std.specs.Prelude.{◌≡◌, ◌<◌, ◌∷◌, ◌++◌, [], if◌then◌else◌, not, filter, vec_len, vec_capacity, Some, IfOk};
ghost use Rattle.sim_device.specs.Pending.{is_of_contents, is_to};

use std::alloc::{AllocError, Global};
use std::marker::Model;

/// A call that a device has accepted. Names are the component's numbers, and places and counts are of bytes.
#[derive(Clone, Copy, Debug, PartialEq, Eq)]
pub enum Call {
    /// The name was given to a new file.
    Create(u32),
    /// Bytes were added to the name's file, which ended at this place.
    Append(u32, usize),
    /// Bytes were written to the name's file, at this place.
    WriteAt(u32, usize),
    /// The name's file was cut to this many bytes.
    Truncate(u32, usize),
    /// The first name was renamed to the second.
    Rename(u32, u32),
    /// The file of the first name was given the second one too.
    Link(u32, u32),
    /// The name was removed.
    Unlink(u32),
}

impl Call {
    /// Whether it changes what a file holds; else it changes names.
    fn is_of_contents(self) -> bool
        ensures { result ≡ is_of_contents self }
    {
        matches!(
            self,
            Call::Append(..) | Call::WriteAt(..) | Call::Truncate(..)
        )
    }
}

/// A write that a power cut may keep or lose: its call, its bytes, and the file to which it gives a name or whose contents it changes.
#[derive(Drop)]
pub struct PendingWrite {
    call: Call,
    file: Option<usize>,
    bytes: Vec<u8>,
}

impl Model for PendingWrite {
    ghost use Rattle.sim_device.specs.Pending.{Pending};

    ghost Value = { Pending };

    ghost view = { λ w. record { call = w.call; file = w.file; bytes = w.bytes.items } };
}

impl PendingWrite {
    /// A change of names.
    pub(crate) fn of_names(alloc: Global, call: Call, file: Option<usize>) -> Self
        ensures { result ≡ record { call = call; file = file; bytes = [] } }
    {
        PendingWrite {
            call,
            file,
            bytes: Vec::new(alloc),
        }
    }

    /// A change of a file's contents, by these bytes.
    pub(crate) fn of_contents(
        alloc: Global,
        call: Call,
        file: usize,
        bytes: &[u8],
    ) -> Result<Self, AllocError>
        ensures { IfOk result (λ write. write ≡ record { call = call; file = Some file; bytes = bytes.now }) }
    {
        Ok(PendingWrite {
            call,
            file: Some(file),
            bytes: Vec::from_slice(alloc, bytes)?,
        })
    }

    /// The call that made the write.
    pub fn call(&self) -> Call
        ensures { result ≡ self.now.call }
    {
        self.call
    }

    /// The number of the file: how many files were created before it. The removal of a name has none.
    pub fn file(&self) -> Option<usize>
        ensures { result ≡ self.now.file }
    {
        self.file
    }

    /// The bytes that are written. A change of names and a cut have none.
    pub fn bytes(&self) -> &[u8]
        ensures { result.now ≡ self.now.bytes }
    {
        self.bytes.as_slice()
    }

    /// Whether it changes what this file holds.
    pub(crate) fn is_to(&self, file: usize) -> bool
        ensures { result ≡ is_to (Some file) self.now }
    {
        self.call.is_of_contents() && self.file == Some(file)
    }

    /// Whether it changes what some file holds.
    pub(crate) fn is_of_contents(&self) -> bool
        ensures { result ≡ is_of_contents self.now.call }
    {
        self.call.is_of_contents()
    }
}

/// Adds a write if it changes anything. There has to be room for it.
pub fn add_where(writes: &mut Vec<PendingWrite>, write: PendingWrite, changes: bool)
    requires { vec_len writes.old < vec_capacity writes.old }
    ensures { writes.new.items ≡ (if changes then writes.old.items ++ write ∷ [] else writes.old.items) }
{
    if changes {
        writes.push_reserved(write);
    }
}

/// Leaves out the writes to a file.
pub fn drop_synced(writes: &mut Vec<PendingWrite>, file: usize)
    ensures { writes.new.items ≡ filter (λ p. not (is_to (Some file) p)) writes.old.items }
{
    writes.retain(|write| !write.is_to(file));
}

/// Leaves out the changes of names.
pub fn drop_names(writes: &mut Vec<PendingWrite>)
    ensures { writes.new.items ≡ filter (λ p. is_of_contents p.call) writes.old.items }
{
    writes.retain(|write| write.is_of_contents());
}
