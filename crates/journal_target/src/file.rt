//! The journal's file, with what is pending.
ghost use Rattle.std.specs.Prelude.{◌≡◌, ◌<◌, ◌+◌, ◌^◌, [], length, take, drop, OnOk};
ghost use Rattle.journal_target.specs.File.{appended_to, synced_file};

use std::alloc::{AllocError, Global};
use std::marker::Model;

/// The journal's file, on a disk with a cache: what was appended lasts once the file is synced. Until then each append is a pending write, and a
/// power cut may keep it or lose it, whatever became of the others.
///
/// `sim_device::CrashDevice` is such a disk, with names. But laying out what is kept takes memory there, and a judgement can't say that memory was
/// refused. So here a scan reads what is left in place.
#[derive(Drop)]
pub struct File {
    bytes: Vec<u8>,
    // how many of the bytes last
    synced: usize,
    // the sizes of the appends behind these
    pending: Vec<usize>,
}

impl Model for File {
    ghost use Rattle.journal_target.specs.File.{File};

    ghost Value = { File };

    ghost view = { λ f. record { bytes = f.bytes.items; synced = f.synced; pending = f.pending.items } };
}

/// The first `count` bytes, or all if there are no more, and the bytes behind them.
pub fn split_front(bytes: &[u8], size: usize) -> (&[u8], &[u8])
    ensures front { result.0.now ≡ take size bytes.now }
    ensures behind { result.1.now ≡ drop size bytes.now }
    ensures all { length result.0.now + length result.1.now ≡ length bytes.now }
{
    bytes.split_at(size.min(bytes.len()))
}

impl File {
    /// An empty file. It takes no memory.
    pub fn new(alloc: Global) -> Self
        ensures { result ≡ record { bytes = []; synced = 0; pending = [] } }
    {
        File {
            bytes: Vec::new(alloc),
            synced: 0,
            pending: Vec::new(alloc),
        }
    }

    /// Appends bytes, which are pending then. An error means that memory was refused.
    pub fn append(&mut self, bytes: &[u8]) -> Result<(), AllocError>
        ensures { OnOk result (self.new ≡ appended_to self.old bytes.now) }
    {
        self.bytes.extend_from_slice(bytes)?;
        self.pending.push(bytes.len())?;
        Ok(())
    }

    /// Makes everything that is there last.
    pub fn sync(&mut self)
        ensures { self.new ≡ synced_file self.old }
    {
        self.synced = self.bytes.len();
        self.pending.clear();
    }

    /// The sizes of the pending appends, the oldest first.
    pub fn pending(&self) -> &[usize]
        ensures { result.now ≡ self.now.pending }
    {
        self.pending.as_slice()
    }

    /// The bytes that last, and those behind them.
    pub fn split(&self) -> (&[u8], &[u8])
        ensures lasting { result.0.now ≡ take self.now.synced self.now.bytes }
        ensures rest { result.1.now ≡ drop self.now.synced self.now.bytes }
        ensures few { length result.0.now + length result.1.now < 2 ^ 63 }
    {
        split_front(self.bytes.as_slice(), self.synced)
    }
}
