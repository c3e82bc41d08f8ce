//! A writer that goes wrong.

use std::alloc::Global;
use std::io;
use std::io::Write;

/// What a writer does at the write that goes wrong.
#[derive(Clone, Copy, Debug, PartialEq, Eq)]
pub enum Trouble {
    /// It fails as a pipe that nobody reads.
    Broken,
    /// It fails as a call that a signal interrupts.
    Interrupted,
    TakesNothing,
}

/// A writer into memory that takes a few bytes at each write, and goes wrong at one of its writes.
#[derive(Drop)]
pub struct Narrow {
    /// The bytes that it took.
    pub bytes: Vec<u8>,
    /// How many bytes it takes at each write.
    pub at_once: usize,
    /// How often it was asked to write.
    pub writes: u64,
    /// The write at which it goes wrong, counted from 1; at 0 it never does.
    pub fails_at: u64,
    pub trouble: Trouble,
}

impl Narrow {
    /// A writer that takes this many bytes at each write, and never goes wrong.
    pub fn new(alloc: Global, at_once: usize) -> Self {
        Narrow {
            bytes: Vec::new(alloc),
            at_once,
            writes: 0,
            fails_at: 0,
            trouble: Trouble::Broken,
        }
    }

    /// The same, but it goes wrong at one of its writes, counted from 1.
    pub fn failing(alloc: Global, at_once: usize, fails_at: u64, trouble: Trouble) -> Self {
        Narrow {
            fails_at,
            trouble,
            ..Narrow::new(alloc, at_once)
        }
    }
}

impl Write for Narrow {
    fn write(&mut self, buf: &[u8]) -> io::Result<usize> {
        self.writes = self.writes.saturating_add(1);
        if self.writes == self.fails_at {
            return match self.trouble {
                Trouble::Broken => Err(io::Error::from(io::ErrorKind::BrokenPipe)),
                Trouble::Interrupted => Err(io::Error::from(io::ErrorKind::Interrupted)),
                Trouble::TakesNothing => Ok(0),
            };
        }
        let count = self.at_once.min(buf.len());
        self.bytes.extend_from_slice(&buf[..count])?;
        Ok(count)
    }

    fn flush(&mut self) -> io::Result<()> {
        Ok(())
    }
}
