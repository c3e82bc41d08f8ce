//! Sinks, to which texts are written.
ghost use Rattle.std.specs.Prelude.{◌≡◌, ◌≤◌, ◌||◌, ℕ, Bool, false, List, Option, IfOk, length};
ghost use Rattle.std.specs.Io.KnownBytes.{WriteAppends};
ghost use Rattle.target_trait.specs.Output.{fails};

use std::io::Write;
use std::marker::Model;

/// A sink takes the bytes of a text, a prefix at a time.
///
/// A sink remembers that a write failed. So a function may require of a sink that it hasn't failed before, and promise that it reports a failed write
/// only if the sink has failed.
pub trait Sink {
    // The bytes that the sink has taken, if they are known.
    ghost told: { Self → Option (List ℕ) };

    // Whether a write failed.
    ghost has_failed: { Self → Bool };

    /// Takes a prefix of the bytes and returns its length, at most `bytes.len()`. An error takes nothing.
    ///
    /// After an error, and after a length of 0 although there are bytes, the sink has failed.
    fn write(&mut self, bytes: &[u8]) -> Result<usize, ()>
        ensures bound { IfOk result (λ count. count ≤ length bytes.now) }
        ensures bytes { WriteAppends (told self.old) (told self.new) result bytes.now }
        ensures failed { has_failed self.new ≡ (has_failed self.old || fails result bytes.now) };

    /// Whether a write failed, or took nothing although there were bytes. A sink that has failed stays failed.
    fn failed(&self) -> bool
        ensures { result ≡ has_failed self.now };
}

/// The sink over a writer: standard output, a file, or a `Vec<u8>`.
///
/// Each write is one write of the writer. Any error counts as a failure, an interrupted write too. Nothing is flushed: use a writer without a buffer,
/// as standard output is here, or take the writer back by `into_writer` and flush it.
#[derive(Drop)]
pub struct Out<W: Write> {
    writer: W,
    has_failed: bool,
}

impl<W: Write> Model for Out<W> {
    ghost use Rattle.target_trait.specs.Output.{Taken};

    ghost Value = { Taken };

    ghost view = { λ out. record { bytes = W.contents out.writer; has_failed = out.has_failed } };
}

impl<W: Write> Out<W> {
    /// A sink over a writer, which hasn't failed. The bytes that it has taken are those that the writer holds.
    pub fn new(writer: W) -> Self
        ensures told { ⟦<Out<W> as Sink>⟧.told result ≡ W.contents writer }
        ensures sound { ⟦<Out<W> as Sink>⟧.has_failed result ≡ false }
    {
        Out {
            writer,
            has_failed: false,
        }
    }

    /// The writer, given back.
    pub fn into_writer(self) -> W
        ensures { W.contents result ≡ ⟦<Out<W> as Sink>⟧.told self }
    {
        self.writer
    }
}

impl<W: Write> Sink for Out<W> {
    ghost told = { λ out. out.bytes };

    ghost has_failed = { λ out. out.has_failed };

    fn write(&mut self, bytes: &[u8]) -> Result<usize, ()> {
        match self.writer.write(bytes) {
            Ok(count) => {
                self.has_failed |= count == 0 && !bytes.is_empty();
                Ok(count)
            }
            Err(_) => {
                self.has_failed = true;
                Err(())
            }
        }
    }

    fn failed(&self) -> bool {
        self.has_failed
    }
}
