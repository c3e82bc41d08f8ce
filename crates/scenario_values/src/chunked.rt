//! Text in chunks.
ghost use Rattle.std.specs.Prelude.{◌≡◌, ◌-◌, ◌<◌, ◌≤◌, IfOk, length, take, drop, slice_index_or, []};
ghost use Rattle.std.specs.Str.{bytes_eq};
ghost use Rattle.scenario_values.specs.chunked.Chunks.{IsChunks, joined, half};
ghost use Rattle.scenario_values.specs.chunked.inside.Flat.{places_of};

use crate::Text;
use std::alloc::{AllocError, Global};
use std::marker::Model;

/// A text in at most 1,000 chunks of at most 4,096 bytes. Each chunk is written by a step of its own. Contracts see the list of the chunks.
///
/// The bytes of any run of chunks are one slice.
#[derive(Debug, Drop)]
pub struct Chunks {
    bytes: Vec<u8>,
    // The places at which the chunks begin, and the place at which the last one ends.
    places: Vec<usize>,
}

impl Model for Chunks {
    ghost use Rattle.std.specs.Prelude.{List, ℕ};
    ghost use Rattle.scenario_values.specs.chunked.inside.Flat.{pieces, IsFlat};

    ghost Value = { List (List ℕ) };

    ghost view = { λ c. pieces c.bytes.items c.places.items };

    ghost invariant = { λ c. IsFlat c.bytes.items c.places.items (pieces c.bytes.items c.places.items) };
}

/// The bytes of chunks, one after another, with the places where they begin.
fn flat(alloc: Global, chunks: &[Text]) -> Result<(Vec<u8>, Vec<usize>), AllocError>
    requires { IsChunks chunks.now }
    ensures bytes { IfOk result (λ r. r.0.items ≡ joined chunks.now) }
    ensures places { IfOk result (λ r. r.1.items ≡ places_of 0 chunks.now) }
{
    let mut bytes = Vec::new(alloc);
    let mut places = Vec::new(alloc);
    places.push(0)?;
    for chunk in chunks {
        bytes.extend_from_slice(chunk.as_str().as_bytes())?;
        places.push(bytes.len())?;
    }
    Ok((bytes, places))
}

impl Chunks {
    /// A text of these chunks.
    ///
    /// An error means that memory was refused.
    pub fn new(alloc: Global, chunks: &[Text]) -> Result<Self, AllocError>
        requires { IsChunks chunks.now }
        ensures { IfOk result (λ c. c ≡ chunks.now) }
    {
        let (bytes, places) = flat(alloc, chunks)?;
        Ok(Chunks { bytes, places })
    }

    /// How many chunks there are.
    pub fn len(&self) -> usize
        ensures { result ≡ length self.now }
    {
        self.places.len() - 1
    }

    /// The bytes of the chunks with the numbers from `from` up to, but without, `to`. Numbers begin at 0.
    pub fn between(&self, from: usize, to: usize) -> &[u8]
        requires order { from ≤ to }
        requires within { to ≤ length self.now }
        ensures { result.now ≡ joined (take (to - from) (drop from self.now)) }
    {
        &self.bytes[self.places[from]..self.places[to]]
    }

    /// The bytes of the chunk of a number.
    pub fn chunk(&self, number: usize) -> &[u8]
        requires { number < length self.now }
        ensures { result.now ≡ slice_index_or self.now number [] }
    {
        // The sum is at most the number of chunks, so it doesn't wrap.
        let count = self.len();
        prove!(number < count);
        self.between(number, number + 1)
    }

    /// The first half of the chunk of a number, in whole bytes.
    pub fn half(&self, number: usize) -> &[u8]
        requires { number < length self.now }
        ensures { result.now ≡ half (slice_index_or self.now number []) }
    {
        let chunk = self.chunk(number);
        &chunk[..chunk.len() / 2]
    }

    /// Whether these bytes are all chunks, one after another.
    pub fn is_whole(&self, bytes: &[u8]) -> bool
        ensures { result ≡ bytes_eq bytes.now (joined self.now) }
    {
        bytes == self.bytes.as_slice()
    }
}
