//! The chunks that are still to be written.
ghost use Rattle.std.specs.Prelude.{◌≤◌, length};

use scenario_values::Chunks;

/// The chunks of a replacement from one on.
#[derive(Clone, Copy)]
pub struct Rest<'w> {
    chunks: &'w Chunks,
    from: usize,
    ghost within: { from ≤ length chunks.now },
}

impl<'w> Rest<'w> {
    ghost use Rattle.std.specs.Prelude.{◌≡◌, ◌∷◌, ◌≤◌, [], length, take, drop, MatchOption};
    ghost use Rattle.scenario_values.specs.chunked.Chunks.{joined};
    ghost use Rattle.file_replace.specs.inside.Left.{left};

    /// All chunks.
    pub fn of(chunks: &'w Chunks) -> Self
        ensures { left result ≡ chunks.now }
    {
        Rest { chunks, from: 0 }
    }

    /// How many there are.
    pub fn len(self) -> usize
        ensures { result ≡ length (left self.entry) }
    {
        self.chunks.len() - self.from
    }

    /// The next chunk, and those after it.
    pub fn split_first(self) -> Option<(&'w [u8], Rest<'w>)>
        ensures { MatchOption result (left self.entry ≡ []) (λ next. left self.entry ≡ next.0.now ∷ left next.1) }
    {
        if self.from == self.chunks.len() {
            return None;
        }
        let chunk = self.chunks.chunk(self.from);
        let rest = Rest {
            chunks: self.chunks,
            from: self.from + 1,
        };
        Some((chunk, rest))
    }

    /// The bytes of the next `count` chunks, and the chunks after these.
    pub fn split_at(self, count: usize) -> (&'w [u8], Rest<'w>)
        requires { count ≤ length (left self) }
        ensures bytes { result.0.now ≡ joined (take count (left self.entry)) }
        ensures rest { left result.1 ≡ drop count (left self.entry) }
    {
        // The sum is at most the number of chunks, so it doesn't wrap.
        let all = self.chunks.len();
        prove!(count <= all - self.from);
        let end = self.from + count;
        let rest = Rest {
            chunks: self.chunks,
            from: end,
        };
        (self.chunks.between(self.from, end), rest)
    }
}
