//! A sink whose text doesn't mix with the line of progress.
ghost use Rattle.std.specs.Prelude.{◌≡◌};

use crate::progress::Progress;
use std::io::Eprint;
use std::rt::Clock;
use target_trait::Sink;

/// A sink that clears a gate's line, if one stands there, before each write. Otherwise it is the sink of which it was made.
#[derive(Drop)]
pub struct Cleared<'g, 'a, S: Sink, H: Clock + Eprint> {
    progress: &'g Progress<'a, H>,
    sink: S,
}

impl<'g, 'a, S: Sink, H: Clock + Eprint> Cleared<'g, 'a, S, H> {
    /// This sink, after the gate's line.
    pub fn new(progress: &'g Progress<'a, H>, sink: S) -> Self
        ensures told { ⟦<Cleared<'g, 'a, S, H> as Sink>⟧.told result ≡ S.told sink }
        ensures failed { ⟦<Cleared<'g, 'a, S, H> as Sink>⟧.has_failed result ≡ S.has_failed sink }
    {
        Cleared { progress, sink }
    }
}

impl<'g, 'a, S: Sink, H: Clock + Eprint> Sink for Cleared<'g, 'a, S, H> {
    ghost told = { λ cleared. S.told cleared.sink };

    ghost has_failed = { λ cleared. S.has_failed cleared.sink };

    fn write(&mut self, bytes: &[u8]) -> Result<usize, ()> {
        self.progress.clear();
        self.sink.write(bytes)
    }

    fn failed(&self) -> bool {
        self.sink.failed()
    }
}
