//! What a reduction asks.
ghost use Rattle.std.specs.Prelude.{◌≡◌, ℕ, List, Bool, IfOk};

use std::alloc::AllocError;

/// Says whether a set of faults fails.
///
/// The answer is a function of the probe's setup and the set that it is asked, for any set, and asking leaves the setup as it was. So probes with the
/// same setup answer alike, however often and in whatever order they are asked.
pub trait Probe: Send + Drop {
    /// What a probe with this setup says of each set.
    ghost answers: { Self → List ℕ → Bool };

    /// Whether the set fails. An error means that memory was refused. The setup stays, after an error too.
    fn test(&mut self, set: &[u32]) -> Result<bool, AllocError>
        ensures answer { IfOk result (λ fails. fails ≡ answers self.old set.now) }
        ensures setup { answers self.new ≡ answers self.old };
}
