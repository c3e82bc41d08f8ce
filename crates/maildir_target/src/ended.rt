//! How an attempt may end early.
ghost use Rattle.std.specs.Prelude.{◌≡◌};
ghost use Rattle.maildir_target.specs.declared.ended.Ended.TheVariants.{Memory};

use std::alloc::AllocError;

/// How an attempt ended before its last step.
#[derive(Clone, Copy, Debug)]
pub enum Ended {
    /// It failed.
    Failed,
    /// The run is over with it.
    Halted,
    /// Memory was refused.
    Memory,
}

impl From<AllocError> for Ended {
    ghost from_gives = { λ _ ended. ended ≡ Memory };

    fn from(_: AllocError) -> Ended {
        Ended::Memory
    }
}
