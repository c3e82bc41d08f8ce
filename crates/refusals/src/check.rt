//! How a check ends.

use std::alloc::AllocError;

/// Why a check failed.
#[derive(Clone, Copy)]
pub enum Fault {
    /// The check's own setup was refused memory.
    Memory,
    /// A refused call changed something, lost what it was given, or was refused again.
    Broken,
}

impl From<AllocError> for Fault {
    fn from(_refused: AllocError) -> Fault {
        Fault::Memory
    }
}

/// A fault, unless this holds.
pub fn demand(holds: bool) -> Result<(), Fault> {
    if holds { Ok(()) } else { Err(Fault::Broken) }
}

/// The word for how a check ended. There is none if its setup was refused.
pub fn told(came_to: &Result<(), Fault>) -> Result<&'static str, AllocError> {
    match came_to {
        Ok(()) => Ok("kept"),
        Err(Fault::Broken) => Ok("broken"),
        Err(Fault::Memory) => Err(AllocError),
    }
}
