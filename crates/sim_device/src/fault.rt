//! Why a call on a device is refused.
ghost use Rattle.std.specs.Prelude.{◌≡◌, Some};
ghost use Rattle.sim_device.specs.declared.fault.DeviceFault.TheVariants.{Memory};
ghost use Rattle.sim_device.specs.Refusals.{fault_text};

use std::alloc::AllocError;
use std::error::Error;
use std::fmt;

/// Why a device refused a call. The device is as it was before the call.
#[derive(Clone, Copy, Debug, PartialEq, Eq)]
pub enum DeviceFault {
    /// The name to be made is there already, as `EEXIST` of open(2) and link(2).
    Exists,
    /// The name is not there, as `ENOENT`.
    NotFound,
    /// No memory was left for the call.
    Memory,
}

impl fmt::Display for DeviceFault {
    ghost output = { λ fault. Some (fault_text fault) };

    fn fmt<W: fmt::Write>(&self, f: &mut fmt::Formatter<W>) -> fmt::Result {
        f.write_str(match self {
            DeviceFault::Exists => "the name exists",
            DeviceFault::NotFound => "no such name",
            DeviceFault::Memory => "out of memory",
        })
    }
}

impl Error for DeviceFault {}

impl From<AllocError> for DeviceFault {
    ghost from_gives = { λ _ fault. fault ≡ Memory };

    fn from(_: AllocError) -> DeviceFault {
        DeviceFault::Memory
    }
}
