//! The calls of an attempt on its device. A call can only be refused memory, and `sync` not even that.
ghost use Rattle.std.specs.Prelude.{◌≡◌, ◌≤◌, ◌-◌, ℕ, List, OnOk, length, take, drop, is_some, is_none, false};
ghost use Rattle.sim_device.specs.FileEffects.{Effect, Append, Create, Sync, Link, Unlink};
ghost use Rattle.sim_device.specs.Disk.{entry_at};
ghost use Rattle.maildir_target.specs.inside.Devices.{Adds, with_chunks};
ghost use Rattle.maildir_target.specs.inside.Seen.{IsNamed, written_of_delivery, new_of_delivery};

use crate::delivery::Delivery;
use crate::disk::Device;
use std::alloc::AllocError;

/// A new file.
pub fn create<D: Device>(delivery: &Delivery<'_>, device: &mut D) -> Result<(), AllocError>
    requires named { IsNamed delivery.now }
    requires free { is_some (entry_at (D.names device.old) (written_of_delivery delivery.now)).live ≡ false }
    ensures { OnOk result (Adds D.stands device.old device.new (Create (written_of_delivery delivery.now))) }
{
    device.create(delivery.written())
}

/// More bytes at the end of the file.
pub fn append<D: Device>(
    delivery: &Delivery<'_>,
    device: &mut D,
    bytes: &[u8],
) -> Result<(), AllocError>
    requires named { IsNamed delivery.now }
    requires there { is_none (entry_at (D.names device.old) (written_of_delivery delivery.now)).live ≡ false }
    ensures { OnOk result (Adds D.stands device.old device.new (Append (written_of_delivery delivery.now) bytes.now)) }
{
    device.append(delivery.written(), bytes)
}

/// Appends the chunks from one place to before another, one after another.
pub fn append_between<D: Device>(
    delivery: &Delivery<'_>,
    device: &mut D,
    from: usize,
    end: usize,
) -> Result<(), AllocError>
    requires named { IsNamed delivery.now }
    requires there { is_none (entry_at (D.names device.old) (written_of_delivery delivery.now)).live ≡ false }
    requires order { from ≤ end }
    requires within { end ≤ length delivery.now.chunks.now }
    requires few { end - from ≤ D.most (length delivery.now.chunks.now - from) }
    ensures { OnOk result ((es : List Effect) → D.stands device.old es
        → D.stands device.new (with_chunks (written_of_delivery delivery.now) (take (end - from) (drop from delivery.now.chunks.now)) es)) }
{
    device.append_chunks(delivery.written(), delivery.chunks, from, end)
}

/// Makes the contents of the file last.
pub fn sync<D: Device>(delivery: &Delivery<'_>, device: &mut D)
    requires named { IsNamed delivery.now }
    requires there { is_none (entry_at (D.names device.old) (written_of_delivery delivery.now)).live ≡ false }
    ensures { Adds D.stands device.old device.new (Sync (written_of_delivery delivery.now)) }
{
    device.sync(delivery.written());
}

/// Links the file under `new/`, if that name isn't there.
#[inline(always)]
pub fn link<D: Device>(delivery: &Delivery<'_>, device: &mut D) -> Result<(), AllocError>
    requires named { IsNamed delivery.now }
    requires from { is_none (entry_at (D.names device.old) (written_of_delivery delivery.now)).live ≡ false }
    requires to { is_some (entry_at (D.names device.old) (new_of_delivery delivery.now)).live ≡ false }
    ensures { OnOk result (Adds D.stands device.old device.new (Link (written_of_delivery delivery.now) (new_of_delivery delivery.now))) }
{
    device.link(delivery.written(), delivery.delivered())
}

/// Removes the name that was written.
#[inline(always)]
pub fn unlink<D: Device>(delivery: &Delivery<'_>, device: &mut D) -> Result<(), AllocError>
    requires named { IsNamed delivery.now }
    requires there { is_none (entry_at (D.names device.old) (written_of_delivery delivery.now)).live ≡ false }
    ensures { OnOk result (Adds D.stands device.old device.new (Unlink (written_of_delivery delivery.now))) }
{
    device.unlink(delivery.written())
}
