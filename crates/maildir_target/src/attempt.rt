//! An attempt at a message, as the maildir manual page describes it: stat, create, write, sync, link, and then the name under `tmp/` is removed.
ghost use Rattle.std.specs.Prelude.{◌≡◌, List, OnOk};
ghost use Rattle.sim_device.specs.FileEffects.{Effect};
ghost use Rattle.sim_device.specs.Disk.{entry_at};
ghost use Rattle.maildir_target.specs.Steps.{Looking, Creating, Syncing, Linking, Unlinking, SyncingDir, Cleaning};
ghost use Rattle.maildir_target.specs.Steps.{first_step, created_by, after_create, after_sync, after_link};
ghost use Rattle.maildir_target.specs.inside.Seen.{IsNamed, written_of_delivery, CanCreate, IsAt, HasEnded, Leads, Delivers};

use crate::calls::{create, link, sync, unlink};
use crate::delivery::Delivery;
use crate::disk::Device;
use crate::ended::Ended;
use crate::mailbox::Mailbox;
use crate::points::Point;
use crate::variant::Variant;
use crate::write::write_all;
use std::alloc::AllocError;
use target_trait::{Answer, Session};

/// Removes the name that was written, after a failure. The attempt has failed, whether or not the name could be removed. Only with deliver_in_new the
/// run is over if it couldn't.
pub fn clean_up<D: Device>(
    delivery: &Delivery<'_>,
    mailbox: &mut Mailbox<D>,
    session: &mut Session<'_>,
) -> Ended
    requires named { IsNamed delivery.now }
    requires at { IsAt D.stands delivery.now session.old mailbox.old Cleaning }
    ensures ended { HasEnded D.stands delivery.now session.new mailbox.new result }
    ensures given { session.new.given ≡ session.old.given }
{
    match session.hit(Point::Unlink as u32) {
        Ok(Answer::Go) => match unlink(delivery, &mut mailbox.device) {
            Ok(()) => Ended::Failed,
            Err(_) => Ended::Memory,
        },
        Ok(Answer::Return(_)) => match delivery.variant {
            Variant::DeliverInNew => Ended::Halted,
            Variant::Sound | Variant::LinkFirst | Variant::IgnoreWrite | Variant::AppendTmp => {
                Ended::Failed
            }
        },
        Ok(Answer::Halt) => Ended::Halted,
        Err(_) => Ended::Memory,
    }
}

/// Looks whether the name to be written is free.
fn stat<D: Device>(
    delivery: &Delivery<'_>,
    mailbox: &mut Mailbox<D>,
    session: &mut Session<'_>,
) -> Result<(), Ended>
    requires named { IsNamed delivery.now }
    requires at { IsAt D.stands delivery.now session.old mailbox.old Looking }
    ensures leads { Leads D.stands delivery.now session.new mailbox.new Creating result }
    ensures given { session.new.given ≡ session.old.given }
{
    match session.hit(Point::Stat as u32)? {
        Answer::Go => {
            if mailbox.device.exists(delivery.written()) {
                return Err(Ended::Failed);
            }
            Ok(())
        }
        Answer::Return(_) => Err(Ended::Failed),
        Answer::Halt => Err(Ended::Halted),
    }
}

/// The same if the variant looks; append_tmp doesn't.
fn look<D: Device>(
    delivery: &Delivery<'_>,
    mailbox: &mut Mailbox<D>,
    session: &mut Session<'_>,
) -> Result<(), Ended>
    requires named { IsNamed delivery.now }
    requires at { IsAt D.stands delivery.now session.old mailbox.old (first_step delivery.now.variant) }
    ensures leads { Leads D.stands delivery.now session.new mailbox.new Creating result }
    ensures given { session.new.given ≡ session.old.given }
{
    match delivery.variant {
        Variant::AppendTmp => Ok(()),
        Variant::Sound | Variant::LinkFirst | Variant::IgnoreWrite | Variant::DeliverInNew => {
            stat(delivery, mailbox, session)
        }
    }
}

/// Makes a new file, or with append_tmp goes on with the one that is there.
fn create_by<D: Device>(delivery: &Delivery<'_>, device: &mut D) -> Result<(), AllocError>
    requires named { IsNamed delivery.now }
    requires ready { CanCreate delivery.now.variant (entry_at (D.names device.old) (written_of_delivery delivery.now)).live }
    ensures { OnOk result ((es : List Effect) → D.stands device.old es →
        D.stands device.new (created_by delivery.now.variant (written_of_delivery delivery.now) es)) }
{
    let is_there = match delivery.variant {
        Variant::AppendTmp => device.exists(delivery.written()),
        Variant::Sound | Variant::LinkFirst | Variant::IgnoreWrite | Variant::DeliverInNew => false,
    };
    if is_there {
        return Ok(());
    }
    create(delivery, device)
}

/// Makes the file.
fn create_file<D: Device>(
    delivery: &Delivery<'_>,
    mailbox: &mut Mailbox<D>,
    session: &mut Session<'_>,
) -> Result<(), Ended>
    requires named { IsNamed delivery.now }
    requires at { IsAt D.stands delivery.now session.old mailbox.old Creating }
    ensures leads { Leads D.stands delivery.now session.new mailbox.new (after_create delivery.now.variant delivery.now.chunks.now) result }
    ensures given { session.new.given ≡ session.old.given }
{
    match session.hit(Point::Create as u32)? {
        Answer::Go => {
            create_by(delivery, &mut mailbox.device)?;
            Ok(())
        }
        Answer::Return(_) => Err(Ended::Failed),
        Answer::Halt => Err(Ended::Halted),
    }
}

/// Syncs the file.
#[inline(always)]
fn sync_file<D: Device>(
    delivery: &Delivery<'_>,
    mailbox: &mut Mailbox<D>,
    session: &mut Session<'_>,
) -> Result<(), Ended>
    requires named { IsNamed delivery.now }
    requires at { IsAt D.stands delivery.now session.old mailbox.old Syncing }
    ensures leads { Leads D.stands delivery.now session.new mailbox.new (after_sync delivery.now.variant) result }
    ensures given { session.new.given ≡ session.old.given }
{
    match session.hit(Point::Sync as u32)? {
        Answer::Go => {
            sync(delivery, &mut mailbox.device);
            Ok(())
        }
        Answer::Return(_) => Err(clean_up(delivery, mailbox, session)),
        Answer::Halt => Err(Ended::Halted),
    }
}

/// Links the file under `new/`, if that name is free.
#[inline(always)]
fn link_new<D: Device>(
    delivery: &Delivery<'_>,
    mailbox: &mut Mailbox<D>,
    session: &mut Session<'_>,
) -> Result<(), Ended>
    requires named { IsNamed delivery.now }
    requires at { IsAt D.stands delivery.now session.old mailbox.old Linking }
    ensures leads { Leads D.stands delivery.now session.new mailbox.new (after_link delivery.now.variant delivery.now.chunks.now) result }
    ensures given { session.new.given ≡ session.old.given }
{
    match session.hit(Point::Link as u32)? {
        Answer::Go => {
            if mailbox.device.exists(delivery.delivered()) {
                return Err(clean_up(delivery, mailbox, session));
            }
            link(delivery, &mut mailbox.device)?;
            Ok(())
        }
        Answer::Return(_) => Err(clean_up(delivery, mailbox, session)),
        Answer::Halt => Err(Ended::Halted),
    }
}

/// Removes the name under `tmp/`. If that fails, the name stays, and the delivery goes on.
#[inline(always)]
fn remove<D: Device>(
    delivery: &Delivery<'_>,
    mailbox: &mut Mailbox<D>,
    session: &mut Session<'_>,
) -> Result<(), Ended>
    requires named { IsNamed delivery.now }
    requires at { IsAt D.stands delivery.now session.old mailbox.old Unlinking }
    ensures leads { Leads D.stands delivery.now session.new mailbox.new SyncingDir result }
    ensures given { session.new.given ≡ session.old.given }
{
    match session.hit(Point::Unlink as u32)? {
        Answer::Go => {
            unlink(delivery, &mut mailbox.device)?;
            Ok(())
        }
        Answer::Return(_) => Ok(()),
        Answer::Halt => Err(Ended::Halted),
    }
}

/// Syncs the directory, and acknowledges the message. If the sync fails, the message isn't acknowledged.
#[inline(always)]
fn acknowledge<D: Device>(
    delivery: &Delivery<'_>,
    mailbox: &mut Mailbox<D>,
    session: &mut Session<'_>,
) -> Result<(), Ended>
    requires at { IsAt D.stands delivery.now session.old mailbox.old SyncingDir }
    ensures delivers { Delivers D.stands delivery.now session.new mailbox.new result }
    ensures given { session.new.given ≡ session.old.given }
{
    match session.hit(Point::SyncDir as u32)? {
        Answer::Go => {
            mailbox.device.sync_dir();
            match mailbox.acknowledged.push(delivery.message) {
                Ok(()) => Ok(()),
                Err(_) => Err(Ended::Memory),
            }
        }
        Answer::Return(_) => Ok(()),
        Answer::Halt => Err(Ended::Halted),
    }
}

/// Writes the file, syncs it, and brings it from `tmp/` to `new/`. link_first has linked it before, and deliver_in_new writes it there.
fn fill<D: Device>(
    delivery: &Delivery<'_>,
    mailbox: &mut Mailbox<D>,
    session: &mut Session<'_>,
) -> Result<(), Ended>
    requires named { IsNamed delivery.now }
    requires at { IsAt D.stands delivery.now session.old mailbox.old (after_create delivery.now.variant delivery.now.chunks.now) }
    ensures leads { Leads D.stands delivery.now session.new mailbox.new SyncingDir result }
    ensures given { session.new.given ≡ session.old.given }
{
    match delivery.variant {
        Variant::LinkFirst => {
            link_new(delivery, mailbox, session)?;
            write_all(delivery, mailbox, session)?;
            sync_file(delivery, mailbox, session)?;
            remove(delivery, mailbox, session)
        }
        Variant::Sound | Variant::IgnoreWrite | Variant::AppendTmp => {
            write_all(delivery, mailbox, session)?;
            sync_file(delivery, mailbox, session)?;
            link_new(delivery, mailbox, session)?;
            remove(delivery, mailbox, session)
        }
        Variant::DeliverInNew => {
            write_all(delivery, mailbox, session)?;
            sync_file(delivery, mailbox, session)
        }
    }
}

/// An attempt from its first step to its last. An error says how it ended before that.
pub fn attempt<D: Device>(
    delivery: &Delivery<'_>,
    mailbox: &mut Mailbox<D>,
    session: &mut Session<'_>,
) -> Result<(), Ended>
    requires named { IsNamed delivery.now }
    requires at { IsAt D.stands delivery.now session.old mailbox.old (first_step delivery.now.variant) }
    ensures delivers { Delivers D.stands delivery.now session.new mailbox.new result }
    ensures given { session.new.given ≡ session.old.given }
{
    look(delivery, mailbox, session)?;
    create_file(delivery, mailbox, session)?;
    fill(delivery, mailbox, session)?;
    acknowledge(delivery, mailbox, session)
}
