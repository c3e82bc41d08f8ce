//! The writes of an attempt.
ghost use Rattle.std.specs.Prelude.{◌≡◌, ◌≤◌, ◌<◌, ◌+◌, [], length, drop, slice_index_or, IfOk, MatchResult};
ghost use Rattle.maildir_target.specs.Steps.{Writing, Syncing, write_step, after_half};
ghost use Rattle.maildir_target.specs.inside.Seen.{IsNamed, IsAt, HasEnded, Leads};

use crate::attempt::clean_up;
use crate::calls::{append, append_between};
use crate::delivery::Delivery;
use crate::disk::Device;
use crate::ended::Ended;
use crate::mailbox::Mailbox;
use crate::points::Point;
use crate::variant::Variant;
use target_trait::{Answer, Session};

/// What follows half a chunk: ignore_write goes on as after the whole.
fn go_on<D: Device>(
    delivery: &Delivery<'_>,
    at: usize,
    mailbox: &mut Mailbox<D>,
    session: &mut Session<'_>,
) -> Result<(), Ended>
    requires named { IsNamed delivery.now }
    requires at { IsAt D.stands delivery.now session.old mailbox.old (after_half delivery.now.variant (drop (at + 1) delivery.now.chunks.now)) }
    ensures leads { Leads D.stands delivery.now session.new mailbox.new (write_step (drop (at + 1) delivery.now.chunks.now)) result }
    ensures given { session.new.given ≡ session.old.given }
{
    match delivery.variant {
        Variant::IgnoreWrite => Ok(()),
        Variant::Sound => Err(clean_up(delivery, mailbox, session)),
        Variant::LinkFirst => Err(clean_up(delivery, mailbox, session)),
        Variant::AppendTmp => Err(clean_up(delivery, mailbox, session)),
        Variant::DeliverInNew => Err(clean_up(delivery, mailbox, session)),
    }
}

/// Writes the chunk at a place.
fn write_one<D: Device>(
    delivery: &Delivery<'_>,
    at: usize,
    mailbox: &mut Mailbox<D>,
    session: &mut Session<'_>,
) -> Result<(), Ended>
    requires place { at < length delivery.now.chunks.now }
    requires named { IsNamed delivery.now }
    requires at { IsAt D.stands delivery.now session.old mailbox.old
        (Writing (slice_index_or delivery.now.chunks.now at []) (drop (at + 1) delivery.now.chunks.now)) }
    ensures leads { Leads D.stands delivery.now session.new mailbox.new (write_step (drop (at + 1) delivery.now.chunks.now)) result }
    ensures given { session.new.given ≡ session.old.given }
{
    match session.hit(Point::Write as u32)? {
        Answer::Go => {
            append(delivery, &mut mailbox.device, delivery.chunks.chunk(at))?;
            Ok(())
        }
        Answer::Return(_) => {
            append(delivery, &mut mailbox.device, delivery.chunks.half(at))?;
            go_on(delivery, at, mailbox, session)
        }
        Answer::Halt => Err(Ended::Halted),
    }
}

/// Writes the chunks from a place on whose writes surely succeed; if there are none, one chunk. Returns the place after them.
fn write_some<D: Device>(
    delivery: &Delivery<'_>,
    at: usize,
    mailbox: &mut Mailbox<D>,
    session: &mut Session<'_>,
) -> Result<usize, Ended>
    requires place { at < length delivery.now.chunks.now }
    requires named { IsNamed delivery.now }
    requires at { IsAt D.stands delivery.now session.old mailbox.old (write_step (drop at delivery.now.chunks.now)) }
    ensures within { IfOk result (λ next. next ≤ length delivery.now.chunks.now) }
    ensures nearer { IfOk result (λ next. at < next) }
    ensures leads { MatchResult result (λ next. IsAt D.stands delivery.now session.new mailbox.new (write_step (drop next delivery.now.chunks.now)))
        (λ e. HasEnded D.stands delivery.now session.new mailbox.new e) }
    ensures given { session.new.given ≡ session.old.given }
{
    let count = D::at_once(delivery.chunks.len() - at);
    let passed = session.pass(Point::Write as u32, count)?;
    if passed == 0 {
        write_one(delivery, at, mailbox, session)?;
        return Ok(at + 1);
    }
    let next = at + passed;
    append_between(delivery, &mut mailbox.device, at, next)?;
    Ok(next)
}

/// Writes the chunks, one after another.
pub fn write_all<D: Device>(
    delivery: &Delivery<'_>,
    mailbox: &mut Mailbox<D>,
    session: &mut Session<'_>,
) -> Result<(), Ended>
    requires named { IsNamed delivery.now }
    requires at { IsAt D.stands delivery.now session.old mailbox.old (write_step delivery.now.chunks.now) }
    ensures leads { Leads D.stands delivery.now session.new mailbox.new Syncing result }
    ensures given { session.new.given ≡ session.old.given }
{
    let mut at = 0;
    while at < delivery.chunks.len() {
        at = write_some(delivery, at, mailbox, session)?;
    }
    Ok(())
}
