//! Which records are pending, in the order in which they were made over all logs.
ghost use Rattle.std.specs.Prelude.{◌≡◌, ◌<◌, ◌≤◌, ◌+◌, OnOk, vec_len, vec_capacity};
ghost use Rattle.commit_target.specs.Writes.{without};
ghost use Rattle.commit_target.specs.Crash.{answers_of};
ghost use Rattle.commit_target.specs.inside.Held.{noted, noted_each};

use crate::marked::Manner;
use crate::records::{Party, PendingRecord, Record};
use std::alloc::AllocError;

/// A force of a party's log makes all of it last.
fn settle(order: &mut Vec<PendingRecord>, party: Party)
    ensures { order.new.items ≡ without party order.old.items }
{
    // Nearly every force finds nothing pending.
    if !order.is_empty() {
        order.retain(|pending| !pending.party.is(party));
    }
}

/// Notes a record. There has to be room for it.
pub fn note(order: &mut Vec<PendingRecord>, pending: PendingRecord, manner: Manner)
    requires { vec_len order.old < vec_capacity order.old }
    ensures { order.new.items ≡ noted manner pending order.old.items }
{
    match manner {
        Manner::Append => order.push_reserved(pending),
        Manner::Force => settle(order, pending.party),
    }
}

/// Notes the same record for each of `count` participants in a row, from one on.
pub fn note_each(
    order: &mut Vec<PendingRecord>,
    first: usize,
    count: usize,
    entry: Record,
    manner: Manner,
) -> Result<(), AllocError>
    requires { first + count ≤ usize.MAX }
    ensures { OnOk result (order.new.items ≡ noted_each manner entry first count order.old.items) }
{
    match manner {
        // Nearly every force finds nothing pending.
        Manner::Force if order.is_empty() => return Ok(()),
        Manner::Append | Manner::Force => {}
    }
    for number in first..first + count {
        order.reserve(1)?;
        let party = Party::Participant(number);
        note(order, PendingRecord { party, entry }, manner);
    }
    Ok(())
}

/// The answers for the pending records of one party, from the answers for those of all parties.
pub fn answer(
    party: Party,
    order: &[PendingRecord],
    keep: &[bool],
    answers: &mut Vec<bool>,
) -> Result<(), AllocError>
    ensures { OnOk result (answers.new.items ≡ answers_of party order.now keep.now) }
{
    answers.clear();
    for place in 0..order.len().min(keep.len()) {
        if order[place].party.is(party) {
            answers.push(keep[place])?;
        }
    }
    Ok(())
}
