//! The texts that say what pending records are.
ghost use Rattle.std.specs.Prelude.{◌≡◌, map, string_bytes, Some, IfOk};
ghost use Rattle.commit_target.specs.Words.{party_text, kind_text};
ghost use Rattle.commit_target.specs.Crash.{call_text, call_texts};

use crate::records::{Kind, Party, PendingRecord};
use std::alloc::{AllocError, Global};
use std::fmt;

impl fmt::Display for Party {
    ghost output = { λ party. Some (party_text party) };

    fn fmt<W: fmt::Write>(&self, f: &mut fmt::Formatter<W>) -> fmt::Result {
        match self {
            Party::Coordinator => f.write_str("coordinator"),
            // no run has such a number, but otherwise the sum might be too large
            Party::Participant(number) => write!(f, "participant {}", *number as u128 + 1),
        }
    }
}

/// What a record of this kind is called.
fn kind_text(kind: Kind) -> &'static str
    ensures { result.now ≡ kind_text kind }
{
    match kind {
        Kind::Prepare => "prepare",
        Kind::Commit => "commit",
        Kind::Abort => "abort",
        Kind::End => "end",
    }
}

/// What a pending record says, and in whose log.
fn call_text(alloc: Global, pending: PendingRecord) -> Result<String, AllocError>
    ensures { IfOk result (λ text. string_bytes text ≡ call_text pending) }
{
    let party = pending.party;
    let kind = kind_text(pending.entry.kind);
    let transaction = pending.entry.transaction as u128 + 1;
    format!(in alloc; "append {party} {kind} {transaction}")
}

/// What each pending record says. An error means that memory was refused.
pub fn call_texts(alloc: Global, records: &[PendingRecord]) -> Result<Vec<String>, AllocError>
    ensures { IfOk result (λ texts. map string_bytes texts.items ≡ call_texts records.now) }
{
    let mut texts = Vec::new(alloc);
    for pending in records {
        texts.push(call_text(alloc, *pending)?)?;
    }
    Ok(texts)
}
