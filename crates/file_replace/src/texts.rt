//! The texts that say what pending writes did.
ghost use Rattle.std.specs.Prelude.{◌≡◌, map, string_bytes, IfOk};
ghost use Rattle.file_replace.specs.Words.{name_text};
ghost use Rattle.file_replace.specs.Crash.{call_text, call_texts};

use crate::disk::Name;
use sim_device::{Call, PendingWrite};
use std::alloc::{AllocError, Global};

/// The text of a name, by its number on the device.
fn name_text(name: u32) -> &'static str
    ensures { result.now ≡ name_text name }
{
    if name == Name::Target.number() {
        "target"
    } else {
        "tmp"
    }
}

/// What a call did.
fn call_text(alloc: Global, call: Call) -> Result<String, AllocError>
    ensures { IfOk result (λ text. string_bytes text ≡ call_text call) }
{
    match call {
        Call::Create(name) => format!(in alloc; "create {}", name_text(name)),
        Call::Append(name, place) => format!(in alloc; "append {} {place}", name_text(name)),
        Call::WriteAt(name, place) => format!(in alloc; "write {} {place}", name_text(name)),
        Call::Truncate(name, count) => format!(in alloc; "truncate {} {count}", name_text(name)),
        Call::Rename(from, to) => {
            format!(in alloc; "rename {} {}", name_text(from), name_text(to))
        }
        Call::Link(from, to) => format!(in alloc; "link {} {}", name_text(from), name_text(to)),
        Call::Unlink(name) => format!(in alloc; "unlink {}", name_text(name)),
    }
}

/// What each write did. An error means that memory was refused.
pub fn call_texts(alloc: Global, writes: &[PendingWrite]) -> Result<Vec<String>, AllocError>
    ensures { IfOk result (λ texts. map string_bytes texts.items ≡ call_texts writes.now) }
{
    let mut texts = Vec::new(alloc);
    for write in writes {
        texts.push(call_text(alloc, write.call())?)?;
    }
    Ok(texts)
}
