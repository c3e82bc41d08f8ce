//! The texts that say what pending writes did.
ghost use Rattle.std.specs.Prelude.{◌≡◌, map, string_bytes, Some, IfOk};
ghost use Rattle.maildir_target.specs.Words.{name_text};
ghost use Rattle.maildir_target.specs.Crash.{call_text, call_texts};

use sim_device::{Call, PendingWrite};
use std::alloc::{AllocError, Global};
use std::fmt;

/// A name, by its number on the device.
#[derive(Clone, Copy)]
struct Numbered(u32);

impl fmt::Display for Numbered {
    ghost output = { λ name. Some (name_text name.0) };

    fn fmt<W: fmt::Write>(&self, f: &mut fmt::Formatter<W>) -> fmt::Result {
        let number = self.0;
        let folder = if number % 2 == 0 { "tmp" } else { "new" };
        write!(f, "{folder}/{}.{}", number / 4, number / 2 % 2 + 1)
    }
}

/// What a call did.
fn call_text(alloc: Global, call: Call) -> Result<String, AllocError>
    ensures { IfOk result (λ text. string_bytes text ≡ call_text call) }
{
    match call {
        Call::Create(name) => format!(in alloc; "create {}", Numbered(name)),
        Call::Append(name, place) => format!(in alloc; "append {} {place}", Numbered(name)),
        Call::WriteAt(name, place) => format!(in alloc; "write {} {place}", Numbered(name)),
        Call::Truncate(name, count) => format!(in alloc; "truncate {} {count}", Numbered(name)),
        Call::Rename(from, to) => {
            format!(in alloc; "rename {} {}", Numbered(from), Numbered(to))
        }
        Call::Link(from, to) => format!(in alloc; "link {} {}", Numbered(from), Numbered(to)),
        Call::Unlink(name) => format!(in alloc; "unlink {}", Numbered(name)),
    }
}

/// What each write did. An error means that memory was refused.
pub fn call_texts(alloc: Global, writes: &[PendingWrite]) -> Result<Vec<String>, AllocError>
    ensures { IfOk result (λ texts. map string_bytes texts.items ≡ call_texts writes.now) }
{
    let mut texts = Vec::new(alloc);
    for write in writes {
        texts.push(call_text(alloc, write.call())?)?;
    }
    Ok(texts)
}
