//! An attempt at a message, and the names that it uses.
ghost use Rattle.std.specs.Prelude.{◌≡◌};
ghost use Rattle.maildir_target.specs.Steps.{named_by};
ghost use Rattle.maildir_target.specs.Words.{written_folder, written_name};
ghost use Rattle.maildir_target.specs.inside.Seen.{IsNamed, written_of_delivery, new_of_delivery};

use crate::messages::Messages;
use crate::name::{Attempt, Folder, Name, new_name};
use crate::variant::Variant;
use scenario_values::Chunks;

/// An attempt at a message.
#[derive(Clone, Copy)]
pub struct Delivery<'w> {
    pub variant: Variant,
    // all messages of the run
    pub messages: &'w Messages,
    // the number of this message, from 1
    pub message: u16,
    pub attempt: Attempt,
    pub chunks: &'w Chunks,
    // the messages after it
    pub rest: &'w [Chunks],
    // the name that it writes, which most of its steps use
    pub written: u32,
}

/// The attempt whose names this attempt uses.
fn named_by(variant: Variant, attempt: Attempt) -> Attempt
    ensures { result ≡ named_by variant attempt }
{
    match variant {
        Variant::AppendTmp => Attempt::First,
        Variant::Sound | Variant::LinkFirst | Variant::IgnoreWrite | Variant::DeliverInNew => {
            attempt
        }
    }
}

/// The folder in which a message is written.
fn written_folder(variant: Variant) -> Folder
    ensures { result ≡ written_folder variant }
{
    match variant {
        Variant::DeliverInNew => Folder::New,
        Variant::Sound | Variant::LinkFirst | Variant::IgnoreWrite | Variant::AppendTmp => {
            Folder::Tmp
        }
    }
}

/// The name that an attempt at a message writes.
pub fn written_of(variant: Variant, message: u16, attempt: Attempt) -> u32
    ensures { result ≡ written_name variant message (named_by variant attempt) }
{
    let name = Name {
        folder: written_folder(variant),
        message,
        attempt: named_by(variant, attempt),
    };
    name.number()
}

impl Delivery<'_> {
    /// The name that it writes.
    pub fn written(&self) -> u32
        requires { IsNamed self.now }
        ensures { result ≡ written_of_delivery self.now }
    {
        self.written
    }

    /// The name under `new/`.
    pub fn delivered(&self) -> u32
        ensures { result ≡ new_of_delivery self.now }
    {
        new_name(self.message, named_by(self.variant, self.attempt))
    }
}
