//! The names of a mailbox, as numbers.
ghost use Rattle.std.specs.Prelude.{◌≡◌, ◌≤◌};
ghost use Rattle.maildir_target.specs.Words.{number_of, folder_part, attempt_part, new_name, name_text, text_of};
ghost use Rattle.maildir_target.specs.declared.name.Name.{Name};

/// A folder of the mailbox.
#[derive(Clone, Copy)]
pub enum Folder {
    /// The folder in which a message is written.
    Tmp,
    /// The folder to which it is delivered.
    New,
}

/// An attempt at one message. There are at most two.
#[derive(Clone, Copy)]
pub enum Attempt {
    First,
    Second,
}

impl Folder {
    fn part(self) -> u32
        ensures is { result ≡ folder_part self }
        ensures small { result ≤ 1 }
    {
        match self {
            Folder::Tmp => 0,
            Folder::New => 1,
        }
    }
}

impl Attempt {
    fn part(self) -> u32
        ensures is { result ≡ attempt_part self }
        ensures small { result ≤ 2 }
    {
        match self {
            Attempt::First => 0,
            Attempt::Second => 2,
        }
    }
}

/// The name `tmp/i.a` or `new/i.a` of message i, numbered from 1, and attempt a.
#[derive(Clone, Copy)]
pub struct Name {
    pub folder: Folder,
    pub message: u16,
    pub attempt: Attempt,
}

impl Name {
    /// The number that stands for the name on the device.
    pub fn number(self) -> u32
        ensures { result ≡ number_of self }
    {
        4 * u32::from(self.message) + self.attempt.part() + self.folder.part()
    }
}

/// The number of the name of a message under `new/`.
pub fn new_name(message: u16, attempt: Attempt) -> u32
    ensures { result ≡ new_name message attempt }
{
    let name = Name {
        folder: Folder::New,
        message,
        attempt,
    };
    name.number()
}

/// The text that is made from a name's number is the name's: `tmp/i.a` or `new/i.a`, for message i and attempt a, both numbered from 1.
pub fn names_are_told()
    ensures { (name : Name) → name_text (number_of name) ≡ text_of name }
{}

/// No two names have the same number.
pub fn names_are_apart()
    ensures { (a b : Name) → number_of a ≡ number_of b → a ≡ b }
{}
