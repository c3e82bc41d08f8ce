//! The workload: messages in chunks.
ghost use Rattle.std.specs.Prelude.{◌≡◌, ◌≤◌, length};

use scenario_values::Chunks;
use std::marker::Model;

/// The workload of a run: the messages in order, at most 1,000, each in chunks. Each chunk is written by a step of its own.
#[derive(Debug, Drop)]
pub struct Messages {
    messages: Vec<Chunks>,
}

impl Model for Messages {
    ghost use Rattle.std.specs.Prelude.{List, ℕ};
    ghost use Rattle.maildir_target.specs.inside.Work.{IsMessages};

    ghost Value = { List (List (List ℕ)) };

    ghost view = { λ m. m.messages.items };

    ghost invariant = { λ m. IsMessages m.messages.items };
}

impl Messages {
    /// A workload of these messages, at most 1,000, which are moved in. It takes no memory.
    pub fn new(messages: Vec<Chunks>) -> Self
        requires { length messages.items ≤ 1000 }
        ensures { result ≡ messages.items }
    {
        Messages { messages }
    }

    /// The messages, in order.
    pub fn as_slice(&self) -> &[Chunks]
        ensures is { result.now ≡ self.now }
        ensures few { length result.now ≤ 1000 }
    {
        self.messages.as_slice()
    }
}
