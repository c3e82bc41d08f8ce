//! A number to perform.
ghost use Rattle.std.specs.Prelude.{◌≡◌};

use std::marker::Model;

/// A number to perform. It is spent once a worker's job has performed it, and kept if the job refuses.
///
/// A ticket is neither copied nor cloned.
#[derive(Drop, Debug)]
pub struct Ticket {
    number: u32,
}

impl Model for Ticket {
    ghost use Rattle.std.specs.Prelude.{ℕ};

    ghost Value = { ℕ };

    ghost view = { λ ticket. ticket.number };
}

impl Ticket {
    pub(crate) fn new(number: u32) -> Ticket
        ensures { result ≡ number }
    {
        Ticket { number }
    }

    /// The number to perform.
    pub fn number(&self) -> u32
        ensures { result ≡ self.now }
    {
        self.number
    }
}
