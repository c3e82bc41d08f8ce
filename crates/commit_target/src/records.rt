//! Records, and whose they are.
ghost use Rattle.std.specs.Prelude.{◌≡◌};
ghost use Rattle.commit_target.specs.Writes.{is_party};

/// What a record says of its transaction.
#[derive(Clone, Copy, Debug, PartialEq, Eq)]
pub enum Kind {
    /// A participant is prepared to commit.
    Prepare,
    /// The transaction is committed.
    Commit,
    /// A participant knows that the transaction is aborted.
    Abort,
    /// The coordinator may forget the transaction.
    End,
}

/// A record of a log.
#[derive(Clone, Copy, Debug, PartialEq, Eq)]
pub struct Record {
    /// The number of the transaction, from 0.
    pub transaction: usize,
    pub kind: Kind,
}

/// Whose log it is. Participants are numbered from 0.
#[derive(Clone, Copy, Debug, PartialEq, Eq)]
pub enum Party {
    Coordinator,
    Participant(usize),
}

impl Party {
    /// Whether it is this one.
    pub(crate) fn is(self, other: Party) -> bool
        ensures { result ≡ is_party self other }
    {
        match (self, other) {
            (Party::Coordinator, Party::Coordinator) => true,
            (Party::Participant(own), Party::Participant(number)) => own == number,
            (Party::Coordinator, Party::Participant(_))
            | (Party::Participant(_), Party::Coordinator) => false,
        }
    }
}

/// A record after which its log wasn't forced, and whose log that is.
#[derive(Clone, Copy, Debug, PartialEq, Eq)]
pub struct PendingRecord {
    pub party: Party,
    pub entry: Record,
}

/// What is written to a party's log.
#[derive(Clone, Copy, Debug, PartialEq, Eq)]
pub enum Write {
    /// A record that does not last yet.
    Append(Party, Record),
    /// A record that lasts, with all records before it in that log.
    Force(Party, Record),
}
