//! What logs say of 64 transactions in a row, as sets of transactions. A set is a word with a bit for each transaction.
ghost use Rattle.std.specs.Prelude.{◌≡◌, ◌<◌, ◌+◌, ◌==◌, ◌∷◌, ◌++◌, ℕ, List, [], slice_index};
ghost use Rattle.commit_target.specs.declared.records.Record.{Record};
ghost use Rattle.commit_target.specs.Judgement.{was_told};
ghost use Rattle.commit_target.specs.inside.Marks.{among, place_of, AreMarks};

use crate::records::{Kind, Record};

/// How many transactions a set can have.
pub(crate) const WIDTH: usize = 64;

/// Whether the transaction at this place is in a set.
pub(crate) fn among(set: u64, place: usize) -> bool
    requires { place < WIDTH }
    ensures { result ≡ among set place }
{
    set >> place & 1 == 1
}

/// The set with this one transaction. Places are counted from the transaction `first` on.
fn only(transaction: usize, first: usize) -> u64
    ensures { (k : ℕ) → k < WIDTH → among result k ≡ (transaction == first + k) }
{
    if transaction >= first && transaction - first < WIDTH {
        1 << (transaction - first)
    } else {
        0
    }
}

/// The set with these transactions. Places are counted from the transaction `first` on.
pub(crate) fn set_of(transactions: &[usize], first: usize) -> u64
    ensures { (k : ℕ) → k < WIDTH → among result k ≡ was_told transactions.now (first + k) }
{
    let mut set = 0;
    for transaction in transactions {
        set |= only(*transaction, first);
    }
    set
}

/// The place of a kind among the sets of a log.
fn place_of(kind: Kind) -> usize
    ensures { result ≡ place_of kind }
{
    match kind {
        Kind::Prepare => 0,
        Kind::Commit => 1,
        Kind::Abort => 2,
        Kind::End => 3,
    }
}

/// The transactions of which a log has records, a set for each kind. One walk of the log finds them.
#[derive(Clone, Copy)]
pub(crate) struct Marks {
    sets: [u64; 4],
}

impl Marks {
    /// The marks of a log, for the transactions from `first` on.
    // The sets stand in an array, since a branch on the kind of each record would be mispredicted every other time.
    pub fn of(log: &[Record], first: usize) -> Marks
        ensures { AreMarks result.sets log.now first }
    {
        let mut sets = [0; 4];
        for record in log {
            sets[place_of(record.kind)] |= only(record.transaction, first);
        }
        Marks { sets }
    }

    /// The marks of a log without a record.
    pub fn none() -> Marks
        ensures { (first : ℕ) → AreMarks result.sets [] first }
    {
        Marks { sets: [0; 4] }
    }

    /// Sets the transaction's bit in the set of records of this kind. Places are counted from the transaction `first` on.
    #[inline(always)]
    pub fn add(&mut self, entry: Record, first: usize)
        ensures { (log : List Record) → AreMarks self.old.sets log first → AreMarks self.new.sets (log ++ entry ∷ []) first }
    {
        self.sets[place_of(entry.kind)] |= only(entry.transaction, first);
    }

    /// The transactions with a record of this kind.
    pub fn with(&self, kind: Kind) -> u64
        ensures { result ≡ slice_index self.now.sets (place_of kind) }
    {
        self.sets[place_of(kind)]
    }
}
