//! The workload: transactions, and what each participant wishes.
ghost use Rattle.std.specs.Prelude.{◌≡◌, ◌+◌, ◌-◌, ◌<◌, ◌≤◌, ℕ, [], length, slice_index_or, All};
ghost use Rattle.commit_target.specs.declared.work.Vote.TheVariants.{No};
ghost use Rattle.commit_target.specs.Work.{wish};
ghost use Rattle.commit_target.specs.inside.Seen.{AllYes, WishYes};

use std::marker::Model;

/// What a participant wishes, or votes.
#[derive(Clone, Copy, Debug, PartialEq, Eq)]
pub enum Vote {
    Yes,
    No,
}

/// The wishes of a transaction, one for each participant.
#[derive(Debug, Drop)]
pub struct Votes {
    votes: Vec<Vote>,
    // How many participants in a row wish yes, from the first one on. Each run needs it, so it is counted once.
    willing: usize,
}

impl Model for Votes {
    ghost use Rattle.std.specs.Prelude.{List, ◌≤◌, length};
    ghost use Rattle.commit_target.specs.declared.work.Vote.{Vote};
    ghost use Rattle.commit_target.specs.inside.Seen.{AllYes};

    ghost Value = { List Vote };

    ghost view = { λ v. v.votes.items };

    ghost invariant = { λ v. (v.willing ≤ length v.votes.items) × AllYes v.votes.items 0 v.willing };
}

impl Votes {
    /// A transaction of these wishes, which are moved in. It takes no memory.
    pub fn new(votes: Vec<Vote>) -> Self
        ensures { result ≡ votes.items }
    {
        let willing = yes_from(votes.as_slice(), 0);
        Votes { votes, willing }
    }

    /// The wishes, in the order of the participants.
    pub fn as_slice(&self) -> &[Vote]
        ensures { result.now ≡ self.now }
    {
        self.votes.as_slice()
    }

    /// How many in a row wish yes, from this participant on.
    fn willing(&self, first: usize) -> usize
        ensures there { result ≤ length self.now - first }
        ensures yes { AllYes self.now first result }
    {
        if first < self.willing {
            self.willing - first
        } else {
            yes_from(self.votes.as_slice(), first)
        }
    }
}

/// The wish at a place. A participant that isn't there wishes no.
fn wish_at(votes: &[Vote], place: usize) -> Vote
    ensures { result ≡ slice_index_or votes.now place No }
{
    votes.get(place).copied().unwrap_or(Vote::No)
}

/// How many wishes in a row are yes, from this one on.
fn yes_from(votes: &[Vote], first: usize) -> usize
    ensures there { result ≤ length votes.now - first }
    ensures yes { AllYes votes.now first result }
{
    for place in first..votes.len() {
        match wish_at(votes, place) {
            Vote::Yes => {}
            Vote::No => return place - first,
        }
    }
    votes.len().saturating_sub(first)
}

/// The workload of a run: how many participants there are, 1 to 8, and the transactions in order, at most 100, each with one wish for
/// each participant.
#[derive(Debug, Drop)]
pub struct Transactions {
    participants: usize,
    transactions: Vec<Votes>,
}

impl Model for Transactions {
    ghost use Rattle.commit_target.specs.Work.{Work, IsWork};

    ghost Value = { Work };

    ghost view = { λ w. record { participants = w.participants; transactions = w.transactions.items } };

    ghost invariant = { λ w. IsWork (record { participants = w.participants; transactions = w.transactions.items }) };
}

impl Transactions {
    /// A workload of these transactions, which are moved in. It takes no memory.
    pub fn new(participants: usize, transactions: Vec<Votes>) -> Self
        requires some { 1 ≤ participants }
        requires few { participants ≤ 8 }
        requires short { length transactions.items ≤ 100 }
        requires wishes { All (λ votes. length votes ≡ participants) transactions.items }
        ensures { result ≡ record { participants = participants; transactions = transactions.items } }
    {
        Transactions {
            participants,
            transactions,
        }
    }

    /// How many participants there are: at least one.
    pub fn participants(&self) -> usize
        ensures count { result ≡ self.now.participants }
        ensures some { 1 ≤ result }
    {
        self.participants
    }

    /// How many transactions there are.
    pub fn len(&self) -> usize
        ensures { result ≡ length self.now.transactions }
    {
        self.transactions.len()
    }

    /// The wishes of a transaction. One that isn't there has none.
    fn wishes(&self, transaction: usize) -> &[Vote]
        ensures { result.now ≡ slice_index_or self.now.transactions transaction [] }
    {
        match self.transactions.get(transaction) {
            Some(votes) => votes.as_slice(),
            None => &[],
        }
    }

    /// The wish of a participant in a transaction, both numbered from 0. A participant that isn't there wishes no.
    pub fn wish(&self, transaction: usize, participant: usize) -> Vote
        ensures { result ≡ wish self.now transaction participant }
    {
        wish_at(self.wishes(transaction), participant)
    }

    /// How many participants in a row, from this one on, wish yes in a transaction.
    pub(crate) fn willing(&self, transaction: usize, first: usize) -> usize
        requires { first ≤ self.now.participants }
        ensures within { first + result ≤ self.now.participants }
        ensures yes { WishYes self.now transaction first result }
    {
        let Some(votes) = self.transactions.get(transaction) else {
            return 0;
        };
        votes.willing(first)
    }
}
