//! How far a run has come.
ghost use Rattle.std.specs.Prelude.{◌≡◌, ◌+◌, ◌<◌, ◌≤◌, if◌then◌else◌, OnOk, OnErr, length, slice_index_or};
ghost use Rattle.commit_target.specs.Work.{Work};
ghost use Rattle.commit_target.specs.Steps.{Over, at_step, with_told, with_vote, with_yes, unacknowledged, entry, number, opened, before_all, begun};
ghost use Rattle.commit_target.specs.Steps.{prepare_write, early_write, end_write, after_phase};
ghost use Rattle.commit_target.specs.inside.Batches.{with_all_yes};

use crate::records::{Kind, Party, Record, Write};
use crate::variant::Variant;
use crate::work::Vote;
use std::alloc::{AllocError, Global};
use std::marker::Model;

/// The most first participants that are counted: as many as a workload may have.
const MOST: usize = 8;

/// How far the transactions of a run have come. The step within one is the place in the code, and isn't kept here.
#[derive(Drop)]
pub struct Progress {
    begun: usize,
    // The number of the transaction under way, which each record has.
    number: usize,
    // The participants whose yes arrived are mostly the first ones. This counts those; only others are listed.
    front: usize,
    rest: Vec<usize>,
    acknowledged: bool,
    told: Vec<usize>,
}

impl Model for Progress {
    ghost use Rattle.std.specs.Prelude.{◌≡◌, ◌++◌, ◌≤◌, ◌-◌};
    ghost use Rattle.commit_target.specs.Steps.{Tally, Over};
    ghost use Rattle.commit_target.specs.inside.Batches.{first_ones};

    ghost Value = { Tally };

    ghost view = { λ p. record {
      step = Over;
      begun = p.begun;
      yes = first_ones p.front ++ p.rest.items;
      acknowledged = p.acknowledged;
      told = p.told.items;
    } };

    ghost invariant = { λ p. (p.number ≡ p.begun - 1) × (p.front ≤ 8) };
}

impl Progress {
    /// Before the first transaction. It takes no memory.
    pub fn new(alloc: Global) -> Self
        ensures { result ≡ before_all }
    {
        Progress {
            begun: 0,
            number: 0,
            front: 0,
            rest: Vec::new(alloc),
            acknowledged: true,
            told: Vec::new(alloc),
        }
    }

    /// Before the first transaction again. What was there is forgotten; its memory is used again.
    pub fn clear(&mut self)
        ensures { self.new ≡ before_all }
    {
        self.begun = 0;
        self.number = 0;
        self.front = 0;
        self.rest.clear();
        self.acknowledged = true;
        self.told.clear();
    }

    /// How many transactions were begun.
    pub fn begun(&self) -> usize
        ensures { result ≡ self.now.begun }
    {
        self.begun
    }

    /// The transactions of which the client was told that they are committed.
    pub fn told(&self) -> &[usize]
        ensures { result.now ≡ self.now.told }
    {
        self.told.as_slice()
    }

    /// The number of the transaction under way.
    pub fn number(&self) -> usize
        ensures { result ≡ number self.now }
    {
        self.number
    }

    /// How many participants' yes arrived.
    pub fn voters(&self) -> usize
        ensures { result ≡ length self.now.yes }
    {
        self.front + self.rest.len()
    }

    /// The participant at this place among those whose yes arrived.
    pub fn voter(&self, place: usize) -> usize
        ensures { result ≡ slice_index_or self.now.yes place 0 }
    {
        if place < self.front {
            place
        } else {
            self.rest.get(place - self.front).copied().unwrap_or(0)
        }
    }

    /// Begins the next transaction.
    pub fn begin(&mut self)
        requires { self.old.begun < usize.MAX }
        ensures { self.new ≡ opened self.old }
    {
        self.number = self.begun;
        self.begun += 1;
        self.front = 0;
        self.rest.clear();
        self.acknowledged = true;
    }

    /// Notes that the yes of a participant arrived.
    fn take_one(&mut self, participant: usize) -> Result<(), AllocError>
        ensures ok { OnOk result (self.new ≡ with_yes self.old participant) }
        ensures err { OnErr result (self.new ≡ self.old) }
    {
        if participant == self.front && participant < MOST && self.rest.is_empty() {
            self.front += 1;
        } else {
            self.rest.push(participant)?;
        }
        Ok(())
    }

    /// Notes that a vote arrived.
    pub fn take_vote(&mut self, participant: usize, vote: Vote) -> Result<(), AllocError>
        ensures ok { OnOk result (self.new ≡ with_vote self.old participant vote) }
        ensures err { OnErr result (self.new ≡ self.old) }
    {
        match vote {
            Vote::Yes => self.take_one(participant),
            Vote::No => Ok(()),
        }
    }

    /// Notes that the yes of each of `count` participants in a row arrived, from one on.
    pub fn take_yes(&mut self, first: usize, count: usize) -> Result<(), AllocError>
        requires { first + count ≤ usize.MAX }
        ensures begun { self.new.begun ≡ self.old.begun }
        ensures ok { OnOk result (self.new ≡ with_all_yes self.old first count) }
    {
        if first == self.front && first + count <= MOST && self.rest.is_empty() {
            self.front = first + count;
            return Ok(());
        }
        for participant in first..first + count {
            self.take_one(participant)?;
        }
        Ok(())
    }

    /// Notes that the client is told that the transaction under way is committed.
    pub fn tell(&mut self) -> Result<(), AllocError>
        ensures ok { OnOk result (self.new ≡ with_told self.old) }
        ensures err { OnErr result (self.new ≡ self.old) }
    {
        let number = self.number();
        self.told.push(number)?;
        Ok(())
    }

    /// Notes that an acknowledgement is missing.
    pub fn miss(&mut self)
        ensures { self.new ≡ unacknowledged self.old }
    {
        self.acknowledged = false;
    }

    /// A record of the transaction under way.
    pub fn entry(&self, kind: Kind) -> Record
        ensures { result ≡ entry self.now kind }
    {
        Record {
            transaction: self.number(),
            kind,
        }
    }

    /// How a participant writes its prepare record.
    pub fn prepare_write(&self, variant: Variant, participant: usize) -> Write
        ensures { result ≡ prepare_write variant self.now participant }
    {
        let party = Party::Participant(participant);
        let entry = self.entry(Kind::Prepare);
        match variant {
            Variant::LazyPrepare => Write::Append(party, entry),
            Variant::Sound | Variant::EarlyEnd | Variant::TwoTries | Variant::EndFirst => {
                Write::Force(party, entry)
            }
        }
    }

    /// How the coordinator ends a commit before anybody is told of it.
    pub fn early_write(&self, variant: Variant) -> Option<Write>
        ensures { result ≡ early_write variant self.now }
    {
        match variant {
            Variant::EndFirst => Some(Write::Append(Party::Coordinator, self.entry(Kind::End))),
            Variant::Sound | Variant::LazyPrepare | Variant::EarlyEnd | Variant::TwoTries => None,
        }
    }

    /// Whether nothing more is asked once the second phase of a commit is over.
    pub fn gives_up(&self, variant: Variant) -> bool
        ensures { (w : Work) → after_phase variant w self.now ≡ (if result then at_step self.now Over else begun w self.now) }
    {
        match variant {
            Variant::EndFirst => !self.acknowledged,
            Variant::Sound | Variant::LazyPrepare | Variant::EarlyEnd | Variant::TwoTries => false,
        }
    }

    /// How the coordinator ends a commit once all were told of it.
    pub fn end_write(&self, variant: Variant) -> Option<Write>
        ensures { result ≡ end_write variant self.now self.now.acknowledged }
    {
        let entry = self.entry(Kind::End);
        match variant {
            Variant::EarlyEnd => Some(Write::Force(Party::Coordinator, entry)),
            Variant::Sound | Variant::LazyPrepare | Variant::TwoTries => {
                if self.acknowledged {
                    Some(Write::Append(Party::Coordinator, entry))
                } else {
                    None
                }
            }
            Variant::EndFirst => None,
        }
    }
}
