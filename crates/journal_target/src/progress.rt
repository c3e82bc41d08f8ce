//! How far a run has come.
ghost use Rattle.std.specs.Prelude.{◌≡◌, ◌+◌, OnOk};
ghost use Rattle.journal_target.specs.Steps.{last_step, append_step, at_step, number, appended, synced, acknowledged, begun, before_all};

use crate::file::File;
use crate::step::Step;
use crate::variant::Variant;
use crate::work::Transactions;
use std::alloc::{AllocError, Global};
use std::marker::Model;

/// The step after the last record of a transaction.
fn last_step(variant: Variant) -> Step
    ensures { result ≡ last_step variant }
{
    match variant {
        Variant::Sound | Variant::EarlyAck => Step::SyncingRecords,
        Variant::NoCommitRecord => Step::Syncing,
        Variant::OneSync => Step::Committing,
    }
}

/// The step for the record at this place, of this many; or the step after the last record.
fn append_step(variant: Variant, place: usize, count: usize) -> Step
    ensures { result ≡ append_step variant place count }
{
    if place < count {
        Step::Appending(place)
    } else {
        last_step(variant)
    }
}

/// The step after the record at this place, of this many.
fn next_step(variant: Variant, place: usize, count: usize) -> Step
    ensures { result ≡ append_step variant (place + 1) count }
{
    // The first test bounds the sum.
    if place < count && place + 1 < count {
        Step::Appending(place + 1)
    } else {
        last_step(variant)
    }
}

/// How far a run has come: the step that is asked for next, the transaction under way, the transactions that were acknowledged, and the file.
#[derive(Drop)]
pub struct Progress {
    step: Step,
    index: u8,
    acknowledged: Vec<u8>,
    file: File,
}

impl Model for Progress {
    ghost use Rattle.std.specs.Prelude.{◌≤◌};
    ghost use Rattle.journal_target.specs.Steps.{Progress};

    ghost Value = { Progress };

    ghost view = { λ p. record { step = p.step; index = p.index; acknowledged = p.acknowledged.items; file = p.file } };

    ghost invariant = { λ p. p.index ≤ 100 };
}

impl Progress {
    /// Before the first transaction. It takes no memory.
    pub fn new(alloc: Global) -> Self
        ensures { result ≡ before_all }
    {
        Progress {
            step: Step::Over,
            index: 0,
            acknowledged: Vec::new(alloc),
            file: File::new(alloc),
        }
    }

    /// The step that is asked for next.
    pub fn step(&self) -> Step
        ensures { result ≡ self.now.step }
    {
        self.step
    }

    /// The place of the transaction under way in the workload, from 0.
    pub fn index(&self) -> u8
        ensures { result ≡ self.now.index }
    {
        self.index
    }

    /// The number of the transaction under way, from 1.
    pub fn number(&self) -> u8
        ensures { result ≡ number self.now }
    {
        self.index + 1
    }

    /// The transactions acknowledged so far.
    pub fn acknowledged(&self) -> &[u8]
        ensures { result.now ≡ self.now.acknowledged }
    {
        self.acknowledged.as_slice()
    }

    /// The file, with what is pending.
    pub(crate) fn file(&self) -> &File
        ensures { result.now ≡ self.now.file }
    {
        &self.file
    }

    /// Appends bytes to the file. An error means that memory was refused.
    pub fn append(&mut self, bytes: &[u8]) -> Result<(), AllocError>
        ensures { OnOk result (self.new ≡ appended bytes.now self.old) }
    {
        self.file.append(bytes)
    }

    /// Syncs the file.
    pub fn sync(&mut self)
        ensures { self.new ≡ synced self.old }
    {
        self.file.sync();
    }

    /// Acknowledges the transaction under way.
    pub fn acknowledge(&mut self) -> Result<(), AllocError>
        ensures { OnOk result (self.new ≡ acknowledged self.old) }
    {
        let number = self.number();
        self.acknowledged.push(number)?;
        Ok(())
    }

    /// Goes on to a step.
    pub fn go_to(&mut self, step: Step)
        ensures { self.new ≡ at_step step self.old }
    {
        self.step = step;
    }

    /// Goes on after the record at this place, of this many.
    pub fn go_after(&mut self, variant: Variant, place: usize, count: usize)
        ensures { self.new ≡ at_step (append_step variant (place + 1) count) self.old }
    {
        self.step = next_step(variant, place, count);
    }

    /// Begins the transaction at this place, if there is one.
    pub fn begin(&mut self, variant: Variant, workload: &Transactions, index: u8)
        ensures { self.new ≡ begun variant workload.now index self.old }
    {
        if usize::from(index) < workload.as_slice().len() {
            let count = workload.records(index).len();
            self.index = index;
            self.step = append_step(variant, 0, count);
        } else {
            self.step = Step::Over;
        }
    }

    /// Begins the transaction after the one under way, if there is one.
    pub fn begin_next(&mut self, variant: Variant, workload: &Transactions)
        ensures { self.new ≡ begun variant workload.now (self.old.index + 1) self.old }
    {
        self.begin(variant, workload, self.index + 1);
    }
}
