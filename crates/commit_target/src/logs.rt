//! The logs of all parties, as one.
ghost use Rattle.std.specs.Prelude.{◌≡◌, ◌<◌, ◌≤◌, ◌+◌, ℕ, true, List, [], ◌∷◌, OnOk, OnErr, length};
ghost use Rattle.sim_device.specs.LogEffects.{Restart, LogStandsFor, AddsLogEffect, RestartsKeeping};
ghost use Rattle.commit_target.specs.declared.records.Party.TheVariants.{Participant};
ghost use Rattle.commit_target.specs.Writes.{Event, Written, AllRestart, LogsStandFor, AddsEvent, log_at};
ghost use Rattle.commit_target.specs.Crash.{answers_of, known_keeping, own_keeping};
ghost use Rattle.commit_target.specs.inside.Batches.{effect_of, write_of, AddsAll, AddsRow};
ghost use Rattle.commit_target.specs.inside.Held.{Holds, StandFor};

use crate::marked::{Manner, MarkedLog};
use crate::order::{answer, note, note_each};
use crate::records::{Party, PendingRecord, Record, Write};
use std::alloc::{AllocError, Global};
use std::marker::Model;

/// The logs of a coordinator and of its participants.
#[derive(Drop)]
pub struct Logs {
    alloc: Global,
    coordinator: MarkedLog,
    participants: Vec<MarkedLog>,
    // Whether the order is noted. A run without its cut needs none.
    notes: bool,
    // The pending records, in the order in which they were made over all logs, which no log knows.
    order: Vec<PendingRecord>,
}

impl Model for Logs {
    ghost use Rattle.commit_target.specs.Writes.{AllLogs};

    ghost Value = { AllLogs };

    ghost view = { λ l. record { coordinator = l.coordinator; participants = l.participants.items; notes = l.notes; pending = l.order.items } };
}

/// Each log is emptied.
fn clear_each(logs: &mut [MarkedLog])
    ensures same { length logs.new ≡ length logs.old }
    ensures empty { (n : ℕ) → n < length logs.old → LogStandsFor (log_at logs.new n) [] }
{
    for number in 0..logs.len() {
        logs[number].clear();
    }
}

/// Makes empty logs for this many participants.
fn clear_first(alloc: Global, logs: &mut Vec<MarkedLog>, count: usize) -> Result<(), AllocError>
    ensures enough { OnOk result (count ≤ length logs.new.items) }
    ensures empty { OnOk result ((n : ℕ) → n < count → LogStandsFor (log_at logs.new.items n) []) }
    ensures err { OnErr result ((n : ℕ) → n < length logs.new.items → LogStandsFor (log_at logs.new.items n) []) }
{
    clear_each(logs.as_mut_slice());
    for _number in logs.len()..count {
        logs.push(MarkedLog::new(alloc))?;
    }
    Ok(())
}

/// Leaves in each log what lasts.
fn restart_each(logs: &mut [MarkedLog])
    ensures same { length logs.new ≡ length logs.old }
    ensures each { (n : ℕ) → n < length logs.old → AddsLogEffect (log_at logs.old n) (log_at logs.new n) Restart }
{
    for number in 0..logs.len() {
        logs[number].restart();
    }
}

/// Leaves in each participant's log what lasts, and what these answers keep of its pending records.
fn keep_each(
    logs: &mut [MarkedLog],
    order: &[PendingRecord],
    keep: &[bool],
    answers: &mut Vec<bool>,
) -> Result<(), AllocError>
    ensures same { OnOk result (length logs.new ≡ length logs.old) }
    ensures each { OnOk result ((n : ℕ) → n < length logs.old
        → RestartsKeeping (log_at logs.old n) (log_at logs.new n) (answers_of (Participant n) order.now keep.now)) }
{
    for number in 0..logs.len() {
        answer(Party::Participant(number), order, keep, answers)?;
        logs[number].restart_keeping(answers.as_slice());
    }
    Ok(())
}

/// Adds a record to the log of a party. A participant without a log writes nothing.
#[inline(always)]
fn add_to(
    coordinator: &mut MarkedLog,
    participants: &mut Vec<MarkedLog>,
    party: Party,
    entry: Record,
    manner: Manner,
) -> Result<(), AllocError>
    ensures ok { OnOk result ((count : ℕ) (es : List Event) → StandFor count coordinator.old participants.old.items es
        → StandFor count coordinator.new participants.new.items (Written (write_of manner party entry) ∷ es)) }
    ensures err { OnErr result ((coordinator.new ≡ coordinator.old) × (participants.new.items ≡ participants.old.items)) }
{
    match party {
        Party::Coordinator => coordinator.add(entry, manner),
        Party::Participant(number) if number < participants.len() => {
            participants[number].add(entry, manner)
        }
        Party::Participant(_) => Ok(()),
    }
}

/// Adds a record to each log from one up to another.
#[inline(always)]
fn add_row(
    logs: &mut [MarkedLog],
    first: usize,
    end: usize,
    entry: Record,
    manner: Manner,
) -> Result<(), AllocError>
    requires { end ≤ length logs.old }
    ensures { OnOk result (AddsRow logs.old logs.new (effect_of manner entry) first end) }
{
    for number in first..end {
        logs[number].add(entry, manner)?;
    }
    Ok(())
}

impl Logs {
    /// The log of a coordinator alone, empty, that notes nothing. It takes no memory.
    pub fn new(alloc: Global) -> Self
        ensures { LogsStandFor 0 result [] }
    {
        Logs {
            alloc,
            coordinator: MarkedLog::new(alloc),
            participants: Vec::new(alloc),
            notes: false,
            order: Vec::new(alloc),
        }
    }

    /// Empties the logs for the coordinator and this many participants. What was there is forgotten; its memory is used again.
    fn begin(&mut self, participants: usize, notes: bool) -> Result<(), AllocError>
        ensures notes { self.new.notes ≡ notes }
        ensures ok { OnOk result (LogsStandFor participants self.new []) }
        ensures err { OnErr result (LogsStandFor (length self.new.participants) self.new []) }
    {
        self.notes = notes;
        self.order.clear();
        self.coordinator.clear();
        clear_first(self.alloc, &mut self.participants, participants)
    }

    /// Empties the logs for the coordinator and this many participants, which then note nothing. What was there is forgotten; its memory is used
    /// again.
    ///
    /// An error means that memory was refused: the logs that are there are empty, and those of some participants are missing.
    pub fn clear(&mut self, participants: usize) -> Result<(), AllocError>
        ensures ok { OnOk result (LogsStandFor participants self.new []) }
        ensures err { OnErr result (LogsStandFor (length self.new.participants) self.new []) }
    {
        self.begin(participants, false)
    }

    /// The same for logs that note which records are pending.
    pub(crate) fn clear_to_note(&mut self, participants: usize) -> Result<(), AllocError>
        ensures notes { self.new.notes ≡ true }
        ensures ok { OnOk result (LogsStandFor participants self.new []) }
        ensures err { OnErr result (LogsStandFor (length self.new.participants) self.new []) }
    {
        self.begin(participants, true)
    }

    /// Adds a record to the log of a party. A participant without a log writes nothing.
    #[inline(always)]
    fn add(&mut self, party: Party, entry: Record, manner: Manner) -> Result<(), AllocError>
        ensures notes { self.new.notes ≡ self.old.notes }
        ensures ok { OnOk result (AddsEvent self.old self.new (Written (write_of manner party entry))) }
        ensures err { OnErr result (self.new ≡ self.old) }
    {
        if self.notes {
            return self.add_noted(party, entry, manner);
        }
        add_to(
            &mut self.coordinator,
            &mut self.participants,
            party,
            entry,
            manner,
        )?;
        Ok(())
    }

    /// Adds a record to the log of a party, and notes it.
    fn add_noted(&mut self, party: Party, entry: Record, manner: Manner) -> Result<(), AllocError>
        ensures notes { self.new.notes ≡ self.old.notes }
        ensures ok { OnOk result (AddsEvent self.old self.new (Written (write_of manner party entry))) }
        ensures err { OnErr result (self.new ≡ self.old) }
    {
        self.order.reserve(1)?;
        add_to(
            &mut self.coordinator,
            &mut self.participants,
            party,
            entry,
            manner,
        )?;
        note(&mut self.order, PendingRecord { party, entry }, manner);
        Ok(())
    }

    /// Does a write. A participant without a log writes nothing.
    ///
    /// An error means that memory was refused. The logs are as they were.
    #[inline(always)]
    pub fn write(&mut self, write: Write) -> Result<(), AllocError>
        ensures notes { self.new.notes ≡ self.old.notes }
        ensures ok { OnOk result (AddsEvent self.old self.new (Written write)) }
        ensures err { OnErr result (self.new ≡ self.old) }
    {
        match write {
            Write::Append(party, entry) => self.add(party, entry, Manner::Append),
            Write::Force(party, entry) => self.add(party, entry, Manner::Force),
        }
    }

    /// Adds a record to the logs of `count` participants in a row, from one on. A participant without a log writes nothing.
    ///
    /// An error means that memory was refused: some of them may have the record.
    #[inline(always)]
    pub(crate) fn add_each(
        &mut self,
        first: usize,
        count: usize,
        entry: Record,
        manner: Manner,
    ) -> Result<(), AllocError>
        requires { first + count ≤ usize.MAX }
        ensures notes { self.new.notes ≡ self.old.notes }
        ensures adds { OnOk result (AddsAll self.old self.new (λ i. write_of manner (Participant i) entry) first count) }
    {
        let end = self.participants.len().min(first + count);
        add_row(self.participants.as_mut_slice(), first, end, entry, manner)?;
        if !self.notes {
            return Ok(());
        }
        note_each(&mut self.order, first, count, entry, manner)?;
        Ok(())
    }

    /// Restarts all parties. Each log keeps what lasts.
    pub(crate) fn restart(&mut self)
        ensures { AddsEvent self.old self.new AllRestart }
    {
        self.order.clear();
        self.coordinator.restart();
        restart_each(self.participants.as_mut_slice());
    }

    /// The records noted as pending, in the order in which they were made over all logs.
    pub(crate) fn pending(&self) -> &[PendingRecord]
        ensures { result.now ≡ self.now.pending }
    {
        self.order.as_slice()
    }

    /// Restarts all parties. Each log keeps what lasts, and the pending records for which these answers say so, with those before them in their log.
    /// The answers are in the order in which the records were made over all logs.
    ///
    /// An error means that memory was refused: some logs have restarted.
    pub(crate) fn restart_keeping(&mut self, keep: &[bool]) -> Result<(), AllocError>
        requires { self.old.notes ≡ true }
        ensures { OnOk result ((count : ℕ) (es : List Event) → LogsStandFor count self.old es
            → Holds count self.new (known_keeping es keep.now) (own_keeping es keep.now)) }
    {
        let mut answers = Vec::new(self.alloc);
        let order = self.order.as_slice();
        answer(Party::Coordinator, order, keep, &mut answers)?;
        self.coordinator.restart_keeping(answers.as_slice());
        keep_each(self.participants.as_mut_slice(), order, keep, &mut answers)?;
        self.order.clear();
        Ok(())
    }

    /// The coordinator's log.
    pub(crate) fn coordinator(&self) -> &MarkedLog
        ensures { result.now ≡ self.now.coordinator }
    {
        &self.coordinator
    }

    /// The logs of the first `count` participants, as far as they are there.
    pub(crate) fn participants(&self, count: usize) -> &[MarkedLog]
        ensures { count ≤ length self.now.participants
            → (length result.now ≡ count) × ((n : ℕ) → n < count → log_at result.now n ≡ log_at self.now.participants n) }
    {
        let end = self.participants.len().min(count);
        &self.participants[..end]
    }
}
