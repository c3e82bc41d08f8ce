//! A log of records.
ghost use Rattle.std.specs.Prelude.{◌≡◌, List, [], OnOk, OnErr};
ghost use Rattle.sim_device.specs.FileEffects.{Live};
ghost use Rattle.sim_device.specs.LogEffects.{LogEffect, Append, Force, Restart, records, unforced, kept_front, LogStandsFor, AddsLogEffect, RestartsKeeping};

use std::alloc::{AllocError, Global};
use std::marker::Model;

/// A simulated log of records. A restart keeps only what was forced.
///
/// A log stands for the list of the effects that it accepted since it was made or cleared. A refused call changes nothing and adds no effect.
#[derive(Drop)]
pub struct RecordLog<R: Drop> {
    records: Vec<R>,
    // Records are only added between restarts, so the log always begins with those that last.
    lasting: usize,
}

impl<R: Drop> Model for RecordLog<R> {
    ghost use Rattle.std.specs.Prelude.{◌≤◌, take, vec_len};
    ghost use Rattle.sim_device.specs.LogEffects.{Log};

    ghost Value = { Log R };

    ghost view = { λ l. record { live = l.records.items; lasting = take l.lasting l.records.items } };

    ghost invariant = { λ l. l.lasting ≤ vec_len l.records };
}

/// How many answers there are up to the last one that keeps its record.
fn kept_front(keep: &[bool]) -> usize
    ensures { result ≡ kept_front keep.now }
{
    let mut front = keep.len();
    while front > 0 && !keep[front - 1] {
        front -= 1;
    }
    front
}

impl<R: Drop> RecordLog<R> {
    /// A log with no records. It takes no memory.
    pub fn new(alloc: Global) -> Self
        ensures { LogStandsFor result [] }
    {
        RecordLog {
            records: Vec::new(alloc),
            lasting: 0,
        }
    }

    /// A new log, with no records. It takes no memory, and keeps what it has for the records to come.
    pub fn clear(&mut self)
        ensures { LogStandsFor self.new [] }
    {
        self.records.clear();
        self.lasting = 0;
    }

    /// Adds a record, which does not last yet.
    ///
    /// # Errors
    ///
    /// Only that memory was refused. The log is then as it was.
    pub fn append(&mut self, entry: R) -> Result<(), AllocError>
        ensures ok { OnOk result (AddsLogEffect self.old self.new (Append entry)) }
        ensures err { OnErr result (self.new ≡ self.old) }
    {
        self.records.push(entry)?;
        Ok(())
    }

    /// Adds a record, and makes all records so far last.
    ///
    /// # Errors
    ///
    /// Only that memory was refused. The log is then as it was.
    pub fn force(&mut self, entry: R) -> Result<(), AllocError>
        ensures ok { OnOk result (AddsLogEffect self.old self.new (Force entry)) }
        ensures err { OnErr result (self.new ≡ self.old) }
    {
        self.append(entry)?;
        self.lasting = self.records.len();
        Ok(())
    }

    /// Leaves only the records that last. It takes no memory.
    pub fn restart(&mut self)
        ensures { AddsLogEffect self.old self.new Restart }
    {
        self.records.truncate(self.lasting);
    }

    /// Restarts, and keeps the pending records for which the answers, the oldest record first, say so. A log is written in order, so a kept record
    /// keeps those before it. Records past the answers are lost, and answers past the records mean nothing. What is left lasts. It takes no memory.
    pub fn restart_keeping(&mut self, keep: &[bool])
        ensures { RestartsKeeping self.old self.new keep.now }
    {
        let kept = kept_front(keep);
        self.lasting += kept.min(self.records.as_slice().len() - self.lasting);
        let left = self.lasting;
        self.records.truncate(left);
    }

    /// Lends the pending records, which a restart may lose, the oldest first. It takes no memory.
    pub fn pending(&self) -> &[R]
        ensures { (es : List (LogEffect R)) → LogStandsFor self.now es → result.now ≡ unforced es }
    {
        &self.records[self.lasting..]
    }

    /// Lends all records that are there, the oldest first. It takes no memory.
    pub fn records(&self) -> &[R]
        ensures { (es : List (LogEffect R)) → LogStandsFor self.now es → result.now ≡ records es Live }
    {
        self.records.as_slice()
    }
}
