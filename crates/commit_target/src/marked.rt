//! A log of a party, with the marks of its records. The marks are made as records come, because walking each log after each run costs more.
ghost use Rattle.std.specs.Prelude.{◌≡◌, [], OnOk, OnErr};
ghost use Rattle.sim_device.specs.LogEffects.{Restart, LogStandsFor, AddsLogEffect, RestartsKeeping};
ghost use Rattle.commit_target.specs.declared.records.Record.{Record};
ghost use Rattle.commit_target.specs.inside.Batches.{effect_of};
ghost use Rattle.commit_target.specs.inside.Marks.{AreMarks};

use crate::marks::Marks;
use crate::records::Record;
use sim_device::RecordLog;
use std::alloc::{AllocError, Global};
use std::marker::Model;

/// How a record is added to a log.
#[derive(Clone, Copy)]
pub enum Manner {
    /// It does not last yet.
    Append,
    /// It lasts, with all records before it.
    Force,
}

/// A log of records, and what it says of the first transactions.
#[derive(Drop)]
pub struct MarkedLog {
    log: RecordLog<Record>,
    marks: Marks,
}

impl Model for MarkedLog {
    ghost use Rattle.sim_device.specs.LogEffects.{Log};
    ghost use Rattle.commit_target.specs.declared.records.Record.{Record};
    ghost use Rattle.commit_target.specs.inside.Marks.{Marked};

    ghost Value = { Log Record };

    ghost view = { λ l. l.log };

    ghost invariant = { λ l. Marked l.log l.marks.sets };
}

impl MarkedLog {
    /// A log with no records. It takes no memory.
    pub fn new(alloc: Global) -> Self
        ensures { LogStandsFor result [] }
    {
        MarkedLog {
            log: RecordLog::new(alloc),
            marks: Marks::none(),
        }
    }

    /// Empties the log. Its memory is kept for the records to come.
    pub fn clear(&mut self)
        ensures { LogStandsFor self.new [] }
    {
        self.log.clear();
        self.marks = Marks::none();
    }

    /// Adds a record.
    ///
    /// An error means that memory was refused. The log is as it was.
    #[inline(always)]
    pub fn add(&mut self, entry: Record, manner: Manner) -> Result<(), AllocError>
        ensures ok { OnOk result (AddsLogEffect self.old self.new (effect_of manner entry)) }
        ensures err { OnErr result (self.new ≡ self.old) }
    {
        match manner {
            Manner::Append => self.log.append(entry)?,
            Manner::Force => self.log.force(entry)?,
        }
        self.marks.add(entry, 0);
        Ok(())
    }

    /// Leaves only the records that last.
    // The log begins with them: if there are as many, they are the same.
    pub fn restart(&mut self)
        ensures { AddsLogEffect self.old self.new Restart }
    {
        let before = self.log.records().len();
        self.log.restart();
        let left = self.log.records();
        if left.len() < before {
            self.marks = Marks::of(left, 0);
        }
    }

    /// Restarts, and keeps the pending records for which the answers say so, with those before them.
    pub fn restart_keeping(&mut self, keep: &[bool])
        ensures { RestartsKeeping self.old self.new keep.now }
    {
        self.log.restart_keeping(keep);
        self.marks = Marks::of(self.log.records(), 0);
    }

    /// The marks of the log, of the transactions from the first one on.
    #[inline(always)]
    pub fn marks(&self, first: usize) -> Marks
        ensures { AreMarks result.sets self.now.live first }
    {
        if first == 0 {
            self.marks
        } else {
            Marks::of(self.log.records(), first)
        }
    }
}
