//! The functions of a journal, each of which does what an entry of its tables says.
ghost use Rattle.std.specs.Prelude.{◌≡◌, OnOk};
ghost use Rattle.std.proofs.Common.{rules};
ghost use Rattle.journal_target.specs.Words.{label, code_text, point_names};
ghost use Rattle.journal_target.specs.Steps.{steps, steps-within, cuts, judged, commit_acknowledged, sync_acknowledged};

use crate::frame::{COMMIT, record_frame};
use crate::judge::{LOST, judged_all};
use crate::progress::Progress;
use crate::step::Step;
use crate::variant::Variant;
use crate::work::Transactions;
use std::alloc::{AllocError, Global};
use std::marker::Model;
use target_trait::{CrashProtocol, Judgement, Protocol};

// the numbers of the points in the catalogue
const APPEND: u32 = 0;

const APPEND_COMMIT: u32 = 1;

const SYNC: u32 = 2;

/// A write-ahead journal. Its setup, which is all that contracts see of it, is the variant. `ByTable` makes a target of it.
///
/// A run commits the transactions of its workload one after another. The records of a transaction are appended to one file, and the file is synced;
/// then a commit record is appended, the file is synced again, and the transaction is acknowledged. At the end the power is cut, which keeps any of
/// the appends since the last sync. Then it is judged what recovery finds in the file: no acknowledged transaction may be missing, and no
/// half-written one may be taken for committed.
#[derive(Drop)]
pub struct Journal {
    alloc: Global,
    variant: Variant,
}

impl Model for Journal {
    ghost use Rattle.journal_target.specs.declared.variant.Variant.{Variant};

    ghost Value = { Variant };

    ghost view = { λ j. j.variant };
}

impl Journal {
    /// A journal of this variant. It takes no memory.
    pub fn new(alloc: Global, variant: Variant) -> Self
        ensures { result ≡ variant }
    {
        Journal { alloc, variant }
    }

    /// The judgement of what is left by a power cut that keeps these pending appends.
    fn judged(&self, workload: &Transactions, progress: &Progress, kept: &[bool]) -> Judgement
        ensures { result ≡ judged self.now workload.now progress.now kept.now }
    {
        judged_all(self.variant, progress, kept, workload.as_slice())
    }
}

/// After the commit record is appended.
fn acknowledge_commit(variant: Variant, progress: &mut Progress) -> Result<(), AllocError>
    ensures { OnOk result (progress.new ≡ commit_acknowledged variant progress.old) }
{
    match variant {
        Variant::EarlyAck => progress.acknowledge(),
        Variant::Sound | Variant::NoCommitRecord | Variant::OneSync => Ok(()),
    }
}

/// After the sync of the commit record, or of everything at once.
fn acknowledge_sync(variant: Variant, progress: &mut Progress) -> Result<(), AllocError>
    ensures { OnOk result (progress.new ≡ sync_acknowledged variant progress.old) }
{
    match variant {
        Variant::Sound | Variant::NoCommitRecord | Variant::OneSync => progress.acknowledge(),
        Variant::EarlyAck => Ok(()),
    }
}

impl Protocol for Journal {
    type Workload = Transactions;

    type State = Progress;

    ghost names = { point_names };

    ghost label_of = { label };

    ghost code_text = { code_text };

    ghost table = { steps };

    fn label(&self) -> &'static str {
        match self.variant {
            Variant::Sound => "journal sound",
            Variant::EarlyAck => "journal early_ack",
            Variant::NoCommitRecord => "journal no_commit_record",
            Variant::OneSync => "journal one_sync",
        }
    }

    fn catalogue() -> &'static [&'static str] {
        &["journal::append", "journal::append_commit", "journal::sync"]
    }

    fn code_name(code: u32) -> &'static str {
        if code == LOST { "lost" } else { "torn" }
    }

    fn twin(&self) -> Result<Self, AllocError> {
        Ok(Journal::new(self.alloc, self.variant))
    }

    fn begin(&self, workload: &Transactions) -> Result<Progress, AllocError> {
        let mut progress = Progress::new(self.alloc);
        progress.begin(self.variant, workload, 0);
        Ok(progress)
    }

    fn point(&self, _workload: &Transactions, progress: &Progress) -> Option<u32> {
        match progress.step() {
            Step::Appending(_) => Some(APPEND),
            Step::Committing => Some(APPEND_COMMIT),
            Step::SyncingRecords | Step::Syncing => Some(SYNC),
            Step::Over => None,
        }
    }

    fn go(&self, workload: &Transactions, progress: &mut Progress) -> Result<(), AllocError> {
        let index = progress.index();
        match progress.step() {
            Step::Appending(place) => {
                let record = workload.record(index, place);
                let frame = record_frame(self.alloc, progress.number(), record)?;
                progress.append(frame.as_slice())?;
                progress.go_after(self.variant, place, workload.records(index).len());
            }
            Step::SyncingRecords => {
                progress.sync();
                progress.go_to(Step::Committing);
            }
            Step::Committing => {
                progress.append(&[COMMIT, progress.number()])?;
                acknowledge_commit(self.variant, progress)?;
                progress.go_to(Step::Syncing);
            }
            Step::Syncing => {
                progress.sync();
                acknowledge_sync(self.variant, progress)?;
                progress.begin_next(self.variant, workload);
            }
            Step::Over => {}
        }
        Ok(())
    }

    fn fail(
        &self,
        workload: &Transactions,
        progress: &mut Progress,
        _text: Option<&str>,
    ) -> Result<(), AllocError> {
        match progress.step() {
            Step::Appending(place) => {
                let record = workload.record(progress.index(), place);
                let frame = record_frame(self.alloc, progress.number(), record)?;
                let half = frame.len() / 2;
                progress.append(&frame.as_slice()[..half])?;
                progress.begin_next(self.variant, workload);
            }
            Step::Committing => {
                progress.append(&[COMMIT])?;
                progress.begin_next(self.variant, workload);
            }
            Step::SyncingRecords | Step::Syncing => progress.begin_next(self.variant, workload),
            Step::Over => {}
        }
        Ok(())
    }

    fn judge(&self, workload: &Transactions, progress: Progress) -> Judgement {
        self.judged(workload, &progress, &[])
    }

    ghost within = { steps-within };

    ghost lawful = { Prim.search rules };
}

impl CrashProtocol for Journal {
    ghost cut_table = { cuts };

    fn catalogue_to_cut() -> &'static [&'static str] {
        &[
            "journal::append",
            "journal::append_commit",
            "journal::sync",
            "power::keep",
        ]
    }

    fn alloc(&self) -> Global {
        self.alloc
    }

    fn pending(&self, _workload: &Transactions, progress: &Progress) -> usize {
        progress.file().pending().len()
    }

    fn judge_kept(&self, workload: &Transactions, progress: Progress, kept: &[bool]) -> Judgement {
        self.judged(workload, &progress, kept)
    }

    ghost lawful_to_cut = { Prim.search rules };
}
