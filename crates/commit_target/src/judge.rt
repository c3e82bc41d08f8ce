//! The judgement: how each transaction ended, by the records that are left in the logs and by what the client was told.
ghost use Rattle.std.specs.Prelude.{◌≡◌, ◌<◌, ◌≤◌, ◌+◌, ◌-◌, ℕ, List, true, IfOk};
ghost use Rattle.target_trait.specs.declared.judgement.Judgement.TheVariants.{Kept};
ghost use Rattle.commit_target.specs.Judgement.{is_committed, judged_ends, or_then, judged_by, judged};
ghost use Rattle.commit_target.specs.Crash.{known_keeping, own_keeping};
ghost use Rattle.commit_target.specs.inside.Held.{Holds};
ghost use Rattle.commit_target.specs.inside.Marks.{among, AreMarks, EndsOf};
ghost use Rattle.commit_target.specs.Writes.{Event, AllRestart, LogsStandFor, AddsEvent};
ghost use Rattle.commit_target.specs.declared.records.Record.{Record};

use crate::logs::Logs;
use crate::marks::{Marks, WIDTH, among, set_of};
use crate::progress::Progress;
use crate::records::Kind;
use std::alloc::AllocError;
use target_trait::Judgement;

/// The code of a transaction that two participants end differently.
pub const SPLIT: u32 = 0;
/// The code of a transaction that all abort though the client was told that it is committed.
pub const LOST: u32 = 1;
/// The code of a transaction that all commit though the client was not told so.
pub const PHANTOM: u32 = 2;

/// The transactions that end as committed at a participant with these marks, if the coordinator has those marks: the participant inquires about a
/// transaction that it only prepared.
fn committed(coordinator: &Marks, own: &Marks) -> u64
    ensures { (first : ℕ) (log records : List Record) → AreMarks coordinator.now.sets log first → AreMarks own.now.sets records first
        → (k : ℕ) → k < WIDTH → among result k ≡ is_committed log records (first + k) }
{
    let answers = coordinator.with(Kind::Commit) & !coordinator.with(Kind::End);
    own.with(Kind::Commit) | own.with(Kind::Prepare) & !own.with(Kind::Abort) & answers
}

/// The judgement of a transaction, by whether one participant committed it, whether one aborted it, and whether the client was told.
fn judged_ends(committed: bool, aborted: bool, told: bool) -> Judgement
    ensures { result ≡ judged_ends committed aborted told }
{
    match (committed, aborted, told) {
        (true, true, _) => Judgement::Broken(SPLIT),
        (false, _, true) => Judgement::Broken(LOST),
        (true, false, false) => Judgement::Broken(PHANTOM),
        (false, _, false) | (true, false, true) => Judgement::Kept,
    }
}

/// How transactions in a row end, from a first one on: which a participant commits, which one aborts, and of which the client was told.
#[derive(Clone, Copy)]
struct Ends {
    first: usize,
    committed: u64,
    aborted: u64,
    told: u64,
}

impl Ends {
    /// How the transactions from the first one on end, by the records in the logs.
    // It is called with 0 unless there are more than 64 transactions, and is inlined for that case.
    #[inline(always)]
    fn from(logs: &Logs, participants: usize, told: &[usize], first: usize) -> Ends
        ensures first { result.first ≡ first }
        ensures ends { (known : List Record) (own : ℕ → List Record) → Holds participants logs.now known own → EndsOf participants told.now known own result }
    {
        let coordinator = logs.coordinator().marks(first);
        let mut committed_by = 0;
        let mut aborted_by = 0;
        for log in logs.participants(participants) {
            let ends = committed(&coordinator, &log.marks(first));
            committed_by |= ends;
            aborted_by |= !ends;
        }
        Ends {
            first,
            committed: committed_by,
            aborted: aborted_by,
            told: set_of(told, first),
        }
    }

    /// These transactions, if this one is among them; otherwise those from this one on.
    fn reach(self, logs: &Logs, participants: usize, told: &[usize], transaction: usize) -> Ends
        requires { self.first ≤ transaction }
        ensures from { result.first ≤ transaction }
        ensures within { transaction < result.first + WIDTH }
        ensures ends { (known : List Record) (own : ℕ → List Record) → Holds participants logs.now known own
            → EndsOf participants told.now known own self → EndsOf participants told.now known own result }
    {
        if transaction - self.first < WIDTH {
            self
        } else {
            Ends::from(logs, participants, told, transaction)
        }
    }

    /// Whether all of these end alike, and as the client was told.
    fn all_kept(&self) -> bool
        ensures { result ≡ true → (k : ℕ) → k < WIDTH
            → judged_ends (among self.now.committed k) (among self.now.aborted k) (among self.now.told k) ≡ Kept }
    {
        let split = self.committed & self.aborted;
        let phantom = self.committed & !self.told;
        let lost = self.told & !self.committed;
        (split | phantom | lost) == 0
    }

    /// The judgement so far with this transaction, which has to be among these: what was broken first stays.
    fn judged(&self, judgement: Judgement, transaction: usize) -> Judgement
        requires from { self.now.first ≤ transaction }
        requires within { transaction < self.now.first + WIDTH }
        ensures { let place = transaction - self.now.first in
            result ≡ or_then judgement (judged_ends (among self.now.committed place) (among self.now.aborted place) (among self.now.told place)) }
    {
        let place = transaction - self.first;
        match judgement {
            Judgement::Kept => judged_ends(
                among(self.committed, place),
                among(self.aborted, place),
                among(self.told, place),
            ),
            Judgement::Broken(_) => judgement,
        }
    }
}

/// Judges the transactions that were begun, from the first to the last, by the records in the logs.
#[inline(always)]
fn judgement(logs: &Logs, participants: usize, told: &[usize], begun: usize) -> Judgement
    ensures { (known : List Record) (own : ℕ → List Record) → Holds participants logs.now known own
        → result ≡ judged_by participants told.now known own begun }
{
    let mut ends = Ends::from(logs, participants, told, 0);
    // Nearly every run keeps all of its transactions.
    if begun <= WIDTH && ends.all_kept() {
        return Judgement::Kept;
    }
    let mut judgement = Judgement::Kept;
    for transaction in 0..begun {
        ends = ends.reach(logs, participants, told, transaction);
        judgement = ends.judged(judgement, transaction);
    }
    judgement
}

/// Restarts all parties, and judges the transactions that were begun, the first to the last.
pub fn judge(logs: &mut Logs, participants: usize, told: &[usize], begun: usize) -> Judgement
    ensures judged { (es : List Event) → LogsStandFor participants logs.old es → result ≡ judged participants told.now es begun }
    ensures restarted { AddsEvent logs.old logs.new AllRestart }
{
    logs.restart();
    judgement(logs, participants, told, begun)
}

/// Restarts all parties after a power cut that keeps the pending records for which the answers say so, and judges the transactions that were begun.
/// An error means that memory was refused.
pub fn judge_keeping(
    logs: &mut Logs,
    participants: usize,
    progress: &Progress,
    keep: &[bool],
) -> Result<Judgement, AllocError>
    requires { logs.old.notes ≡ true }
    ensures { IfOk result (λ judgement. (es : List Event) → LogsStandFor participants logs.old es
        → judgement ≡ judged_by participants progress.now.told (known_keeping es keep.now) (own_keeping es keep.now) progress.now.begun) }
{
    logs.restart_keeping(keep)?;
    Ok(judgement(logs, participants, progress.told(), progress.begun()))
}
