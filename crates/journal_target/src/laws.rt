//! Laws of the journal, as contracts of functions that do nothing.
ghost use Rattle.std.specs.Prelude.{◌≡◌, ℕ};
ghost use Rattle.action_eval.specs.Answers.{given_of};
ghost use Rattle.target_trait.specs.declared.judgement.Verdict.TheVariants.{Fail, Pass};
ghost use Rattle.target_trait.specs.Cuts.{with_keep, asks_with};
ghost use Rattle.target_trait.specs.Outcomes.{outcome};
ghost use Rattle.journal_target.specs.declared.variant.Variant.TheVariants.{Sound, OneSync};
ghost use Rattle.journal_target.specs.Words.{point_names, torn};
ghost use Rattle.journal_target.specs.Work.{HasNoMark};
ghost use Rattle.journal_target.specs.Crash.{asks_of, cut_of, two_records, sync_panics, commit_alone};

use crate::work::Transactions;
use scenario_values::Scenario;

/// one_sync fails if the run halts at its one sync and a cut keeps the commit record alone: the transaction is taken for committed, with none of its
/// records. A cut that loses everything doesn't show this under the same fault.
pub fn a_kept_commit_record_shows_one_sync()
    ensures alone { (seed stream : ℕ) → (outcome (asks_with (asks_of OneSync two_records) (cut_of OneSync two_records) 3)
        (given_of commit_alone (with_keep point_names) seed stream 1000)).verdict ≡ Fail torn }
    ensures lost { (seed stream : ℕ) → (outcome (asks_with (asks_of OneSync two_records) (cut_of OneSync two_records) 3)
        (given_of sync_panics (with_keep point_names) seed stream 1000)).verdict ≡ Pass }
{}

/// The sound variant never fails, whatever a power cut keeps: for every scenario, which may name its points and `power::keep`, the verdict of its run
/// with the cut is pass or unresolved.
pub fn sound_survives_each_cut(
    workload: &Transactions,
    scenario: &Scenario,
    seed: u64,
    stream: u64,
    max_hits: u32,
)
    ensures { HasNoMark workload.now → (code : ℕ) → (outcome (asks_with (asks_of Sound workload.now) (cut_of Sound workload.now) 3)
        (given_of scenario.now (with_keep point_names) seed stream max_hits)).verdict ≡ Fail code → ⊥ }
{
    // Called for its contract: the transactions are few.
    let _ = workload.as_slice();
}
