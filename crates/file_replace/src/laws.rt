//! Laws of the variants' runs: under which scenario each flawed one fails, and that the sound one never does.
ghost use Rattle.std.specs.Prelude.{◌≡◌, ℕ, [], Some, codes};
ghost use Rattle.action_eval.specs.Answers.{given_of};
ghost use Rattle.target_trait.specs.Outcomes.{outcome};
ghost use Rattle.target_trait.specs.declared.judgement.Verdict.TheVariants.{Fail, Pass};
ghost use Rattle.target_trait.specs.Cuts.{with_keep, asks_with};
ghost use Rattle.file_replace.specs.Crash.{cut_of, renamed_alone, renamed_without_the_first_chunk, renamed_unsynced, renamed_unnamed, unlinked_alone, create_fails};
ghost use Rattle.file_replace.specs.declared.variant.Variant.TheVariants.{Sound, LateSync, IgnoreSync, RetryWrite, RenameFirst, InPlace};
ghost use Rattle.file_replace.specs.Words.{point_names, torn, stale};
ghost use Rattle.file_replace.specs.Steps.{asks_of};
ghost use Rattle.file_replace.specs.Flaws.{old_to_new, empty_to_new, sync_fails, write_fails, left_by};

use crate::work::Replacements;
use scenario_values::Scenario;

/// The sound variant never fails: whatever the scenario, the workload, the seed, the number of the stream and the limit, the verdict
/// of its run is pass or unresolved.
pub fn sound_never_fails(
    workload: &Replacements,
    scenario: &Scenario,
    seed: u64,
    stream: u64,
    max_hits: u32,
)
    ensures { (code : ℕ) → (outcome (asks_of Sound workload.now) (given_of scenario.now point_names seed stream max_hits)).verdict ≡ Fail code → ⊥ }
{}

/// late_sync fails: under `replace::sync=1*return` the replacement of `old` by `ne` and `w` is torn, whatever the seed and the number of
/// the stream. `target` leads to the new file before that is synced, and then its sync fails: nothing of it lasts.
pub fn late_sync_is_torn()
    ensures verdict { (seed stream : ℕ) → (outcome (asks_of LateSync old_to_new) (given_of sync_fails point_names seed stream 1000)).verdict ≡ Fail torn }
    ensures contents { (seed stream : ℕ) → left_by LateSync old_to_new (given_of sync_fails point_names seed stream 1000) ≡ Some [] }
{}

/// retry_write fails: under `replace::write=1*return` the replacement of `old` by `ne` and `w` is torn, since `ne` is written once more
/// after its half.
pub fn retry_write_is_torn()
    ensures verdict { (seed stream : ℕ) → (outcome (asks_of RetryWrite old_to_new) (given_of write_fails point_names seed stream 1000)).verdict ≡ Fail torn }
    ensures contents { (seed stream : ℕ) → left_by RetryWrite old_to_new (given_of write_fails point_names seed stream 1000) ≡ Some (codes "nnew") }
{}

/// ignore_sync fails: under `replace::sync=1*return` the replacement of empty contents by `ne` and `w` is stale. It is acknowledged, but the new file
/// was never synced, so nothing of it lasts: `target` is as empty as before.
pub fn ignore_sync_is_stale()
    ensures verdict { (seed stream : ℕ) → (outcome (asks_of IgnoreSync empty_to_new) (given_of sync_fails point_names seed stream 1000)).verdict ≡ Fail stale }
    ensures contents { (seed stream : ℕ) → left_by IgnoreSync empty_to_new (given_of sync_fails point_names seed stream 1000) ≡ Some [] }
{}

/// late_sync fails in one more way if a power cut keeps some of what is pending. If the directory's sync fails, or the run panics there, it has
/// renamed a file that was never synced. If the cut keeps the rename alone, `target` holds nothing; if it keeps the rename and the second chunk,
/// `target` holds that chunk behind zeros. A cut that loses everything doesn't show this. The sound variant has synced the file by then.
pub fn a_kept_rename_shows_late_sync()
    ensures renamed { (seed stream : ℕ) → (outcome (asks_with (asks_of LateSync old_to_new) (cut_of LateSync old_to_new) 7)
        (given_of renamed_alone (with_keep point_names) seed stream 1000)).verdict ≡ Fail torn }
    ensures chunk { (seed stream : ℕ) → (outcome (asks_with (asks_of LateSync old_to_new) (cut_of LateSync old_to_new) 7)
        (given_of renamed_without_the_first_chunk (with_keep point_names) seed stream 1000)).verdict ≡ Fail torn }
    ensures sound { (seed stream : ℕ) → (outcome (asks_with (asks_of Sound old_to_new) (cut_of Sound old_to_new) 7)
        (given_of renamed_unnamed (with_keep point_names) seed stream 1000)).verdict ≡ Pass }
{}

/// rename_first fails if a cut keeps the rename of a file whose sync failed, and nothing else: then `target` holds nothing. A cut that loses
/// everything doesn't show this under the same fault.
pub fn a_kept_rename_shows_rename_first()
    ensures renamed { (seed stream : ℕ) → (outcome (asks_with (asks_of RenameFirst old_to_new) (cut_of RenameFirst old_to_new) 7)
        (given_of renamed_unsynced (with_keep point_names) seed stream 1000)).verdict ≡ Fail torn }
    ensures lost { (seed stream : ℕ) → (outcome (asks_with (asks_of RenameFirst old_to_new) (cut_of RenameFirst old_to_new) 7)
        (given_of sync_fails (with_keep point_names) seed stream 1000)).verdict ≡ Pass }
{}

/// in_place fails if the new file can't be created, and a cut keeps the removal of the old name. A cut that loses everything doesn't show this under
/// the same fault.
pub fn a_kept_unlink_shows_in_place()
    ensures unlinked { (seed stream : ℕ) → (outcome (asks_with (asks_of InPlace old_to_new) (cut_of InPlace old_to_new) 7)
        (given_of unlinked_alone (with_keep point_names) seed stream 1000)).verdict ≡ Fail torn }
    ensures lost { (seed stream : ℕ) → (outcome (asks_with (asks_of InPlace old_to_new) (cut_of InPlace old_to_new) 7)
        (given_of create_fails (with_keep point_names) seed stream 1000)).verdict ≡ Pass }
{}

/// The sound variant never fails, whatever a power cut keeps: for every scenario, which may name its points and `power::keep`, the verdict of its run
/// with the cut is pass or unresolved.
pub fn sound_survives_each_cut(
    workload: &Replacements,
    scenario: &Scenario,
    seed: u64,
    stream: u64,
    max_hits: u32,
)
    ensures { (code : ℕ) → (outcome (asks_with (asks_of Sound workload.now) (cut_of Sound workload.now) 7)
        (given_of scenario.now (with_keep point_names) seed stream max_hits)).verdict ≡ Fail code → ⊥ }
{}
