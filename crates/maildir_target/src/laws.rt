//! Laws of the variants' runs: under which scenario each flawed one fails, and that the sound one never does.
ghost use Rattle.std.specs.Prelude.{◌≡◌, ℕ};
ghost use Rattle.action_eval.specs.Answers.{given_of};
ghost use Rattle.target_trait.specs.Outcomes.{outcome};
ghost use Rattle.target_trait.specs.declared.judgement.Verdict.TheVariants.{Fail, Pass};
ghost use Rattle.maildir_target.specs.declared.variant.Variant.TheVariants.{Sound, LinkFirst, IgnoreWrite, AppendTmp, DeliverInNew};
ghost use Rattle.maildir_target.specs.Words.{point_names, torn};
ghost use Rattle.maildir_target.specs.Steps.{asks_of};
ghost use Rattle.maildir_target.specs.Crash.{cut_of, write_panics, first_kept, second_kept, unsynced_named, unsynced_kept};
ghost use Rattle.target_trait.specs.Cuts.{with_keep, asks_with};
ghost use Rattle.maildir_target.specs.Flaws.{hi, m, write_fails, sync_and_unlink_fail};

use crate::messages::Messages;
use scenario_values::Scenario;

/// The sound variant never fails: whatever the scenario, the workload, the seed, the number of the stream and the limit, the verdict
/// of its run is pass or unresolved.
pub fn sound_never_fails(
    workload: &Messages,
    scenario: &Scenario,
    seed: u64,
    stream: u64,
    max_hits: u32,
)
    ensures { (code : ℕ) → (outcome (asks_of Sound workload.now) (given_of scenario.now point_names seed stream max_hits)).verdict ≡ Fail code → ⊥ }
{}

/// link_first fails: under `maildir::write=1*return` the message `hi` is torn, whatever the seed and the number of the stream, with a
/// limit of 1,000 hits. The name under `new/` that the first attempt made stays, and its file is never synced.
pub fn link_first_is_torn()
    ensures { (seed stream : ℕ) → (outcome (asks_of LinkFirst hi) (given_of write_fails point_names seed stream 1000)).verdict ≡ Fail torn }
{}

/// ignore_write fails: under `maildir::write=1*return` the message `hi` is torn, whatever the seed and the number of the stream, with a
/// limit of 1,000 hits. Half of it is synced, linked and acknowledged.
pub fn ignore_write_is_torn()
    ensures { (seed stream : ℕ) → (outcome (asks_of IgnoreWrite hi) (given_of write_fails point_names seed stream 1000)).verdict ≡ Fail torn }
{}

/// append_tmp fails: under `maildir::sync=1*return;maildir::unlink=1*return` the message `m` is torn, whatever the seed and the number of
/// the stream, with a limit of 1,000 hits. The first attempt leaves its file, and the second writes the message behind it once more.
pub fn append_tmp_is_torn()
    ensures { (seed stream : ℕ) → (outcome (asks_of AppendTmp m) (given_of sync_and_unlink_fail point_names seed stream 1000)).verdict ≡ Fail torn }
{}

/// link_first fails in one more way if a cut keeps the name under `new/` and not that under `tmp/`: it makes that name before anything is written. If
/// the run panics at the write of `hi`, the name leads to an empty file. A cut that loses everything doesn't show this. The sound variant has made no
/// such name by then; it has nothing pending but the name under `tmp/`.
pub fn a_kept_link_shows_link_first()
    ensures linked { (seed stream : ℕ) → (outcome (asks_with (asks_of LinkFirst hi) (cut_of LinkFirst hi) 7)
        (given_of second_kept (with_keep point_names) seed stream 1000)).verdict ≡ Fail torn }
    ensures lost { (seed stream : ℕ) → (outcome (asks_with (asks_of LinkFirst hi) (cut_of LinkFirst hi) 7)
        (given_of write_panics (with_keep point_names) seed stream 1000)).verdict ≡ Pass }
    ensures sound { (seed stream : ℕ) → (outcome (asks_with (asks_of Sound hi) (cut_of Sound hi) 7)
        (given_of second_kept (with_keep point_names) seed stream 1000)).verdict ≡ Pass }
{}

/// deliver_in_new fails if a cut keeps the name under `new/` and not what is written there. If the run panics at the write of `hi`, that name leads
/// to an empty file; so it does if the sync fails and the name can't be removed. Then nothing more is asked. Neither a cut that loses everything nor
/// one that keeps everything shows this, under either fault. The sound variant has only the name under `tmp/` by then.
pub fn a_kept_name_shows_deliver_in_new()
    ensures named { (seed stream : ℕ) → (outcome (asks_with (asks_of DeliverInNew hi) (cut_of DeliverInNew hi) 7)
        (given_of first_kept (with_keep point_names) seed stream 1000)).verdict ≡ Fail torn }
    ensures lost { (seed stream : ℕ) → (outcome (asks_with (asks_of DeliverInNew hi) (cut_of DeliverInNew hi) 7)
        (given_of write_panics (with_keep point_names) seed stream 1000)).verdict ≡ Pass }
    ensures unsynced { (seed stream : ℕ) → (outcome (asks_with (asks_of DeliverInNew hi) (cut_of DeliverInNew hi) 7)
        (given_of unsynced_named (with_keep point_names) seed stream 1000)).verdict ≡ Fail torn }
    ensures unsynced_lost { (seed stream : ℕ) → (outcome (asks_with (asks_of DeliverInNew hi) (cut_of DeliverInNew hi) 7)
        (given_of sync_and_unlink_fail (with_keep point_names) seed stream 1000)).verdict ≡ Pass }
    ensures unsynced_kept { (seed stream : ℕ) → (outcome (asks_with (asks_of DeliverInNew hi) (cut_of DeliverInNew hi) 7)
        (given_of unsynced_kept (with_keep point_names) seed stream 1000)).verdict ≡ Pass }
    ensures sound { (seed stream : ℕ) → (outcome (asks_with (asks_of Sound hi) (cut_of Sound hi) 7)
        (given_of first_kept (with_keep point_names) seed stream 1000)).verdict ≡ Pass }
{}

/// The sound variant never fails, whatever a power cut keeps: for every scenario, which may name its points and `power::keep`, the verdict of its run
/// with the cut is pass or unresolved.
pub fn sound_survives_each_cut(
    workload: &Messages,
    scenario: &Scenario,
    seed: u64,
    stream: u64,
    max_hits: u32,
)
    ensures { (code : ℕ) → (outcome (asks_with (asks_of Sound workload.now) (cut_of Sound workload.now) 7)
        (given_of scenario.now (with_keep point_names) seed stream max_hits)).verdict ≡ Fail code → ⊥ }
{}
