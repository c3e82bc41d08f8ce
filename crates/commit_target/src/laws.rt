//! Laws of the variants' runs: under which scenario each flawed one fails, and that the sound one never does.
ghost use Rattle.std.specs.Prelude.{◌≡◌, ◌≤◌, ℕ, true, List, All};
ghost use Rattle.action_eval.specs.Answers.{Reply, given_of};
ghost use Rattle.target_trait.specs.Outcomes.{outcome};
ghost use Rattle.target_trait.specs.declared.judgement.Verdict.TheVariants.{Fail, Pass};
ghost use Rattle.target_trait.specs.Cuts.{with_keep, asks_with};
ghost use Rattle.commit_target.specs.declared.variant.Variant.TheVariants.{Sound, LazyPrepare, EarlyEnd, TwoTries, EndFirst};
ghost use Rattle.commit_target.specs.Work.{Work};
ghost use Rattle.commit_target.specs.Words.{point_names, split, lost};
ghost use Rattle.commit_target.specs.Steps.{number, laid, start_of, asks_of};
ghost use Rattle.commit_target.specs.Writes.{on_participant};
ghost use Rattle.commit_target.specs.declared.records.Kind.TheVariants.{Prepare};
ghost use Rattle.sim_device.specs.FileEffects.{Lasting};
ghost use Rattle.sim_device.specs.LogEffects.{records};
ghost use Rattle.commit_target.specs.Judgement.{has, was_told};
ghost use Rattle.commit_target.specs.Protocol.{BearsOut};
ghost use Rattle.commit_target.specs.Crash.{cut_of, outcome_lost_end_kept, outcome_never_sent_end_kept, outcome_never_sent};
ghost use Rattle.commit_target.specs.Flaws.{both_wish_yes, first_outcome_is_lost, each_outcome_is_lost, no_commit_record};

use scenario_values::Scenario;

/// Presumed abort as published never fails: however many participants there are, whatever they wish, and whatever the scenario, the seed,
/// the number of the stream and the limit, the verdict of its run is pass or unresolved. Without a participant there is nobody to keep
/// what the client is told.
pub fn sound_never_fails(scenario: &Scenario, seed: u64, stream: u64, max_hits: u32)
    ensures { (w : Work) → 1 ≤ w.participants → (code : ℕ) →
        (outcome (asks_of Sound w) (given_of scenario.now point_names seed stream max_hits)).verdict ≡ Fail code → ⊥ }
{}

/// What the sound variant rests on, after any answers. The client is told of a commit exactly if the coordinator's commit record lasts. That record
/// stands on the lasting prepare records of all participants, and without it no participant has a commit record. An end record stands on the lasting
/// commit records of all participants.
pub fn sound_bears_out()
    ensures { (w : Work) → 1 ≤ w.participants → (answers : List Reply) (transaction : ℕ) →
        let s = laid Sound w (start_of w) answers in BearsOut w.participants s.events transaction (was_told s.tally.told transaction) }
{}

/// After any answers, a yes that arrived stands on a lasting prepare record of that participant for the transaction under way.
pub fn yes_is_prepared()
    ensures { (w : Work) (answers : List Reply) →
        let s = laid Sound w (start_of w) answers in
        All (λ n. has (records (on_participant s.events n) Lasting) (number s.tally) Prepare ≡ true) s.tally.yes }
{}

/// lazy_prepare fails: under `commit::send_outcome=1*return` two participants that both wish yes end differently, whatever the seed and the
/// number of the stream. The first forgets its prepare record at the restart, and aborts; the second has committed.
pub fn lazy_prepare_is_split()
    ensures { (seed stream : ℕ) →
        (outcome (asks_of LazyPrepare both_wish_yes) (given_of first_outcome_is_lost point_names seed stream 1000)).verdict ≡ Fail split }
{}

/// Under `commit::send_outcome=return` both forget it, and the commit that the client was told of is lost.
pub fn lazy_prepare_is_lost()
    ensures { (seed stream : ℕ) →
        (outcome (asks_of LazyPrepare both_wish_yes) (given_of each_outcome_is_lost point_names seed stream 1000)).verdict ≡ Fail lost }
{}

/// early_end fails: under `commit::send_outcome=1*return` the two end differently. The first inquires, and the coordinator, which has ended
/// the transaction, presumes an abort.
pub fn early_end_is_split()
    ensures { (seed stream : ℕ) →
        (outcome (asks_of EarlyEnd both_wish_yes) (given_of first_outcome_is_lost point_names seed stream 1000)).verdict ≡ Fail split }
{}

/// two_tries fails: under `commit::force_commit=2*return;commit::send_outcome=1*return` the two end differently. The first inquires, and the
/// coordinator has no commit record.
pub fn two_tries_is_split()
    ensures { (seed stream : ℕ) →
        (outcome (asks_of TwoTries both_wish_yes) (given_of no_commit_record point_names seed stream 1000)).verdict ≡ Fail split }
{}

/// end_first fails if the outcome is lost on its way to the first participant and a power cut keeps the coordinator's end record: the first inquires,
/// the coordinator presumes an abort, and the second has committed. If the run panics before any participant is told, both abort, and the commit that
/// the client was told of is lost. A cut that loses everything shows neither under the same faults.
pub fn a_kept_end_shows_end_first()
    ensures split { (seed stream : ℕ) → (outcome (asks_with (asks_of EndFirst both_wish_yes) (cut_of EndFirst both_wish_yes) 7)
        (given_of outcome_lost_end_kept (with_keep point_names) seed stream 1000)).verdict ≡ Fail split }
    ensures lost { (seed stream : ℕ) → (outcome (asks_with (asks_of EndFirst both_wish_yes) (cut_of EndFirst both_wish_yes) 7)
        (given_of outcome_never_sent_end_kept (with_keep point_names) seed stream 1000)).verdict ≡ Fail lost }
    ensures outcome_lost { (seed stream : ℕ) → (outcome (asks_with (asks_of EndFirst both_wish_yes) (cut_of EndFirst both_wish_yes) 7)
        (given_of first_outcome_is_lost (with_keep point_names) seed stream 1000)).verdict ≡ Pass }
    ensures outcome_never_sent { (seed stream : ℕ) → (outcome (asks_with (asks_of EndFirst both_wish_yes) (cut_of EndFirst both_wish_yes) 7)
        (given_of outcome_never_sent (with_keep point_names) seed stream 1000)).verdict ≡ Pass }
{}

/// Presumed abort as published never fails, whatever a power cut keeps of what is pending in the logs: for every scenario, which may name its points
/// and `power::keep`, the verdict of its run with the cut is pass or unresolved.
pub fn sound_survives_each_cut(scenario: &Scenario, seed: u64, stream: u64, max_hits: u32)
    ensures { (w : Work) → 1 ≤ w.participants → (code : ℕ) → (outcome (asks_with (asks_of Sound w) (cut_of Sound w) 7)
        (given_of scenario.now (with_keep point_names) seed stream max_hits)).verdict ≡ Fail code → ⊥ }
{}
