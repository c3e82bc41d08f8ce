//! Laws of runs with their power cut, over every target: for each set of pending writes a scenario leaves just these, and what fails without the cut
//! fails with it, if a cut that loses everything is judged as no cut. Each is a contract of a function that does nothing.
ghost use Rattle.std.specs.Prelude.{◌≡◌, ℕ, ◌*◌, ◌^◌, ◌<◌, ◌≤◌, Bool, true, false, List, [], ◌∷◌, Option, Some, None, length, replicate, count_by};
ghost use Rattle.scenario_values.specs.Scenario.{Entries, IsScenario};
ghost use Rattle.scenario_values.specs.declared.term.Task.TheVariants.{Off, Return};
ghost use Rattle.action_eval.specs.RiggedScenario.{full};
ghost use Rattle.action_eval.specs.Answers.{Reply, replies, is_cut_short};
ghost use Rattle.target_trait.specs.declared.judgement.Verdict.TheVariants.{Unresolved};
ghost use Rattle.target_trait.specs.Cuts.{asks_with, with_keep, cut_by, no_cut};
ghost use Rattle.target_trait.specs.Machine.{asks_by};
ghost use Rattle.target_trait.specs.Outcomes.{verdict_with};
ghost use Rattle.target_trait.specs.Play.{Move};
ghost use Rattle.target_trait.specs.Protocol.{by_table};
ghost use Rattle.target_trait.specs.cut_laws.KeptSets.{run_of_case, LacksKeep, HasRoom, keep_chain, keeping, LeavesJust, CanTakeIn, LosesAlike, IsNoWeaker};
ghost use Rattle.target_trait.specs.cut_laws.Texts.{PassesOverTexts};

use crate::{CrashProtocol, CrashTarget};

/// Each state: for each run of a target that has ended by itself or by a panic, and for each set of the writes that it leaves pending, there is a
/// scenario that leaves just these: the run's own, with one more entry for `power::keep`. The limit has to have room for a hit for each of the
/// writes.
///
/// The entry has at most two terms for each kept write, however many writes are lost. For example `3*off->1*return` keeps the fourth of five writes.
/// If the scenario's limits have room for the entry, the result is a scenario.
pub fn each_kept_set_has_a_scenario<T: CrashTarget>()
    ensures leaves { (setup : T) (workload : T.Workload) (seed stream limit : ℕ) (s : Entries) (keep : List Bool) → LacksKeep s
        → is_cut_short (run_of_case (T.asks setup workload) T.names seed stream limit s) ≡ false
        → HasRoom limit (T.cut setup workload) (run_of_case (T.asks setup workload) T.names seed stream limit s)
        → length keep ≡ (T.cut setup workload).pending (replies (run_of_case (T.asks setup workload) T.names seed stream limit s))
        → LeavesJust (T.asks setup workload) (T.cut setup workload) T.names seed stream limit s keep }
    ensures row { keep_chain 0 (false ∷ false ∷ false ∷ true ∷ false ∷ []) ≡ full (Some 3) Off ∷ full (Some 1) (Return None) ∷ [] }
    ensures terms { (keep : List Bool) → length (keep_chain 0 keep) ≤ 2 * count_by (λ kept. kept) keep }
    ensures lawful { (s : Entries) (keep : List Bool) → IsScenario s → LacksKeep s → length keep < 2 ^ 32 → CanTakeIn s (length (keep_chain 0 keep))
        → IsScenario (keeping keep s) }
{}

/// Nothing weaker: a scenario has with the power cut the verdict that it has without: what fails without the cut fails with it, with the same code.
/// This holds if the scenario doesn't name `power::keep`, if the target's cut judges as the run itself when it loses everything, and if the limit has
/// room for a hit for each pending write. With less room the run with its cut is unresolved.
pub fn nothing_is_weaker<T: CrashTarget>()
    ensures same { (setup : T) (workload : T.Workload) → LosesAlike (T.asks setup workload) (T.cut setup workload)
        → IsNoWeaker (T.asks setup workload) (T.cut setup workload) T.names }
    ensures less_room { (setup : T) (workload : T.Workload) (seed stream limit : ℕ) (s : Entries) → LacksKeep s
        → (HasRoom limit (T.cut setup workload) (run_of_case (T.asks setup workload) T.names seed stream limit s) → ⊥)
        → verdict_with (asks_with (T.asks setup workload) (T.cut setup workload) (length T.names)) (with_keep T.names) seed limit stream s
        ≡ Unresolved }
{}

/// Which cuts judge as the run itself when they lose everything: those of a table, if it judges each state so; and the cut of a component that leaves
/// nothing pending.
pub fn these_lose_alike<P: CrashProtocol>()
    ensures by_table { (setup : P) (workload : P.Workload)
        → ((state : P.State) → (P.cut_table setup workload).judge state (replicate ((P.cut_table setup workload).pending state) false)
        ≡ (P.table setup workload).judge state)
        → LosesAlike (asks_by (by_table (P.table setup workload))) (cut_by (P.table setup workload) (P.cut_table setup workload)) }
    ensures nothing_pending { (asks : List Reply → Move) → LosesAlike asks (no_cut asks) }
{}

/// To which targets the text of a return makes no difference: those of a table whose failing steps pass over it, with the table's cut too, whichever
/// point that asks.
pub fn these_pass_over_texts<P: CrashProtocol>()
    ensures by_table { (setup : P) (workload : P.Workload)
        → ((state : P.State) (text : Option (List ℕ)) → (P.table setup workload).fail state None ≡ (P.table setup workload).fail state text)
        → PassesOverTexts (asks_by (by_table (P.table setup workload))) }
    ensures with_cut { (setup : P) (workload : P.Workload) (keep : ℕ)
        → ((state : P.State) (text : Option (List ℕ)) → (P.table setup workload).fail state None ≡ (P.table setup workload).fail state text)
        → PassesOverTexts (asks_with (asks_by (by_table (P.table setup workload))) (cut_by (P.table setup workload) (P.cut_table setup workload)) keep) }
{}
