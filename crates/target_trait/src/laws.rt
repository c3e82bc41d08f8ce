//! Laws on outcomes, as contracts of functions that do nothing.
ghost use Rattle.std.specs.Prelude.{◌≡◌, ◌++◌, ℕ, Bool, List, [], map, length};
ghost use Rattle.scenario_values.specs.Scenario.{Entries};
ghost use Rattle.action_eval.specs.Answers.{Given, Reply, given_of, replies};
ghost use Rattle.action_eval.specs.SameMeaning.{MeansTheSame, meaning_of};
ghost use Rattle.target_trait.specs.Outcomes.{outcome, verdict_with, whole_play, SameVerdicts};
ghost use Rattle.target_trait.specs.Play.{Move, Done, Unknown, IsDone};
ghost use Rattle.target_trait.specs.declared.judgement.Verdict.TheVariants.{Unresolved};
ghost use Rattle.target_trait.specs.Cuts.{Cut, AsksAll, asks_with, cut_asks, answer_to, no_cut};

/// The verdict of a case is that of its outcome.
pub fn verdict_of_outcome()
    ensures { (asks : List Reply → Move) (names : List (List ℕ)) (seed limit stream : ℕ) (s : Entries)
        → verdict_with asks names seed limit stream s ≡ (outcome asks (given_of s names seed stream limit)).verdict }
{}

/// A run whose end nobody knows is unresolved, whatever stopped it: it neither passes nor fails.
pub fn unknown_ends_are_unresolved()
    ensures { (asks : List Reply → Move) (g : Given) → asks (replies (whole_play asks g)) ≡ Unknown → (outcome asks g).verdict ≡ Unresolved }
{}

/// Two scenarios that mean the same have the same outcome, and so the same verdict, whatever is asked. If only one catalogue, seed, stream number and
/// limit matter, it is enough that they mean the same under these.
pub fn same_meaning_same_outcome()
    ensures outcome { (asks : List Reply → Move) (names : List (List ℕ)) (seed stream limit : ℕ) (s t : Entries)
        → ((hits : List ℕ) → meaning_of s names seed stream limit hits ≡ meaning_of t names seed stream limit hits)
        → outcome asks (given_of s names seed stream limit) ≡ outcome asks (given_of t names seed stream limit) }
    ensures verdicts { (s t : Entries) → MeansTheSame s t → SameVerdicts s t }
{}

/// What the cut adds to what a target asks. After the target's own answers the cut asks, after a halt too. Each set of pending writes is judged, by
/// the answers that keep it. If nothing is pending, nothing is added.
pub fn cut_asks_after_the_target()
    ensures follows { (asks : List Reply → Move) (cut : Cut) (point : ℕ) (own answers : List Reply) → AsksAll asks [] own → IsDone (asks own)
        → asks_with asks cut point (own ++ answers) ≡ cut_asks cut point own answers }
    ensures each { (asks : List Reply → Move) (cut : Cut) (point : ℕ) (own : List Reply) (keep : List Bool) → AsksAll asks [] own → IsDone (asks own)
        → length keep ≡ cut.pending own → asks_with asks cut point (own ++ map answer_to keep) ≡ Done (cut.judge own keep) }
    ensures unchanged { (asks : List Reply → Move) (point : ℕ) (answers : List Reply) → AsksAll asks [] answers
        → asks_with asks (no_cut asks) point answers ≡ asks answers }
{}
