//! Laws on what is asked, as contracts of functions that do nothing.
ghost use Rattle.std.specs.Prelude.{◌≡◌, ◌↔◌, ℕ, List, []};
ghost use Rattle.std.specs.List.{AllByRecursion};
ghost use Rattle.scenario_values.specs.Scenario.{Entries, IsScenario};
ghost use Rattle.result_book.specs.Verdicts.{verdicts_from, numbered};
ghost use Rattle.result_book.specs.FirstFailures.{first_failures};
ghost use Rattle.answer_text.specs.Known.{KnownVerdicts, Agrees};
ghost use Rattle.outside_campaign.specs.Outside.{Component, Components, say_each, EachAgrees};
ghost use Rattle.outside_campaign.specs.Reached.{place_of, ComesTo};
ghost use Rattle.answered_runs.specs.asked.Lines.{lines_for};
ghost use Rattle.outside_campaign.specs.Asked.{open_plans, known_failures, IsUntried};
ghost use Rattle.outside_campaign.specs.Campaigns.{untried};

/// There is no line exactly if nothing is still to be tried. Then no report is refused because an answer is missing.
pub fn nothing_is_asked_where_nothing_is_to_be_tried()
    ensures { (scenarios : List Entries) → (lines_for scenarios ≡ []) ↔ (scenarios ≡ []) }
{}

/// What is still to be tried is tidied, and has no verdict yet.
pub fn what_is_asked_is_unanswered()
    ensures { (known : KnownVerdicts) (plans : List Entries) → AllByRecursion (IsUntried known) (untried known plans) }
{}

/// The reduction of each component that agrees with what is known comes to the round whose open candidates are asked for. So what it tries next is
/// among them.
pub fn reductions_come_to_what_is_asked()
    ensures { (known : KnownVerdicts) (code : ℕ) (scenario : Entries) (component : Component) → IsScenario scenario → Agrees component known
        → ComesTo component code scenario (place_of known code scenario) }
{}

/// If no plan is open, the first failures known are the first failures: those of each family of components, one for each stream number, that agrees
/// with what is known. Each plan is run under its own number.
pub fn known_failures_are_first()
    ensures { (known : KnownVerdicts) (plans : List Entries) (components : Components) → AllByRecursion (λ s. IsScenario s) plans
        → EachAgrees components known → open_plans known plans ≡ []
        → first_failures (numbered (verdicts_from (say_each components) 0 plans)) ≡ known_failures known plans }
{}
