//! Laws of campaigns, as contracts of functions that do nothing.
ghost use Rattle.std.specs.Prelude.{◌≡◌, ℕ, All};
ghost use Rattle.scenario_values.specs.Scenario.{Entries, DistinctNames};
ghost use Rattle.action_eval.specs.Catalogue.{HasDistinct};
ghost use Rattle.campaign_given.specs.Given.{Given, IsGiven};
ghost use Rattle.campaign_core.specs.Headline.{Campaign, campaign_on, on_workers, EachIsCause, EachIsMinimal, KeepsPromises};
ghost use Rattle.campaign_core.specs.CommandTexts.{IsReducedToMinimal};
ghost use Rattle.campaign_core.specs.Forms.{report_in};
ghost use Rattle.report.specs.declared.forms.forms.Form.{Form};

use grown_plans::each_target_is_a_lawful_subject;
use target_trait::Target;

/// Each reduced scenario in a report or in the text of `reduce` fails with its code, under the same seed, stream number and limit as what it was
/// reduced from. If any single fault is left out of it, it no longer does.
///
/// The names of the points have to be distinct, as those of each target are. So do the names in each scenario that is listed or reduced, as those of
/// each `Scenario` are.
pub fn reduced_scenarios_are_minimal()
    ensures report { (c : Campaign) → HasDistinct c.points → All (λ s. DistinctNames s) c.given.plans.listed → EachIsMinimal c }
    ensures reduce { (c : Campaign) (stream : ℕ) (scenario : Entries) → DistinctNames scenario → IsReducedToMinimal c stream scenario }
{}

/// A campaign has the same report for any number of workers, in each form.
pub fn workers_change_nothing()
    ensures { (form : Form) (c : Campaign) (workers : ℕ) → report_in form (on_workers workers c) ≡ report_in form c }
{}

/// The report of a campaign of a target keeps its promises, if its settings are within their ranges and each reduced scenario in it is minimal. Each
/// cause that it lists is one: the plan of its number has its scenario, fails with its code, and without any one of its faults doesn't fail with this
/// code.
pub fn each_behaviour_is_tried<T: Target>()
    ensures causes { (c : Campaign) → EachIsCause c }
    ensures promises { (setup : T) (workload : T.Workload) (given : Given)
        → IsGiven given → (let c = campaign_on T.Target setup workload given in EachIsMinimal c → KeepsPromises c) }
{
    each_target_is_a_lawful_subject::<T>();
}
