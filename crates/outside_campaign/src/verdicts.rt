//! The verdicts of plans, by what is known.
ghost use Rattle.std.specs.Prelude.{◌≡◌, ◌≤◌, length, IfOk, OnOk};
ghost use Rattle.std.specs.List.{AllByRecursion};
ghost use Rattle.scenario_values.specs.Scenario.{IsScenario};
ghost use Rattle.plan_gen.specs.PlanList.{most_plans};
ghost use Rattle.answer_text.specs.Known.{KnownVerdicts};
ghost use Rattle.outside_campaign.specs.Asked.{plan_verdicts};
ghost use Rattle.outside_campaign.specs.Told.{AreVerdicts};

use crate::table::VerdictTable;
use grown_plans::CampaignPlans;
use scenario_values::{Scenario, tidy};
use std::alloc::{AllocError, Global};
use target_trait::Verdict;

/// The verdicts of plans, or what has to be tried first.
#[derive(Drop)]
pub enum Verdicts {
    /// The verdict of each plan, in the plans' order.
    All(Vec<Verdict>),
    /// The first plan that isn't answered, tidied.
    NotAnswered(Scenario),
}

/// The verdict of each plan, if it is known. An error means that memory was refused.
pub fn plan_verdicts<K: VerdictTable>(
    alloc: Global,
    known: &K,
    plans: &CampaignPlans<'_>,
) -> Result<Vec<Option<Verdict>>, AllocError>
    ensures verdicts { IfOk result (λ verdicts. verdicts.items ≡ plan_verdicts (K.verdicts known.now) plans.now) }
    ensures lawful { OnOk result (AllByRecursion (λ s. IsScenario s) plans.now) }
    ensures few { OnOk result (length plans.now ≤ most_plans) }
{
    let mut verdicts = Vec::with_capacity(alloc, plans.len())?;
    for number in 0..plans.len() {
        let scenario = plans.plan(number).scenario(alloc)?;
        let _ = scenario.entries();
        let verdict = known.look_up(alloc, &scenario)?;
        verdicts.push(verdict)?;
    }
    Ok(verdicts)
}

/// The verdicts of the plans, or the first plan that isn't answered. A plan's number is its stream number: the verdicts are those of each family of
/// components, one for each stream number, that agrees with what is known. An error means that memory was refused.
pub fn verdicts_known(
    alloc: Global,
    plans: &CampaignPlans<'_>,
    verdicts: &[Option<Verdict>],
) -> Result<Verdicts, AllocError>
    requires many { length verdicts.now ≡ length plans.now }
    requires lawful { AllByRecursion (λ s. IsScenario s) plans.now }
    ensures { IfOk result (λ r. (known : KnownVerdicts) → verdicts.now ≡ plan_verdicts known plans.now → AreVerdicts known plans.now r) }
{
    let mut all = Vec::with_capacity(alloc, plans.len())?;
    for i in 0..verdicts.len() {
        let Some(verdict) = verdicts[i] else {
            let scenario = plans.plan(i).scenario(alloc)?;
            return Ok(Verdicts::NotAnswered(tidy(alloc, &scenario)?));
        };
        all.push(verdict)?;
    }
    Ok(Verdicts::All(all))
}
