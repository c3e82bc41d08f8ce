//! The storms and listed scenarios behind plans that grow.
ghost use Rattle.std.specs.Prelude.{◌≡◌, ◌<◌, ◌≤◌, ◌⊎◌, ◌+◌, ◌^◌, ℕ, [], length, option_map, IfOk, IfSome, IsErrOf, OnOk};
ghost use Rattle.action_eval.specs.Answers.{texts};
ghost use Rattle.action_eval.specs.Catalogue.{IsCatalogue};
ghost use Rattle.plan_gen.specs.Census.{census_of, counts_of};
ghost use Rattle.plan_gen.specs.PlanList.{further_list, most_plans};
ghost use Rattle.grown_plans.specs.GrownPlans.{Subject};
ghost use Rattle.answer_text.specs.Runs.{told_in};
ghost use Rattle.answered_runs.specs.Components.{AgreesWithRuns, IsComponent};
ghost use Rattle.answered_runs.specs.grown.Further.{AreTooMany, HasFewHits, census_told, clean_hits, clean_run, further_known, further_told};

use crate::AnsweredRuns;
use grown_runs::{Look, look_up};
use plan_gen::{Census, MOST_PLANS, PlanFault, PlanList, PlanSettings, counts_of};
use scenario_values::Scenario;
use std::alloc::{AllocError, Global};

/// The points of the hits of the run without faults, if they are recorded.
fn clean_hits(alloc: Global, runs: &AnsweredRuns<'_>) -> Result<Option<Vec<u32>>, AllocError>
    ensures hits { IfOk result (λ hits. option_map (λ h. h.items) hits ≡ clean_hits runs.now) }
    ensures few { IfOk result (λ hits. IfSome hits (λ h. length h.items < 2 ^ 32)) }
{
    let mut hits = Vec::new(alloc);
    match look_up(runs, &[], &mut hits)? {
        Look::Unknown | Look::Unseen(_) => Ok(None),
        Look::Seen(_) => Ok(Some(hits)),
    }
}

/// The census, if the hits of the run without faults are recorded: how often it hits each point, in the order of the catalogue. It is the census of
/// every component that agrees with the answers, under each seed. An error means that memory was refused.
pub fn census(alloc: Global, runs: &AnsweredRuns<'_>) -> Result<Option<Vec<u32>>, AllocError>
    ensures told { IfOk result (λ counts. option_map (λ c. c.items) counts ≡ census_told runs.now) }
    // For every component that agrees with the answers.
    ensures known { IfOk result (λ counts. IfSome counts (λ c. (t : Subject) → IsComponent runs.now.points runs.now.listed t
        → AgreesWithRuns t (told_in runs.now.book) → (seed : ℕ) → c.items ≡ census_of t.asks t.names seed t.limit)) }
{
    match clean_hits(alloc, runs)? {
        Some(hits) => {
            let points = runs.points().len() as u32;
            Ok(Some(counts_of(alloc, points, hits.as_slice())?))
        }
        None => Ok(None),
    }
}

/// The storms and listed scenarios over the census of these hits, with `before` plans before them.
fn plans_over<'a>(
    alloc: Global,
    points: &'a [&'a str],
    hits: &[u32],
    settings: &PlanSettings<'a>,
    before: usize,
) -> Result<PlanList<'a>, PlanFault>
    requires lawful { IsCatalogue (texts points.now) }
    ensures over { IfOk result (λ plans. plans ≡ further_list (texts points.now) (counts_of (length points.now) hits.now) settings.now) }
    ensures few { OnOk result (before + length (further_list (texts points.now) (counts_of (length points.now) hits.now) settings.now) ≤ most_plans) }
    ensures low { OnOk result (length hits.now < most_plans) }
    ensures many { IsErrOf result PlanFault.TooManyPlans
        → (most_plans < before + length (further_list (texts points.now) (counts_of (length points.now) hits.now) settings.now))
        ⊎ (most_plans ≤ length hits.now) }
{
    // a census of fewer hits has fewer sites than a list may have plans
    if hits.len() >= MOST_PLANS {
        return Err(PlanFault::TooManyPlans);
    }
    let counts = counts_of(alloc, points.len() as u32, hits)?;
    let census = Census { counts };
    plan_gen::further_plans(alloc, &census, points, settings, before)
}

/// These listed scenarios alone, with `before` plans before them.
fn listed_alone<'a>(
    alloc: Global,
    points: &'a [&'a str],
    listed: &'a [Scenario],
    before: usize,
) -> Result<PlanList<'a>, PlanFault>
    requires lawful { IsCatalogue (texts points.now) }
    ensures listed { IfOk result (λ plans. plans ≡ listed.now) }
    ensures few { OnOk result (before + length listed.now ≤ most_plans) }
    ensures many { IsErrOf result PlanFault.TooManyPlans → most_plans < before + length listed.now }
{
    let settings = PlanSettings {
        pairs: false,
        storms: 0,
        rate: 0,
        listed,
        seed: 0,
    };
    plans_over(alloc, points, &[], &settings, before)
}

/// The storms and listed scenarios, with `before` plans before them, as far as they are known by the answers. There are none until the run without
/// faults is recorded. Storms are drawn over its census; if its hits aren't recorded, there are no storms. They are those of every component that
/// agrees with the answers.
///
/// `TooManyPlans` comes only if these and the plans before them are more than 65536, or the run without faults has at least 65536 hits.
pub fn further_plans<'a>(
    alloc: Global,
    runs: &AnsweredRuns<'a>,
    settings: &PlanSettings<'a>,
    before: usize,
) -> Result<PlanList<'a>, PlanFault>
    ensures told { IfOk result (λ plans. plans ≡ further_told runs.now settings.now) }
    ensures few { OnOk result (before + length (further_told runs.now settings.now) ≤ most_plans) }
    ensures clean { OnOk result (HasFewHits runs.now) }
    ensures many { IsErrOf result PlanFault.TooManyPlans → AreTooMany runs.now settings.now before }
    // For every component that agrees with the answers.
    ensures known { IfOk result (λ plans. (t : Subject) → IsComponent runs.now.points runs.now.listed t → AgreesWithRuns t (told_in runs.now.book)
        → plans ≡ further_known t settings.now (clean_run runs.now)) }
{
    let mut hits = Vec::new(alloc);
    match look_up(runs, &[], &mut hits)? {
        Look::Seen(_) => plans_over(alloc, runs.points(), hits.as_slice(), settings, before),
        Look::Unseen(_) => listed_alone(alloc, runs.points(), settings.listed, before),
        Look::Unknown => listed_alone(alloc, runs.points(), &[], before),
    }
}
