//! What is still to be tried of a campaign with a depth.
ghost use Rattle.std.specs.Prelude.{◌≡◌, ◌<◌, ◌∷◌, [], length, slice_index_or, IfOk, IsErrOf, OnOk};
ghost use Rattle.std.specs.Str.{bytes_eq};
ghost use Rattle.scenario_values.specs.Tidied.{tidied};
ghost use Rattle.indexmap.specs.IndexSet.{insert_key};
ghost use Rattle.report.specs.ReportText.{scenario_text};
ghost use Rattle.answered_runs.specs.asked.Lines.{lines_behind, lines_for};
ghost use Rattle.answer_text.specs.Runs.{told_in};
ghost use Rattle.grown_plans.specs.GrownPlans.{Subject};
ghost use Rattle.answered_runs.specs.Answered.{known_plans};
ghost use Rattle.answered_runs.specs.Components.{AgreesWithRuns, IsComponent};
ghost use Rattle.answered_runs.specs.grown.Asked.{AreApart, IsAskedOf, to_try, undecided, unrun};
ghost use Rattle.answered_runs.specs.grown.Further.{AreTooMany};

use crate::asked::AskedLines;
use crate::grown::listing::further_behind;
use crate::{KnownPlans, plan_scenario};
use action_eval::Rig;
use plan_gen::{Plan, PlanFault, PlanList, PlanSettings};
use scenario_values::{Scenario, tidy};
use std::alloc::{AllocError, Global};

/// Adds the text of a scenario, once it is tidied, unless it is there.
fn add(alloc: Global, lines: &mut AskedLines, scenario: &Scenario) -> Result<(), AllocError>
    ensures { OnOk result (lines.new ≡ insert_key bytes_eq lines.old (scenario_text (tidied scenario.now))) }
{
    let tidied = tidy(alloc, scenario)?;
    lines.add(alloc, &tidied)
}

/// Adds the plan of this number, if its run isn't recorded.
fn add_grown(
    alloc: Global,
    known: &KnownPlans<'_>,
    number: usize,
    faults: &mut Vec<Rig>,
    lines: &mut AskedLines,
) -> Result<(), AllocError>
    requires { number < length known.now.list.plans }
    ensures { OnOk result (lines.new ≡ lines_behind lines.old (unrun known.now.answered (slice_index_or known.now.list.plans number [] ∷ []))) }
{
    match known.verdict_told(number) {
        Some(_) => Ok(()),
        None => {
            known.list().plans.faults_of(number, faults)?;
            let points = known.runs().points();
            let scenario = plan_scenario(alloc, points, faults.as_slice())?;
            add(alloc, lines, &scenario)
        }
    }
}

/// Adds the plans that grew and whose runs aren't recorded.
fn add_all_grown(
    alloc: Global,
    known: &KnownPlans<'_>,
    lines: &mut AskedLines,
) -> Result<(), AllocError>
    ensures { OnOk result (lines.new ≡ lines_behind lines.old (unrun known.now.answered known.now.list.plans)) }
{
    let mut faults = Vec::new(alloc);
    for number in 0..known.list().plans.len() {
        add_grown(alloc, known, number, &mut faults, lines)?;
    }
    Ok(())
}

/// Adds a storm or a listed scenario, if its verdict isn't known.
fn add_further(
    alloc: Global,
    known: &KnownPlans<'_>,
    plan: &Plan<'_>,
    lines: &mut AskedLines,
) -> Result<(), AllocError>
    ensures { OnOk result (lines.new ≡ lines_behind lines.old (undecided known.now.answered known.now.depth (plan.now ∷ []))) }
{
    let scenario = plan.scenario(alloc)?;
    match known.runs().verdict_of(alloc, known.depth(), &scenario)? {
        Some(_) => Ok(()),
        None => add(alloc, lines, &scenario),
    }
}

/// Adds the storms and listed scenarios whose verdicts aren't known.
fn add_all_further(
    alloc: Global,
    known: &KnownPlans<'_>,
    plans: &PlanList<'_>,
    lines: &mut AskedLines,
) -> Result<(), AllocError>
    ensures { OnOk result (lines.new ≡ lines_behind lines.old (undecided known.now.answered known.now.depth plans.now)) }
{
    for number in 0..plans.len() {
        add_further(alloc, known, &plans.plan(number), lines)?;
    }
    Ok(())
}

/// The texts of the scenarios that are still to be tried of a campaign with a depth, tidied, and each once; the scenario without entries is `none`.
/// First come the known plans whose runs aren't recorded, in the order of the list. Then, once the run without faults is recorded, come the storms
/// and listed scenarios whose verdicts are neither recorded nor follow from recorded runs. A plan is known once the hits of each plan that it grew
/// from are recorded, so it needn't wait until all of their level are. What follows from recorded runs is never requested.
///
/// A run that is recorded without its hits isn't requested again, and nothing grows from it. So nothing may be left to be tried though the list isn't
/// whole: `KnownPlans::unseen` counts such runs.
///
/// Any of the scenarios may be tried, in any order. `TooManyPlans` comes only if the known plans with the storms and listed scenarios are more than
/// 65536, or the run without faults has at least 65536 hits.
pub fn asks(
    alloc: Global,
    known: &KnownPlans<'_>,
    settings: &PlanSettings<'_>,
) -> Result<AskedLines, PlanFault>
    ensures lines { IfOk result (λ lines. lines ≡ lines_for (to_try known.now.answered known.now.depth settings.now)) }
    ensures once { IfOk result (λ lines. AreApart lines) }
    // For every component that agrees with the answers.
    ensures asked { IfOk result (λ lines. (t : Subject) → IsComponent known.now.answered.points known.now.answered.listed t
        → AgreesWithRuns t (told_in known.now.answered.book) → IsAskedOf t known.now.answered known.now.depth settings.now lines) }
    ensures many { IsErrOf result PlanFault.TooManyPlans
        → AreTooMany known.now.answered settings.now (length (known_plans known.now.answered known.now.depth)) }
{
    let _ = known.list();
    let further = further_behind(alloc, known, settings)?;
    let mut lines = AskedLines::new(alloc);
    add_all_grown(alloc, known, &mut lines)?;
    add_all_further(alloc, known, &further, &mut lines)?;
    Ok(lines)
}
