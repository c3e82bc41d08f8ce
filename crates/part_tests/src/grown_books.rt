//! Books of an input of the small workload whose plans grew, with a storm behind them. A failed sync that is taken for one that went well
//! tears the file.
ghost use Rattle.std.specs.Prelude.{◌≡◌, ◌+◌, ◌≤◌, length, IfOk};
ghost use Rattle.std.specs.List.{AllByRecursion};
ghost use Rattle.action_eval.specs.RiggedScenario.{CanBeRigged};
ghost use Rattle.plan_gen.specs.PlanList.{most_plans};
ghost use Rattle.grown_plans.specs.GrownPlans.{rigs_of};

use crate::inputs::{book, has, range, settings};
use crate::one_step::OneStep;
use action_eval::{Argument, FaultTable, Kind, Site};
use file_replace::{Replace, TORN, Variant};
use grown_plans::{CampaignPlans, Child, GrownPlans, RigLists};
use plan_gen::{Census, PlanList, PlanSettings, further_plans};
use result_book::{Book, RunInput, put_all};
use std::alloc::{AllocError, Global};
use std::process::Abort;
use std::test::Fail;
use target_checks::small_workload;
use target_trait::{Target, Verdict, run_verdict};

/// The plan without faults; a return and a panic at the sync of the new file; and after that return one at the sync of the directory.
fn grown(alloc: Global) -> Result<GrownPlans, AllocError>
    ensures rigs { IfOk result (λ plans. AllByRecursion (λ plan. CanBeRigged (rigs_of plan)) plans) }
    ensures many { IfOk result (λ plans. length plans ≡ 4) }
{
    let sync = Site { point: 3, hit: 1 };
    let sync_dir = Site { point: 5, hit: 1 };
    let mut plans = GrownPlans::new(alloc);
    plans.add(&[
        Child::new(0, sync, Kind::OnceReturn(Argument::none())),
        Child::new(0, sync, Kind::OncePanic),
    ])?;
    plans.add(&[Child::new(1, sync_dir, Kind::OnceReturn(Argument::none()))])?;
    Ok(plans)
}

/// A storm that takes half of the hits of the run without faults.
fn storm(alloc: Global) -> Result<PlanList<'static>, Fail>
    ensures { IfOk result (λ plans. 4 + length plans ≤ most_plans) }
{
    let census = Census {
        counts: vec![in alloc; 0, 1, 2, 1, 1, 1, 0]?,
    };
    let settings = PlanSettings {
        pairs: false,
        storms: 1,
        rate: 500,
        listed: &[],
        seed: 7,
    };
    match further_plans(alloc, &census, Replace::catalogue(), &settings, 4) {
        Ok(plans) => Ok(plans),
        Err(_) => Err(Fail::from("no storm")),
    }
}

/// The verdicts of an input's plans, each run alone under the scenario that is made of it.
fn alone(alloc: Global, input: &RunInput<'_, Replace>) -> Result<Vec<Verdict>, AllocError> {
    let mut verdicts = Vec::new(alloc);
    for number in 0..input.plans.len() {
        let scenario = input.plans.plan(number).scenario(alloc)?;
        let case = input.settings.case(&scenario, number as u64);
        let mut target = Replace::new(alloc, Variant::IgnoreSync);
        verdicts.push(run_verdict(alloc, &mut target, input.workload, &case)?)?;
    }
    Ok(verdicts)
}

/// The book in which the verdicts of the first plans are known, and the range of all others is put.
fn book_with(
    rt: &impl Abort,
    alloc: Global,
    input: &RunInput<'_, Replace>,
    known: &[Verdict],
) -> Result<Book, Fail> {
    let mut book = book(rt, alloc, input)?;
    book.put_known(Vec::from_slice(alloc, known)?);
    assert!(rt; known.len() <= 5 && input.plans.len() == 5);
    let mut target = Replace::new(alloc, Variant::IgnoreSync);
    let range = range(rt, alloc, &mut target, input, (known.len() as u32, 5))?;
    put_all(&mut book, vec![in alloc; vec![in alloc; (0, range)]?]?);
    Ok(book)
}

/// Each book of an input has the verdicts of its plans run alone, however many of them are known before.
fn books_have_each_alone(
    rt: &impl Abort,
    alloc: Global,
    input: &RunInput<'_, Replace>,
) -> Result<(), Fail> {
    let alone = alone(alloc, input)?;
    assert_eq!(rt; alone.len(), 5);
    assert!(rt; [alone[0], alone[1]] == [Verdict::Pass, Verdict::Fail(TORN)]);
    for known in 0..6 {
        let book = book_with(rt, alloc, input, &alone[..known])?;
        assert!(rt; book.whole());
        has(rt, alloc, &book, alone.as_slice())?;
    }
    Ok(())
}

/// Whether a plan is rigged over these points.
fn is_rigged(
    alloc: Global,
    plans: &CampaignPlans<'_>,
    points: &[&str],
    number: usize,
) -> Result<bool, Fail> {
    let mut table = FaultTable::new(alloc);
    let is_rigged = plans
        .rigger(points)
        .load(number, &mut table, &mut RigLists::new(alloc))?;
    Ok(is_rigged)
}

/// Each plan is rigged over the points of its target, and over others none is.
fn are_rigged(rt: &impl Abort, alloc: Global, plans: &CampaignPlans<'_>) -> Result<(), Fail> {
    assert_eq!(rt; plans.len(), 5);
    for number in 0..5 {
        assert!(rt; is_rigged(alloc, plans, Replace::catalogue(), number)?);
        assert!(rt; !is_rigged(alloc, plans, OneStep::catalogue(), number)?);
    }
    Ok(())
}

/// A plan that isn't rigged is run by its scenario and comes to the same verdict, so only a test sees that plans which grew are rigged.
#[test]
fn plans_that_grew_and_a_storm_behind_them_are_rigged_and_run(rt: HostRuntime) -> Result<(), Fail> {
    let alloc = rt.alloc();
    let workload = small_workload(alloc)?;
    let grown = grown(alloc)?;
    let storm = storm(alloc)?;
    let plans = CampaignPlans::grown(Some(&grown), Replace::catalogue(), &storm);
    are_rigged(&rt, alloc, &plans)?;
    let settings = settings(alloc);
    let input = RunInput {
        workload: &workload,
        settings: &settings,
        plans: &plans,
        watched: &[],
    };
    books_have_each_alone(&rt, alloc, &input)
}
