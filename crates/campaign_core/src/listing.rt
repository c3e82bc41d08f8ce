//! The list of a campaign's plans.
ghost use Rattle.std.specs.Prelude.{◌≡◌, ◌++◌, ◌≤◌, ◌<◌, false, length, slice_get, string_bytes, IfOk, IfErr, OnOk, IsErrOf};
ghost use Rattle.std.specs.List.{AllByRecursion};
ghost use Rattle.action_eval.specs.Answers.{texts};
ghost use Rattle.action_eval.specs.Catalogue.{IsCatalogue};
ghost use Rattle.action_eval.specs.RiggedScenario.{CanBeRigged};
ghost use Rattle.grown_plans.specs.GrownPlans.{rigs_of};
ghost use Rattle.grown_plans.specs.numbered.GrownScenarios.{grown_among, grown_scenarios};
ghost use Rattle.plan_gen.specs.PlanList.{most_plans};
ghost use Rattle.report.specs.ReportText.{ended, text_of};
ghost use Rattle.campaign_core.specs.Headline.{campaign_in, plans};
ghost use Rattle.campaign_core.specs.CommandTexts.{counted, plan_line, plan_lines, plans_text, IsFault, IsUnfound};
ghost use Rattle.campaign_core.specs.Writes.{change, WritesWhole};

use crate::ending::CampaignFault;
use crate::planned::{begin_list, end_list, plans_with};
use crate::subject::{Host, Subject};
use grown_plans::{CampaignPlans, GrownPlans, rigs_of};
use plan_gen::scenario_of;
use report::{write_report, write_scenario};
use scenario_values::Scenario;
use std::alloc::{AllocError, Global};
use std::fmt::Write;
use std::sync::Wait;
use std::thread::Threads;
use target_trait::{Sink, Target};
use work_gate::Gate;

/// Appends the line of a plan: its number and its scenario.
fn write_plan(
    alloc: Global,
    out: &mut String,
    number: usize,
    scenario: &Scenario,
) -> Result<(), AllocError>
    ensures { OnOk result (string_bytes out.new ≡ string_bytes out.old ++ ended (plan_line number scenario.now)) }
{
    write!(out, "plan {number} ")?;
    write_scenario(alloc, out, scenario)?;
    out.push_str("\n")
}

/// The text of a list of plans, a line for each: its number and its scenario. An error means that memory was refused.
pub fn plans_text(alloc: Global, plans: &CampaignPlans<'_>) -> Result<String, AllocError>
    ensures { IfOk result (λ text. string_bytes text ≡ text_of (plan_lines 0 plans.now)) }
{
    let mut text = String::new(alloc);
    for number in 0..plans.len() {
        write_plan(
            alloc,
            &mut text,
            number,
            &plans.plan(number).scenario(alloc)?,
        )?;
    }
    Ok(text)
}

/// The scenario of the plan of this number, if that is one that grew. An error means that memory was refused.
fn grown_plan(
    alloc: Global,
    catalogue: &'static [&'static str],
    grown: &Option<GrownPlans>,
    number: usize,
) -> Result<Option<Scenario>, AllocError>
    requires lawful { IsCatalogue (texts catalogue.now) }
    requires rigs { AllByRecursion (λ plan. CanBeRigged (rigs_of plan)) (grown_among grown.now) }
    ensures { IfOk result (λ plan. plan ≡ slice_get (grown_scenarios (texts catalogue.now) (grown_among grown.now)) number) }
{
    let Some(plans) = grown else {
        return Ok(None);
    };
    if number >= plans.len() {
        return Ok(None);
    }
    let mut faults = Vec::new(alloc);
    let mut ordered = Vec::new(alloc);
    let mut rigs = Vec::new(alloc);
    plans.faults_of(number, &mut faults)?;
    rigs_of(&mut rigs, &mut ordered, faults.as_slice())?;
    Ok(Some(scenario_of(alloc, catalogue, rigs.as_slice())?))
}

/// The scenario of the plan of this number of a campaign; `None` if the list has no such number.
///
/// Twins of the target are run to find it; the caller's target isn't touched. With a depth these are the runs of the levels before the one that has
/// the plan. For a plan whose last fault is sticky, a storm or a listed scenario, they are those of all levels.
///
/// Further levels aren't counted, so the scenario is found in a list of more than 65536 plans too, if the levels up to the plan have fewer.
/// `TooManyPlans` comes only if the list has more than 65536 plans; any other error is `Memory`.
pub fn plan_scenario<T: Target + Send, G: Gate, R: Threads + Wait + Sync>(
    host: &Host<'_, G, R>,
    subject: &Subject<'_, T>,
    number: u32,
) -> Result<Option<Scenario>, CampaignFault>
where
    T::Workload: Sync,
    ensures plan { IfOk result (λ plan. plan ≡ slice_get (plans (campaign_in T.Target subject.now)) number) }
    ensures few { OnOk result (counted (campaign_in T.Target subject.now) number ≤ most_plans) }
    ensures fault { IfErr result (IsUnfound (campaign_in T.Target subject.now) number) }
    ensures many { IsErrOf result CampaignFault.TooManyPlans → most_plans < length (plans (campaign_in T.Target subject.now)) }
{
    let number = number as usize;
    let grown = begin_list(host, subject, number + 1)?;
    let found = grown_plan(host.alloc, T::catalogue(), &grown, number)?;
    if let Some(scenario) = found {
        return Ok(Some(scenario));
    }
    let before = grown.as_ref();
    let (_, listed) = end_list(host.alloc, subject, before)?;
    let plans = plans_with(subject, before, &listed);
    if number >= plans.len() {
        return Ok(None);
    }
    Ok(Some(plans.plan(number).scenario(host.alloc)?))
}

/// Writes the list of plans of a campaign, a line for each: its number and its scenario. Twins of the target are run to find it: once without faults,
/// and with a depth on the plans of all levels. The caller's target isn't touched.
///
/// Nothing is written before the whole text is made. `TooManyPlans` comes only if the list has more than 65536 plans. Then, and if memory was
/// refused, the sink is as it was and hasn't failed. `Write` says how many bytes of the text, fewer than all, went out before the sink failed.
pub fn plan_list<T: Target + Send, G: Gate, W: Sink, R: Threads + Wait + Sync>(
    host: &Host<'_, G, R>,
    subject: &Subject<'_, T>,
    sink: &mut W,
) -> Result<(), CampaignFault>
where
    T::Workload: Sync,
    requires { W.has_failed sink.old ≡ false }
    ensures text { OnOk result (WritesWhole (plans_text (campaign_in T.Target subject.now)) (change W.Sink sink.old sink.new)) }
    ensures few { OnOk result (length (plans (campaign_in T.Target subject.now)) ≤ most_plans) }
    ensures fault { IfErr result (let c = campaign_in T.Target subject.now in
        IsFault c (plans_text c) (change W.Sink sink.old sink.new)) }
{
    let grown = begin_list(host, subject, usize::MAX)?;
    let before = grown.as_ref();
    let (_, listed) = end_list(host.alloc, subject, before)?;
    let plans = plans_with(subject, before, &listed);
    let text = plans_text(host.alloc, &plans)?;
    write_report(text.as_bytes(), sink)?;
    Ok(())
}
