//! The plans of a campaign.
ghost use Rattle.std.specs.Prelude.{◌≡◌, ◌+◌, ◌<◌, ◌≤◌, length, option_copied, option_map, IfOk, OnOk, IsErrOf};
ghost use Rattle.plan_gen.specs.PlanList.{most_plans};
ghost use Rattle.campaign_core.specs.Headline.{campaign_in, census, grower, plans, say};
ghost use Rattle.grown_plans.specs.GrownPlans.{grown};
ghost use Rattle.grown_runs.specs.Grown.{subject_in, begun};
ghost use Rattle.campaign_core.specs.CommandTexts.{counted_to, with_rest};
ghost use Rattle.campaign_core.specs.inside.Ranges.{known_in};
ghost use Rattle.campaign_core.specs.Planned.{listed_to, IsGrown, IsPlanned, IsBegun, AreBegun, AreGrown, AreKnown};

use crate::subject::{Host, Subject};
use campaign_given::CampaignSettings;
use grown_plans::{
    CampaignPlans, GrownPlans, each_plan_can_be_rigged, each_target_is_a_lawful_subject,
};
use grown_runs::{Conditions, Grown, Limits, grow, grow_list};
use plan_gen::{Census, MOST_PLANS, PlanFault, PlanList, by_census, further_plans, plans};
use std::alloc::{AllocError, Global};
use std::sync::Wait;
use std::thread::Threads;
use target_trait::{Target, Verdict};
use work_gate::Gate;

/// The lists of a campaign's plans.
#[derive(Drop)]
pub struct Planned<'a> {
    /// How often each point is hit in the run without faults.
    pub census: Census,
    /// With a depth, the plans that grew and what their runs came to. They come before the others.
    pub grown: Option<Grown>,
    /// The other plans: without a depth those of the census, with one the storms and the listed scenarios alone.
    pub listed: PlanList<'a>,
}

/// The census, by a run of a twin of the target. An error means that memory was refused.
fn census_of<T: Target>(alloc: Global, subject: &Subject<'_, T>) -> Result<Census, AllocError>
    ensures census { IfOk result (λ r. r.counts.items ≡ census (campaign_in T.Target subject.now)) }
    ensures counts { IfOk result (λ r. length r.counts.items ≡ length T.names) }
    ensures points { length T.names ≤ 64 }
{
    let settings = subject.settings;
    let mut twin = subject.target.twin()?;
    let seed = settings.seed;
    let census = by_census(alloc, &mut twin, subject.workload, seed, settings.max_hits)?;
    Ok(census)
}

/// How many plans may grow, if the storms and listed scenarios are to stand behind them.
fn room_to_grow(settings: &CampaignSettings) -> u32
    ensures { result + settings.now.plans.storms + length settings.now.plans.listed ≡ most_plans }
{
    MOST_PLANS as u32 - settings.storms - settings.scenarios.len() as u32
}

/// What the plans of a campaign need to grow to this depth: the target with its workload, the threads, and the limits.
fn conditions<'s, T: Target, G: Gate, R: Threads + Wait + Sync>(
    host: &Host<'s, G, R>,
    subject: &Subject<'s, T>,
    depth: u32,
) -> Conditions<'s, T, G, R>
    requires { depth ≤ 64 }
    ensures grower { subject_in T.Target result ≡ grower (campaign_in T.Target subject.now) }
    ensures seed { result.limits.seed ≡ (campaign_in T.Target subject.now).given.plans.seed }
    ensures depth { result.limits.depth ≡ depth }
    ensures room { with_rest (campaign_in T.Target subject.now) result.limits.most_plans ≡ most_plans }
{
    let settings = subject.settings;
    let limits = Limits {
        seed: settings.seed,
        max_hits: settings.max_hits,
        depth,
        most_plans: room_to_grow(settings),
        workers: settings.workers,
    };
    Conditions {
        rt: host.rt,
        alloc: host.alloc,
        gate: host.gate,
        target: subject.target,
        workload: subject.workload,
        limits,
    }
}

/// The plans that grow to this depth, and what their runs come to.
fn grown_to<T: Target + Send, G: Gate, R: Threads + Wait + Sync>(
    host: &Host<'_, G, R>,
    subject: &Subject<'_, T>,
    depth: u32,
) -> Result<Grown, PlanFault>
where
    T::Workload: Sync,
    requires { depth ≤ 64 }
    ensures grown { IfOk result (IsGrown (campaign_in T.Target subject.now) depth) }
    ensures few { IfOk result (λ g. with_rest (campaign_in T.Target subject.now) (length g.list.plans) ≤ most_plans) }
    ensures many { IsErrOf result PlanFault.TooManyPlans
        → most_plans < with_rest (campaign_in T.Target subject.now) (length (grown (grower (campaign_in T.Target subject.now)) depth)) }
{
    each_target_is_a_lawful_subject::<T>();
    each_plan_can_be_rigged();
    grow(&conditions(host, subject, depth))
}

/// The plans that grow to this depth, level by level until there are at least `count`, or else all of them.
fn begun_to<T: Target + Send, G: Gate, R: Threads + Wait + Sync>(
    host: &Host<'_, G, R>,
    subject: &Subject<'_, T>,
    depth: u32,
    count: usize,
) -> Result<GrownPlans, PlanFault>
where
    T::Workload: Sync,
    requires low { 1 ≤ depth }
    requires high { depth ≤ 64 }
    ensures begun { IfOk result (IsBegun (campaign_in T.Target subject.now) depth count) }
    ensures many { IsErrOf result PlanFault.TooManyPlans
        → most_plans < with_rest (campaign_in T.Target subject.now) (length (begun (grower (campaign_in T.Target subject.now)) depth count)) }
{
    each_target_is_a_lawful_subject::<T>();
    each_plan_can_be_rigged();
    grow_list(&conditions(host, subject, depth), count)
}

/// With a depth, the plans that grow, level by level until there are at least `count`, or else all of them. No more plans are run than that takes.
/// `None` without a depth.
///
/// `TooManyPlans` comes only if these, the storms and the listed scenarios are more than 65536; any other error is `Memory`.
pub fn begin_list<T: Target + Send, G: Gate, R: Threads + Wait + Sync>(
    host: &Host<'_, G, R>,
    subject: &Subject<'_, T>,
    count: usize,
) -> Result<Option<GrownPlans>, PlanFault>
where
    T::Workload: Sync,
    ensures begun { IfOk result (λ grown. AreBegun (campaign_in T.Target subject.now) (campaign_in T.Target subject.now).given.depth count grown) }
    ensures many { IsErrOf result PlanFault.TooManyPlans
        → most_plans < counted_to (campaign_in T.Target subject.now) count (campaign_in T.Target subject.now).given.depth }
{
    let settings = subject.settings;
    let Some(depth) = settings.depth else {
        return Ok(None);
    };
    let begun = begun_to(host, subject, depth, count)?;
    Ok(Some(begun))
}

/// The census of a campaign, by a run of a twin of the target, and those of its plans that don't grow. With a depth these are the storms and the
/// listed scenarios, which stand behind the plans that grew.
///
/// `TooManyPlans` comes only if there are more than 65536 plans; any other error is `Memory`.
pub fn end_list<'a, T: Target>(
    alloc: Global,
    subject: &Subject<'a, T>,
    grown: Option<&GrownPlans>,
) -> Result<(Census, PlanList<'a>), PlanFault>
    requires { AreGrown (campaign_in T.Target subject.now) (campaign_in T.Target subject.now).given.depth (option_copied grown) }
    ensures census { IfOk result (λ r. r.0.counts.items ≡ census (campaign_in T.Target subject.now)) }
    ensures counts { IfOk result (λ r. length r.0.counts.items ≡ length T.names) }
    ensures points { length T.names ≤ 64 }
    ensures listed { IfOk result (λ r. r.1 ≡ listed_to (campaign_in T.Target subject.now) (campaign_in T.Target subject.now).given.depth) }
    ensures few { OnOk result (length (plans (campaign_in T.Target subject.now)) ≤ most_plans) }
    ensures some { OnOk result (0 < length (plans (campaign_in T.Target subject.now))) }
    ensures many { IsErrOf result PlanFault.TooManyPlans → most_plans < length (plans (campaign_in T.Target subject.now)) }
{
    each_target_is_a_lawful_subject::<T>();
    let Ok(census) = census_of(alloc, subject) else {
        return Err(PlanFault::Memory);
    };
    let settings = subject.settings;
    let settings = settings.plan_settings();
    let catalogue = T::catalogue();
    let Some(grown) = grown else {
        let listed = plans(alloc, &census, catalogue, &settings)?;
        return Ok((census, listed));
    };
    let listed = further_plans(alloc, &census, catalogue, &settings, grown.len())?;
    Ok((census, listed))
}

/// A campaign's census and its plans: those of the census or, with a depth, those that grow from each other's runs. The latter are run for it.
///
/// `TooManyPlans` comes only if there are more than 65536 plans; any other error is `Memory`.
pub fn plan_campaign<'a, T: Target + Send, G: Gate, R: Threads + Wait + Sync>(
    host: &Host<'_, G, R>,
    subject: &Subject<'a, T>,
) -> Result<Planned<'a>, PlanFault>
where
    T::Workload: Sync,
    ensures planned { IfOk result (IsPlanned (campaign_in T.Target subject.now)) }
    ensures few { OnOk result (length (plans (campaign_in T.Target subject.now)) ≤ most_plans) }
    ensures many { IsErrOf result PlanFault.TooManyPlans → most_plans < length (plans (campaign_in T.Target subject.now)) }
{
    let settings = subject.settings;
    let Some(depth) = settings.depth else {
        let (census, listed) = end_list(host.alloc, subject, None)?;
        return Ok(Planned {
            census,
            grown: None,
            listed,
        });
    };
    let grown = grown_to(host, subject, depth)?;
    let (census, listed) = end_list(host.alloc, subject, Some(&grown.list.plans))?;
    Ok(Planned {
        census,
        grown: Some(grown),
        listed,
    })
}

/// The plans that grew, if any did.
fn grown_plans(grown: &Option<Grown>) -> Option<&GrownPlans>
    ensures { option_copied result ≡ option_map (λ g. g.list.plans) grown.now }
{
    match grown {
        Some(grown) => Some(&grown.list.plans),
        None => None,
    }
}

/// The plans of a campaign: those that grew, if any did, and those that don't grow.
pub fn plans_with<'p, T: Target>(
    subject: &Subject<'_, T>,
    grown: Option<&'p GrownPlans>,
    listed: &'p PlanList<'_>,
) -> CampaignPlans<'p>
    requires grown { AreGrown (campaign_in T.Target subject.now) (campaign_in T.Target subject.now).given.depth (option_copied grown) }
    requires listed { listed.now ≡ listed_to (campaign_in T.Target subject.now) (campaign_in T.Target subject.now).given.depth }
    requires few { length (plans (campaign_in T.Target subject.now)) ≤ most_plans }
    ensures { result ≡ plans (campaign_in T.Target subject.now) }
{
    let _ = subject;
    let catalogue: &'p [&'p str] = T::catalogue();
    CampaignPlans::grown(grown, catalogue, &*listed)
}

/// The plans of a campaign, from its lists.
pub fn plans_of<'p, T: Target>(
    subject: &Subject<'_, T>,
    planned: &'p Planned<'_>,
) -> CampaignPlans<'p>
    requires { IsPlanned (campaign_in T.Target subject.now) planned.now }
    ensures { result ≡ plans (campaign_in T.Target subject.now) }
{
    let _ = subject;
    let grown = grown_plans(&planned.grown);
    let catalogue: &'p [&'p str] = T::catalogue();
    CampaignPlans::grown(grown, catalogue, &planned.listed)
}

/// The verdicts of the plans that have run already, which are those that grew.
pub fn known_of<'p, T: Target>(subject: &Subject<'_, T>, planned: &'p Planned<'_>) -> &'p [Verdict]
    requires { IsPlanned (campaign_in T.Target subject.now) planned.now }
    ensures known { AreKnown (say (campaign_in T.Target subject.now)) (plans (campaign_in T.Target subject.now)) result.now }
    ensures many { length result.now ≡ known_in planned.now }
{
    let _ = subject;
    match &planned.grown {
        Some(grown) => grown.outcomes.verdicts.as_slice(),
        None => &[],
    }
}
