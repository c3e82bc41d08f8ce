//! A campaign whose plans have run.
ghost use Rattle.std.specs.Prelude.{◌≡◌, ◌≤◌, drop, length, true, IfErr, IfOk};
ghost use Rattle.result_book.specs.Runs.{runs_from, unreached_of};
ghost use Rattle.campaign_core.specs.CommandTexts.{tried, IsUnlisted};
ghost use Rattle.campaign_core.specs.Headline.{campaign_in, plans, say};
ghost use Rattle.campaign_core.specs.Planned.{IsPlanned};
ghost use Rattle.campaign_core.specs.Ran.{AreResults, IsRan, unreached};
ghost use Rattle.campaign_core.specs.inside.Ranges.{counts_in, known_in, uncounted, watched_if};

use crate::ending::CampaignFault;
use crate::planned::{Planned, known_of, plan_campaign, plans_of};
use crate::results::{Results, run_input_plans};
use crate::subject::{Host, Subject};
use crate::watching::uncounted;
use grown_plans::each_target_is_a_lawful_subject;
use result_book::RunInput;
use std::alloc::{AllocError, Global};
use std::sync::Wait;
use std::thread::Threads;
use target_trait::Target;
use work_gate::Gate;

/// A campaign's plans, and what each came to.
#[derive(Drop)]
pub struct Ran<'a> {
    pub planned: Planned<'a>,
    pub results: Results,
}

/// How often each point is hit by the runs that were made to find the plans: the most hits in a run of a plan that grew, or those of the census.
fn counts_of<'p>(planned: &'p Planned<'_>) -> &'p [u32]
    ensures { result.now ≡ counts_in planned.now }
{
    match &planned.grown {
        Some(grown) => grown.outcomes.hits.as_slice(),
        None => planned.census.counts.as_slice(),
    }
}

/// The points that are watched, if the campaign is to see which points no run hits: those without a hit so far. None are watched otherwise.
fn watched_of(
    alloc: Global,
    planned: &Planned<'_>,
    is_surveyed: bool,
) -> Result<Vec<u32>, AllocError>
    requires { length (counts_in planned.now) ≤ 64 }
    ensures { IfOk result (λ points. points.items ≡ watched_if is_surveyed planned.now) }
{
    if !is_surveyed {
        return Ok(Vec::new(alloc));
    }
    uncounted(alloc, counts_of(planned))
}

/// What a campaign's plans come to. An error means that memory was refused.
fn results_of<T: Target + Send, G: Gate, R: Threads + Wait + Sync>(
    host: &Host<'_, G, R>,
    subject: &Subject<'_, T>,
    planned: &Planned<'_>,
    is_surveyed: bool,
) -> Result<Results, AllocError>
where
    T::Workload: Sync,
    requires { IsPlanned (campaign_in T.Target subject.now) planned.now }
    ensures results { IfOk result (AreResults (say (campaign_in T.Target subject.now)) (plans (campaign_in T.Target subject.now))) }
    ensures unreached { let c = campaign_in T.Target subject.now in IfOk result (λ r. r.unreached.items
        ≡ unreached_of (watched_if is_surveyed planned.now) (runs_from (tried c) (known_in planned.now) (drop (known_in planned.now) (plans c)))) }
{
    let plans = plans_of(subject, planned);
    let watched = watched_of(host.alloc, planned, is_surveyed)?;
    let input = RunInput {
        workload: subject.workload,
        settings: subject.settings,
        plans: &plans,
        watched: watched.as_slice(),
    };
    run_input_plans(host, subject.target, &input, known_of(subject, planned))
}

/// Runs a campaign's plans, with as many threads as the settings say. What they come to is the same as with one thread. If the campaign is surveyed,
/// the same runs show which points none of them hits. The caller's target isn't touched.
///
/// `TooManyPlans` comes only if there are more than 65536 plans; any other error is `Memory`, and never `Write`.
pub fn run_campaign<'a, T: Target + Send, G: Gate, R: Threads + Wait + Sync>(
    host: &Host<'_, G, R>,
    subject: &Subject<'a, T>,
    is_surveyed: bool,
) -> Result<Ran<'a>, CampaignFault>
where
    T::Workload: Sync,
    ensures ran { IfOk result (IsRan (campaign_in T.Target subject.now)) }
    ensures unreached { is_surveyed ≡ true → IfOk result (λ ran. ran.results.unreached.items ≡ unreached (campaign_in T.Target subject.now)) }
    ensures fault { IfErr result (IsUnlisted (campaign_in T.Target subject.now)) }
{
    each_target_is_a_lawful_subject::<T>();
    let planned = plan_campaign(host, subject)?;
    let results = results_of(host, subject, &planned, is_surveyed)?;
    Ok(Ran { planned, results })
}
