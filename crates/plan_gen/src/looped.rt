//! The census by many runs.
ghost use Rattle.std.specs.Prelude.{◌≡◌, ◌≤◌, ◌<◌, ◌∷◌, [], nat_le, length, IfOk};
ghost use Rattle.plan_gen.specs.LoopRuns.{IsMetAlike, loop_kind, times_of};
ghost use Rattle.plan_gen.specs.Census.{census_of};
ghost use Rattle.action_eval.specs.RiggedScenario.{rig, rigged_scenario, HasLawfulText};

use crate::census::{Census, count_of};
use crate::rigged_scenario::scenario_of;
use action_eval::{Argument, Kind, Rig, Site};
use std::alloc::{AllocError, Global};
use target_trait::{Case, Target, run_case};

/// Whether a run meets a rigged hit.
#[tactic(auto, unfolding(crate::specs::LoopRuns::times_of))]
fn meets<T: Target>(
    alloc: Global,
    target: &mut T,
    workload: &T::Workload,
    seed: u64,
    max_hits: u32,
    rig: Rig,
) -> Result<bool, AllocError>
    requires { HasLawfulText rig.kind }
    ensures met { IfOk result (λ met. met ≡ nat_le rig.site.hit
        (times_of (T.asks target.old workload.now) T.names seed max_hits (rigged_scenario T.names (rig ∷ [])) rig.site.point)) }
    ensures setup { target.new ≡ target.old }
{
    let site = rig.site;
    let scenario = scenario_of(alloc, T::catalogue(), &[rig])?;
    let case = Case {
        scenario: &scenario,
        seed,
        stream: 0,
        max_hits,
    };
    let outcome = run_case(alloc, target, workload, &case)?;
    Ok(site.hit <= count_of(outcome.asked.as_slice(), site.point))
}

/// How often a point is asked: its hits are rigged in turn, until a run doesn't meet one.
fn count_by_loop<T: Target>(
    alloc: Global,
    target: &mut T,
    workload: &T::Workload,
    seed: u64,
    max_hits: u32,
    point: u32,
    kind: Kind,
) -> Result<u32, AllocError>
    requires point { point < length T.names }
    requires text { HasLawfulText kind }
    requires law { IsMetAlike (T.asks target.old workload.now) T.names seed max_hits kind }
    ensures count { IfOk result (λ count. count ≡ times_of (T.asks target.old workload.now) T.names seed max_hits [] point) }
    ensures setup { target.new ≡ target.old }
{
    for met in 0..max_hits {
        let rig = Rig {
            site: Site {
                point,
                hit: met + 1,
            },
            kind,
        };
        if !meets(alloc, target, workload, seed, max_hits, rig)? {
            return Ok(met);
        }
    }
    Ok(max_hits)
}

/// What is done at the hit that the loop rigs.
fn kind_of(onward: bool) -> Kind
    ensures kind { result ≡ loop_kind onward }
    ensures text { HasLawfulText result }
{
    if onward {
        Kind::OnwardReturn(Argument::none())
    } else {
        Kind::OnceReturn(Argument::none())
    }
}

/// The census by runs with one rigged fault, as SQLite's tests loop: for each point in turn the fault is rigged for hit 1, 2, .. until a run doesn't
/// meet it. Up to its first fault a run is the run of the empty scenario, so the result is that of `by_census`, with `onward` or without.
///
/// With `onward` the hit and all later hits of its point fail; without, that hit alone. `max_hits` is how many hits of a run are answered. There is
/// one run for each site and one more for each point, but none past hit `max_hits` of a point. An error means that memory was refused. The target
/// keeps its setup, after an error too.
pub fn by_loop<T: Target>(
    alloc: Global,
    target: &mut T,
    workload: &T::Workload,
    seed: u64,
    max_hits: u32,
    onward: bool,
) -> Result<Census, AllocError>
    ensures ok { IfOk result (λ census. census.counts.items ≡ census_of (T.asks target.old workload.now) T.names seed max_hits) }
    ensures setup { target.new ≡ target.old }
{
    let kind = kind_of(onward);
    let points = T::catalogue().len() as u32;
    let mut counts = Vec::with_capacity(alloc, points as usize)?;
    for point in 0..points {
        counts.push(count_by_loop(alloc, target, workload, seed, max_hits, point, kind)?)?;
    }
    Ok(Census { counts })
}
