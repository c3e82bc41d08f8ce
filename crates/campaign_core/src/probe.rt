//! Tests of sets of faults, on a target, and reductions by them.
ghost use Rattle.std.specs.Prelude.{◌≡◌, ◌≤◌, All, IfOk, vec_len};
ghost use Rattle.scenario_values.specs.Scenario.{all_faults};
ghost use Rattle.campaign_given.specs.Given.{verdict_on};
ghost use Rattle.campaign_core.specs.FaultTest.{fault_test};
ghost use Rattle.campaign_core.specs.Findings.{reduction};

use crate::subject::Host;
use campaign_given::CampaignSettings;
use ddmin_parallel::{Probe, Reduction, reduce};
use grown_runs::fails_with;
use scenario_values::{Scenario, are_faults, faults, faults_are_counted, keep};
use std::alloc::{AllocError, Global};
use std::sync::Wait;
use std::thread::Threads;
use target_trait::{Target, run_verdict};
use work_gate::Gate;

/// How many faults a scenario has. An error means that memory was refused.
pub fn fault_count(alloc: Global, scenario: &Scenario) -> Result<u32, AllocError>
    ensures count { IfOk result (λ n. n ≡ all_faults scenario.now) }
    ensures few { IfOk result (λ n. n ≤ 4096) }
{
    faults_are_counted();
    let _ = scenario.entries();
    let places = faults(alloc, scenario)?;
    Ok(places.len() as u32)
}

/// A failure that is to be reduced: what all its tests share.
#[derive(Drop)]
pub struct Failure<'a, T: Target> {
    pub workload: &'a T::Workload,
    /// Each test is run under their seed and limit.
    pub settings: &'a CampaignSettings,
    /// The scenario that fails.
    pub scenario: &'a Scenario,
    /// How many faults the scenario has.
    pub faults: u32,
    /// The stream number of the run that failed, under which each test is run.
    pub stream: u64,
    /// The code of the failure. A run that fails with another code counts as not failing.
    pub code: u32,
    ghost counted: { faults ≡ all_faults scenario.now },
}

/// A target, with the failure whose tests it runs.
#[derive(Drop)]
pub struct CaseProbe<'a, T: Target> {
    pub target: T,
    pub failure: &'a Failure<'a, T>,
    pub alloc: Global,
}

impl<'a, T: Target + Send> Probe for CaseProbe<'a, T>
where
    T::Workload: Sync,
{
    ghost answers = { λ probe set. fault_test (verdict_on (T.asks probe.target probe.failure.now.workload.now) T.names
        probe.failure.now.settings.now probe.failure.now.stream)
        probe.failure.now.code probe.failure.now.scenario.now set };

    /// Runs the scenario with the faults of the set alone, under the failure's seed, stream number and limit. A list that isn't faults of the
    /// scenario in ascending order is answered with no.
    fn test(&mut self, set: &[u32]) -> Result<bool, AllocError> {
        let failure = self.failure;
        if !are_faults(failure.faults, set) {
            return Ok(false);
        }
        let kept = keep(self.alloc, failure.scenario, set)?;
        let settings = failure.settings;
        let case = settings.case(&kept, failure.stream);
        let verdict = run_verdict(self.alloc, &mut self.target, failure.workload, &case)?;
        Ok(fails_with(failure.code, verdict))
    }
}

/// A probe for each worker, with a twin of the target.
fn probes<'a, T: Target + Send>(
    alloc: Global,
    target: &T,
    failure: &'a Failure<'a, T>,
    workers: usize,
) -> Result<Vec<CaseProbe<'a, T>>, AllocError>
where
    T::Workload: Sync,
    ensures many { IfOk result (λ probes. vec_len probes ≡ workers) }
    ensures same { IfOk result (λ probes. All (λ p. (p.target ≡ target.now) × (p.failure.now ≡ failure.now)) probes.items) }
{
    let mut all = Vec::new(alloc);
    for _ in 0..workers {
        let target = target.twin()?;
        all.push(CaseProbe {
            target,
            failure,
            alloc,
        })?;
    }
    Ok(all)
}

/// Reduces a failure with one thread and one twin of the target for each worker. The result is the same as with one thread. An error means that
/// memory was refused.
pub fn reduction_of<T: Target + Send, G: Gate, R: Threads + Wait + Sync>(
    host: &Host<'_, G, R>,
    target: &T,
    failure: &Failure<'_, T>,
) -> Result<Reduction, AllocError>
where
    T::Workload: Sync,
    ensures { IfOk result (λ r. r ≡ reduction
        (verdict_on (T.asks target.now failure.now.workload.now) T.names failure.now.settings.now)
        failure.now.stream failure.now.code failure.now.scenario.now) }
{
    let _ = failure.scenario.entries();
    let Host { rt, alloc, gate } = host;
    let worker_probes: Vec<CaseProbe<'_, T>> = probes(
        *alloc,
        target,
        failure,
        failure.settings.workers(),
    )?;
    reduce(*rt, *alloc, *gate, worker_probes, failure.faults)
}
