//! What first failures are reduced to, by what is known.
ghost use Rattle.std.specs.Prelude.{◌≡◌, ◌<◌, All, length, IfOk, OnOk};
ghost use Rattle.outside_campaign.specs.Told.{AreFindings};
ghost use Rattle.outside_campaign.specs.inside.Told.{IsLook, IsGathered};

use crate::reduction::{Reached, reduce_known};
use crate::table::VerdictTable;
use grown_plans::CampaignPlans;
use report::Finding;
use scenario_values::{Scenario, keep, tidy};
use std::alloc::{AllocError, Global};

/// What a failure is reduced to, or what has to be tried first.
#[derive(Drop)]
enum Look {
    Told(Finding),
    /// The open candidates of its reduction, at least one.
    Open(Vec<Scenario>),
}

/// What some failures are reduced to, or what has to be tried first.
#[derive(Drop)]
pub enum Findings {
    /// What each is reduced to.
    Told(Vec<Finding>),
    /// The open candidates of their reductions, as tidied scenarios; at least one. Two of them may be equal.
    Open(Vec<Scenario>),
}

/// What the plan of this number and scenario, which fails with this code, is reduced to by what is known.
fn look_at<K: VerdictTable>(
    alloc: Global,
    known: &K,
    scenario: Scenario,
    number: u32,
    code: u32,
) -> Result<Look, AllocError>
    ensures { IfOk result (IsLook (K.verdicts known.now) number code scenario) }
{
    let _ = scenario.entries();
    match reduce_known(alloc, known, &scenario, code)? {
        Reached::Open(requests) => Ok(Look::Open(requests)),
        Reached::Reduced(reduction) => {
            let kept = keep(alloc, &scenario, reduction.kept.as_slice())?;
            let reduced = tidy(alloc, &kept)?;
            let tests = reduction.tests;
            Ok(Look::Told(Finding {
                number,
                code,
                scenario,
                reduced,
                tests,
            }))
        }
    }
}

/// Adds a finding, or the candidates that are open instead.
fn gather(
    findings: &mut Vec<Finding>,
    requests: &mut Vec<Scenario>,
    look: Look,
) -> Result<(), AllocError>
    ensures { OnOk result (IsGathered findings.old.items findings.new.items requests.old.items requests.new.items look) }
{
    match look {
        Look::Told(finding) => {
            findings.push(finding)?;
            Ok(())
        }
        Look::Open(more) => {
            let mut more = more;
            requests.append(&mut more)
        }
    }
}

/// What each of these failures is reduced to, by what is known, or the open candidates of their reductions. A failure is the number of a plan and its
/// code. The plan's number is its stream number: the findings are those of each family of components, one for each stream number, that agrees with
/// what is known.
///
/// An error means that memory was refused.
pub fn findings_known<K: VerdictTable>(
    alloc: Global,
    known: &K,
    plans: &CampaignPlans<'_>,
    failures: &[(u32, u32)],
) -> Result<Findings, AllocError>
    requires { All (λ f. f.0 < length plans.now) failures.now }
    ensures { IfOk result (AreFindings (K.verdicts known.now) plans.now failures.now) }
{
    let mut findings = Vec::new(alloc);
    let mut requests = Vec::new(alloc);
    for i in 0..failures.len() {
        let (number, code) = failures[i];
        let scenario = plans.plan(number as usize).scenario(alloc)?;
        let look = look_at(alloc, known, scenario, number, code)?;
        gather(&mut findings, &mut requests, look)?;
    }
    if requests.is_empty() {
        Ok(Findings::Told(findings))
    } else {
        Ok(Findings::Open(requests))
    }
}
