//! What is left to try once each plan's run is known: the scenarios whose verdicts decide which plans are causes, and what the first failures are
//! reduced to.
ghost use Rattle.std.specs.Prelude.{◌≡◌, ◌≤◌, ◌++◌, length, IfOk};
ghost use Rattle.grown_plans.specs.numbered.GrownScenarios.{grown_scenarios};
ghost use Rattle.outside_campaign.specs.Asked.{plan_verdicts};
ghost use Rattle.outside_campaign.specs.with_depth.Grown.{BeginsWith, known as known_verdicts};
ghost use Rattle.outside_campaign.specs.with_depth.inside.Outcomes.{IsOutcome};

use crate::with_depth::table::KnownByRuns;
use crate::{Findings, findings_known};
use answered_runs::{Causes, KnownPlans, known_causes};
use grown_plans::CampaignPlans;
use report::Finding;
use result_book::first_failures_of;
use scenario_values::Scenario;
use std::alloc::{AllocError, Global};
use target_trait::Verdict;

/// What the plans come to, once the verdicts that decide it are known.
#[derive(Drop)]
pub struct Told {
    /// The first failure of each code, reduced.
    pub findings: Vec<Finding>,
    /// The causes, by the numbers of their plans and their codes.
    pub causes: Vec<(u32, u32)>,
}

/// What the plans come to, or what has to be tried first.
#[derive(Drop)]
pub enum Outcome {
    Told(Told),
    /// The scenarios that are still to be tried, tidied; at least one. Two of them may be equal.
    Open(Vec<Scenario>),
}

/// The scenarios of both lists, those of `first` before the others.
fn append(first: Vec<Scenario>, others: Vec<Scenario>) -> Result<Vec<Scenario>, AllocError>
    ensures { IfOk result (λ all. all.items ≡ first.items ++ others.items) }
{
    let mut all = first;
    let mut others = others;
    all.append(&mut others)?;
    Ok(all)
}

/// The findings and causes of these plans, or the scenarios that have to be tried first. The plans begin with those that grew, and `verdicts` has the
/// verdict of each plan, if it is known. Open scenarios come first for the reductions of the first failures known, and then for causes. An error
/// means that memory was refused.
pub fn outcome_known(
    alloc: Global,
    known: &KnownPlans<'_>,
    plans: &CampaignPlans<'_>,
    verdicts: &[Option<Verdict>],
) -> Result<Outcome, AllocError>
    requires plans { BeginsWith (grown_scenarios known.now.answered.points known.now.list.plans) plans.now }
    requires verdicts { verdicts.now ≡ plan_verdicts (known_verdicts known.now.answered known.now.depth) plans.now }
    requires few { length verdicts.now ≤ 65536 }
    ensures { IfOk result (IsOutcome known.now plans.now) }
{
    let failures = first_failures_of(alloc, verdicts)?;
    let table = KnownByRuns { known };
    let findings = findings_known(alloc, &table, plans, failures.as_slice())?;
    let causes = known_causes(alloc, known, verdicts)?;
    match findings {
        Findings::Told(findings) => match causes {
            Causes::Told(causes) => Ok(Outcome::Told(Told { findings, causes })),
            Causes::Open(open) => Ok(Outcome::Open(open)),
        },
        Findings::Open(open) => match causes {
            Causes::Told(_told) => Ok(Outcome::Open(open)),
            Causes::Open(more) => Ok(Outcome::Open(append(open, more)?)),
        },
    }
}
