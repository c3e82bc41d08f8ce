//! The facts in a report.

use grown_plans::CampaignPlan;
use scenario_values::Scenario;
use std::marker::Model;
use target_trait::Verdict;

/// The first failure with a code, and what it was reduced to.
#[derive(Drop)]
pub struct Finding {
    /// The number of the plan, the least of those that fail with this code.
    pub number: u32,
    /// The target's code for what was broken.
    pub code: u32,
    /// The plan's scenario.
    pub scenario: Scenario,
    /// The plan's scenario with the faults that were kept, tidied.
    pub reduced: Scenario,
    /// How many sets of faults were tested; the count stops at the largest `u64`.
    pub tests: u64,
}

impl Model for Finding {
    ghost use Rattle.report.specs.Reports.{FindingFacts};

    ghost Value = { FindingFacts };

    ghost view = { λ f. record {
      number = f.number;
      code = f.code;
      scenario = f.scenario;
      reduced = f.reduced;
      tests = f.tests;
    } };
}

/// A cause: a grown plan that fails with a code, and doesn't without any one of its faults.
#[derive(Drop)]
pub struct Cause {
    /// The number of the plan.
    pub number: u32,
    /// The target's code for what was broken.
    pub code: u32,
    /// The plan's scenario.
    pub scenario: Scenario,
}

impl Model for Cause {
    ghost use Rattle.report.specs.Reports.{CauseFacts};

    ghost Value = { CauseFacts };

    ghost view = { λ c. record { number = c.number; code = c.code; scenario = c.scenario } };
}

/// A plan with its number and its verdict.
#[derive(Drop)]
pub struct JudgedPlan<'a> {
    pub number: usize,
    pub verdict: Verdict,
    pub plan: CampaignPlan<'a>,
}

/// How a campaign with a depth grew: what its report says besides.
#[derive(Drop)]
pub struct Growth<'a> {
    /// The depth: how many faults a plan of the levels has at most, from 1 to 64.
    pub depth: u32,
    /// How many plans each level has, from level 0 to that of the depth.
    pub levels: &'a [u32],
    /// How many plans with a sticky last fault there are, as in the report's line `onward`: each is a plan of the last level with that fault sticky.
    pub onward: u32,
    /// How many plans the level after the last one would have.
    pub beyond: u64,
    /// From how many plans nothing grew, because they were run and their hits aren't known. For targets that is 0, as their hits are always known.
    pub unseen: u32,
    /// For each point, in the order of the catalogue, the most hits of it in a run of one of these plans.
    pub reached: &'a [u32],
    /// The causes, in the order of the plans' numbers.
    pub causes: Vec<Cause>,
}

impl<'a> Model for Growth<'a> {
    ghost use Rattle.report.specs.Reports.{GrowthFacts};

    ghost Value = { GrowthFacts };

    ghost view = { λ g. record {
      depth = g.depth;
      levels = g.levels.now;
      onward = g.onward;
      beyond = g.beyond;
      unseen = g.unseen;
      reached = g.reached.now;
      causes = g.causes.items;
    } };
}

/// The facts in a report. How many workers ran the plans isn't among them.
#[derive(Drop)]
pub struct Report<'a> {
    /// The label of the target's setup.
    pub label: &'a str,
    /// The seed of the random words of all runs.
    pub seed: u64,
    /// The verdict of the run without faults.
    pub clean: Verdict,
    /// How often each point is asked in the run without faults, in the order of the target's catalogue.
    pub census: &'a [u32],
    /// The verdict of each plan, in the order of the plans' numbers, from 0.
    pub verdicts: &'a [Verdict],
    /// How many plans pass although a fault of their scenario never acted, as far as runs are recorded with their hits. It isn't counted for targets
    /// that the program runs itself: there it is 0.
    pub unmet: u32,
    /// The first failure with each code with which a plan fails, in the order of the plans' numbers.
    pub findings: Vec<Finding>,
    /// How the campaign grew, if it has a depth.
    pub growth: Option<Growth<'a>>,
}

impl<'a> Model for Report<'a> {
    ghost use Rattle.report.specs.Reports.{ReportFacts};

    ghost Value = { ReportFacts };

    ghost view = { λ r. record {
      label = r.label.now;
      seed = r.seed;
      clean = r.clean;
      census = r.census.now;
      verdicts = r.verdicts.now;
      unmet = r.unmet;
      findings = r.findings.items;
      growth = r.growth;
    } };
}
