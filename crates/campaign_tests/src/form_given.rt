//! Names, plans and findings of small reports, and their documents.
ghost use Rattle.std.specs.Prelude.{◌≡◌, [], length, slice_index_or, IfOk, IfSome};
ghost use Rattle.action_eval.specs.Answers.{texts};

use file_replace::Replace;
use grown_plans::CampaignPlans;
use plan_gen::{Census, PlanList, PlanSettings, further_plans};
use report::{
    Appendix, Cause, Finding, Names, Notes, Report, Runs, Shown, brief_text, json_text, junit_text,
};
use scenario_grammar::parse;
use scenario_values::Scenario;
use std::alloc::Global;
use std::test::Fail;
use target_trait::{Target, Verdict};

/// The names of points and codes, in the order of their numbers.
#[derive(Drop)]
pub struct Words<'a> {
    pub points: &'a [&'a str],
    pub codes: &'a [&'a str],
}

impl<'a> Names for Words<'a> {
    ghost points = { λ words. texts words.points.now };

    ghost code_text = { λ words code. slice_index_or (texts words.codes.now) code [] };

    fn point(&self, number: usize) -> &str {
        self.points[number]
    }

    fn code(&self, code: u32) -> &str {
        match self.codes.get(code as usize) {
            Some(name) => name,
            None => "",
        }
    }
}

/// The scenarios that these texts spell.
pub fn scenarios(alloc: Global, texts: &[&str]) -> Result<Vec<Scenario>, Fail> {
    let mut all = Vec::new(alloc);
    for text in texts {
        all.push(parse(alloc, text)?)?;
    }
    Ok(all)
}

/// A plan of each of these scenarios.
pub fn plans(alloc: Global, scenarios: &[Scenario]) -> Result<PlanList<'_>, Fail> {
    let census = Census {
        counts: Vec::from_slice(alloc, &[0; 7])?,
    };
    let settings = PlanSettings {
        pairs: false,
        storms: 0,
        rate: 0,
        listed: scenarios,
        seed: 7,
    };
    match further_plans(alloc, &census, Replace::catalogue(), &settings, 0) {
        Ok(plans) => Ok(plans),
        Err(_) => Err(Fail::from("no plans")),
    }
}

/// A report of a campaign without a plan.
pub fn empty_report<'a>(alloc: Global) -> Report<'a> {
    Report {
        label: "",
        seed: 0,
        clean: Verdict::Unresolved,
        census: &[],
        verdicts: &[],
        unmet: 0,
        findings: Vec::new(alloc),
        growth: None,
    }
}

/// A first failure.
pub fn finding(
    alloc: Global,
    number: u32,
    code: u32,
    scenario: &str,
    reduced: &str,
    tests: u64,
) -> Result<Finding, Fail> {
    Ok(Finding {
        number,
        code,
        scenario: parse(alloc, scenario)?,
        reduced: parse(alloc, reduced)?,
        tests,
    })
}

/// A cause.
pub fn cause(alloc: Global, number: u32, code: u32, scenario: &str) -> Result<Cause, Fail> {
    Ok(Cause {
        number,
        code,
        scenario: parse(alloc, scenario)?,
    })
}

/// The plans of a report that has a verdict for each.
fn judged<'p>(report: &Report<'_>, plans: &'p PlanList<'p>) -> Result<CampaignPlans<'p>, Fail>
    ensures { IfOk result (λ judged. length report.now.verdicts ≡ length judged) }
{
    if report.verdicts.len() != plans.len() {
        return Err(Fail::from("no verdict for each plan"));
    }
    Ok(CampaignPlans::by_census(plans))
}

/// The JSON document of a report that has a verdict for each plan. Its last plan is a listed scenario, and the one before that a storm.
pub fn json_of<N: Names>(
    alloc: Global,
    names: &N,
    report: &Report<'_>,
    plans: &PlanList<'_>,
) -> Result<Vec<u8>, Fail>
    requires counts { length report.now.census ≡ length (N.points names.now) }
    requires reached { IfSome report.now.growth (λ growth. length growth.reached ≡ length (N.points names.now)) }
{
    let judged = judged(report, plans)?;
    let notes = Notes {
        version: "1.2",
        told_by: "answers",
        command: "a command",
    };
    let shown = Shown::new(&judged, None, 1, 1, "a = \"b\"\n");
    let runs = Runs {
        clean: None,
        findings: Vec::new(alloc),
        causes: Vec::new(alloc),
    };
    let appendix = Appendix {
        notes: &notes,
        shown: &shown,
        runs: &runs,
    };
    Ok(json_text(alloc, names, report, &appendix)?)
}

/// The brief text of a report that has a verdict for each plan.
pub fn brief_of<N: Names>(
    alloc: Global,
    names: &N,
    report: &Report<'_>,
    plans: &PlanList<'_>,
) -> Result<Vec<u8>, Fail>
    requires counts { length report.now.census ≡ length (N.points names.now) }
    requires reached { IfSome report.now.growth (λ growth. length growth.reached ≡ length (N.points names.now)) }
{
    Ok(brief_text(alloc, names, report, &judged(report, plans)?)?)
}

/// The JUnit document of a report that has a verdict for each plan.
pub fn junit_of<N: Names>(
    alloc: Global,
    names: &N,
    report: &Report<'_>,
    plans: &PlanList<'_>,
) -> Result<Vec<u8>, Fail> {
    Ok(junit_text(alloc, names, report, &judged(report, plans)?)?)
}
