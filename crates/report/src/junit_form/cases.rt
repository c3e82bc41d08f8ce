//! Cases.
ghost use Rattle.std.specs.Prelude.{◌≡◌, ◌++◌, string_bytes, codes, option_map, IfOk, OnOk};
ghost use Rattle.xml_text.specs.Xml.{escaped};
ghost use Rattle.report.specs.ReportText.{scenario_text};
ghost use Rattle.report.specs.junit_form.Junit.{case_head, reduced_text, failure_head, failure_text, result_text, found_at, case_text};

use crate::{Finding, JudgedPlan, Names, Report, write_scenario};
use scenario_values::Scenario;
use std::alloc::{AllocError, Global};
use std::fmt::Write;
use target_trait::Verdict;
use xml_text::write_escaped;

/// A scenario as it stands in reports, escaped for XML.
fn escaped_scenario(alloc: Global, scenario: &Scenario) -> Result<String, AllocError>
    ensures { IfOk result (λ text. string_bytes text ≡ escaped (scenario_text scenario.now)) }
{
    let mut told = String::new(alloc);
    write_scenario(alloc, &mut told, scenario)?;
    let mut text = String::new(alloc);
    write_escaped(&mut text, told.as_str())?;
    Ok(text)
}

#[tactic(auto, unfolding(crate::specs::junit_form::Junit::case_head))]
fn write_head(
    out: &mut String,
    label: &str,
    number: usize,
    scenario: &str,
) -> Result<(), AllocError>
    ensures { OnOk result (string_bytes out.new ≡ string_bytes out.old ++ case_head label.now number scenario.now) }
{
    out.push_str("<testcase classname=\"")?;
    write_escaped(out, label)?;
    write!(out, "\" name=\"plan {number} {scenario}\"")
}

/// Appends what a finding was reduced to and its count of tests, if there is a finding.
#[tactic(auto, unfolding(crate::specs::junit_form::Junit::reduced_text))]
fn write_reduced(alloc: Global, out: &mut String, found: Option<&Finding>) -> Result<(), AllocError>
    ensures { OnOk result (string_bytes out.new ≡ string_bytes out.old ++ reduced_text (option_map (λ f. f.now) found.entry)) }
{
    let Some(finding) = found else {
        return Ok(());
    };
    let reduced = escaped_scenario(alloc, &finding.reduced)?;
    let tests = finding.tests;
    write!(out, "reduced {reduced}\ntests {tests}\n")
}

#[tactic(auto, unfolding(crate::specs::junit_form::Junit::failure_head))]
fn write_failure_head(out: &mut String, code: &str) -> Result<(), AllocError>
    ensures { OnOk result (string_bytes out.new ≡ string_bytes out.old ++ failure_head code.now) }
{
    out.push_str("<failure type=\"")?;
    write_escaped(out, code)?;
    out.push_str("\" message=\"fail ")?;
    write_escaped(out, code)?;
    out.push_str("\">")
}

/// What a failing case tells: its scenario, escaped, and its finding, if it is the first with its code.
#[derive(Drop)]
struct Failure<'a> {
    scenario: &'a str,
    found: Option<&'a Finding>,
}

/// Appends the element of a failing case.
#[tactic(auto, unfolding(crate::specs::junit_form::Junit::failure_text))]
fn write_failure(
    alloc: Global,
    out: &mut String,
    code: &str,
    failure: &Failure<'_>,
) -> Result<(), AllocError>
    ensures { OnOk result (string_bytes out.new
        ≡ string_bytes out.old ++ failure_text code.now failure.now.scenario.now (option_map (λ f. f.now) failure.now.found)) }
{
    let scenario = failure.scenario;
    write_failure_head(out, code)?;
    write!(out, "scenario {scenario}\n")?;
    write_reduced(alloc, out, failure.found)?;
    out.push_str("</failure>")
}

/// The finding that has the plan with this number.
fn found_at(findings: &[Finding], number: usize) -> Option<&Finding>
    ensures { option_map (λ f. f.now) result ≡ found_at findings.now number }
{
    findings
        .iter()
        .find(|finding| finding.number as usize == number)
}

/// Appends the end of a case, by its verdict.
fn write_result<N: Names>(
    alloc: Global,
    out: &mut String,
    names: &N,
    verdict: Verdict,
    failure: &Failure<'_>,
) -> Result<(), AllocError>
    ensures { OnOk result (string_bytes out.new ≡ string_bytes out.old
        ++ result_text (N.code_text names.now) verdict failure.now.scenario.now (option_map (λ f. f.now) failure.now.found)) }
{
    match verdict {
        Verdict::Pass => out.push_str("/>\n"),
        Verdict::Unresolved => out.push_str("><skipped message=\"unresolved\"/></testcase>\n"),
        Verdict::Fail(code) => {
            out.push_str(">")?;
            write_failure(alloc, out, names.code(code), failure)?;
            out.push_str("</testcase>\n")
        }
    }
}

/// The case of a plan.
pub fn write_case<N: Names>(
    alloc: Global,
    out: &mut String,
    names: &N,
    report: &Report<'_>,
    judged: &JudgedPlan<'_>,
) -> Result<(), AllocError>
    ensures { OnOk result (string_bytes out.new ≡ string_bytes out.old
        ++ case_text (N.code_text names.now) report.now judged.now.number judged.now.verdict judged.now.plan) }
{
    let scenario = escaped_scenario(alloc, &judged.plan.scenario(alloc)?)?;
    write_head(out, report.label, judged.number, scenario.as_str())?;
    let failure = Failure {
        scenario: scenario.as_str(),
        found: found_at(&report.findings, judged.number),
    };
    write_result(alloc, out, names, judged.verdict, &failure)
}
