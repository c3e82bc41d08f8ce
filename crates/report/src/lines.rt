//! The lines of a report.
ghost use Rattle.std.specs.Prelude.{◌≡◌, ◌++◌, ◌∷◌, [], length, string_bytes, codes, IfOk, IfSome, OnOk, OnErr};
ghost use Rattle.std.specs.Fmt.{decimal};
ghost use Rattle.report.specs.ReportText.{verdict_text, scenario_text, head_lines, point_line, point_lines, growth_lines, nonzero_lines, count_line};
ghost use Rattle.report.specs.ReportText.{verdict_line, verdict_lines, finding_lines, findings_lines, causes_lines, report_lines, ended, text_of};

use crate::facts::{Finding, Report};
use crate::growing::{write_causes, write_growth};
use crate::names::Names;
use crate::verdicts::write_verdict;
use itoa::Buffer;
use scenario_grammar::print;
use scenario_values::Scenario;
use std::alloc::{AllocError, Global};
use std::fmt::Write;
use target_trait::Verdict;

/// How many bytes the line of a passing verdict takes, which most plans have: with five digits, and a few bytes to spare.
const LINE_ROOM: usize = 20;

/// About how many bytes the line of a cause with two faults takes.
const CAUSE_ROOM: usize = 80;

/// Appends the lines `target`, `seed` and `clean`.
fn write_head<N: Names>(
    out: &mut String,
    names: &N,
    label: &str,
    seed: u64,
    clean: Verdict,
) -> Result<(), AllocError>
    ensures { OnOk result (string_bytes out.new ≡ string_bytes out.old ++ text_of
        ((codes "target " ++ label.now) ∷ (codes "seed " ++ decimal seed) ∷ (codes "clean " ++ verdict_text (N.code_text names.now) clean) ∷ [])) }
{
    write!(out, "target {label}\nseed {seed}\nclean ")?;
    write_verdict(out, names, clean)?;
    out.push_str("\n")
}

fn write_point(out: &mut String, word: &str, name: &str, hits: u32) -> Result<(), AllocError>
    ensures { OnOk result (string_bytes out.new ≡ string_bytes out.old ++ ended (point_line word.now (name.now, hits))) }
{
    writeln!(out, "{word} {name} {hits}")
}

/// A line for each point: this word, the point, and its hits.
pub(crate) fn write_points<N: Names>(
    out: &mut String,
    word: &str,
    names: &N,
    counts: &[u32],
) -> Result<(), AllocError>
    requires { length counts.now ≡ length (N.points names.now) }
    ensures { OnOk result (string_bytes out.new ≡ string_bytes out.old ++ text_of (point_lines word.now (N.points names.now) counts.now)) }
{
    for (number, hits) in counts.iter().enumerate() {
        write_point(out, word, names.point(number), *hits)?;
    }
    Ok(())
}

/// The line of a plan. Most plans pass, so what such a line ends with is written at once.
fn write_numbered<N: Names>(
    out: &mut String,
    names: &N,
    number: usize,
    verdict: Verdict,
) -> Result<(), AllocError>
    ensures { OnOk result (string_bytes out.new ≡ string_bytes out.old ++ ended (verdict_line (N.code_text names.now) (number, verdict))) }
{
    let mut digits = Buffer::new();
    out.push_str("verdict ")?;
    out.push_str(digits.format(number))?;
    if matches!(verdict, Verdict::Pass) {
        return out.push_str(" pass\n");
    }
    out.push_str(" ")?;
    write_verdict(out, names, verdict)?;
    out.push_str("\n")
}

/// A line for each plan.
fn write_verdicts<N: Names>(
    out: &mut String,
    names: &N,
    verdicts: &[Verdict],
) -> Result<(), AllocError>
    ensures { OnOk result (string_bytes out.new ≡ string_bytes out.old ++ text_of (verdict_lines (N.code_text names.now) 0 verdicts.now)) }
{
    for (number, verdict) in verdicts.iter().enumerate() {
        write_numbered(out, names, number, *verdict)?;
    }
    Ok(())
}

/// Appends a scenario as it stands in reports: its printed form, or `none` if it has no entry.
///
/// An error means that memory was refused; then nothing has changed.
pub fn write_scenario(
    alloc: Global,
    out: &mut String,
    scenario: &Scenario,
) -> Result<(), AllocError>
    ensures ok { OnOk result (string_bytes out.new ≡ string_bytes out.old ++ scenario_text scenario.now) }
    ensures err { OnErr result (string_bytes out.new ≡ string_bytes out.old) }
{
    if scenario.is_empty() {
        return out.push_str("none");
    }
    let text = print(alloc, scenario)?;
    out.push_str(text.as_str())
}

/// A count behind its word, unless it is 0.
pub(crate) fn write_nonzero(out: &mut String, word: &str, count: u32) -> Result<(), AllocError>
    ensures { OnOk result (string_bytes out.new ≡ string_bytes out.old ++ text_of (nonzero_lines word.now count)) }
{
    if count == 0 {
        return Ok(());
    }
    writeln!(out, "{word} {count}")
}

/// Appends the four lines of a finding: `first`, `scenario`, `reduced` and `tests`.
fn write_finding<N: Names>(
    alloc: Global,
    out: &mut String,
    names: &N,
    finding: &Finding,
) -> Result<(), AllocError>
    ensures { OnOk result (string_bytes out.new ≡ string_bytes out.old ++ text_of (finding_lines (N.code_text names.now) finding.now)) }
{
    let number = finding.number;
    let name = names.code(finding.code);
    write!(out, "first {number} {name}\nscenario ")?;
    write_scenario(alloc, out, &finding.scenario)?;
    out.push_str("\nreduced ")?;
    write_scenario(alloc, out, &finding.reduced)?;
    let tests = finding.tests;
    writeln!(out, "\ntests {tests}")
}

/// Appends the lines of all findings, or `first none`.
fn write_findings<N: Names>(
    alloc: Global,
    out: &mut String,
    names: &N,
    findings: &[Finding],
) -> Result<(), AllocError>
    ensures { OnOk result (string_bytes out.new ≡ string_bytes out.old ++ text_of (findings_lines (N.code_text names.now) findings.now)) }
{
    if findings.is_empty() {
        return out.push_str("first none\n");
    }
    for finding in findings {
        write_finding(alloc, out, names, finding)?;
    }
    Ok(())
}

fn write_count(out: &mut String, plans: usize) -> Result<(), AllocError>
    ensures { OnOk result (string_bytes out.new ≡ string_bytes out.old ++ ended (codes "plans " ++ decimal plans)) }
{
    writeln!(out, "plans {plans}")
}

/// The lines before those of the plans.
pub(crate) fn write_front<N: Names>(
    out: &mut String,
    names: &N,
    report: &Report<'_>,
) -> Result<(), AllocError>
    requires counts { length report.now.census ≡ length (N.points names.now) }
    requires reached { IfSome report.now.growth (λ growth. length growth.reached ≡ length (N.points names.now)) }
    ensures { OnOk result (string_bytes out.new ≡ string_bytes out.old ++ text_of (head_lines (N.code_text names.now) report.now
        ++ point_lines (codes "census") (N.points names.now) report.now.census
        ++ growth_lines (N.points names.now) report.now.growth
        ++ count_line report.now.verdicts ∷ [])) }
{
    write_head(out, names, report.label, report.seed, report.clean)?;
    write_points(out, "census", names, report.census)?;
    write_growth(out, names, &report.growth)?;
    write_count(out, report.verdicts.len())
}

/// The lines after those of the plans.
pub(crate) fn write_end<N: Names>(
    alloc: Global,
    out: &mut String,
    names: &N,
    report: &Report<'_>,
) -> Result<(), AllocError>
    ensures { OnOk result (string_bytes out.new ≡ string_bytes out.old ++ text_of (nonzero_lines (codes "unmet") report.now.unmet
        ++ findings_lines (N.code_text names.now) report.now.findings
        ++ causes_lines (N.code_text names.now) report.now.growth)) }
{
    write_nonzero(out, "unmet", report.unmet)?;
    write_findings(alloc, out, names, &report.findings)?;
    write_causes(alloc, out, names, &report.growth)
}

/// About how many bytes the lines of the plans and causes take.
fn room(report: &Report<'_>) -> usize {
    let plans = report.verdicts.len().saturating_mul(LINE_ROOM);
    match &report.growth {
        None => plans,
        Some(growth) => plans.saturating_add(growth.causes.len().saturating_mul(CAUSE_ROOM)),
    }
}

/// The text of a report, with these names of points and codes. Each line has its line feed. The census needs a count for each point, and so does
/// `reached`, if the campaign has a depth.
///
/// An error means that memory was refused.
pub fn text<N: Names>(alloc: Global, names: &N, report: &Report<'_>) -> Result<Vec<u8>, AllocError>
    requires counts { length report.now.census ≡ length (N.points names.now) }
    requires reached { IfSome report.now.growth (λ growth. length growth.reached ≡ length (N.points names.now)) }
    ensures { IfOk result (λ text. text.items ≡ text_of (report_lines (N.points names.now) (N.code_text names.now) report.now)) }
{
    let mut out = String::with_capacity(alloc, room(report))?;
    write_front(&mut out, names, report)?;
    write_verdicts(&mut out, names, report.verdicts)?;
    write_end(alloc, &mut out, names, report)?;
    Ok(out.into_bytes())
}
