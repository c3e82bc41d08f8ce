//! The lines of a brief report.
ghost use Rattle.std.specs.Prelude.{◌≡◌, ◌++◌, ◌∷◌, [], length, string_bytes, codes, count_by, flat_map, IfOk, IfSome, OnOk};
ghost use Rattle.report.specs.ReportText.{ended, text_of};
ghost use Rattle.report.specs.BriefText.{is_fail_with, code_count, counts_line, reported_line, reported_line_of, reported_lines, brief_lines};

use crate::counts::{passing, unresolved};
use crate::facts::{Finding, JudgedPlan, Report};
use crate::lines::{write_end, write_front, write_scenario};
use crate::names::Names;
use crate::verdicts::write_verdict;
use grown_plans::CampaignPlans;
use std::alloc::{AllocError, Global};
use std::fmt::Write;
use target_trait::Verdict;

fn is_fail_with(code: u32, verdict: Verdict) -> bool
    ensures { result ≡ is_fail_with code verdict }
{
    match verdict {
        Verdict::Fail(other) => other == code,
        Verdict::Pass | Verdict::Unresolved => false,
    }
}

/// How many verdicts fail with this code.
fn failing(verdicts: &[Verdict], code: u32) -> usize
    ensures { result ≡ count_by (is_fail_with code) verdicts.now }
{
    verdicts
        .iter()
        .filter(|verdict| is_fail_with(code, **verdict))
        .count()
}

/// Appends a finding's code and how many plans fail with it.
fn write_code_count<N: Names>(
    out: &mut String,
    names: &N,
    verdicts: &[Verdict],
    finding: &Finding,
) -> Result<(), AllocError>
    ensures { OnOk result (string_bytes out.new ≡ string_bytes out.old ++ code_count (N.code_text names.now) verdicts.now finding.now) }
{
    let name = names.code(finding.code);
    let count = failing(verdicts, finding.code);
    write!(out, " {name} {count}")
}

fn write_code_counts<N: Names>(
    out: &mut String,
    names: &N,
    verdicts: &[Verdict],
    findings: &[Finding],
) -> Result<(), AllocError>
    ensures { OnOk result (string_bytes out.new ≡ string_bytes out.old ++ flat_map (code_count (N.code_text names.now) verdicts.now) findings.now) }
{
    for finding in findings {
        write_code_count(out, names, verdicts, finding)?;
    }
    Ok(())
}

/// Appends the line of counts, which stands in place of the passing verdicts: `counts pass 7 unresolved 1 lost 2`.
fn write_counts<N: Names>(
    out: &mut String,
    names: &N,
    verdicts: &[Verdict],
    findings: &[Finding],
) -> Result<(), AllocError>
    ensures { OnOk result (string_bytes out.new ≡ string_bytes out.old ++ ended (counts_line (N.code_text names.now) verdicts.now findings.now)) }
{
    let pass = passing(verdicts);
    let open = unresolved(verdicts);
    write!(out, "counts pass {pass} unresolved {open}")?;
    write_code_counts(out, names, verdicts, findings)?;
    out.push_str("\n")
}

/// Appends the line of a verdict that isn't pass, with the plan's scenario behind it.
fn write_reported<N: Names>(
    alloc: Global,
    out: &mut String,
    names: &N,
    judged: &JudgedPlan<'_>,
) -> Result<(), AllocError>
    ensures { OnOk result (string_bytes out.new ≡ string_bytes out.old
        ++ ended (reported_line (N.code_text names.now) judged.now.number judged.now.verdict judged.now.plan)) }
{
    let number = judged.number;
    write!(out, "verdict {number} ")?;
    write_verdict(out, names, judged.verdict)?;
    out.push_str(" ")?;
    write_scenario(alloc, out, &judged.plan.scenario(alloc)?)?;
    out.push_str("\n")
}

/// Appends that line, or nothing for a plan that passes.
fn write_reported_of<N: Names>(
    alloc: Global,
    out: &mut String,
    names: &N,
    judged: &JudgedPlan<'_>,
) -> Result<(), AllocError>
    ensures { OnOk result (string_bytes out.new ≡ string_bytes out.old
        ++ text_of (reported_line_of (N.code_text names.now) judged.now.number judged.now.verdict judged.now.plan)) }
{
    match judged.verdict {
        Verdict::Pass => Ok(()),
        Verdict::Fail(_) | Verdict::Unresolved => write_reported(alloc, out, names, judged),
    }
}

fn write_all_reported<N: Names>(
    alloc: Global,
    out: &mut String,
    names: &N,
    verdicts: &[Verdict],
    plans: &CampaignPlans<'_>,
) -> Result<(), AllocError>
    requires { length verdicts.now ≡ length plans.now }
    ensures { OnOk result (string_bytes out.new ≡ string_bytes out.old ++ text_of (reported_lines (N.code_text names.now) 0 verdicts.now plans.now)) }
{
    for (number, verdict) in verdicts.iter().enumerate() {
        let judged = JudgedPlan {
            number,
            verdict: *verdict,
            plan: plans.plan(number),
        };
        write_reported_of(alloc, out, names, &judged)?;
    }
    Ok(())
}

/// The text of a brief report over these plans, with these names of points and codes. Each line has its line feed. One line of counts stands in place
/// of the verdicts that pass, and beside each other verdict stands its scenario. The rest is as in the whole report.
///
/// The census needs a count for each point; so does `reached`, if the campaign has a depth; and each plan needs a verdict. An error means that memory
/// was refused.
pub fn brief_text<N: Names>(
    alloc: Global,
    names: &N,
    report: &Report<'_>,
    plans: &CampaignPlans<'_>,
) -> Result<Vec<u8>, AllocError>
    requires counts { length report.now.census ≡ length (N.points names.now) }
    requires reached { IfSome report.now.growth (λ growth. length growth.reached ≡ length (N.points names.now)) }
    requires verdicts { length report.now.verdicts ≡ length plans.now }
    ensures { IfOk result (λ text. text.items ≡ text_of (brief_lines (N.points names.now) (N.code_text names.now) report.now plans.now)) }
{
    let mut out = String::new(alloc);
    write_front(&mut out, names, report)?;
    write_counts(&mut out, names, report.verdicts, &report.findings)?;
    write_all_reported(alloc, &mut out, names, report.verdicts, plans)?;
    write_end(alloc, &mut out, names, report)?;
    Ok(out.into_bytes())
}
