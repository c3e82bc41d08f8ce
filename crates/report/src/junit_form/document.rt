//! The document.
ghost use Rattle.std.specs.Prelude.{◌≡◌, ◌++◌, length, string_bytes, codes, count_by, IfOk, OnOk};
ghost use Rattle.target_trait.specs.Verdicts.{is_fail, is_unresolved};
ghost use Rattle.report.specs.junit_form.Junit.{cases_text, suite_head, suite_counts, suite_end, document_text};

use crate::junit_form::cases::write_case;
use crate::{JudgedPlan, Names, Report, failures, unresolved};
use grown_plans::CampaignPlans;
use std::alloc::{AllocError, Global};
use std::fmt::Write;
use target_trait::Verdict;
use xml_text::write_escaped;

#[tactic(auto, unfolding(crate::specs::junit_form::Junit::suite_head))]
fn write_head(out: &mut String, label: &str) -> Result<(), AllocError>
    ensures { OnOk result (string_bytes out.new ≡ string_bytes out.old ++ suite_head label.now) }
{
    out.push_str("<?xml version=\"1.0\" encoding=\"UTF-8\"?>\n<testsuites>\n<testsuite name=\"")?;
    write_escaped(out, label)?;
    out.push_str("\"")
}

#[tactic(auto, unfolding(crate::specs::junit_form::Junit::suite_counts))]
fn write_counts(
    out: &mut String,
    tests: usize,
    failures: usize,
    skipped: usize,
) -> Result<(), AllocError>
    ensures { OnOk result (string_bytes out.new ≡ string_bytes out.old ++ suite_counts tests failures skipped) }
{
    write!(
        out,
        " tests=\"{tests}\" failures=\"{failures}\" errors=\"0\" skipped=\"{skipped}\">\n"
    )
}

/// Appends what stands before the cases: the head, and the counts of verdicts.
fn write_suite(out: &mut String, label: &str, verdicts: &[Verdict]) -> Result<(), AllocError>
    ensures { OnOk result (string_bytes out.new ≡ string_bytes out.old ++ suite_head label.now
        ++ suite_counts (length verdicts.now) (count_by is_fail verdicts.now) (count_by is_unresolved verdicts.now)) }
{
    write_head(out, label)?;
    let tests = verdicts.len();
    let failures = failures(verdicts);
    let skipped = unresolved(verdicts);
    write_counts(out, tests, failures, skipped)
}

fn write_cases<N: Names>(
    alloc: Global,
    out: &mut String,
    names: &N,
    report: &Report<'_>,
    plans: &CampaignPlans<'_>,
) -> Result<(), AllocError>
    requires { length report.now.verdicts ≡ length plans.now }
    ensures { OnOk result (string_bytes out.new ≡ string_bytes out.old
        ++ cases_text (N.code_text names.now) report.now 0 report.now.verdicts plans.now) }
{
    for number in 0..plans.len() {
        let judged = JudgedPlan {
            number,
            verdict: report.verdicts[number],
            plan: plans.plan(number),
        };
        write_case(alloc, out, names, report, &judged)?;
    }
    Ok(())
}

/// The report over these plans as JUnit's XML, with these names of codes: one suite, named by the label, with a case for each plan, named by its
/// number and scenario. A failing case has the name of its code and the scenario, and, if it is the first with its code, what that was reduced to. An
/// unresolved case is skipped.
///
/// The text is UTF-8, and XML 1.0 whatever the names are: a character that XML can't have stands as U+FFFD (`write_escaped`).
///
/// There has to be a verdict for each plan. An error means that memory was refused.
pub fn junit_text<N: Names>(
    alloc: Global,
    names: &N,
    report: &Report<'_>,
    plans: &CampaignPlans<'_>,
) -> Result<Vec<u8>, AllocError>
    requires { length report.now.verdicts ≡ length plans.now }
    ensures { IfOk result (λ text. text.items ≡ document_text (N.code_text names.now) report.now plans.now) }
{
    let mut out = String::new(alloc);
    write_suite(&mut out, report.label, report.verdicts)?;
    write_cases(alloc, &mut out, names, report, plans)?;
    out.push_str("</testsuite>\n</testsuites>\n")?;
    Ok(out.into_bytes())
}
