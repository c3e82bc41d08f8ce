//! The members with verdicts, plans and findings.
ghost use Rattle.std.specs.Prelude.{◌≡◌, ◌++◌, length, map, codes, OnOk};
ghost use Rattle.json.specs.Tree.{json_tokens};
ghost use Rattle.report.specs.json_form.Document.{code_of, clean_value, counts_value, plan_value, reported_value, reported_values, finding_value, verdict_word};
ghost use Rattle.report.specs.json_form.Values.{list_of};
ghost use Rattle.report.specs.json_form.inside.Tokens.{member_tokens, all_tokens};

use crate::json_form::members::{begin_list, write_number, write_scenario, write_text};
use crate::{Finding, JudgedPlan, Names, failures, passing, unresolved};
use grown_plans::CampaignPlans;
use json::{Pretty, Token};
use std::alloc::{AllocError, Global};
use target_trait::Verdict;

/// The member `code`: the name of a failure's code, or `null`.
fn write_code<N: Names>(out: &mut Pretty, names: &N, verdict: Verdict) -> Result<(), AllocError>
    ensures { OnOk result (out.new ≡ out.old ++ member_tokens (codes "code") (code_of (N.code_text names.now) verdict)) }
{
    out.token(Token::Key("code"))?;
    match verdict {
        Verdict::Pass | Verdict::Unresolved => out.token(Token::Null),
        Verdict::Fail(code) => out.token(Token::String(names.code(code))),
    }
}

fn verdict_word(verdict: Verdict) -> &'static str
    ensures { result.now ≡ verdict_word verdict }
{
    match verdict {
        Verdict::Pass => "pass",
        Verdict::Fail(_) => "fail",
        Verdict::Unresolved => "unresolved",
    }
}

/// The verdict of the run without faults.
pub fn write_clean<N: Names>(
    out: &mut Pretty,
    names: &N,
    verdict: Verdict,
) -> Result<(), AllocError>
    ensures { OnOk result (out.new ≡ out.old ++ member_tokens (codes "clean") (clean_value (N.code_text names.now) verdict)) }
{
    out.token(Token::Key("clean"))?;
    out.token(Token::BeginObject)?;
    write_text(out, "verdict", verdict_word(verdict))?;
    write_code(out, names, verdict)?;
    out.token(Token::EndObject)
}

/// How many plans there are, and how many of them have each verdict.
pub fn write_counts(out: &mut Pretty, verdicts: &[Verdict]) -> Result<(), AllocError>
    ensures { OnOk result (out.new ≡ out.old ++ member_tokens (codes "counts") (counts_value verdicts.now)) }
{
    out.token(Token::Key("counts"))?;
    out.token(Token::BeginObject)?;
    write_number(out, "plans", verdicts.len() as u64)?;
    write_number(out, "pass", passing(verdicts) as u64)?;
    write_number(out, "fail", failures(verdicts) as u64)?;
    write_number(out, "unresolved", unresolved(verdicts) as u64)?;
    out.token(Token::EndObject)
}

fn write_plan<N: Names>(
    alloc: Global,
    out: &mut Pretty,
    names: &N,
    judged: &JudgedPlan<'_>,
) -> Result<(), AllocError>
    ensures { OnOk result (out.new ≡ out.old ++ json_tokens (plan_value (N.code_text names.now) judged.now.number judged.now.verdict judged.now.plan)) }
{
    out.token(Token::BeginObject)?;
    write_number(out, "number", judged.number as u64)?;
    write_text(out, "verdict", verdict_word(judged.verdict))?;
    write_code(out, names, judged.verdict)?;
    write_scenario(alloc, out, "scenario", &judged.plan.scenario(alloc)?)?;
    out.token(Token::EndObject)
}

/// An item for a plan that doesn't pass; nothing for one that does.
fn write_reported<N: Names>(
    alloc: Global,
    out: &mut Pretty,
    names: &N,
    judged: &JudgedPlan<'_>,
) -> Result<(), AllocError>
    ensures { OnOk result (out.new ≡ out.old ++ all_tokens (reported_value (N.code_text names.now) judged.now.number judged.now.verdict judged.now.plan)) }
{
    match judged.verdict {
        Verdict::Pass => Ok(()),
        Verdict::Fail(_) | Verdict::Unresolved => write_plan(alloc, out, names, judged),
    }
}

fn write_each_reported<N: Names>(
    alloc: Global,
    out: &mut Pretty,
    names: &N,
    verdicts: &[Verdict],
    plans: &CampaignPlans<'_>,
) -> Result<(), AllocError>
    requires { length verdicts.now ≡ length plans.now }
    ensures { OnOk result (out.new ≡ out.old ++ all_tokens (reported_values (N.code_text names.now) 0 verdicts.now plans.now)) }
{
    for (number, verdict) in verdicts.iter().enumerate() {
        let judged = JudgedPlan {
            number,
            verdict: *verdict,
            plan: plans.plan(number),
        };
        write_reported(alloc, out, names, &judged)?;
    }
    Ok(())
}

/// The plans that don't pass.
pub fn write_not_passed<N: Names>(
    alloc: Global,
    out: &mut Pretty,
    names: &N,
    verdicts: &[Verdict],
    plans: &CampaignPlans<'_>,
) -> Result<(), AllocError>
    requires { length verdicts.now ≡ length plans.now }
    ensures { OnOk result (out.new ≡ out.old
        ++ member_tokens (codes "not_passed") (list_of (reported_values (N.code_text names.now) 0 verdicts.now plans.now))) }
{
    begin_list(out, "not_passed")?;
    write_each_reported(alloc, out, names, verdicts, plans)?;
    out.token(Token::EndArray)
}

fn write_finding<N: Names>(
    alloc: Global,
    out: &mut Pretty,
    names: &N,
    finding: &Finding,
) -> Result<(), AllocError>
    ensures { OnOk result (out.new ≡ out.old ++ json_tokens (finding_value (N.code_text names.now) finding.now)) }
{
    out.token(Token::BeginObject)?;
    write_number(out, "number", u64::from(finding.number))?;
    write_text(out, "code", names.code(finding.code))?;
    write_scenario(alloc, out, "scenario", &finding.scenario)?;
    write_scenario(alloc, out, "reduced", &finding.reduced)?;
    write_number(out, "tests", finding.tests)?;
    out.token(Token::EndObject)
}

fn write_each_finding<N: Names>(
    alloc: Global,
    out: &mut Pretty,
    names: &N,
    findings: &[Finding],
) -> Result<(), AllocError>
    ensures { OnOk result (out.new ≡ out.old ++ all_tokens (map (finding_value (N.code_text names.now)) findings.now)) }
{
    for finding in findings {
        write_finding(alloc, out, names, finding)?;
    }
    Ok(())
}

/// The first failure of each code.
pub fn write_findings<N: Names>(
    alloc: Global,
    out: &mut Pretty,
    names: &N,
    findings: &[Finding],
) -> Result<(), AllocError>
    ensures { OnOk result (out.new ≡ out.old
        ++ member_tokens (codes "findings") (list_of (map (finding_value (N.code_text names.now)) findings.now))) }
{
    begin_list(out, "findings")?;
    write_each_finding(alloc, out, names, findings)?;
    out.token(Token::EndArray)
}
