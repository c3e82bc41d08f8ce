//! The document.
ghost use Rattle.std.specs.Prelude.{◌≡◌, ◌++◌, length, map, codes, IfOk, IfSome, OnOk};
ghost use Rattle.std.specs.Fmt.{decimal};
ghost use Rattle.json.specs.Json.{string};
ghost use Rattle.json.specs.Tree.{json_tokens};
ghost use Rattle.report.specs.json_form.Document.{form, clean_value, point_values, counts_value, reported_values, finding_value, growth_value};
ghost use Rattle.report.specs.json_form.Values.{whole, list_of};
ghost use Rattle.report.specs.json_form.Document.{document_of, text_of, IsReadAs};
ghost use Rattle.report.specs.json_form.inside.Tokens.{member_tokens, nonzero_tokens};

use crate::json_form::about::{Appendix, write_about};
use crate::json_form::growth::{write_growth, write_points};
use crate::json_form::members::{write_nonzero, write_number, write_text};
use crate::json_form::plans::{write_clean, write_counts, write_findings, write_not_passed};
use crate::{Names, Report};
use grown_plans::CampaignPlans;
use itoa::Buffer;
use json::{Pretty, Token};
use std::alloc::{AllocError, Global};

/// The form of the document.
const FORM: u64 = 1;

/// The form, and what was run.
fn write_head<N: Names>(out: &mut Pretty, names: &N, report: &Report<'_>) -> Result<(), AllocError>
    ensures { OnOk result (out.new ≡ out.old
        ++ member_tokens (codes "version") (whole form)
        ++ member_tokens (codes "label") (string report.now.label)
        ++ member_tokens (codes "seed") (string (decimal report.now.seed))
        ++ member_tokens (codes "clean") (clean_value (N.code_text names.now) report.now.clean)) }
{
    let mut digits = Buffer::new();
    write_number(out, "version", FORM)?;
    write_text(out, "label", report.label)?;
    write_text(out, "seed", digits.format(report.seed))?;
    write_clean(out, names, report.clean)
}

/// What came of it.
fn write_results<N: Names>(
    alloc: Global,
    out: &mut Pretty,
    names: &N,
    report: &Report<'_>,
    plans: &CampaignPlans<'_>,
) -> Result<(), AllocError>
    requires counts { length report.now.census ≡ length (N.points names.now) }
    requires reached { IfSome report.now.growth (λ growth. length growth.reached ≡ length (N.points names.now)) }
    requires verdicts { length report.now.verdicts ≡ length plans.now }
    ensures { OnOk result (out.new ≡ out.old
        ++ member_tokens (codes "census") (list_of (point_values (N.points names.now) report.now.census))
        ++ member_tokens (codes "counts") (counts_value report.now.verdicts)
        ++ member_tokens (codes "not_passed") (list_of (reported_values (N.code_text names.now) 0 report.now.verdicts plans.now))
        ++ nonzero_tokens (codes "unmet") report.now.unmet
        ++ member_tokens (codes "findings") (list_of (map (finding_value (N.code_text names.now)) report.now.findings))
        ++ member_tokens (codes "growth") (growth_value (N.points names.now) (N.code_text names.now) report.now.growth)) }
{
    write_points(out, "census", names, report.census)?;
    write_counts(out, report.verdicts)?;
    write_not_passed(alloc, out, names, report.verdicts, plans)?;
    write_nonzero(out, "unmet", u64::from(report.unmet))?;
    write_findings(alloc, out, names, &report.findings)?;
    write_growth(alloc, out, names, &report.growth)
}

fn written<N: Names>(
    alloc: Global,
    names: &N,
    report: &Report<'_>,
    appendix: &Appendix<'_>,
) -> Result<Pretty, AllocError>
    requires counts { length report.now.census ≡ length (N.points names.now) }
    requires reached { IfSome report.now.growth (λ growth. length growth.reached ≡ length (N.points names.now)) }
    requires verdicts { length report.now.verdicts ≡ length appendix.now.shown.now.plans }
    ensures { IfOk result (λ out. out
        ≡ json_tokens (document_of (N.points names.now) (N.code_text names.now) report.now
        appendix.now.notes.now appendix.now.shown.now appendix.now.runs.now)) }
{
    let shown = appendix.shown;
    let mut out = Pretty::new(alloc);
    out.token(Token::BeginObject)?;
    write_head(&mut out, names, report)?;
    write_results(alloc, &mut out, names, report, shown.plans)?;
    write_about(alloc, &mut out, appendix)?;
    out.token(Token::EndObject)?;
    Ok(out)
}

/// The report as a JSON document, with these names of points and codes, what is shown beside it, and the runs. It has a line for each item and
/// member, and a line feed at the end. docs/MACHINES.md describes the members. It is UTF-8, and the same for the same report; a reader of JSON finds
/// that document in it, whatever characters the names have.
///
/// The census needs a count for each point; so does `reached`, if the campaign has a depth; and each plan that is shown needs a verdict. An error
/// means that memory was refused.
pub fn json_text<N: Names>(
    alloc: Global,
    names: &N,
    report: &Report<'_>,
    appendix: &Appendix<'_>,
) -> Result<Vec<u8>, AllocError>
    requires counts { length report.now.census ≡ length (N.points names.now) }
    requires reached { IfSome report.now.growth (λ growth. length growth.reached ≡ length (N.points names.now)) }
    requires verdicts { length report.now.verdicts ≡ length appendix.now.shown.now.plans }
    ensures text { IfOk result (λ text. text.items
        ≡ text_of (document_of (N.points names.now) (N.code_text names.now) report.now appendix.now.notes.now appendix.now.shown.now appendix.now.runs.now)) }
    ensures reads { OnOk result (IsReadAs (document_of (N.points names.now) (N.code_text names.now) report.now
        appendix.now.notes.now appendix.now.shown.now appendix.now.runs.now)) }
{
    let out = written(alloc, names, report, appendix)?;
    let mut text = out.into_inner();
    text.push(b'\n')?;
    Ok(text)
}
