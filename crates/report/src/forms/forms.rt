//! The forms of a report.
ghost use Rattle.std.specs.Prelude.{◌≡◌, length, IfOk, IfSome};
ghost use Rattle.report_page.specs.Page.{page_text};
ghost use Rattle.report.specs.forms.Forms.{brief_of, text_in};
ghost use Rattle.report.specs.forms.Runs.{GrownAreFirst};
ghost use Rattle.report.specs.json_form.Document.{document_of, text_of};

use crate::forms::runs::{Teller, runs_shown};
use crate::json_form::{Appendix, Notes, Shown, json_text};
use crate::junit_form::junit_text;
use crate::{Names, Report, brief_text, text};
use report_page::page_text;
use std::alloc::{AllocError, Global};

/// The form in which a report is written.
#[derive(Drop)]
pub enum Form<'a> {
    /// Lines, one for each verdict.
    Whole,
    /// Lines, with one line of counts in place of the passing verdicts, and its scenario beside each other verdict.
    Brief,
    /// A JSON document with everything in the report, and these notes.
    Json(Notes<'a>),
    /// JUnit's XML, with a case for each plan.
    Junit,
    /// A page to look at: an HTML document that needs nothing else, and shows the JSON document with these notes.
    Page(Notes<'a>),
}

/// The page: the brief report and the document, in the frame.
fn page_of<N: Names>(
    alloc: Global,
    names: &N,
    report: &Report<'_>,
    appendix: &Appendix<'_>,
) -> Result<Vec<u8>, AllocError>
    requires counts { length report.now.census ≡ length (N.points names.now) }
    requires reached { IfSome report.now.growth (λ growth. length growth.reached ≡ length (N.points names.now)) }
    requires verdicts { length report.now.verdicts ≡ length appendix.now.shown.now.plans }
    ensures { IfOk result (λ text. text.items ≡ page_text (brief_of (N.points names.now) (N.code_text names.now) report.now appendix.now.shown.now)
        (text_of (document_of (N.points names.now) (N.code_text names.now) report.now appendix.now.notes.now appendix.now.shown.now appendix.now.runs.now))) }
{
    let shown = appendix.shown;
    let brief = brief_text(alloc, names, report, shown.plans)?;
    let document = json_text(alloc, names, report, appendix)?;
    page_text(alloc, brief.as_slice(), document.as_slice())
}

/// The text of a report in a form, with these names of points and codes, and what is shown beside it. The document and the page also show the runs
/// that the teller gives.
///
/// The census needs a count for each point; so does `reached`, if the campaign has a depth; each plan needs a verdict; and the plans that grew have
/// to come first. An error means that memory was refused.
pub fn text_in<N: Names, T: Teller>(
    alloc: Global,
    form: &Form<'_>,
    names: &N,
    teller: &T,
    report: &Report<'_>,
    shown: &Shown<'_>,
) -> Result<Vec<u8>, AllocError>
    requires counts { length report.now.census ≡ length (N.points names.now) }
    requires reached { IfSome report.now.growth (λ growth. length growth.reached ≡ length (N.points names.now)) }
    requires verdicts { length report.now.verdicts ≡ length shown.now.plans }
    requires first { GrownAreFirst (N.points names.now) shown.now }
    ensures { IfOk result (λ text. text.items
        ≡ text_in form.now (N.points names.now) (N.code_text names.now) (T.told_runs teller.now) report.now shown.now) }
{
    match form {
        Form::Whole => text(alloc, names, report),
        Form::Brief => brief_text(alloc, names, report, shown.plans),
        Form::Json(notes) => {
            let runs = &runs_shown(alloc, names, teller, report, shown)?;
            let appendix = Appendix { notes, shown, runs };
            json_text(alloc, names, report, &appendix)
        }
        Form::Junit => junit_text(alloc, names, report, shown.plans),
        Form::Page(notes) => {
            let runs = &runs_shown(alloc, names, teller, report, shown)?;
            let appendix = Appendix { notes, shown, runs };
            page_of(alloc, names, report, &appendix)
        }
    }
}
