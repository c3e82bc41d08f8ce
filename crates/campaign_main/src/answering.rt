//! Answers to questions on a component that somebody else runs. Each is made whole, with the notes on it, before anything is written; what is recorded
//! is read once for both.
ghost use Rattle.std.specs.Prelude.{◌≡◌, ◌≤◌, ◌++◌, ℕ, List, [], None, Some, string_bytes, IfErr, IfOk, IsErrOf};
ghost use Rattle.outside_campaign.specs.Recorded.{Records, depth_of};
ghost use Rattle.outside_campaign.specs.declared.recorded.Recorded.TheVariants.{ByCensus, ByRuns};
ghost use Rattle.outside_campaign.specs.with_depth.Explained.{IsExplainedText, RefusesText};
ghost use Rattle.campaign_main.specs.QuestionNotes.{name_notes, notes_to, question_doubts, question_notes, strict_doubts};
ghost use Rattle.campaign_main.specs.Questions.{IsAnswer, IsAnswerTo, IsShown, IsUnanswered, IsUnansweredTo, RefusesShown, report_form, subject_in};
ghost use Rattle.campaign_main.specs.inside.OnPlans.{IsTooLong, question_on};

use crate::answer_notes::{all_notes, census_doubts};
use crate::command::notes_with;
use crate::run_notes::run_doubts;
use answer_text::Runs;
use answered_runs::KnownPlans;
use command_words::{Form as ReportForm, Question, Shown};
use grown_plans::CampaignPlans;
use outside_campaign::{
    OutsideCampaign, QuestionFault, ReadRuns, Recorded, borrowed, explained_text, known_plans,
    outside_plans, read_answers,
};
use plan_gen::PlanFault;
use report::Form;
use std::alloc::Global;

/// The answer to a question.
#[derive(Debug, Drop)]
pub struct Answer {
    /// The text that answers it.
    pub text: Vec<u8>,
    /// Whether a verdict in it is fail.
    pub found: bool,
    /// The notes on it: lines, or nothing.
    pub notes: String,
}

/// A question on the plans of a campaign.
#[derive(Clone, Copy, Debug)]
enum OnPlans {
    /// Which scenarios are still to be tried.
    Asks,
    /// The report, or the interim report, and whether it is to be strict.
    Report(Shown, bool),
}

/// The form of a report by answers; `None` for the interim report, which has no other form.
fn report_form(shown: Shown) -> Option<Form<'static>>
    ensures { result ≡ report_form shown }
{
    match shown {
        Shown::Report(ReportForm::Whole) => Some(Form::Whole),
        Shown::Report(ReportForm::Brief) => Some(Form::Brief),
        Shown::Report(ReportForm::Json) => Some(Form::Json(notes_with(
            "answers",
            "paklour report --json FILE < ANSWERS",
        ))),
        Shown::Report(ReportForm::Junit) => Some(Form::Junit),
        Shown::Report(ReportForm::Page) => Some(Form::Page(notes_with(
            "answers",
            "paklour report --page FILE < ANSWERS",
        ))),
        Shown::Partial => None,
    }
}

/// The text of a report, or of the interim report, and whether a plan fails.
fn shown_text<'p>(
    alloc: Global,
    campaign: &'p OutsideCampaign<'p>,
    recorded: Recorded<'_, 'p>,
    shown: Shown,
) -> Result<(Vec<u8>, bool), QuestionFault>
    requires { (answers : List ℕ) × Records campaign.now.outside.now campaign.now.settings.now answers recorded }
    ensures text { IfOk result (λ r. (answers : List ℕ) → Records campaign.now.outside.now campaign.now.settings.now answers recorded.entry
        → IsShown (depth_of recorded.entry) (report_form shown) (subject_in campaign.now) answers r.0.items r.1) }
    ensures fault { IfErr result (λ why. (answers : List ℕ) → Records campaign.now.outside.now campaign.now.settings.now answers recorded.entry
        → RefusesShown (depth_of recorded.entry) (report_form shown) (subject_in campaign.now) answers why) }
{
    match report_form(shown) {
        Some(form) => {
            let (text, first) = recorded.report_text(alloc, campaign, &form)?;
            Ok((text, first.is_some()))
        }
        None => {
            let (text, found) = recorded.partial_text(alloc, campaign)?;
            Ok((text.into_bytes(), found))
        }
    }
}

/// The text that answers a question, and whether a plan fails.
fn text_on<'p>(
    alloc: Global,
    campaign: &'p OutsideCampaign<'p>,
    recorded: Recorded<'_, 'p>,
    question: OnPlans,
) -> Result<(Vec<u8>, bool), QuestionFault>
    requires { (answers : List ℕ) × Records campaign.now.outside.now campaign.now.settings.now answers recorded }
    ensures text { IfOk result (λ r. (answers : List ℕ) → Records campaign.now.outside.now campaign.now.settings.now answers recorded.entry
        → IsAnswerTo (depth_of recorded.entry) (question_on question) (subject_in campaign.now) answers r.0.items r.1) }
    ensures fault { IfErr result (λ why. (answers : List ℕ) → Records campaign.now.outside.now campaign.now.settings.now answers recorded.entry
        → IsUnansweredTo (depth_of recorded.entry) (question_on question) (subject_in campaign.now) answers why) }
{
    match question {
        OnPlans::Asks => {
            let text = recorded.asks_text(alloc, campaign)?;
            Ok((text.into_bytes(), false))
        }
        OnPlans::Report(shown, _) => shown_text(alloc, campaign, recorded, shown),
    }
}

/// What a strict report doesn't show.
fn strict_doubts(
    alloc: Global,
    campaign: &OutsideCampaign<'_>,
    recorded: Recorded<'_, '_>,
) -> Result<String, PlanFault>
    requires { (answers : List ℕ) × Records campaign.now.outside.now campaign.now.settings.now answers recorded }
    ensures ok { IfOk result (λ doubts. (answers : List ℕ) → Records campaign.now.outside.now campaign.now.settings.now answers recorded.entry
        → string_bytes doubts ≡ strict_doubts (depth_of recorded.entry) campaign.now.settings.now campaign.now.outside.now answers) }
    ensures many { IsErrOf result PlanFault.TooManyPlans → IsTooLong campaign.now.settings.now recorded.entry }
{
    match recorded {
        Recorded::ByCensus(runs, plans) => Ok(census_doubts(alloc, campaign, runs, plans)?),
        Recorded::ByRuns(known) => run_doubts(alloc, known, campaign.settings),
    }
}

/// The same for a strict report; nothing for another question.
fn doubts_on(
    alloc: Global,
    campaign: &OutsideCampaign<'_>,
    recorded: Recorded<'_, '_>,
    question: OnPlans,
) -> Result<String, PlanFault>
    requires { (answers : List ℕ) × Records campaign.now.outside.now campaign.now.settings.now answers recorded }
    ensures ok { IfOk result (λ doubts. (answers : List ℕ) → Records campaign.now.outside.now campaign.now.settings.now answers recorded.entry
        → string_bytes doubts ≡ question_doubts (depth_of recorded.entry) (question_on question) campaign.now.settings.now campaign.now.outside.now answers) }
    ensures many { IsErrOf result PlanFault.TooManyPlans → IsTooLong campaign.now.settings.now recorded.entry }
{
    match question {
        OnPlans::Report(_, true) => strict_doubts(alloc, campaign, recorded),
        OnPlans::Report(_, false) | OnPlans::Asks => Ok(String::new(alloc)),
    }
}

/// The answer to a question, by what is recorded.
fn answer_by<'p>(
    alloc: Global,
    campaign: &'p OutsideCampaign<'p>,
    recorded: Recorded<'_, 'p>,
    question: OnPlans,
) -> Result<Answer, QuestionFault>
    requires { (answers : List ℕ) × Records campaign.now.outside.now campaign.now.settings.now answers recorded }
    ensures text { IfOk result (λ a. (answers : List ℕ) → Records campaign.now.outside.now campaign.now.settings.now answers recorded.entry
        → IsAnswerTo (depth_of recorded.entry) (question_on question) (subject_in campaign.now) answers a.text.items a.found) }
    ensures notes { IfOk result (λ a. (answers : List ℕ) → Records campaign.now.outside.now campaign.now.settings.now answers recorded.entry
        → string_bytes a.notes ≡ notes_to (depth_of recorded.entry) (question_on question) campaign.now.settings.now campaign.now.outside.now answers) }
    ensures fault { IfErr result (λ why. (answers : List ℕ) → Records campaign.now.outside.now campaign.now.settings.now answers recorded.entry
        → IsUnansweredTo (depth_of recorded.entry) (question_on question) (subject_in campaign.now) answers why) }
{
    let (text, found) = text_on(alloc, campaign, recorded, question)?;
    let doubts = doubts_on(alloc, campaign, recorded, question)?;
    let notes = all_notes(alloc, campaign, recorded.strangers(), doubts.as_str())?;
    Ok(Answer { text, found, notes })
}

/// What is recorded, with a list of plans.
// (the borrow checker doesn't cover a function that lays references to its own values into this one, so it is made by a call)
fn with_list<'a, 'p>(runs: &'a Runs, plans: &'a CampaignPlans<'p>) -> Recorded<'a, 'p>
    ensures { result ≡ ByCensus runs.entry plans.entry }
{
    Recorded::ByCensus(runs, plans)
}

/// What is recorded, with the plans that it makes known.
fn with_known<'a, 'p>(known: &'a KnownPlans<'p>) -> Recorded<'a, 'p>
    ensures { result ≡ ByRuns known.entry }
{
    Recorded::ByRuns(known)
}

/// The answer to a question without a depth.
fn by_census(
    alloc: Global,
    campaign: &OutsideCampaign<'_>,
    question: OnPlans,
    answers: &[u8],
) -> Result<Answer, QuestionFault>
    ensures text { IfOk result (λ a. IsAnswerTo None (question_on question) (subject_in campaign.now) answers.now a.text.items a.found) }
    ensures notes { IfOk result (λ a. string_bytes a.notes
        ≡ notes_to None (question_on question) campaign.now.settings.now campaign.now.outside.now answers.now) }
    ensures fault { IfErr result (IsUnansweredTo None (question_on question) (subject_in campaign.now) answers.now) }
{
    let outside = campaign.outside;
    let runs = read_answers(alloc, outside, answers)?;
    let points = borrowed(alloc, outside.points.as_slice())?;
    let list = outside_plans(alloc, points.as_slice(), &*campaign)?;
    let plans = CampaignPlans::by_census(&list);
    answer_by(alloc, campaign, with_list(&runs, &plans), question)
}

/// The answer to a question with a depth.
fn by_runs(
    alloc: Global,
    campaign: &OutsideCampaign<'_>,
    depth: u32,
    question: OnPlans,
    answers: &[u8],
) -> Result<Answer, QuestionFault>
    requires { depth ≤ 64 }
    ensures text { IfOk result (λ a. IsAnswerTo (Some depth) (question_on question) (subject_in campaign.now) answers.now a.text.items a.found) }
    ensures notes { IfOk result (λ a. string_bytes a.notes
        ≡ notes_to (Some depth) (question_on question) campaign.now.settings.now campaign.now.outside.now answers.now) }
    ensures fault { IfErr result (IsUnansweredTo (Some depth) (question_on question) (subject_in campaign.now) answers.now) }
{
    let read = ReadRuns::read(alloc, campaign.outside, answers)?;
    let runs = read.table(alloc);
    let known = known_plans(alloc, &runs, depth)?;
    answer_by(alloc, campaign, with_known(&known), question)
}

/// The answer to a question on the plans of a campaign.
fn on_plans(
    alloc: Global,
    campaign: &OutsideCampaign<'_>,
    question: OnPlans,
    answers: &[u8],
) -> Result<Answer, QuestionFault>
    ensures text { IfOk result (λ a. IsAnswer (question_on question) (subject_in campaign.now) answers.now a.text.items a.found) }
    ensures notes { IfOk result (λ a. string_bytes a.notes
        ≡ question_notes (question_on question) campaign.now.settings.now campaign.now.outside.now answers.now) }
    ensures fault { IfErr result (IsUnanswered (question_on question) (subject_in campaign.now) answers.now) }
{
    let settings = campaign.settings;
    match settings.depth {
        None => by_census(alloc, campaign, question, answers),
        Some(depth) => by_runs(alloc, campaign, depth, question, answers),
    }
}

/// The recorded run of the scenario that a text spells.
fn explained(
    alloc: Global,
    campaign: &OutsideCampaign<'_>,
    text: &str,
    answers: &[u8],
) -> Result<Answer, QuestionFault>
    ensures text { IfOk result (λ a. IsExplainedText text.now campaign.now.outside.now campaign.now.settings.now answers.now a.text.items a.found) }
    ensures notes { IfOk result (λ a. string_bytes a.notes
        ≡ name_notes campaign.now.settings.now.depth campaign.now.settings.now campaign.now.outside.now answers.now ++ []) }
    ensures fault { IfErr result (RefusesText text.now campaign.now.outside.now campaign.now.settings.now answers.now) }
{
    let run = explained_text(alloc, campaign, text, answers)?;
    let notes = all_notes(alloc, campaign, run.runs.strangers(), "")?;
    Ok(Answer {
        text: run.lines.into_bytes(),
        found: run.fails,
        notes,
    })
}

/// The answer to a question on a component that somebody else runs, by the settings and a text of answers: which scenarios are still to be tried, the
/// report, the interim report, or the recorded run of a scenario. It is made whole, with the notes on it, or there is a fault.
///
/// The report is that of every component that agrees with the answers. Such a component is a function from tidied scenarios to verdicts or, with a
/// depth, one whose next hit is a function of the answers to its earlier hits.
///
/// The notes are a line for each name that no point of the component has, in the scenarios that the settings list and in those that are answered, and
/// one for each listed scenario in which a control character stands. On a strict report they also say what it doesn't show.
///
/// `Scenario` comes first, if the text whose run is to be explained spells no scenario. Then comes `Answers`, the first fault of the answers.
/// `Unseen` has the line that records that run without hits. Without a depth `Census` has the line that records other numbers of hits of the run
/// without faults than the settings say. With one `Broken` comes if no component agrees with the answers: after the same answers two lines say
/// different things, or one goes on after a pause. So the component's next hit isn't a function of the answers to its earlier hits, or the answers are
/// those of two components.
/// `NotAnswered` has a scenario that a report still waits for, or whose run is to be explained and isn't recorded. `TooManyPlans` comes only if more
/// than 65536 plans are known, or, with a depth, the run without faults has at least as many hits. `Write` never comes, and any other fault means that
/// memory was refused.
pub fn answer_question(
    alloc: Global,
    question: &Question,
    campaign: &OutsideCampaign<'_>,
    answers: &[u8],
) -> Result<Answer, QuestionFault>
    ensures text { IfOk result (λ a. IsAnswer question.now (subject_in campaign.now) answers.now a.text.items a.found) }
    ensures notes { IfOk result (λ a. string_bytes a.notes
        ≡ question_notes question.now campaign.now.settings.now campaign.now.outside.now answers.now) }
    ensures fault { IfErr result (IsUnanswered question.now (subject_in campaign.now) answers.now) }
{
    match question {
        Question::Asks => on_plans(alloc, campaign, OnPlans::Asks, answers),
        Question::Report { shown, strict } => {
            on_plans(alloc, campaign, OnPlans::Report(*shown, *strict), answers)
        }
        Question::Explain(text) => explained(alloc, campaign, text.as_str(), answers),
    }
}
