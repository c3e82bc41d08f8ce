//! The report of a campaign with a depth.
ghost use Rattle.std.specs.Prelude.{◌≡◌, ◌<◌, ℕ, List, length, slice_index_or, IfErr, IfOk};
ghost use Rattle.std.specs.List.{AllByRecursion};
ghost use Rattle.scenario_values.specs.Scenario.{Entries, IsScenario};
ghost use Rattle.target_trait.specs.declared.judgement.Verdict.TheVariants.{Unresolved};
ghost use Rattle.report.specs.json_form.About.{shown_of};
ghost use Rattle.answer_text.specs.Known.{KnownVerdicts};
ghost use Rattle.outside_campaign.specs.Asked.{plan_verdicts as known_plan_verdicts};
ghost use Rattle.outside_campaign.specs.Told.{AreVerdicts};
ghost use Rattle.answered_runs.specs.Agreement.{AreOfOne};
ghost use Rattle.answered_runs.specs.grown.Further.{HasFewHits};
ghost use Rattle.outside_campaign.specs.declared.verdicts.Verdicts.TheVariants.{All};
ghost use Rattle.outside_campaign.specs.with_depth.Questions.{IsReportedText, RefusesBy, Tells};
ghost use Rattle.outside_campaign.specs.with_depth.inside.Outcomes.{IsCleanCensus, IsDecided, IsFirstOf, IsOpenPlan, IsTextOf};

use crate::with_depth::candidates::{Outcome, Told, outcome_known};
use crate::with_depth::fault::QuestionFault;
use crate::with_depth::grown::{all_plans, refuse_gap, verdicts_of};
use crate::{
    AnswerTeller, OutsideCampaign, OutsideFault, Verdicts, Words, first_number, verdicts_known,
};
use answered_runs::{AnsweredRuns, KnownPlans, census, further_behind, reached};
use campaign_core::causes_of;
use grown_plans::{CampaignPlans, GrownPlans};
use report::{Form, Growth, Report, Shown, text_in};
use scenario_values::Scenario;
use std::alloc::{AllocError, Global};
use target_trait::Verdict;

/// A campaign with a depth in which each plan is answered.
#[derive(Drop)]
struct AnsweredCampaign<'a, 'k> {
    campaign: &'a OutsideCampaign<'a>,
    known: &'a KnownPlans<'k>,
    plans: &'a CampaignPlans<'a>,
}

/// The verdict of each plan. If one isn't known, the fault says that the first such plan is still to be tried.
fn all_verdicts(
    alloc: Global,
    plans: &CampaignPlans<'_>,
    verdicts: &[Option<Verdict>],
) -> Result<Vec<Verdict>, QuestionFault>
    requires many { length verdicts.now ≡ length plans.now }
    requires lawful { AllByRecursion (λ s. IsScenario s) plans.now }
    ensures all { IfOk result (λ all. (known : KnownVerdicts) → verdicts.now ≡ known_plan_verdicts known plans.now → AreVerdicts known plans.now (All all)) }
    ensures fault { IfErr result (λ why. (known : KnownVerdicts) → verdicts.now ≡ known_plan_verdicts known plans.now → IsOpenPlan known plans.now why) }
{
    match verdicts_known(alloc, plans, verdicts)? {
        Verdicts::All(all) => Ok(all),
        Verdicts::NotAnswered(scenario) => {
            Err(QuestionFault::Outside(OutsideFault::NotAnswered(scenario)))
        }
    }
}

/// The fault that the first of these scenarios is still to be tried.
fn first_of(requests: Vec<Scenario>) -> QuestionFault
    ensures { IsFirstOf requests.items result }
{
    match requests.into_iter().next() {
        Some(request) => QuestionFault::Outside(OutsideFault::NotAnswered(request)),
        None => QuestionFault::from(AllocError),
    }
}

/// How often the run without faults hits each point; 0 for each if its hits aren't recorded.
fn clean_census(alloc: Global, runs: &AnsweredRuns<'_>) -> Result<Vec<u32>, AllocError>
    requires { HasFewHits runs.now }
    ensures { IfOk result (λ counts. IsCleanCensus runs.now counts.items) }
{
    match census(alloc, runs)? {
        Some(counts) => Ok(counts),
        None => Ok(vec![in alloc; 0u32; runs.points().len()]?),
    }
}

/// The verdict of the run without faults.
fn clean_of(verdicts: &[Verdict]) -> Verdict
    requires { 0 < length verdicts.now }
    ensures { result ≡ slice_index_or verdicts.now 0 Unresolved }
{
    verdicts[0]
}

/// What is shown of plans that grew, with so many storms and listed scenarios behind them.
fn shown_of<'a>(
    plans: &'a CampaignPlans<'a>,
    grown: &'a GrownPlans,
    storms: usize,
    listed: usize,
    settings: &'a str,
) -> Shown<'a>
    ensures { result ≡ shown_of plans.entry.now grown.entry.now storms listed settings.entry.now }
{
    Shown::new(plans, Some(grown), storms, listed, settings)
}

/// The text of the report in a form.
fn reported_text<'a>(
    alloc: Global,
    form: &Form<'_>,
    answered: &'a AnsweredCampaign<'a, '_>,
    verdicts: &'a [Verdict],
    told: Told,
) -> Result<Vec<u8>, AllocError>
    requires some { 0 < length verdicts.now }
    requires decided { let k = answered.now in (further : List Entries)
        × IsDecided k.campaign.now.outside.now k.campaign.now.settings.now k.known.now further k.plans.now verdicts.now told }
    ensures { let k = answered.now in
        IfOk result (λ text. IsTextOf form.now k.campaign.now.outside.now k.campaign.now.settings.now k.known.now.answered k.known.now.depth text.items) }
{
    let campaign = answered.campaign;
    let outside = campaign.outside;
    let settings = campaign.settings;
    let known = answered.known;
    let runs = known.runs();
    let list = known.list();
    let census = clean_census(alloc, runs)?;
    let reached = reached(alloc, known)?;
    let causes = causes_of(alloc, answered.plans, told.causes.as_slice())?;
    let growth = Growth {
        depth: known.depth(),
        levels: list.levels.as_slice(),
        onward: list.onward,
        beyond: list.beyond,
        unseen: known.unseen(alloc)?,
        reached: reached.as_slice(),
        causes,
    };
    let report = Report {
        label: outside.label.as_str(),
        seed: settings.seed,
        clean: clean_of(verdicts),
        census: census.as_slice(),
        verdicts,
        unmet: 0,
        findings: told.findings,
        growth: Some(growth),
    };
    let words = Words { outside };
    let storms = settings.storms as usize;
    let listed = settings.scenarios.len();
    let source = settings.source.as_str();
    let shown = shown_of(answered.plans, &list.plans, storms, listed, source);
    let teller = AnswerTeller {
        outside,
        known: runs.runs(),
    };
    text_in(alloc, form, &words, &teller, &report, &shown)
}

/// The text of the report in a form, and the number of the first plan that fails, for a campaign with a depth. It is the same as that of a target
/// which the program runs itself, for every component that agrees with the answers and whose next hit is a function of the answers to its earlier
/// hits. It is made only if nothing is still to be tried: the run of each plan that grows is recorded, and all that its causes and reductions need
/// is known.
///
/// Nothing grows from a run that is recorded without its hits. The report then covers the campaign as far as its runs were seen: it says how many
/// weren't, and promises nothing of scenarios whose runs begin like one of these. If there is none, it covers the whole campaign.
///
/// `NotAnswered` has a scenario that is still to be tried. `TooManyPlans` comes only if more than 65536 plans are known, or the run without faults
/// has at least as many hits. Any other fault means that memory was refused.
pub(crate) fn grown_report<'a>(
    alloc: Global,
    form: &Form<'_>,
    campaign: &'a OutsideCampaign<'a>,
    known: &KnownPlans<'a>,
) -> Result<(Vec<u8>, Option<u32>), QuestionFault>
    requires points { known.now.answered.points ≡ campaign.now.outside.now.points }
    requires agree { AreOfOne known.now.answered }
    // The promise: whichever text of answers was read.
    ensures report { IfOk result (λ r. (answers : List ℕ) → Tells campaign.now.outside.now answers known.now.answered
        → IsReportedText form.now campaign.now.outside.now campaign.now.settings.now known.now.depth answers r.0.items r.1) }
    ensures fault { IfErr result (RefusesBy known.now.answered known.now.depth campaign.now.settings.now.plans) }
{
    let _ = known.list();
    let _ = known.runs().points();
    let settings = campaign.settings;
    let further = further_behind(alloc, known, &settings.plan_settings())?;
    refuse_gap(alloc, known)?;
    let plans = all_plans(known, &further);
    let verdicts = verdicts_of(alloc, known, &plans)?;
    let all = all_verdicts(alloc, &plans, verdicts.as_slice())?;
    match outcome_known(alloc, known, &plans, verdicts.as_slice())? {
        Outcome::Open(requests) => Err(first_of(requests)),
        Outcome::Told(told) => {
            let first = first_number(&told.findings);
            let answered = AnsweredCampaign {
                campaign: &*campaign,
                known: &*known,
                plans: &plans,
            };
            let text = reported_text(alloc, form, &answered, all.as_slice(), told)?;
            Ok((text, first))
        }
    }
}
