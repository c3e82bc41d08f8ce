//! Recorded runs, written hit by hit.
ghost use Rattle.std.specs.Prelude.{◌≡◌, List, Ok, false, is_some, string_bytes, IfErr, IfOk, OnOk};
ghost use Rattle.scenario_grammar.specs.FirstFault.{Reads};
ghost use Rattle.target_trait.specs.Verdicts.{is_fail};
ghost use Rattle.answer_text.specs.Hits.{points_of};
ghost use Rattle.answer_text.specs.Runs.{Tells, known_of, known_strangers, told_in};
ghost use Rattle.answer_text.specs.declared.runs.RunLine.{RunLine};
ghost use Rattle.outside_campaign.specs.with_depth.Explained.{IsExplainedText, IsHiddenFault, IsRunText, RefusesText, said, spelled};

use crate::with_depth::fault::QuestionFault;
use crate::{OutsideCampaign, OutsideFault, Words, borrowed};
use answer_text::{AnswersFault, Hits, Runs, ToldRun, read, read_runs};
use campaign_given::Outside;
use report::{RunByAnswer, explain_answer};
use scenario_grammar::{ScenarioFault, parse};
use scenario_values::{Scenario, build, tidy};
use std::alloc::{AllocError, Global};
use target_trait::Verdict;

/// The scenario that a text spells; `none` spells the one without entries.
fn spelled(alloc: Global, text: &str) -> Result<Scenario, ScenarioFault>
    ensures { Reads (λ s. s) result (spelled text.now) }
{
    if text == "none" {
        return Ok(build(alloc, &[])?);
    }
    parse(alloc, text)
}

/// The point of each hit, in order.
fn points_of(alloc: Global, hits: &Hits) -> Result<Vec<u32>, AllocError>
    ensures { IfOk result (λ points. points.items ≡ points_of hits.now) }
{
    let mut points = Vec::new(alloc);
    hits.push_points(&mut points)?;
    Ok(points)
}

fn is_fail(verdict: Verdict) -> bool
    ensures { result ≡ is_fail verdict }
{
    match verdict {
        Verdict::Fail(_) => true,
        Verdict::Pass | Verdict::Unresolved => false,
    }
}

/// The lines of a scenario's run, if its hits are recorded, and whether it fails.
fn run_text(
    alloc: Global,
    outside: &Outside,
    scenario: &Scenario,
    run: &ToldRun,
) -> Result<(String, bool), QuestionFault>
    ensures shown { IfOk result (λ r. IsRunText outside.now scenario.now run.now (string_bytes r.0) r.1) }
    ensures fault { IfErr result (IsHiddenFault run.now) }
{
    let Some(hits) = &run.hits else {
        return Err(QuestionFault::Unseen(run.line));
    };
    let hits = points_of(alloc, hits)?;
    let points = borrowed(alloc, outside.points.as_slice())?;
    let words = Words { outside: &*outside };
    let verdict = run.verdict;
    let run = RunByAnswer {
        scenario,
        verdict,
        hits: hits.as_slice(),
    };
    let text = explain_answer(alloc, &words, points.as_slice(), &run)?;
    Ok((text, is_fail(verdict)))
}

/// The runs that a text of answers records. With a depth each line has to record hits.
fn runs_told(
    alloc: Global,
    campaign: &OutsideCampaign<'_>,
    answers: &[u8],
) -> Result<Runs, AnswersFault>
    ensures known { IfOk result (λ runs. told_in runs ≡ known_of (said campaign.now.outside.now campaign.now.settings.now answers.now)) }
    ensures strangers { IfOk result (λ runs. runs.strangers
        ≡ known_strangers campaign.now.outside.now.points (said campaign.now.outside.now campaign.now.settings.now answers.now)) }
    ensures read { OnOk result ((lines : List RunLine) × (said campaign.now.outside.now campaign.now.settings.now answers.now ≡ Ok lines)) }
    ensures refused { IfErr result (λ fault. Tells fault (is_some campaign.now.settings.now.depth)
        campaign.now.outside.now.codes campaign.now.outside.now.points answers.now) }
{
    let outside = campaign.outside;
    let settings = campaign.settings;
    let codes = outside.codes.as_slice();
    let points = outside.points.as_slice();
    match settings.depth {
        None => read(alloc, codes, points, answers),
        Some(_) => read_runs(alloc, codes, points, answers),
    }
}

/// A recorded run, hit by hit.
#[derive(Drop)]
pub struct Explained {
    /// The lines of [`report::explain_answer`].
    pub lines: String,
    /// Whether the run fails.
    pub fails: bool,
    /// All that the answers record.
    pub runs: Runs,
}

/// The recorded run of a scenario, hit by hit. The scenario is given by a text of [`scenario_grammar::parse`], or by `none` if
/// it has no entries. The answers may record it under any text with the same tidied form.
///
/// The first of these faults is returned: `Scenario`, if the text spells no scenario; that of the answers; `NotAnswered` with the tidied scenario, if
/// no answer records its run; and `Unseen`, if the first answer that records it has no hits. `Census`, `Broken`, `TooManyPlans` and `Write` never
/// come. Any other fault means that memory was refused.
pub fn explained_text(
    alloc: Global,
    campaign: &OutsideCampaign<'_>,
    text: &str,
    answers: &[u8],
) -> Result<Explained, QuestionFault>
    ensures shown { IfOk result (λ r. IsExplainedText text.now campaign.now.outside.now campaign.now.settings.now answers.now
        (string_bytes r.lines) r.fails) }
    ensures strangers { IfOk result (λ r. r.runs.strangers
        ≡ known_strangers campaign.now.outside.now.points (said campaign.now.outside.now campaign.now.settings.now answers.now)) }
    ensures fault { IfErr result (RefusesText text.now campaign.now.outside.now campaign.now.settings.now answers.now) }
{
    let scenario = spelled(alloc, text)?;
    let told = runs_told(alloc, campaign, answers)?;
    match told.told(alloc, &scenario)? {
        Some(run) => {
            let (lines, fails) = run_text(alloc, campaign.outside, &scenario, run)?;
            Ok(Explained {
                lines,
                fails,
                runs: told,
            })
        }
        None => {
            let tidied = tidy(alloc, &scenario)?;
            Err(QuestionFault::Outside(OutsideFault::NotAnswered(tidied)))
        }
    }
}
