//! Runs of a component that somebody else runs, hit by hit, as answers record them.
ghost use Rattle.std.specs.Prelude.{◌≡◌, option_map, IfOk};
ghost use Rattle.outside_campaign.specs.Campaigns.{code_name};
ghost use Rattle.outside_campaign.specs.Telling.{run_told};

use crate::planned::borrowed;
use crate::telling::Words;
use answer_text::{Runs, ToldRun};
use campaign_given::Outside;
use report::{MOST_HITS_SHOWN, RunByAnswer, Teller, ToldRun as ToldLines, tell_answer};
use scenario_values::Scenario;
use std::alloc::{AllocError, Global};

/// The run of a scenario, hit by hit, if its hits are recorded.
fn run_told(
    alloc: Global,
    outside: &Outside,
    scenario: &Scenario,
    run: Option<&ToldRun>,
) -> Result<Option<ToldLines>, AllocError>
    ensures { IfOk result (λ told. told ≡ run_told outside.now.points (code_name outside.now.codes) scenario.now (option_map (λ r. r.now) run.entry)) }
{
    let Some(run) = run else {
        return Ok(None);
    };
    let Some(hits) = &run.hits else {
        return Ok(None);
    };
    let mut asked = Vec::new(alloc);
    hits.push_points(&mut asked)?;
    let points = borrowed(alloc, outside.points.as_slice())?;
    let words = Words { outside: &*outside };
    let run = RunByAnswer {
        scenario,
        verdict: run.verdict,
        hits: asked.as_slice(),
    };
    let told = tell_answer(alloc, &words, points.as_slice(), &run, MOST_HITS_SHOWN)?;
    Ok(Some(told))
}

/// Shows the runs of a component as answers record them.
#[derive(Drop)]
pub struct AnswerTeller<'a> {
    pub outside: &'a Outside,
    pub known: &'a Runs,
}

impl<'a> Teller for AnswerTeller<'a> {
    ghost use Rattle.answer_text.specs.Runs.{told_in};
    ghost use Rattle.outside_campaign.specs.Campaigns.{runs_told};

    ghost told_runs = { λ t. runs_told t.outside.now (told_in t.known.now) };

    fn tell(
        &self,
        alloc: Global,
        _number: u32,
        scenario: &Scenario,
    ) -> Result<Option<ToldLines>, AllocError> {
        let known = self.known;
        let run = known.told(alloc, scenario)?;
        run_told(alloc, self.outside, scenario, run)
    }
}
