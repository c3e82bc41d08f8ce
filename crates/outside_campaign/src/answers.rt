//! Answers, read and compared with the settings.
ghost use Rattle.std.specs.Prelude.{◌≡◌, ◌≢◌, true, false, IfErr, IfOk, OnOk};
ghost use Rattle.answer_text.specs.Runs.{told_in};
ghost use Rattle.outside_campaign.specs.Readable.{IsReadable, IsUnreadable, KeepsCensus, census_of, strangers_by, told_by};
ghost use Rattle.outside_campaign.specs.inside.Census.{IsCensusFault};

use crate::refusal::OutsideFault;
use answer_text::{Hits, Runs, read};
use campaign_given::Outside;
use plan_gen::counts_of;
use scenario_values::build;
use std::alloc::{AllocError, Global};

/// Whether these hits have the settings' census.
fn keeps_census(alloc: Global, outside: &Outside, hits: &Hits) -> Result<bool, AllocError>
    ensures same { IfOk result (λ same. same ≡ true → census_of outside.now hits.now ≡ outside.now.hits) }
    ensures other { IfOk result (λ same. same ≡ false → census_of outside.now hits.now ≢ outside.now.hits) }
{
    let mut points = Vec::new(alloc);
    hits.push_points(&mut points)?;
    if points.len() > 4294967295 {
        // a line has no more, so this never comes
        return Err(AllocError);
    }
    let counts = counts_of(alloc, outside.points.len() as u32, points.as_slice())?;
    Ok(counts.as_slice() == outside.hits.as_slice())
}

/// Refuses hits of the run without faults that don't have the settings' census.
fn check_census(alloc: Global, outside: &Outside, runs: &Runs) -> Result<(), OutsideFault>
    ensures kept { OnOk result (KeepsCensus outside.now (told_in runs.now)) }
    ensures fault { IfErr result (IsCensusFault outside.now (told_in runs.now)) }
{
    let none = build(alloc, &[])?;
    let Some(told) = runs.told(alloc, &none)? else {
        return Ok(());
    };
    let Some(hits) = &told.hits else {
        return Ok(());
    };
    if keeps_census(alloc, outside, hits)? {
        Ok(())
    } else {
        Err(OutsideFault::Census(told.line))
    }
}

/// What a text of answers records for a campaign without a depth, as [`answer_text::read`] reads it. Hits may be recorded. Those of the run without
/// faults have to be as many at each point as the settings say.
///
/// `Answers` is the first fault of the answers. Without one, `Census` has the line that records other hits of the run without faults. Any other fault
/// means that memory was refused.
pub fn read_answers(alloc: Global, outside: &Outside, answers: &[u8]) -> Result<Runs, OutsideFault>
    ensures known { IfOk result (λ runs. told_in runs ≡ told_by outside.now answers.now) }
    ensures strangers { IfOk result (λ runs. runs.strangers ≡ strangers_by outside.now answers.now) }
    ensures readable { OnOk result (IsReadable outside.now answers.now) }
    ensures fault { IfErr result (IsUnreadable outside.now answers.now) }
{
    let runs = read(
        alloc,
        outside.codes.as_slice(),
        outside.points.as_slice(),
        answers,
    )?;
    check_census(alloc, outside, &runs)?;
    Ok(runs)
}
