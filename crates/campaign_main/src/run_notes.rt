//! The notes on the report of a campaign with a depth on a component that somebody else runs, by recorded runs.
ghost use Rattle.std.specs.Prelude.{◌≡◌, ◌<◌, ◌≤◌, ◌++◌, ◌==◌, ◌&&◌, All, [], false, length, not, slice_index_or, string_bytes, Some, IfOk, IsErrOf, OnOk};
ghost use Rattle.std.specs.List.{filter, list_any, range_with_len};
ghost use Rattle.std.specs.Option.{option_map_or};
ghost use Rattle.scenario_values.specs.Tidied.{tidied};
ghost use Rattle.answer_text.specs.Runs.{told_in};
ghost use Rattle.grown_plans.specs.numbered.GrownScenarios.{grown_scenarios};
ghost use Rattle.report.specs.ReportText.{ended};
ghost use Rattle.answered_runs.specs.Answered.{known_plans};
ghost use Rattle.answered_runs.specs.Verdicts.{verdict_by};
ghost use Rattle.outside_campaign.specs.with_depth.Grown.{BeginsWith};
ghost use Rattle.answered_runs.specs.grown.Further.{AreTooMany, further_told};
ghost use Rattle.campaign_main.specs.Notes.{is_unhit};
ghost use Rattle.campaign_main.specs.QuestionNotes.{census_told, doubts_told, is_hit_by, is_hit_in, is_left_open, list_told, run_doubts, unreached_told, unseen_line, unseen_notes};

use crate::answer_notes::{count_open, is_open};
use crate::notes::{
    Doubts, draws_nothing, is_never, is_some_number, is_unhit, write_all_unreached, write_doubts,
};
use answer_text::{Runs, Stretch, ToldRun};
use answered_runs::{AnsweredRuns, KnownPlans, census, further_behind, reached};
use campaign_given::CampaignSettings;
use grown_plans::CampaignPlans;
use outside_campaign::{all_plans, verdicts_of};
use plan_gen::{PlanFault, PlanList};
use scenario_values::{Scenario, build};
use std::alloc::{AllocError, Global};
use std::fmt::Write;

/// Whether the run without faults is known to be unresolved.
fn is_clean_open(alloc: Global, known: &KnownPlans<'_>) -> Result<bool, AllocError>
    ensures { let a = known.now.answered in
        IfOk result (λ found. found ≡ is_left_open (verdict_by a.points (told_in a.book) known.now.depth) []) }
{
    let none = build(alloc, &[])?;
    let verdict = known.runs().verdict_of(alloc, known.depth(), &none)?;
    Ok(is_open(verdict))
}

/// Whether the run without faults is recorded as one that hits no point.
fn is_told_unhit(alloc: Global, runs: &AnsweredRuns<'_>) -> Result<bool, AllocError>
    ensures { IfOk result (λ unhit. unhit ≡ option_map_or is_unhit (census_told runs.now.points (told_in runs.now.book)) false) }
{
    match census(alloc, runs)? {
        Some(counts) => Ok(is_unhit(counts.as_slice())),
        None => Ok(false),
    }
}

/// What a report by these runs doesn't show.
fn doubts_told(
    alloc: Global,
    known: &KnownPlans<'_>,
    settings: &CampaignSettings,
    plans: &CampaignPlans<'_>,
) -> Result<Doubts, AllocError>
    requires plans { let a = known.now.answered in plans.now ≡ list_told a.points a.listed (told_in a.book) known.now.depth settings.now.plans }
    requires grown { BeginsWith (grown_scenarios known.now.answered.points known.now.list.plans) plans.now }
    ensures { let a = known.now.answered in
        IfOk result (λ doubts. doubts ≡ doubts_told a.points a.listed (told_in a.book) known.now.depth settings.now) }
{
    let verdicts = verdicts_of(alloc, known, plans)?;
    Ok(Doubts {
        clean: is_clean_open(alloc, known)?,
        unresolved: count_open(verdicts.as_slice()),
        plans: plans.len() as u32,
        unhit: is_told_unhit(alloc, known.runs())?,
        unstormed: draws_nothing(settings),
    })
}

/// Appends the line of how many plans are recorded without their hits.
fn write_unseen_line(out: &mut String, unseen: u32, plans: u32) -> Result<(), AllocError>
    ensures { OnOk result (string_bytes out.new ≡ string_bytes out.old ++ ended (unseen_line unseen plans)) }
{
    writeln!(out, "strict: {unseen} of {plans} plans without known hits")
}

/// The same, if there are any.
fn write_unseen(out: &mut String, unseen: u32, plans: u32) -> Result<(), AllocError>
    ensures { OnOk result (string_bytes out.new ≡ string_bytes out.old ++ unseen_notes unseen plans) }
{
    if is_some_number(unseen) {
        return write_unseen_line(out, unseen, plans);
    }
    Ok(())
}

/// Whether one of these stretches is of the point of this number.
fn has_point(stretches: &[Stretch], point: u32) -> bool
    ensures { result ≡ list_any (λ s. s.point == point) stretches.now }
{
    stretches.iter().any(|stretch| stretch.point == point)
}

/// Whether a recorded run hits the point.
fn is_hit_in(run: &ToldRun, point: u32) -> bool
    ensures { result ≡ is_hit_in point (Some run.now) }
{
    match &run.hits {
        Some(hits) => has_point(hits.stretches(), point),
        None => false,
    }
}

/// Whether the recorded run of a scenario does, if there is one.
fn is_told_hit(
    alloc: Global,
    runs: &Runs,
    scenario: &Scenario,
    point: u32,
) -> Result<bool, AllocError>
    ensures { IfOk result (λ found. found ≡ is_hit_in point (told_in runs.now (tidied scenario.now))) }
{
    match runs.told(alloc, scenario)? {
        Some(run) => Ok(is_hit_in(run, point)),
        None => Ok(false),
    }
}

/// Whether the recorded run of one of these scenarios does.
fn is_reached(
    alloc: Global,
    runs: &Runs,
    further: &PlanList<'_>,
    point: u32,
) -> Result<bool, AllocError>
    ensures { IfOk result (λ found. found ≡ is_hit_by (told_in runs.now) further.now point) }
{
    for number in 0..further.len() {
        let scenario = further.plan(number).scenario(alloc)?;
        let found = is_told_hit(alloc, runs, &scenario, point)?;
        if found {
            return Ok(true);
        }
    }
    Ok(false)
}

/// Whether no recorded run hits the point, given how often a plan that grew does at most: neither one of these, nor one of the scenarios.
fn is_unreached(
    alloc: Global,
    runs: &Runs,
    further: &PlanList<'_>,
    point: u32,
    most: u32,
) -> Result<bool, AllocError>
    ensures { IfOk result (λ left. left ≡ ((most == 0) && not (is_hit_by (told_in runs.now) further.now point))) }
{
    if !is_never(most) {
        return Ok(false);
    }
    let found = is_reached(alloc, runs, further, point)?;
    Ok(!found)
}

/// The numbers of the points that no recorded run hits, given these counts of plans that grew.
fn places_left(
    alloc: Global,
    runs: &Runs,
    further: &PlanList<'_>,
    counts: &[u32],
) -> Result<Vec<u32>, AllocError>
    requires { length counts.now ≤ 64 }
    ensures { IfOk result (λ places. places.items ≡ filter
        (λ p. (slice_index_or counts.now p 0 == 0) && not (is_hit_by (told_in runs.now) further.now p)) (range_with_len 0 (length counts.now))) }
{
    let mut places = Vec::new(alloc);
    for place in 0..counts.len() {
        let point = place as u32;
        let left = is_unreached(alloc, runs, further, point, counts[place])?;
        if left {
            places.push(point)?;
        }
    }
    Ok(places)
}

/// The numbers of the points that no recorded run hits, neither that of a plan that grew nor that of a scenario behind them, in the order of the
/// catalogue.
fn unreached(
    alloc: Global,
    known: &KnownPlans<'_>,
    further: &PlanList<'_>,
) -> Result<Vec<u32>, AllocError>
    ensures told { let a = known.now.answered in
        IfOk result (λ places. places.items ≡ unreached_told a.points a.listed (told_in a.book) known.now.depth further.now) }
    ensures within { IfOk result (λ places. All (λ p. p < length known.now.answered.points) places.items) }
{
    let _ = known.list();
    let runs = known.runs();
    let _ = runs.points();
    let counts = reached(alloc, known)?;
    let places = places_left(alloc, runs.runs(), further, counts.as_slice())?;
    Ok(places)
}

/// The same by recorded runs and these settings, or why the plans aren't listed.
fn unreached_known(
    alloc: Global,
    known: &KnownPlans<'_>,
    settings: &CampaignSettings,
) -> Result<Vec<u32>, PlanFault>
    ensures told { let a = known.now.answered in
        IfOk result (λ places. places.items ≡ unreached_told a.points a.listed (told_in a.book) known.now.depth (further_told a settings.now.plans)) }
    ensures within { IfOk result (λ places. All (λ p. p < length known.now.answered.points) places.items) }
    ensures many { IsErrOf result PlanFault.TooManyPlans
        → AreTooMany known.now.answered settings.now.plans (length (known_plans known.now.answered known.now.depth)) }
{
    let further = further_behind(alloc, known, &settings.plan_settings())?;
    let places = unreached(alloc, known, &further)?;
    Ok(places)
}

/// What a report by recorded runs doesn't show, or why the plans aren't listed.
fn doubts_known(
    alloc: Global,
    known: &KnownPlans<'_>,
    settings: &CampaignSettings,
) -> Result<Doubts, PlanFault>
    ensures told { let a = known.now.answered in
        IfOk result (λ doubts. doubts ≡ doubts_told a.points a.listed (told_in a.book) known.now.depth settings.now) }
    ensures many { IsErrOf result PlanFault.TooManyPlans
        → AreTooMany known.now.answered settings.now.plans (length (known_plans known.now.answered known.now.depth)) }
{
    let _ = known.list();
    let further = further_behind(alloc, known, &settings.plan_settings())?;
    let plans = all_plans(known, &further);
    let doubts = doubts_told(alloc, known, settings, &plans)?;
    Ok(doubts)
}

/// The further notes on a strict report, by recorded runs.
pub fn run_doubts(
    alloc: Global,
    known: &KnownPlans<'_>,
    settings: &CampaignSettings,
) -> Result<String, PlanFault>
    ensures ok { let a = known.now.answered in
        IfOk result (λ lines. string_bytes lines ≡ run_doubts a.points a.listed (told_in a.book) known.now.depth settings.now) }
    ensures many { IsErrOf result PlanFault.TooManyPlans
        → AreTooMany known.now.answered settings.now.plans (length (known_plans known.now.answered known.now.depth)) }
{
    let _ = known.list();
    let points = known.runs().points();
    let doubts = doubts_known(alloc, known, settings)?;
    let unseen = known.unseen(alloc)?;
    let places = unreached_known(alloc, known, settings)?;
    let mut lines = String::new(alloc);
    write_doubts(&mut lines, &doubts)?;
    write_unseen(&mut lines, unseen, doubts.plans)?;
    write_all_unreached(&mut lines, points, places.as_slice())?;
    Ok(lines)
}
