//! The rigged hits that a scenario is made of.
ghost use Rattle.std.specs.Prelude.{◌≡◌, ◌≤◌, None, Some, nat_le, length, option_map, if◌then◌else◌, IfOk, OnOk};
ghost use Rattle.std.specs.List.{list_all};
ghost use Rattle.action_eval.specs.Answers.{texts};
ghost use Rattle.action_eval.specs.Catalogue.{IsCatalogue};
ghost use Rattle.action_eval.specs.RiggedScenario.{text_of};
ghost use Rattle.grown_plans.specs.GrownPlans.{is_before};
ghost use Rattle.answered_runs.specs.Rigged.{are_in_order, are_lawful, are_short, are_small, chain_into, chain_named, if_short, is_short, make, most_hit, points_into, rigs_of_scenario, term_into, with_kind, with_task};
ghost use Rattle.answered_runs.specs.inside.Steps.{Took, TookTo, return_kind};

use crate::scenarios::rigged_scenario;
use action_eval::{Argument, Kind, MOST_RIGS, MOST_TEXT, Rig, Site};
use scenario_grammar::{is_argument, print};
use scenario_values::{FULL_SHARE, Scenario, Task, Term, Text};
use std::alloc::{AllocError, Global};

/// Adds a rigged hit.
fn push(rigs: &mut Vec<Rig>, site: Site, kind: Kind) -> Result<(), AllocError>
    ensures { OnOk result (rigs.new.items ≡ with_kind site.point site.hit kind rigs.old.items) }
{
    rigs.push(Rig { site, kind })?;
    Ok(())
}

/// A return's text as that of a rigged hit; `None` if a rigged hit can't have it.
fn argument_of(text: &Option<Text>) -> Option<Argument>
    ensures { result ≡ (if is_short text.now then Some text.now else None) }
{
    let Some(text) = text else {
        return Some(Argument::none());
    };
    if is_argument(text.as_str()) {
        Argument::of(text.as_str())
    } else {
        None
    }
}

/// Adds a return with this text, once or sticky. Returns false if a rigged hit can't have the text.
fn push_return(
    rigs: &mut Vec<Rig>,
    site: Site,
    text: &Option<Text>,
    onward: bool,
) -> Result<bool, AllocError>
    ensures { IfOk result (Took (if_short text.now (return_kind onward text.now) site.point site.hit rigs.old.items) rigs.new.items) }
{
    let Some(argument) = argument_of(text) else {
        return Ok(false);
    };
    let kind = if onward {
        Kind::OnwardReturn(argument)
    } else {
        Kind::OnceReturn(argument)
    };
    push(rigs, site, kind)?;
    Ok(true)
}

/// Adds the rigged hit at this site that does what the task does `count` times up to there, or, without a count, from there on. `off` adds none.
/// Returns false if no rigged hit does that.
fn push_task(
    rigs: &mut Vec<Rig>,
    site: Site,
    count: Option<u32>,
    task: &Task,
) -> Result<bool, AllocError>
    ensures { IfOk result (Took (with_task site.point site.hit count task.now rigs.old.items) rigs.new.items) }
{
    match (task, count) {
        (Task::Off, Some(_)) => Ok(true),
        (Task::Return(text), Some(1)) => push_return(rigs, site, text, false),
        (Task::Panic(None), Some(1)) => {
            push(rigs, site, Kind::OncePanic)?;
            Ok(true)
        }
        (Task::Return(text), None) => push_return(rigs, site, text, true),
        _ => Ok(false),
    }
}

/// Adds the rigged hit that does what the term does after `done` hits of its point. Returns the last hit at which the term acts, or the first if it
/// has no count; `None` if no rigged hit does that.
fn push_term(
    rigs: &mut Vec<Rig>,
    point: u32,
    done: u32,
    term: &Term,
) -> Result<Option<u32>, AllocError>
    ensures { IfOk result (TookTo (term_into point done term.now rigs.old.items) rigs.new.items) }
{
    let Some(hit) = done.checked_add(term.count.unwrap_or(1)) else {
        return Ok(None);
    };
    if term.share == FULL_SHARE && push_task(rigs, Site { point, hit }, term.count, &term.task)? {
        Ok(Some(hit))
    } else {
        Ok(None)
    }
}

/// Adds the rigged hits of a point's terms. Returns false if the terms aren't those of rigged hits.
fn push_chain(rigs: &mut Vec<Rig>, point: u32, terms: &[Term]) -> Result<bool, AllocError>
    ensures { IfOk result (Took (chain_into point 0 terms.now rigs.old.items) rigs.new.items) }
{
    let mut done = 0u32;
    for term in terms {
        match push_term(rigs, point, done, term)? {
            Some(hit) => done = hit,
            None => return Ok(false),
        }
    }
    Ok(true)
}

/// Adds the rigged hits of a scenario at the point of this name. Returns false if what it does there isn't made of rigged hits.
fn push_point(
    rigs: &mut Vec<Rig>,
    scenario: &Scenario,
    point: u32,
    name: &str,
) -> Result<bool, AllocError>
    ensures { IfOk result (Took (chain_into point 0 (chain_named scenario.now name.now) rigs.old.items) rigs.new.items) }
{
    match scenario.entry_of(name) {
        Some(entry) => push_chain(rigs, point, scenario.chain(entry)),
        None => push_chain(rigs, point, &[]),
    }
}

/// Adds the rigged hits of a scenario at each of the points. Returns false if what it does there isn't made of rigged hits.
fn push_points(
    rigs: &mut Vec<Rig>,
    scenario: &Scenario,
    points: &[&str],
) -> Result<bool, AllocError>
    requires { length points.now ≤ 64 }
    ensures { IfOk result (Took (points_into scenario.now 0 (texts points.now) rigs.old.items) rigs.new.items) }
{
    let mut point = 0u32;
    for name in points {
        if !push_point(rigs, scenario, point, name)? {
            return Ok(false);
        }
        point += 1;
    }
    Ok(true)
}

/// Whether a site stands before another one, in the order of points, and at one point in the order of hits.
fn is_before(a: Site, b: Site) -> bool
    ensures { result ≡ is_before a b }
{
    a.point < b.point || (a.point == b.point && a.hit < b.hit)
}

/// Whether a rigged hit stands before all of these.
fn is_before_all(first: &Rig, rigs: &[Rig]) -> bool
    ensures { result ≡ list_all (λ s. is_before first.now.site s.site) rigs.now }
{
    rigs.iter().all(|rig| is_before(first.site, rig.site))
}

/// Whether rigged hits are in order, with hits counted from 1.
fn are_in_order(rigs: &[Rig]) -> bool
    ensures { result ≡ are_in_order rigs.now }
{
    let mut rest = rigs;
    while let Some((first, more)) = rest.split_first() {
        if first.site.hit == 0 || !is_before_all(first, more) {
            return false;
        }
        rest = more;
    }
    true
}

/// Whether the hit of a rigged hit has a number that fits 32 bits.
fn is_small(rig: &Rig) -> bool
    ensures { result ≡ nat_le rig.now.site.hit most_hit }
{
    rig.site.hit <= u32::MAX
}

fn are_small(rigs: &[Rig]) -> bool
    ensures { result ≡ are_small rigs.now }
{
    rigs.iter().all(|rig| is_small(rig))
}

/// Whether the text of a rigged hit is short, if it has one.
fn is_short(rig: &Rig) -> bool
    ensures { result ≡ is_short (text_of rig.now.kind) }
{
    let argument = rig.kind.text();
    match argument.as_str() {
        Some(text) => is_argument(text) && text.len() <= MOST_TEXT,
        None => true,
    }
}

fn are_short(rigs: &[Rig]) -> bool
    ensures { result ≡ are_short rigs.now }
{
    rigs.iter().all(|rig| is_short(rig))
}

/// Whether a scenario can be made of rigged hits, in order.
fn are_lawful(rigs: &[Rig]) -> bool
    ensures { result ≡ are_lawful rigs.now }
{
    rigs.len() <= MOST_RIGS && are_small(rigs) && are_short(rigs) && are_in_order(rigs)
}

/// Whether the scenario of these rigged hits is just this one.
fn make(
    alloc: Global,
    points: &[&str],
    rigs: &[Rig],
    scenario: &Scenario,
) -> Result<bool, AllocError>
    requires { IsCatalogue (texts points.now) }
    ensures { IfOk result (λ is. is ≡ make (texts points.now) rigs.now scenario.now) }
{
    if !are_lawful(rigs) {
        return Ok(false);
    }
    let made = rigged_scenario(alloc, points, rigs)?;
    let text = print(alloc, &made)?;
    let given = print(alloc, scenario)?;
    Ok(text.as_str() == given.as_str())
}

/// The rigged hits of a scenario, in order, if it is made of at most 64 of them, each once or sticky. An error means that memory was refused.
pub fn rigs_of_scenario(
    alloc: Global,
    points: &[&str],
    scenario: &Scenario,
) -> Result<Option<Vec<Rig>>, AllocError>
    requires { IsCatalogue (texts points.now) }
    ensures { IfOk result (λ rigs. option_map (λ r. r.items) rigs ≡ rigs_of_scenario (texts points.now) scenario.now) }
{
    let mut rigs = Vec::new(alloc);
    if !push_points(&mut rigs, scenario, points)? {
        return Ok(None);
    }
    if make(alloc, points, rigs.as_slice(), scenario)? {
        Ok(Some(rigs))
    } else {
        Ok(None)
    }
}
