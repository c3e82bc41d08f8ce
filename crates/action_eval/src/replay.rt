//! The hits of a run, each with the term that acted, for an account of a run after its end.
ghost use Rattle.std.specs.Prelude.{◌≡◌, ◌+◌, ◌<◌, ◌≤◌, ◌^◌, [], length, slice_index_or, IfOk, IfSome};
ghost use Rattle.action_eval.specs.Answers.{texts, run_of, history_of, hit_by, did, stop_of, is_term};
ghost use Rattle.action_eval.specs.inside.Session.{found_of, left_after};
ghost use Rattle.action_eval.specs.inside.Replay.{chain_or_none, trial_by};

use crate::answer::{Stop, effect_of};
use crate::counts::{fill_counts, spend};
use crate::draws::Draws;
use crate::found::{Found, chain_in, find};
use crate::terms::{task_at, try_terms};
use scenario_values::{Scenario, Task};
use std::alloc::{AllocError, Global};
use std::marker::Model;

/// A hit that was answered: its point, and what acted there.
///
/// Contracts see it as its point, the name and the place of the term that acted, what that did, and how many words were taken.
#[derive(Drop)]
pub struct Answered<'a> {
    point: u32,
    name: &'a str,
    place: Option<usize>,
    task: Option<&'a Task>,
    words: u64,
}

impl<'a> Model for Answered<'a> {
    ghost use Rattle.action_eval.specs.Answers.{Hit, place_in, did};

    ghost Value = { Hit };

    ghost view = { λ a. record {
      point = a.point;
      term = place_in a.name.now a.place;
      did = did a.task;
      words = a.words;
    } };
}

impl<'a> Answered<'a> {
    /// The number of the point in the catalogue.
    pub fn point(&self) -> u32
        ensures { result ≡ self.now.point }
    {
        self.point
    }

    /// The task of the term that acted, if one did.
    pub fn task(&self) -> Option<&'a Task>
        ensures { did result ≡ self.now.did }
    {
        self.task
    }

    /// Why the run stopped at it, if it did.
    pub fn stop(&self) -> Option<Stop>
        ensures { result ≡ stop_of self.now.did }
    {
        effect_of(self.task).stop
    }

    /// Whether the term that acted is the one at this place, from 0, in the chain of this name.
    pub fn is_of(&self, name: &str, place: usize) -> bool
        ensures { result ≡ is_term name.now place self.now.term }
    {
        match self.place {
            Some(acted) => self.name == name && acted == place,
            None => false,
        }
    }
}

/// The name of the point with this number. A number that isn't in the catalogue has the empty name, which no entry has.
pub fn name_of<'a>(catalogue: &[&'a str], point: u32) -> &'a str
    ensures { result.now ≡ slice_index_or (texts catalogue.now) point [] }
{
    match catalogue.get(point as usize) {
        Some(name) => name,
        None => "",
    }
}

/// The chain of a name; it has no terms if there is no such entry.
fn find_or_none<'a>(scenario: &'a Scenario, name: &str) -> Found<'a>
    ensures { (result.chain.now, result.start) ≡ chain_or_none (found_of scenario.now name.now) }
{
    match find(scenario, name) {
        Some(span) => Found {
            chain: chain_in(scenario, span),
            start: span.start,
        },
        None => Found {
            chain: &[],
            start: 0,
        },
    }
}

/// The next hit of a point with this chain. It takes from the counts and draws words.
fn answer_again<'a>(
    found: Found<'a>,
    name: &'a str,
    point: u32,
    left: &mut Vec<u32>,
    draws: &mut Draws,
) -> Answered<'a>
    requires within { found.start + length found.chain.now ≤ length left.old.items }
    requires room { draws.old.taken + length found.chain.now < 2 ^ 64 }
    ensures within { IfSome (trial_by left.old.items draws.old (found.entry.chain.now, found.entry.start)).place (λ i. i < length found.entry.chain.now) }
    ensures hit { result ≡ hit_by found.entry.chain.now name.now draws.old.taken point
        (trial_by left.old.items draws.old (found.entry.chain.now, found.entry.start)) }
    ensures left { left.new.items ≡ left_after left.old.items found.entry.start
        (trial_by left.old.items draws.old (found.entry.chain.now, found.entry.start)).place }
    ensures draws { draws.new ≡ record draws.old { taken = (trial_by left.old.items draws.old (found.entry.chain.now, found.entry.start)).next } }
{
    let taken = draws.taken();
    let end = found.start + found.chain.len();
    let place = try_terms(found.chain, &left[found.start..end], draws);
    spend(left, found.start, place);
    Answered {
        point,
        name,
        place,
        task: task_at(found.chain, place),
        words: draws.taken().saturating_sub(taken),
    }
}

/// The answered hits, in order, of the run that hits these points under this scenario, seed, stream number and limit. A number that isn't in the
/// catalogue is that of a point without terms.
///
/// An error means that memory was refused.
pub fn history<'a>(
    alloc: Global,
    scenario: &'a Scenario,
    catalogue: &'a [&'a str],
    seed: u64,
    stream: u64,
    max_hits: u32,
    points: &[u32],
) -> Result<Vec<Answered<'a>>, AllocError>
    requires few { length points.now ≤ max_hits }
    ensures { IfOk result (λ hits. hits.items ≡ history_of (run_of scenario.now (texts catalogue.now) seed stream max_hits points.now)) }
{
    let mut left = Vec::new(alloc);
    fill_counts(&mut left, scenario)?;
    let mut draws = Draws::new(alloc, seed, stream);
    let mut hits = Vec::with_capacity(alloc, points.len())?;
    for point in points {
        let name = name_of(catalogue, *point);
        let found = find_or_none(scenario, name);
        hits.push(answer_again(found, name, *point, &mut left, &mut draws))?;
    }
    Ok(hits)
}
