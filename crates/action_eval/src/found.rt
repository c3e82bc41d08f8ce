//! Finds the chain of each point in a scenario.
ghost use Rattle.std.specs.Prelude.{◌≡◌, ◌+◌, ◌<◌, ◌≤◌, length, map};
ghost use Rattle.std.specs.List.{slice_range};
ghost use Rattle.std.specs.Option.{IfSome};
ghost use Rattle.scenario_values.specs.Scenario.{IsScenario};
ghost use Rattle.action_eval.specs.Answers.{texts};
ghost use Rattle.action_eval.specs.inside.Session.{AreSpans, IsSpan, Rest, StartsUnspent, first_head, found_of, head_of, seen_in, spanned, start_of, terms_of};
ghost use Rattle.action_eval.specs.Trial.{is_spent};

use scenario_values::{FULL_SHARE, Scenario, Task, Term};

/// The place of a chain among the terms of all entries: its entry, its first term, and the place after its last. Each term has a count at its place.
/// Spent terms at the chain's head may be left out: a count never grows, so they stay spent.
#[derive(Clone, Copy)]
pub struct Span {
    pub entry: usize,
    pub start: usize,
    pub end: usize,
}

/// A chain, and where its counts begin among the counts of all chains.
#[derive(Clone, Copy)]
pub struct Found<'a> {
    pub chain: &'a [Term],
    pub start: usize,
}

/// For each point, where its chain stands and what its next hit meets; and what is left of the counts of all chains.
#[derive(Drop)]
pub struct Layout {
    pub spans: Vec<Option<Span>>,
    pub heads: Vec<Head>,
    pub left: Vec<u32>,
}

/// What the next hit of a point meets.
#[derive(Clone, Copy)]
pub enum Head {
    /// No term: the hit goes on.
    Nothing,
    /// An `off` with a full share. The hit goes on as long as anything is left of its count, which stands at this place.
    Off(usize),
    /// Terms that have to be tried.
    Terms,
}

impl Span {
    /// The span of this entry's terms, from one place to another; `None` if there is no term.
    pub fn of(entry: usize, start: usize, end: usize) -> Option<Self>
        ensures { result ≡ spanned entry start end }
    {
        if start == end {
            return None;
        }
        Some(Span { entry, start, end })
    }
}

/// What the next hit of a point meets, by what is left of its chain.
pub fn first_head(found: Found<'_>) -> Head
    ensures { result ≡ first_head found.entry.chain.now found.entry.start }
{
    let Some(first) = found.chain.first() else {
        return Head::Nothing;
    };
    match first.task {
        Task::Off if first.share == FULL_SHARE => Head::Off(found.start),
        _ => Head::Terms,
    }
}

/// The chain that stands there.
pub fn chain_in<'a>(scenario: &'a Scenario, span: Span) -> &'a [Term]
    requires { IsSpan scenario.now span }
    ensures { result.now ≡ slice_range (terms_of scenario.now) span.start span.end }
{
    let chain = scenario.chain(span.entry);
    &chain[chain.len() - (span.end - span.start)..]
}

/// What the next hit of a point meets, if its chain stands there. The next hit of a point without a chain meets no term.
fn head_of(scenario: &Scenario, span: Option<Span>) -> Head
    requires { IfSome span (λ p. IsSpan scenario.now p) }
    ensures { result ≡ head_of (seen_in scenario.now span) }
{
    let Some(span) = span else {
        return Head::Nothing;
    };
    first_head(Found {
        chain: chain_in(scenario, span),
        start: span.start,
    })
}

/// A chain without the spent terms at its head.
pub fn without_spent<'a>(found: Found<'a>, left: &[u32]) -> Found<'a>
    requires { found.start + length found.chain.now ≤ length left.now }
    ensures rest { Rest left.now (found.entry.chain.now, found.entry.start) (result.chain.now, result.start) }
    ensures head { StartsUnspent (is_spent left.now) result.start result.chain.now }
{
    for (place, term) in found.chain.iter().enumerate() {
        if left[found.start + place] != 0 || term.count.is_none() {
            return Found {
                chain: &found.chain[place..],
                start: found.start + place,
            };
        }
    }
    Found {
        chain: &[],
        start: found.start + found.chain.len(),
    }
}

/// How many terms stand in the entries before this one. Before the end that is all terms.
pub fn start_of(scenario: &Scenario, entry: usize) -> usize
    requires { entry ≤ length scenario.now }
    ensures { result ≡ start_of scenario.now entry }
{
    let _ = scenario.entries();
    let mut start = 0;
    for before in 0..entry {
        start += scenario.chain(before).len();
    }
    start
}

/// The place of the chain of a name, if the scenario has one.
pub fn find(scenario: &Scenario, name: &str) -> Option<Span>
    ensures span { IfSome result (λ p. IsSpan scenario.now p) }
    ensures seen { seen_in scenario.now result ≡ found_of scenario.now name.now }
{
    let _ = scenario.entries();
    let entry = scenario.entry_of(name)?;
    let start = start_of(scenario, entry);
    Some(Span {
        entry,
        start,
        end: start + scenario.chain(entry).len(),
    })
}

/// Finds where the chain of each point stands, and what its next hit meets, in place of what stood there.
pub fn find_all(
    spans: &mut Vec<Option<Span>>,
    heads: &mut Vec<Head>,
    scenario: &Scenario,
    catalogue: &[&str],
)
    requires spans { length spans.old.items ≡ length catalogue.now }
    requires heads { length heads.old.items ≡ length catalogue.now }
    ensures are_spans { AreSpans scenario.now spans.new.items }
    ensures found { map (seen_in scenario.now) spans.new.items ≡ map (found_of scenario.now) (texts catalogue.now) }
    ensures heads { heads.new.items ≡ map head_of (map (seen_in scenario.now) spans.new.items) }
{
    for (point, name) in catalogue.iter().enumerate() {
        let span = find(scenario, name);
        spans[point] = span;
        heads[point] = head_of(scenario, span);
    }
}
