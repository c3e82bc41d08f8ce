//! The hits of a run, read.
ghost use Rattle.std.specs.Prelude.{◌≡◌, ◌++◌, IfOk, OnOk, OnErr, option_map, replicate};
ghost use Rattle.std.specs.Char.{is_ascii_digit};
ghost use Rattle.std.specs.Io.{StartsWith};
ghost use Rattle.std.specs.List.{list_all};
ghost use Rattle.scenario_grammar.specs.FirstFault.{number_up_to};
ghost use Rattle.scenario_grammar.specs.Words.{is_number};
ghost use Rattle.answer_text.specs.FirstFault.{Gives};
ghost use Rattle.answer_text.specs.Hits.{are_same, count_in, count_of, ends_with, field_by, field_in, hits_in, item_in, most_hits, points_of, same_hits, with_item};

use crate::cuts::cut_item;
use crate::fault::{LineError, LineFault};
use crate::names::PointNames;
use itoa::Buffer;
use scenario_grammar::{Text, cut_once};
use std::alloc::{AllocError, Global};
use std::marker::Model;
use target_trait::Verdict;

/// The most hits that a line may record. A count is refused before hits are made of it, so that a line takes no more memory than so many hits do.
pub const MOST_HITS: u32 = 65536;

/// For how many stretches there is room at first. Few lines have more, and room for these grows.
const FIRST_ROOM: usize = 16;

/// Hits of one point in a row: as many as the count says, and at least one. The point is a place among names.
#[derive(Clone, Copy, Debug, PartialEq, Eq)]
pub struct Stretch {
    pub point: u32,
    pub count: u32,
}

/// The hits of a run, in order, as stretches of hits of one point. Contracts see the list of the stretches.
#[derive(Debug, Drop)]
pub struct Hits {
    stretches: Vec<Stretch>,
}

impl Model for Hits {
    ghost use Rattle.std.specs.Prelude.{List};
    ghost use Rattle.answer_text.specs.declared.hits.Stretch.{Stretch};

    ghost Value = { List Stretch };

    ghost view = { λ h. h.stretches.items };
}

impl Hits {
    /// The stretches. No two in a row are of one point.
    pub fn stretches(&self) -> &[Stretch]
        ensures { result.now ≡ self.now }
    {
        self.stretches.as_slice()
    }

    /// Adds the points of the hits to the list, one for each hit, in order. An error means that memory was refused. The points that were there still
    /// come first then, and some of the hits may stand behind them.
    pub fn push_points(&self, points: &mut Vec<u32>) -> Result<(), AllocError>
        ensures points { OnOk result (points.new.items ≡ points.old.items ++ points_of self.now) }
        ensures kept { OnErr result (StartsWith points.new.items points.old.items) }
    {
        for stretch in self.stretches() {
            push_stretch(points, stretch)?;
        }
        Ok(())
    }
}

/// Adds the point of a stretch, once for each of its hits.
fn push_stretch(points: &mut Vec<u32>, stretch: &Stretch) -> Result<(), AllocError>
    ensures points { OnOk result (points.new.items ≡ points.old.items ++ replicate stretch.now.count stretch.now.point) }
    ensures kept { OnErr result (StartsWith points.new.items points.old.items) }
{
    let stretch = *stretch;
    for _ in 0..stretch.count {
        points.push(stretch.point)?;
    }
    Ok(())
}

fn all_digits(bytes: &[u8]) -> bool
    ensures { result ≡ list_all is_ascii_digit bytes.now }
{
    bytes.iter().all(|b| b.is_ascii_digit())
}

/// Whether the text is one or more digits.
fn is_number(text: &str) -> bool
    ensures { result ≡ is_number text.now }
{
    !text.is_empty() && all_digits(text.as_bytes())
}

/// The number, if the text is one or more digits, and a line may have so many hits.
fn number_in(text: &str) -> Option<u32>
    ensures { result ≡ number_up_to most_hits text.now }
{
    if !is_number(text) {
        return None;
    }
    match text.parse::<u32>() {
        Err(_) => None,
        Ok(number) => {
            if number <= MOST_HITS {
                Some(number)
            } else {
                None
            }
        }
    }
}

/// The count of hits in a row, if the text is a number from 2 on, as it is written in decimals.
fn count_in(text: &str) -> Option<u32>
    ensures { result ≡ count_in text.now }
{
    let count = number_in(text)?;
    let mut buffer = Buffer::new();
    let written = buffer.format(count);
    if count >= 2 && text == written {
        Some(count)
    } else {
        None
    }
}

/// The hits of an item: a point's name, or a count, a `*` and a point's name.
#[tactic(auto, unfolding(crate::specs::Hits::item_in))]
fn item_in(alloc: Global, points: &PointNames<'_>, item: &str) -> Result<Stretch, LineError>
    ensures { Gives (λ s. s) result (item_in points.now item.now) }
{
    if let Some(point) = points.place_of(item) {
        return Ok(Stretch { point, count: 1 });
    }
    let Some((count, name)) = cut_once(item, '*') else {
        let name = Text::copy_of(alloc, item)?;
        return Err(LineError::Bad(LineFault::UnknownPoint(name)));
    };
    let Some(count) = count_in(count) else {
        return Err(LineError::Bad(LineFault::BadCount));
    };
    match points.place_of(name) {
        Some(point) => Ok(Stretch { point, count }),
        None => Err(LineError::Bad(LineFault::UnknownPoint(Text::copy_of(alloc, name)?))),
    }
}

/// Whether the last of these hits is of this point.
fn ends_with(hits: &[Stretch], point: u32) -> bool
    ensures { result ≡ ends_with hits.now point }
{
    match hits.last() {
        Some(stretch) => stretch.point == point,
        None => false,
    }
}

/// Adds the hits of one more item to those that are there, `total` in number, and returns how many there are then. An `Err` changes nothing.
#[tactic(auto, unfolding(crate::specs::Hits::with_item))]
fn add(
    alloc: Global,
    points: &PointNames<'_>,
    hits: &mut Vec<Stretch>,
    total: u32,
    stretch: Stretch,
) -> Result<u32, LineError>
    requires { total ≡ count_of hits.old.items }
    ensures added { Gives (λ _. hits.new.items) result (with_item points.now hits.old.items stretch) }
    ensures total { IfOk result (λ more. more ≡ count_of hits.new.items) }
{
    if ends_with(hits.as_slice(), stretch.point) {
        let name = Text::copy_of(alloc, points.name_of(stretch.point))?;
        return Err(LineError::Bad(LineFault::NotJoined(name)));
    }
    match total.checked_add(stretch.count) {
        Some(more) if more <= MOST_HITS => {
            hits.push(stretch)?;
            Ok(more)
        }
        _ => Err(LineError::Bad(LineFault::BadCount)),
    }
}

/// Whether two lists of stretches are the same.
fn are_same(a: &[Stretch], b: &[Stretch]) -> bool
    ensures { result ≡ are_same a.now b.now }
{
    a == b
}

/// Whether the hits are the same, or are unknown both times.
pub fn same_hits(a: &Option<Hits>, b: &Option<Hits>) -> bool
    ensures { result ≡ same_hits a.now b.now }
{
    match (a, b) {
        (None, None) => true,
        (Some(a), Some(b)) => are_same(a.stretches(), b.stretches()),
        _ => false,
    }
}

/// The hits that a text records: items joined by `;`. An item is the name of a point or, for hits of one point in a row, their count from 2 on, a `*`
/// and the name. No hits are the empty text.
///
/// `Err` is the first fault from the left, as [`LineFault`] describes it: `UnknownPoint`, `BadCount` or `NotJoined`; or that memory was refused.
pub fn hits_in(alloc: Global, points: &PointNames<'_>, text: &str) -> Result<Hits, LineError>
    ensures { Gives (λ hits. hits) result (hits_in points.now text.now) }
{
    if text.is_empty() {
        let stretches = Vec::new(alloc);
        return Ok(Hits { stretches });
    }
    let mut hits = Vec::with_capacity(alloc, FIRST_ROOM)?;
    let mut total = 0;
    let mut rest = text;
    while let Some((item, after)) = cut_item(rest) {
        let stretch = item_in(alloc, points, item)?;
        total = add(alloc, points, &mut hits, total, stretch)?;
        rest = after;
    }
    let stretch = item_in(alloc, points, rest)?;
    add(alloc, points, &mut hits, total, stretch)?;
    Ok(Hits { stretches: hits })
}

/// The hits of a run with this verdict, if they are known.
fn known_hits(
    alloc: Global,
    points: &PointNames<'_>,
    verdict: Verdict,
    text: &str,
) -> Result<Option<Hits>, LineError>
    ensures { Gives (λ hits. hits) result (field_by points.now verdict text.now) }
{
    if matches!(verdict, Verdict::Unresolved) && text == "-" {
        return Ok(None);
    }
    Ok(Some(hits_in(alloc, points, text)?))
}

/// The same for a line that may have no hits, if they aren't needed.
pub fn field_in(
    alloc: Global,
    points: &PointNames<'_>,
    needed: bool,
    verdict: Verdict,
    text: Option<&str>,
) -> Result<Option<Hits>, LineError>
    ensures { Gives (λ hits. hits) result (field_in needed points.now verdict (option_map (λ t. t.now) text.entry)) }
{
    match text {
        Some(text) => known_hits(alloc, points, verdict, text),
        None if needed => Err(LineError::Bad(LineFault::NoHits)),
        None => Ok(None),
    }
}
