//! Places of a tree that follow one another, in segments.
ghost use Rattle.std.specs.Prelude.{◌≡◌, ◌<◌, ◌+◌, ◌^◌, ℕ, Some, slice_get, true, OnErr, OnOk};
ghost use Rattle.answered_runs.specs.inside.Segments.{AreLaid, ArePutOn, IsAlike, IsNumberAt, answer_at, expand};

use crate::replies::NONE;
use crate::tree::Said;
use std::alloc::AllocError;

/// Places that follow one another. The same is said at each of them.
#[derive(Clone, Copy, Debug)]
pub(crate) struct Segment {
    /// The number of the first place.
    pub first: u32,
    /// How many places there are.
    pub count: u32,
    /// What is said at each of them.
    pub said: Said,
    /// The number of the answer that leads from each of them to the place after it; 0 if none does.
    pub answer: usize,
}

/// The number of the segment that has a place.
fn number_at(segments: &[Segment], place: u32) -> usize
    requires { (end : ℕ) × AreLaid 0 segments.now end × (place < end) }
    ensures { IsNumberAt segments.now place result }
{
    let mut low = 0;
    let mut high = segments.len();
    while high - low > 1 {
        let middle = low + (high - low) / 2;
        if segments[middle].first <= place {
            low = middle;
        } else {
            high = middle;
        }
    }
    low
}

/// What is said at a place.
pub(crate) fn said_at(segments: &[Segment], place: u32) -> Said
    requires { (end : ℕ) × AreLaid 0 segments.now end × (place < end) }
    ensures { slice_get (expand segments.now) place ≡ Some result }
{
    segments[number_at(segments, place)].said
}

/// The number of the answer that leads from a place to the one after it; 0 if none does.
pub(crate) fn answer_at(segments: &[Segment], place: u32) -> usize
    requires { (end : ℕ) × AreLaid 0 segments.now end × (place < end) }
    ensures { answer_at segments.now place ≡ Some result }
{
    segments[number_at(segments, place)].answer
}

/// How many places come after a place in its segment, if this answer leads on from each; 0 if another one does.
pub(crate) fn alike_after(segments: &[Segment], place: u32, answer: usize) -> u32
    requires { (end : ℕ) × AreLaid 0 segments.now end × (place < end) }
    ensures alike { (n : ℕ) → n < result → IsAlike segments.now answer place n }
    ensures within { (end : ℕ) → AreLaid 0 segments.now end → place + result < end }
{
    let segment = segments[number_at(segments, place)];
    if segment.answer == answer {
        segment.count - 1 - (place - segment.first)
    } else {
        0
    }
}

/// Whether places can be joined to a segment: they say the same, and the same answer leads on.
fn joins(segment: &Segment, said: Said, answer: usize) -> bool
    ensures { result ≡ true → (segment.now.said ≡ said) × (segment.now.answer ≡ answer) }
{
    answer != NONE && segment.answer == answer && segment.said == said
}

/// Puts so many more places behind those of segments, with what is said at each and the answer that leads on from each.
pub(crate) fn put_places(
    segments: &mut Vec<Segment>,
    place: u32,
    said: Said,
    answer: usize,
    count: u32,
) -> Result<(), AllocError>
    requires laid { AreLaid 0 segments.old.items place }
    requires few { place + count < 2 ^ 32 }
    ensures ok { OnOk result (ArePutOn count segments.old.items segments.new.items place said answer) }
    ensures err { OnErr result (segments.new.items ≡ segments.old.items) }
{
    if count == 0 {
        return Ok(());
    }
    let len = segments.len();
    if len > 0 && joins(&segments[len - 1], said, answer) {
        segments[len - 1].count += count;
        return Ok(());
    }
    segments.push(Segment {
        first: place,
        count,
        said,
        answer,
    })?;
    Ok(())
}
