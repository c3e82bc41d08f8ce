//! What lines say comes next after answers.
ghost use Rattle.std.specs.Prelude.{◌≡◌, ◌<◌, ◌≤◌, ◌+◌, ◌^◌, ℕ, true, None, slice_get, length, IfOk, OnOk, Some};
ghost use Rattle.action_eval.specs.Answers.{reply_of_answer};
ghost use Rattle.answered_runs.specs.declared.tree.Said.{Said};
ghost use Rattle.answered_runs.specs.inside.Trees.{Adds, AddsOn, IsAlike, IsNew, way};

use crate::replies::{GO, NONE, number_in, number_of};
use crate::segments::{Segment, alike_after, answer_at, put_places, said_at};
use action_eval::Answer;
use indexmap::{IndexMap, IndexSet};
use scenario_values::Text;
use std::alloc::{AllocError, Global};
use std::marker::Model;
use target_trait::Verdict;

/// What comes next in a run: a hit of a point, or the end with a verdict.
#[derive(Clone, Copy, Debug, PartialEq, Eq)]
pub(crate) enum Next {
    Hit(u32),
    End(Verdict),
}

/// What comes next at a place, and the number of the first line that says so.
#[derive(Clone, Copy, Debug, PartialEq, Eq)]
pub(crate) struct Said {
    pub line: u32,
    pub next: Next,
}

/// An answer at a place, by the answer's number.
#[derive(Clone, Copy, Debug, PartialEq, Eq, Hash)]
pub(crate) struct Way {
    place: u32,
    answer: usize,
}

/// What lines say comes next after answers. A place is reached by answers, each from the place before; place 0 comes before all answers.
///
/// A line adds places one after another, and mostly each says the same as the one before, or comes after the same answer. So places are kept in
/// segments, and memory goes by the stretches of the lines, however many hits these have.
#[derive(Drop)]
pub(crate) struct AnswerTree {
    alloc: Global,
    texts: IndexSet<Text>,
    /// All places but the last one.
    segments: Vec<Segment>,
    /// The number of the last place, and what is said there.
    last: u32,
    said: Said,
    /// The ways that don't lead to the place after.
    ways: IndexMap<Way, u32>,
}

/// Whether two lines say the same, and are the same line.
fn is_same(one: Said, other: Said) -> bool
    ensures { result ≡ true → one ≡ other }
{
    one == other
}

impl Model for AnswerTree {
    ghost use Rattle.std.specs.Prelude.{◌++◌, ◌∷◌, ◌+◌, []};
    ghost use Rattle.answered_runs.specs.inside.Trees.{Tree};
    ghost use Rattle.answered_runs.specs.inside.Segments.{AreLaid, AreNumbered, expand};

    ghost Value = { Tree };

    ghost view = { λ t. record {
      said = expand t.segments.items ++ t.said ∷ [];
      segments = t.segments.items;
      ways = t.ways.entries;
      texts = t.texts.keys;
    } };

    ghost invariant = { λ t. AreLaid 0 t.segments.items t.last × AreNumbered t.segments.items t.ways.entries t.texts.keys t.last };
}

impl AnswerTree {
    /// No line says anything.
    pub(crate) fn new(alloc: Global) -> Self
        ensures { IsNew result }
    {
        AnswerTree {
            alloc,
            texts: IndexSet::new(alloc),
            segments: Vec::new(alloc),
            last: 0,
            said: Said {
                line: 0,
                next: Next::End(Verdict::Unresolved),
            },
            ways: IndexMap::new(alloc),
        }
    }

    /// What is said at a place.
    pub(crate) fn said(&self, place: u32) -> Said
        requires { place < length self.now.said }
        ensures { slice_get self.now.said place ≡ Some result }
    {
        if place == self.last {
            return self.said;
        }
        said_at(self.segments.as_slice(), place)
    }

    /// Where an answer leads from a place, if a line had it there.
    pub(crate) fn find(&self, place: u32, answer: Answer<'_>) -> Result<Option<u32>, AllocError>
        requires { place < length self.now.said }
        ensures { IfOk result (λ next. next ≡ way self.now place (reply_of_answer answer.entry)) }
    {
        let Some(answer) = number_in(self.alloc, &self.texts, answer)? else {
            return Ok(None);
        };
        if place < self.last && answer_at(self.segments.as_slice(), place) == answer {
            return Ok(Some(place + 1));
        }
        Ok(self.ways.get(&Way { place, answer }).copied())
    }

    /// How many places after this one `Go` leads to, one after another, while the same is said at each; at most so many.
    pub(crate) fn along(&self, place: u32, most: u32) -> u32
        requires { place < length self.now.said }
        ensures alike { (n : ℕ) → n < result → IsAlike self.now place n }
        ensures few { result ≤ most }
        ensures fits { place + result < 2 ^ 32 }
    {
        if place == self.last {
            return 0;
        }
        let alike = alike_after(self.segments.as_slice(), place, GO);
        if alike < most { alike } else { most }
    }

    /// Whether a place is the last one, and this is said there.
    pub(crate) fn ends_with(&self, place: u32, said: Said) -> bool
        ensures { result ≡ true → (length self.now.said ≡ place + 1) × (slice_get self.now.said place ≡ Some said) }
    {
        place == self.last && is_same(self.said, said)
    }

    /// Leads `Go` from the last place to a new one, and so on, so many times, and puts down at each what is said at the last place.
    pub(crate) fn go_on(&mut self, count: u32) -> Result<(), AllocError>
        ensures ok { OnOk result ((place : ℕ) (said : Said) → length self.old.said ≡ place + 1 → slice_get self.old.said place ≡ Some said
            → AddsOn count self.old self.new place said) }
        ensures fits { OnOk result ((place : ℕ) → length self.old.said ≡ place + 1 → place + count < 2 ^ 32) }
    {
        let last = self.last;
        let Some(end) = last.checked_add(count) else {
            return Err(AllocError);
        };
        put_places(&mut self.segments, last, self.said, GO, count)?;
        self.last = end;
        Ok(())
    }

    /// Leads an answer that no line had at a place to a new place, and puts down what is said there.
    pub(crate) fn add(
        &mut self,
        place: u32,
        answer: Answer<'_>,
        said: Said,
    ) -> Result<u32, AllocError>
        requires within { place < length self.old.said }
        requires none { way self.old place (reply_of_answer answer) ≡ None }
        ensures { IfOk result (Adds self.old self.new place (reply_of_answer answer.entry) said) }
    {
        let last = self.last;
        let Some(next) = last.checked_add(1) else {
            return Err(AllocError);
        };
        let answer = number_of(self.alloc, &mut self.texts, answer)?;
        if place == last {
            put_places(&mut self.segments, last, self.said, answer, 1)?;
        } else {
            self.ways.insert(Way { place, answer }, next)?;
            put_places(&mut self.segments, last, self.said, NONE, 1)?;
        }
        self.last = next;
        self.said = said;
        Ok(next)
    }
}
