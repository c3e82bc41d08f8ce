//! Faults rigged for hits of points, laid out for a session.
ghost use Rattle.std.specs.Prelude.{◌≡◌, ◌-◌, ◌∷◌, ◌++◌, [], ◌<◌, ◌≤◌, ◌^◌, None, Some, OnOk, OnErr, IfOk, length, map, vec_len, vec_capacity};
ghost use Rattle.action_eval.specs.Answers.{texts};
ghost use Rattle.action_eval.specs.Catalogue.{IsCatalogue, HasDistinct};
ghost use Rattle.action_eval.specs.RiggedScenario.{full, term_of, text_of, offs, terms_at, done_after, chain_from, rigged_scenario, CanBeRigged, rigged_as};
ghost use Rattle.action_eval.specs.inside.Laid.{joined, sizes_of, laid, AreSizes};
ghost use Rattle.scenario_values.specs.Scenario.{IsScenario};
ghost use Rattle.scenario_values.specs.declared.term.Task.TheVariants as task;
ghost use Rattle.std.specs.List.{slice_range};
ghost use Rattle.action_eval.specs.inside.Layout.{IsLayout};
ghost use Rattle.action_eval.specs.inside.Session.{terms_of};

use crate::counts::push_counts;
use crate::found::{Found, Layout, Span, first_head};
use crate::rig::{Kind, Rig};
use scenario_values::{FULL_SHARE, Task, Term, Text};
use std::alloc::{AllocError, Global};
use std::marker::Model;

/// How many hits the term of a rigged hit answers; `None` is each hit from then on.
fn count_of(kind: &Kind) -> Option<u32>
    ensures { result ≡ (term_of kind.now).count }
{
    match kind {
        Kind::OnwardReturn(_) => None,
        Kind::OnceReturn(_) | Kind::OncePanic => Some(1),
    }
}

/// The term of a rigged hit without a text.
fn plain_term(kind: &Kind) -> Term
    requires { text_of kind.now ≡ None }
    ensures { result ≡ term_of kind.now }
{
    let task = match kind {
        Kind::OnceReturn(_) | Kind::OnwardReturn(_) => Task::Return(None),
        Kind::OncePanic => Task::Panic(None),
    };
    Term {
        share: FULL_SHARE,
        count: count_of(kind),
        task,
    }
}

/// Adds the term of a return with a text. There has to be room for it.
// Few rigged hits have a text: the others are added without a place for one.
#[cold]
#[inline(never)]
fn push_return(terms: &mut Vec<Term>, count: Option<u32>, text: &str) -> Result<(), AllocError>
    requires { vec_len terms.old < vec_capacity terms.old }
    ensures { OnOk result (terms.new.items ≡ terms.old.items ++ full count (task.Return (Some text.now)) ∷ []) }
{
    let text = Text::copy_of(*terms.allocator(), text)?;
    terms.push_reserved(Term {
        share: FULL_SHARE,
        count,
        task: Task::Return(Some(text)),
    });
    Ok(())
}

/// Adds the terms of a rigged hit with this number and kind, after `done` hits of its point.
// Most rigged hits that a walk comes to are of other points; the loop passes over those.
#[inline(never)]
fn push_rigged(terms: &mut Vec<Term>, done: u32, hit: u32, kind: &Kind) -> Result<(), AllocError>
    ensures { OnOk result (terms.new.items ≡ terms.old.items ++ offs (hit - done - 1) ++ term_of kind.now ∷ []) }
{
    terms.reserve(2)?;
    let between = hit.saturating_sub(done).saturating_sub(1);
    if between > 0 {
        terms.push_reserved(Term {
            share: FULL_SHARE,
            count: Some(between),
            task: Task::Off,
        });
    }
    match kind.as_str() {
        Some(text) => push_return(terms, count_of(kind), text)?,
        None => terms.push_reserved(plain_term(kind)),
    }
    Ok(())
}

/// Adds what a rigged hit contributes to the chain of a point, and returns how many hits of the point the chain answers then.
#[inline(always)]
fn push_at(terms: &mut Vec<Term>, point: u32, done: u32, rig: &Rig) -> Result<u32, AllocError>
    ensures terms { OnOk result (terms.new.items ≡ terms.old.items ++ terms_at point done rig.now) }
    ensures done { IfOk result (λ next. next ≡ done_after point done rig.now) }
{
    if rig.site.point != point {
        return Ok(done);
    }
    push_rigged(terms, done, rig.site.hit, &rig.kind)?;
    Ok(rig.site.hit)
}

/// Adds the chain of the point with this number, for rigged hits in ascending order.
///
/// An error means that memory was refused. Then a part of the chain may have been added.
#[inline(always)]
pub fn push_chain(terms: &mut Vec<Term>, point: u32, rigs: &[Rig]) -> Result<(), AllocError>
    ensures { OnOk result (terms.new.items ≡ terms.old.items ++ chain_from point 0 rigs.now) }
{
    let mut done = 0;
    for rig in rigs {
        done = push_at(terms, point, done, rig)?;
    }
    Ok(())
}

/// Lays out the terms of the first `count` points, and how many terms each point has, in place of what stood there.
fn lay(
    terms: &mut Vec<Term>,
    sizes: &mut Vec<usize>,
    count: u32,
    rigs: &[Rig],
) -> Result<(), AllocError>
    ensures terms { OnOk result (terms.new.items ≡ joined 0 count rigs.now) }
    ensures sizes { OnOk result (sizes.new.items ≡ sizes_of 0 count rigs.now) }
{
    terms.clear();
    sizes.clear();
    sizes.reserve(count as usize)?;
    for point in 0..count {
        let before = terms.len();
        push_chain(terms, point, rigs)?;
        sizes.push_reserved(terms.len() - before);
    }
    Ok(())
}

/// Lays out where each point's chain stands among the terms, by how many terms each point has, and the counts. It writes into the buffers of another
/// layout.
#[inline(always)]
fn layout_of(
    catalogue: &[&str],
    sizes: &[usize],
    terms: &[Term],
    buffers: Layout,
) -> Result<Layout, AllocError>
    requires distinct { HasDistinct (texts catalogue.now) }
    requires sizes { AreSizes (texts catalogue.now) sizes.now terms.now }
    requires limits { IsScenario (laid (texts catalogue.now) sizes.now terms.now) }
    ensures { IfOk result (λ layout. IsLayout (laid (texts catalogue.now) sizes.now terms.now) (texts catalogue.now) layout) }
{
    let mut spans = buffers.spans;
    spans.clear();
    spans.reserve(catalogue.len())?;
    let mut heads = buffers.heads;
    heads.clear();
    heads.reserve(catalogue.len())?;
    let mut left = buffers.left;
    left.clear();
    left.reserve(terms.len())?;
    let mut rest = terms;
    let mut entry = 0;
    for point in 0..catalogue.len() {
        let (chain, behind) = rest.split_at(sizes[point]);
        let start = left.len();
        push_counts(&mut left, chain);
        heads.push_reserved(first_head(Found { chain, start }));
        spans.push_reserved(Span::of(entry, start, left.len()));
        entry += usize::from(!chain.is_empty());
        rest = behind;
    }
    Ok(Layout { spans, heads, left })
}

/// The hits of points at which faults are rigged, laid out so that a session finds a point's chain by the point's number.
///
/// A fault table serves run after run, and keeps the memory that it has taken. Contracts see it as the names of its points and the scenario of the
/// rigged hits.
#[derive(Drop)]
pub struct FaultTable<'a> {
    catalogue: &'a [&'a str],
    terms: Vec<Term>,
    sizes: Vec<usize>,
}

impl<'a> Model for FaultTable<'a> {
    ghost use Rattle.std.specs.Prelude.{map};
    ghost use Rattle.scenario_values.specs.Scenario.{IsScenario};
    ghost use Rattle.scenario_values.specs.declared.term.Task.TheVariants as task;
    ghost use Rattle.action_eval.specs.Catalogue.{HasDistinct};
    ghost use Rattle.action_eval.specs.RiggedScenario.{Rigged};
    ghost use Rattle.action_eval.specs.inside.Laid.{laid, AreSizes};

    ghost Value = { Rigged };

    ghost view = { λ r. record {
      names = map (λ n. n.now) r.catalogue.now;
      scenario = laid (map (λ n. n.now) r.catalogue.now) r.sizes.items r.terms.items;
    } };

    ghost invariant = { λ r. HasDistinct (map (λ n. n.now) r.catalogue.now)
        × AreSizes (map (λ n. n.now) r.catalogue.now) r.sizes.items r.terms.items
        × IsScenario (laid (map (λ n. n.now) r.catalogue.now) r.sizes.items r.terms.items) };
}

impl<'a> FaultTable<'a> {
    /// A fault table without a point.
    pub fn new(alloc: Global) -> Self
        ensures { result ≡ rigged_as [] [] }
    {
        FaultTable {
            catalogue: &[],
            terms: Vec::new(alloc),
            sizes: Vec::new(alloc),
        }
    }

    /// Rigs these hits of a catalogue's points, which have to be in ascending order, in place of those that were rigged.
    ///
    /// An error means that memory was refused. Then the fault table has no point, and may be loaded again.
    pub fn load(&mut self, catalogue: &'a [&'a str], rigs: &[Rig]) -> Result<(), AllocError>
        requires lawful { IsCatalogue (texts catalogue.now) }
        requires small { CanBeRigged rigs.now }
        ensures ok { OnOk result (self.new ≡ rigged_as (texts catalogue.now) (rigged_scenario (texts catalogue.now) rigs.now)) }
        ensures err { OnErr result (self.new ≡ rigged_as [] []) }
    {
        self.catalogue = &[];
        lay(
            &mut self.terms,
            &mut self.sizes,
            catalogue.len() as u32,
            rigs,
        )?;
        self.catalogue = catalogue;
        Ok(())
    }

    /// The names of the points, in the order of their numbers.
    pub(crate) fn catalogue(&self) -> &'a [&'a str]
        ensures { texts result.now ≡ self.now.names }
    {
        self.catalogue
    }

    /// The terms from one place to another, among those of all chains.
    pub(crate) fn terms(&self, start: usize, end: usize) -> &[Term]
        requires ordered { start ≤ end }
        requires within { end ≤ length (terms_of self.now.scenario) }
        ensures { result.now ≡ slice_range (terms_of self.now.scenario) start end }
    {
        &self.terms[start..end]
    }

    /// Writes the places of the points' chains, and their counts, into the buffers of another layout. An error means that memory was refused.
    #[inline(always)]
    pub(crate) fn layout(&self, buffers: Layout) -> Result<Layout, AllocError>
        ensures { IfOk result (λ layout. IsLayout self.now.scenario self.now.names layout) }
    {
        layout_of(
            self.catalogue,
            self.sizes.as_slice(),
            self.terms.as_slice(),
            buffers,
        )
    }
}
