//! Scenarios without what can't act.
ghost use Rattle.std.specs.Prelude.{◌≡◌, ◌++◌, ◌∷◌, List, IfOk, OnOk, position};
ghost use Rattle.scenario_values.specs.declared.term.Term.{Term};
ghost use Rattle.scenario_values.specs.Scenario.{entries_of};
ghost use Rattle.scenario_values.specs.Tidied.{is_live, is_endless, is_idle, joint, joined_onto, joined, without_used, up_to_endless, without_idle_end, tidied_chain, tidied, with_entry};

use crate::chain::Chain;
use crate::scenario::Scenario;
use crate::term::{Term, is_off};
use crate::text::Text;
use indexmap::IndexMap;
use std::alloc::{AllocError, Global};

/// Whether the term acts at each hit that reaches it.
fn is_endless(t: &Term) -> bool
    ensures { result ≡ is_endless t.now }
{
    t.count.is_none() && t.share == 1000000
}

/// Whether the term does nothing and takes no random word.
fn is_idle(t: &Term) -> bool
    ensures { result ≡ is_idle t.now }
{
    is_off(&t.task) && t.share == 1000000
}

/// Whether the term's count isn't 0.
fn is_live(t: &Term) -> bool
    ensures { result ≡ is_live t.now }
{
    !matches!(t.count, Some(0))
}

/// Drops the terms of count 0.
fn drop_used(terms: &mut Vec<Term>)
    ensures { terms.new.items ≡ without_used terms.old.items }
{
    terms.retain(|t| is_live(t));
}

/// The place of the first term that acts at each hit that reaches it.
fn endless_at(terms: &[Term]) -> Option<usize>
    ensures { result ≡ position is_endless terms.now }
{
    terms.iter().position(|t| is_endless(t))
}

/// Drops all that follows the first term that acts at each hit.
fn stop_at_endless(terms: &mut Vec<Term>)
    ensures { terms.new.items ≡ up_to_endless terms.old.items }
{
    if let Some(i) = endless_at(terms) {
        terms.truncate(i + 1);
    }
}

/// Drops the idle terms at the end.
fn drop_idle_end(terms: &mut Vec<Term>)
    ensures { terms.new.items ≡ without_idle_end terms.old.items }
{
    let mut n = terms.len();
    while n > 0 && is_idle(&terms[n - 1]) {
        n -= 1;
    }
    terms.truncate(n);
}

/// The count of two terms joined into one; `None` if they aren't joined.
fn joint(t: &Term, u: &Term) -> Option<u32>
    ensures { result ≡ joint t.now u.now }
{
    if !is_idle(t) || !is_idle(u) {
        return None;
    }
    match (t.count, u.count) {
        (Some(m), Some(n)) => m.checked_add(n),
        _ => None,
    }
}

/// Joins the next term into the last one if that may be; otherwise it becomes the last one.
fn join_next(done: &mut Vec<Term>, last: Term, next: &Term) -> Result<Term, AllocError>
    ensures { IfOk result (λ t. (rest : List Term) → done.old.items ++ joined_onto last (next.now ∷ rest) ≡ done.new.items ++ joined_onto t rest) }
{
    match joint(&last, next) {
        None => {
            let copy = next.try_clone()?;
            done.push(last)?;
            Ok(copy)
        }
        Some(count) => Ok(Term {
            share: last.share,
            count: Some(count),
            task: last.task,
        }),
    }
}

/// Joins each term into the one before it if that may be, from left to right.
fn join_all(alloc: Global, first: &Term, rest: &[Term]) -> Result<Vec<Term>, AllocError>
    ensures { IfOk result (λ v. v.items ≡ joined_onto first.now rest.now) }
{
    let mut done = Vec::new(alloc);
    let mut last = first.try_clone()?;
    for term in rest {
        last = join_next(&mut done, last, term)?;
    }
    done.push(last)?;
    Ok(done)
}

#[tactic(auto, unfolding(crate::specs::Tidied::joined))]
fn join_terms(alloc: Global, terms: &[Term]) -> Result<Vec<Term>, AllocError>
    ensures { IfOk result (λ v. v.items ≡ joined terms.now) }
{
    match terms {
        [] => Ok(Vec::new(alloc)),
        [first, rest @ ..] => join_all(alloc, first, rest),
    }
}

/// A chain after the four steps of `tidy`.
#[tactic(auto, unfolding(crate::specs::Tidied::tidied_chain))]
fn tidy_chain(alloc: Global, chain: &Chain) -> Result<Chain, AllocError>
    ensures { IfOk result (λ c. c ≡ tidied_chain chain.now) }
{
    let mut terms = chain.try_clone()?.into_vec();
    drop_used(&mut terms);
    stop_at_endless(&mut terms);
    let mut joined = join_terms(alloc, terms.as_slice())?;
    drop_idle_end(&mut joined);
    Ok(Chain::from_vec(joined))
}

/// Puts an entry in, if its chain has a term.
fn put_entry(to: &mut IndexMap<Text, Chain>, name: &Text, chain: Chain) -> Result<(), AllocError>
    ensures { OnOk result (to.new.entries ≡ with_entry to.old.entries name.now chain) }
{
    if chain.terms().len() > 0 {
        to.insert(name.try_clone()?, chain)?;
    }
    Ok(())
}

/// The entries with their chains tidied; an entry of which no term is left is dropped.
fn tidied_entries(
    alloc: Global,
    from: &IndexMap<Text, Chain>,
) -> Result<IndexMap<Text, Chain>, AllocError>
    ensures { IfOk result (λ m. m.entries ≡ entries_of (tidied from.now.entries)) }
{
    let mut to = IndexMap::new(alloc);
    for (name, chain) in from {
        put_entry(&mut to, name, tidy_chain(alloc, chain)?)?;
    }
    Ok(to)
}

/// The scenario without what can't act. The rules are this project's own. In each chain, in this order:
///
/// 1. the terms of count 0 are dropped;
/// 2. everything after the first term with no count and share 1000000 is dropped;
/// 3. from left to right, a term is joined into the one before it if both are `off` with share 1000000 and a count, and the sum is at most
///    4294967295;
/// 4. `off` terms of share 1000000 at the end are dropped.
///
/// Then entries without terms are dropped.
pub fn tidy(alloc: Global, scenario: &Scenario) -> Result<Scenario, AllocError>
    ensures { IfOk result (λ s. s ≡ tidied scenario.now) }
{
    let entries = tidied_entries(alloc, scenario.entries())?;
    Ok(Scenario::from_entries(entries))
}
