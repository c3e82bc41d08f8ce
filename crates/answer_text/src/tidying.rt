//! Scenarios tidied, where most are tidy already.
ghost use Rattle.std.specs.Prelude.{◌≡◌, IfOk, true};
ghost use Rattle.scenario_values.specs.Printed.{printed};
ghost use Rattle.scenario_values.specs.Tidied.{is_endless, is_idle, is_live, tidied};
ghost use Rattle.answer_text.specs.inside.Tidy.{ends_chain, is_tidy, is_tidy_chain, leads_to};

use scenario_grammar::{Scenario, Text, print, tidy};
use scenario_values::{FULL_SHARE, Term, is_off};
use std::alloc::{AllocError, Global};

/// Whether the term acts at each hit that reaches it.
fn is_endless(term: &Term) -> bool
    ensures { result ≡ is_endless term.now }
{
    term.count.is_none() && term.share == FULL_SHARE
}

/// Whether the term does nothing and takes no random word.
fn is_idle(term: &Term) -> bool
    ensures { result ≡ is_idle term.now }
{
    is_off(&term.task) && term.share == FULL_SHARE
}

/// Whether the term's count isn't 0.
fn is_live(term: &Term) -> bool
    ensures { result ≡ is_live term.now }
{
    !matches!(term.count, Some(0))
}

/// Whether tidying leaves a term and the one behind it as they are.
fn leads_to(term: &Term, next: &Term) -> bool
    ensures { result ≡ leads_to term.now next.now }
{
    is_live(term) && !is_endless(term) && !(is_idle(term) && is_idle(next))
}

/// Whether tidying leaves the last term of a chain.
fn ends_chain(term: &Term) -> bool
    ensures { result ≡ ends_chain term.now }
{
    is_live(term) && !is_idle(term)
}

/// Whether it is easily seen that tidying leaves a chain as it is.
fn is_tidy_chain(terms: &[Term]) -> bool
    ensures { result ≡ is_tidy_chain terms.now }
{
    let Some((first, rest)) = terms.split_first() else {
        return false;
    };
    let mut last = first;
    for term in rest {
        if !leads_to(last, term) {
            return false;
        }
        last = term;
    }
    ends_chain(last)
}

/// Whether it is easily seen that tidying leaves a scenario as it is. So it is with each scenario that was tidied before, unless counts of `off`
/// terms in a row are too large to be joined.
fn is_tidy(scenario: &Scenario) -> bool
    ensures tidy { result ≡ is_tidy scenario.now }
    ensures same { result ≡ true → tidied scenario.now ≡ scenario.now }
{
    for (_, chain) in scenario.entries() {
        if !is_tidy_chain(chain.terms()) {
            return false;
        }
    }
    true
}

/// The scenario, tidied. One that is seen to be tidy already isn't copied. An error means that memory was refused.
pub fn tidied_from(alloc: Global, scenario: Scenario) -> Result<Scenario, AllocError>
    ensures { IfOk result (λ s. s ≡ tidied scenario) }
{
    if is_tidy(&scenario) {
        return Ok(scenario);
    }
    tidy(alloc, &scenario)
}

/// The printed form of the scenario once it is tidied.
pub(crate) fn tidied_text(alloc: Global, scenario: &Scenario) -> Result<Text, AllocError>
    ensures { IfOk result (λ text. text ≡ printed (tidied scenario.now)) }
{
    if is_tidy(scenario) {
        return Text::from_string(print(alloc, scenario)?);
    }
    let tidied = tidy(alloc, scenario)?;
    Text::from_string(print(alloc, &tidied)?)
}
