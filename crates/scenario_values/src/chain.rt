//! A list of terms that contracts see as a list.
ghost use Rattle.std.specs.Prelude.{◌≡◌, IfOk};
ghost use Rattle.std.specs.Cmp.Lexicographic.{pointwise, lists_per, lists_equiv};
ghost use Rattle.scenario_values.specs.contracts.term.TermPartialEq.TheImpl as term_eq;
ghost use Rattle.scenario_values.specs.contracts.term.TermPartialEq.TheImpl.Laws as term_laws;
ghost use Rattle.scenario_values.specs.contracts.term.TermEq.TheImpl.Laws as term_eq_laws;

use crate::term::Term;
use std::alloc::{AllocError, Global};
use std::marker::Model;

/// The terms of a point, in the order in which a hit tries them.
#[derive(Debug, Drop)]
pub struct Chain {
    terms: Vec<Term>,
}

impl Model for Chain {
    ghost use Rattle.std.specs.Prelude.{List};
    ghost use Rattle.scenario_values.specs.declared.term.Term.{Term};

    ghost Value = { List Term };

    ghost view = { λ c. c.terms.items };
}

impl Chain {
    /// The chain of these terms.
    pub fn from_vec(terms: Vec<Term>) -> Chain
        ensures { result ≡ terms.items }
    {
        Chain { terms }
    }

    /// The terms, given back.
    pub fn into_vec(self) -> Vec<Term>
        ensures { result.items ≡ self }
    {
        self.terms
    }

    /// The terms, borrowed.
    pub fn terms(&self) -> &[Term]
        ensures { result.now ≡ self.now }
    {
        self.terms.as_slice()
    }

    /// A copy.
    pub fn try_clone(&self) -> Result<Chain, AllocError>
        ensures { IfOk result (λ c. c ≡ self.now) }
    {
        let mut terms = Vec::with_capacity(*self.terms.allocator(), self.terms.len())?;
        for term in &self.terms {
            terms.push(term.try_clone()?)?;
        }
        Ok(Chain { terms })
    }
}

impl PartialEq for Chain {
    ghost eq = { pointwise (term_eq.ghosts).eq };

    ghost laws = { lists_per (term_laws.laws-law) };

    fn eq(&self, other: &Chain) -> bool {
        self.terms == other.terms
    }
}

impl Eq for Chain {
    ghost laws = { lists_equiv (term_eq_laws.laws-law) };
}
