//! Scenarios: the FAILPOINTS variable of fail-rs, as a value.
ghost use Rattle.std.specs.Prelude.{◌≡◌, ◌<◌, ◌↔◌, IsTrue, length};
ghost use Rattle.scenario_values.specs.Scenario.{IsScenario, chain_at, entry_of};
ghost use Rattle.std.proofs.Common.{rules};
ghost use Rattle.std.specs.Cmp.Rules.{comparing};
ghost use Rattle.std.specs.Cmp.Lexicographic.{pointwise, lists_per, lists_equiv};
ghost use Rattle.std.specs.Ordering.{on, eq_of_both};
ghost use Rattle.std.specs.Str.{bytes_eq};
ghost use Rattle.scenario_values.specs.contracts.chain.ChainPartialEq.TheImpl as chain_eq;
ghost use Rattle.scenario_values.specs.contracts.chain.ChainPartialEq.TheImpl.Laws as chain_laws;
ghost use Rattle.scenario_values.specs.contracts.chain.ChainEq.TheImpl.Laws as chain_eq_laws;

use crate::chain::Chain;
use crate::found::find_entry;
use crate::term::Term;
use crate::text::Text;
use indexmap::IndexMap;
use std::marker::Model;

/// Names of points with their chains, in order.
///
/// Each value keeps these limits, which are this project's own: at most 256 entries, 1 to 256 terms in a chain, 4096 terms whose task isn't `off`,
/// and 65536 bytes of printed form. Names are distinct and lawful (not empty, no blank character at either end, no `;` and no `=`), and terms are
/// lawful. A name that a target doesn't have is no error, and never acts.
#[derive(Debug, Drop)]
pub struct Scenario {
    entries: IndexMap<Text, Chain>,
}

impl Model for Scenario {
    ghost use Rattle.scenario_values.specs.Scenario.{Entries, IsScenario};

    ghost Value = { Entries };

    ghost view = { λ s. s.entries.entries };

    ghost invariant = { λ s. IsScenario s.entries.entries };
}

impl Scenario {
    /// The scenario of these entries, which have to keep the limits.
    pub fn from_entries(entries: IndexMap<Text, Chain>) -> Scenario
        requires { IsScenario entries.entries }
        ensures { result ≡ entries.entries }
    {
        Scenario { entries }
    }

    /// The entries, borrowed; they keep the limits.
    pub fn entries(&self) -> &IndexMap<Text, Chain>
        ensures value { result.now.entries ≡ self.now }
        ensures limits { IsScenario self.now }
    {
        &self.entries
    }

    /// How many entries there are, 0 to 256.
    pub fn len(&self) -> usize
        ensures { result ≡ length self.now }
    {
        self.entries.len()
    }

    /// Whether there is no entry.
    pub fn is_empty(&self) -> bool
        ensures { IsTrue result ↔ (length self.now ≡ 0) }
    {
        self.entries.is_empty()
    }

    /// The chain of the entry of a number, in the entries' order.
    pub fn chain(&self, entry: usize) -> &[Term]
        requires { entry < length self.now }
        ensures { result.now ≡ chain_at self.now entry }
    {
        match self.entries.get_index(entry) {
            Some((_, chain)) => chain.terms(),
            None => &[],
        }
    }

    /// The number of the entry of a name, in the entries' order, from 0. It compares the name with each entry's until one is equal.
    pub fn entry_of(&self, name: &str) -> Option<usize>
        ensures { result ≡ entry_of self.now name.now }
    {
        find_entry(&self.entries, name)
    }
}

/// Equal entries in the same order.
impl PartialEq for Scenario {
    ghost eq = { pointwise (eq_of_both (on (λ e. e.0) bytes_eq) (on (λ e. e.1) (chain_eq.ghosts).eq)) };

    ghost laws = { lists_per (Prim.search (comparing, rules, chain_laws.laws-law)) };

    fn eq(&self, other: &Scenario) -> bool {
        self.entries.as_slice() == other.entries.as_slice()
    }
}

impl Eq for Scenario {
    ghost laws = { lists_equiv (Prim.search (comparing, rules, chain_eq_laws.laws-law)) };
}
