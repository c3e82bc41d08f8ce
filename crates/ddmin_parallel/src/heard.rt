//! What is known, and the answer that was just heard.
ghost use Rattle.std.specs.Prelude.{◌≡◌};
ghost use Rattle.std.specs.FinMap as known_map;

use crate::fault_set::FaultSet;
use crate::known::Known;
use std::marker::Model;

/// What is known, with one more answer that was heard but isn't kept yet.
#[derive(Drop)]
pub(crate) struct Heard<'a> {
    known: &'a Known,
    set: &'a FaultSet,
    fails: bool,
}

impl<'a> Model for Heard<'a> {
    ghost use Rattle.std.specs.FinMap as map;
    ghost use Rattle.std.specs.Coded.{coded_ℕ, coded_list, coded_bool};
    ghost use Rattle.ddmin_parallel.specs.CoreEvents as core_events;

    ghost Value = { core_events.Known };

    ghost coded = { map.code (coded_list coded_ℕ) coded_bool };

    ghost view = { λ h. map.insert h.known.now h.set.now h.fails };
}

impl<'a> Heard<'a> {
    /// What is known, with the answer that this set fails or passes.
    pub(crate) fn of(known: &'a Known, set: &'a FaultSet, fails: bool) -> Self
        ensures { result ≡ known_map.insert known.now set.now fails }
    {
        Heard { known, set, fails }
    }

    /// Whether the set fails, if that is known or was just heard.
    pub(crate) fn get(&self, asked: &FaultSet) -> Option<bool>
        ensures { result ≡ known_map.get self.now asked.now }
    {
        if asked.is(self.set) {
            Some(self.fails)
        } else {
            self.known.get(asked)
        }
    }
}
