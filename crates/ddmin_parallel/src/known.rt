//! The answers that are known.
ghost use Rattle.std.specs.Prelude.{◌≡◌, ℕ, List, Bool, OnOk, OnErr, IfErr, Option};
ghost use Rattle.std.specs.FinMap as map;

use crate::fault_set::{FaultSet, Run};
use std::alloc::{AllocError, Global};
use std::collections::BTreeMap;
use std::marker::Model;

/// The known answers: which sets of faults fail and which pass.
#[derive(Drop)]
pub struct Known {
    /// The answers by the sets' runs.
    answers: BTreeMap<Vec<Run>, bool>,
}

impl Model for Known {
    ghost use Rattle.std.specs.FinMap as map;
    ghost use Rattle.std.specs.Coded.{coded_ℕ, coded_list, coded_bool};
    ghost use Rattle.ddmin_parallel.specs.CoreEvents as core_events;

    ghost Value = { core_events.Known };

    ghost coded = { map.code (coded_list coded_ℕ) coded_bool };

    ghost use Rattle.ddmin_parallel.specs.inside.Entries.{plain, AreKeysPacked};

    ghost view = { λ k. map.from_entries (plain k.answers.entries) };

    ghost invariant = { λ k. AreKeysPacked k.answers.entries };
}

impl Known {
    /// Nothing is known.
    pub fn new(alloc: Global) -> Known
        ensures { result ≡ map.empty }
    {
        Known {
            answers: BTreeMap::new(alloc),
        }
    }

    /// Whether the set fails, if that is known.
    pub fn get(&self, set: &FaultSet) -> Option<bool>
        ensures { result ≡ map.get self.now set.now }
    {
        self.answers.get(set.key()).copied()
    }

    /// Adds an answer. An `Err` means that memory was refused, and changes nothing.
    pub fn insert(&mut self, set: FaultSet, fails: bool) -> Result<(), AllocError>
        ensures ok { OnOk result (self.new ≡ map.insert self.old set fails) }
        ensures err { OnErr result (self.new ≡ self.old) }
    {
        match self.answers.insert(set.into_key(), fails) {
            Ok(_) => Ok(()),
            Err(_) => Err(AllocError),
        }
    }
}
