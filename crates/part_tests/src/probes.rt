ghost use Rattle.std.specs.Prelude.{◌≡◌, ◌%◌, ◌&&◌, ◌||◌, nat_eq, length, true, IfOk};
ghost use Rattle.std.specs.List.{list_any};

use crate::workers::Twin;
use ddmin_parallel::Probe;
use std::alloc::{AllocError, Global};

pub(crate) fn has(set: &[u32], fault: u32) -> bool
    ensures { result ≡ list_any (nat_eq fault) set.now }
{
    set.contains(&fault)
}

/// A set fails just if it holds two faults. It counts how often it is asked.
#[derive(Drop)]
pub struct Needs {
    pub first: u32,
    pub second: u32,
    pub asked: u64,
}

impl Probe for Needs {
    ghost answers = { λ p s. list_any (nat_eq p.first) s && list_any (nat_eq p.second) s };

    fn test(&mut self, set: &[u32]) -> Result<bool, AllocError> {
        self.asked = self.asked.saturating_add(1);
        Ok(has(set, self.first) && has(set, self.second))
    }
}

impl Twin for Needs {
    fn twin(&self, alloc: Global) -> Result<Needs, AllocError> {
        let _ = alloc;
        Ok(Needs {
            first: self.first,
            second: self.second,
            asked: 0,
        })
    }
}

/// A set fails just if it holds one of two faults.
#[derive(Drop)]
pub struct Either {
    pub first: u32,
    pub second: u32,
}

impl Probe for Either {
    ghost answers = { λ p s. list_any (nat_eq p.first) s || list_any (nat_eq p.second) s };

    fn test(&mut self, set: &[u32]) -> Result<bool, AllocError> {
        Ok(has(set, self.first) || has(set, self.second))
    }
}

/// Every set fails, the empty one too.
#[derive(Drop)]
pub struct Always;

impl Probe for Always {
    ghost answers = { λ p s. true };

    fn test(&mut self, set: &[u32]) -> Result<bool, AllocError> {
        let _ = set;
        Ok(true)
    }
}

/// A set fails exactly if it holds a fault and has an odd number of members. So a failing set has larger ones that pass.
#[derive(Drop)]
pub struct OddWith {
    pub fault: u32,
}

impl Probe for OddWith {
    ghost answers = { λ p s. list_any (nat_eq p.fault) s && nat_eq (length s % 2) 1 };

    fn test(&mut self, set: &[u32]) -> Result<bool, AllocError> {
        Ok(has(set, self.fault) && set.len() % 2 == 1)
    }
}
