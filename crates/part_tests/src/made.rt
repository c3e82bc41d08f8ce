ghost use Rattle.std.specs.Prelude.{◌≡◌, ◌<◌, ◌%◌, nat_eq, IfOk};
ghost use Rattle.std.specs.List.{list_any, list_all, count_by};

use crate::probes::has;
use crate::workers::Twin;
use ddmin_parallel::Probe;
use std::alloc::{AllocError, Global};

/// A set fails just if it holds all of some faults.
#[derive(Drop)]
pub struct Culprits {
    pub all: Vec<u32>,
}

fn has_all(set: &[u32], faults: &[u32]) -> bool
    ensures { result ≡ list_all (λ fault. list_any (nat_eq fault) set.now) faults.now }
{
    faults.iter().all(|fault| has(set, *fault))
}

impl Probe for Culprits {
    ghost answers = { λ p s. list_all (λ fault. list_any (nat_eq fault) s) p.all.items };

    fn test(&mut self, set: &[u32]) -> Result<bool, AllocError> {
        Ok(has_all(set, self.all.as_slice()))
    }
}

impl Twin for Culprits {
    fn twin(&self, alloc: Global) -> Result<Culprits, AllocError> {
        let all = Vec::from_slice(alloc, self.all.as_slice())?;
        Ok(Culprits { all })
    }
}

/// A set fails exactly if the number of its members with some remainder has some remainder itself. So a failing set has smaller and larger ones that
/// pass.
#[derive(Drop)]
pub struct Counts {
    pub step: u32,
    pub rest: u32,
    pub divisor: u32,
    pub wanted: u32,
    ghost steps: { 0 < step },
    ghost divides: { 0 < divisor },
}

fn count_of(set: &[u32], step: u32, rest: u32) -> usize
    requires { 0 < step }
    ensures { result ≡ count_by (λ x. nat_eq (x % step) rest) set.now }
{
    set.iter().filter(|x| **x % step == rest).count()
}

impl Probe for Counts {
    ghost answers = { λ p s. nat_eq (count_by (λ x. nat_eq (x % p.step) p.rest) s % p.divisor) p.wanted };

    fn test(&mut self, set: &[u32]) -> Result<bool, AllocError> {
        let count = count_of(set, self.step, self.rest);
        Ok(count % self.divisor as usize == self.wanted as usize)
    }
}

impl Twin for Counts {
    fn twin(&self, alloc: Global) -> Result<Counts, AllocError> {
        let _ = alloc;
        Ok(Counts {
            step: self.step,
            rest: self.rest,
            divisor: self.divisor,
            wanted: self.wanted,
        })
    }
}
