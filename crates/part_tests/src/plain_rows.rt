ghost use Rattle.std.specs.Prelude.{◌≤◌};

use crate::probes::{Always, Either, Needs, OddWith};
use ddmin_parallel::{Probe, Reduction, reduce_by_core, reduce_plain};
use std::alloc::{AllocError, Global};
use std::process::Abort;

pub(crate) fn is_found(found: &Reduction, kept: &[u32], tests: u64) -> bool {
    found.kept.as_slice() == kept && found.tests == tests
}

pub(crate) fn needs_both(first: u32, second: u32) -> Needs {
    Needs {
        first,
        second,
        asked: 0,
    }
}

/// Whether the recursion finds this.
fn is_by_plain<P: Probe>(
    alloc: Global,
    probe: &mut P,
    faults: u32,
    kept: &[u32],
    tests: u64,
) -> Result<bool, AllocError>
    requires { faults ≤ 4096 }
{
    Ok(is_found(&reduce_plain(alloc, probe, faults)?, kept, tests))
}

/// Whether a core finds this.
fn is_by_core<P: Probe>(
    alloc: Global,
    probe: &mut P,
    faults: u32,
    kept: &[u32],
    tests: u64,
) -> Result<bool, AllocError>
    requires { faults ≤ 4096 }
{
    Ok(is_found(&reduce_by_core(alloc, probe, faults)?, kept, tests))
}

/// What is found if there are two culprits, or one that is named twice.
#[derive(Clone, Copy)]
pub(crate) struct Found {
    pub(crate) faults: u32,
    pub(crate) culprits: [u32; 2],
    pub(crate) kept: &'static [u32],
    /// How many tests are counted. The recursion asks for each.
    pub(crate) tests: u64,
    /// How many tests a core asks for: each set once.
    pub(crate) asked_by_core: u64,
}

/// 17 of the 29 tests are of sets that weren't met before.
pub(crate) const OF_EIGHT: Found = Found {
    faults: 8,
    culprits: [2, 6],
    kept: &[2, 6],
    tests: 29,
    asked_by_core: 17,
};

pub(crate) const OF_THREE: Found = Found {
    faults: 3,
    culprits: [0, 2],
    kept: &[0, 2],
    tests: 10,
    asked_by_core: 6,
};

/// The recursion and a core find this, and ask this often.
fn finds(rt: &impl Abort, alloc: Global, row: &Found) -> Result<(), AllocError>
    requires { row.now.faults ≤ 4096 }
{
    let [first, second] = row.culprits;
    let mut probe = needs_both(first, second);
    assert!(rt; is_by_plain(alloc, &mut probe, row.faults, row.kept, row.tests)?);
    assert_eq!(rt; probe.asked, row.tests);
    let mut probe = needs_both(first, second);
    assert!(rt; is_by_core(alloc, &mut probe, row.faults, row.kept, row.tests)?);
    assert_eq!(rt; probe.asked, row.asked_by_core);
    Ok(())
}

// Wrong body: core_runs_the_plain_recursion. What it finds is the same, so the questions are counted.
#[test]
fn two_culprits(rt: HostRuntime) -> Result<(), AllocError> {
    finds(&rt, rt.alloc(), &OF_EIGHT)?;
    finds(&rt, rt.alloc(), &OF_THREE)
}

/// The recursion and a core find this if every set fails.
fn finds_nothing(rt: &impl Abort, alloc: Global, faults: u32, tests: u64) -> Result<(), AllocError>
    requires { faults ≤ 4096 }
{
    assert!(rt; is_by_plain(alloc, &mut Always, faults, &[], tests)?);
    assert!(rt; is_by_core(alloc, &mut Always, faults, &[], tests)?);
    Ok(())
}

#[test]
fn few_faults(rt: HostRuntime) -> Result<(), AllocError> {
    finds_nothing(&rt, rt.alloc(), 3, 1)?;
    finds_nothing(&rt, rt.alloc(), 0, 0)?;
    let mut each_alone = Either {
        first: 0,
        second: 1,
    };
    assert!(&rt; is_by_plain(rt.alloc(), &mut each_alone, 2, &[0], 2)?);
    // One fault needs no round: only the empty set is tested.
    assert!(&rt; is_by_plain(rt.alloc(), &mut needs_both(0, 0), 1, &[0], 1)?);
    Ok(())
}

/// The rounds of seven faults by hand: 2 halves, 4 parts and then the complement without 1 and 2,
/// 3 parts and then the complement without 5 and 6, 2 parts, and the second of 3 parts.
#[test]
fn a_test_that_is_not_monotone(rt: HostRuntime) -> Result<(), AllocError> {
    let mut probe = OddWith { fault: 3 };
    assert!(&rt; is_by_plain(rt.alloc(), &mut probe, 7, &[3], 19)?);
    assert!(&rt; is_by_core(rt.alloc(), &mut probe, 7, &[3], 19)?);
    Ok(())
}

/// The most faults, and one culprit: after the empty set twelve rounds of two halves, each of which ends with its first half or its
/// second. 2730 is 101010101010 in binary, so six times it is in the second.
#[test]
fn one_culprit_of_the_most_faults(rt: HostRuntime) -> Result<(), AllocError> {
    let row = Found {
        faults: 4096,
        culprits: [2730, 2730],
        kept: &[2730],
        tests: 19,
        asked_by_core: 19,
    };
    finds(&rt, rt.alloc(), &row)
}
