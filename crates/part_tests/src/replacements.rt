//! How the small workload grows, a file of `old` that is replaced once, by the chunks `ne` and `w`.
ghost use Rattle.std.specs.Prelude.{◌≤◌};

use crate::growing::{Wanted, first_with, grown_on, have_grown, to_depth};
use file_replace::{Replace, TORN, Variant};
use grown_runs::{Grown, Limits};
use plan_gen::PlanFault;
use std::alloc::Global;
use std::process::Abort;
use std::sync::Wait;
use std::test::Fail;
use std::thread::Threads;
use target_checks::small_workload;
use target_trait::Target;

fn grown_by<R: Threads + Wait + Sync>(
    rt: &R,
    alloc: Global,
    variant: Variant,
    limits: Limits,
) -> Result<Result<Grown, PlanFault>, Fail> {
    let workload = small_workload(alloc)?;
    let target = Replace::new(alloc, variant);
    Ok(grown_on(rt, alloc, &target, &workload, limits))
}

fn grown<R: Threads + Wait + Sync + Abort>(
    rt: &R,
    alloc: Global,
    variant: Variant,
    limits: Limits,
) -> Result<Grown, Fail> {
    match grown_by(rt, alloc, variant, limits)? {
        Ok(grown) => Ok(grown),
        Err(_) => Err(Fail::from("plans that don't grow")),
    }
}

#[test]
fn sound_plans_grow_to_two_faults_and_no_further(rt: HostRuntime) -> Result<(), Fail> {
    let alloc = rt.alloc();
    for workers in [1, 4] {
        let once = grown(&rt, alloc, Variant::Sound, to_depth(1, workers))?;
        let wanted = Wanted {
            levels: &[1, 12],
            onward: 0,
            beyond: 8,
            causes: &[],
        };
        have_grown(&rt, &once, &wanted);
        let whole = grown(&rt, alloc, Variant::Sound, to_depth(2, workers))?;
        let wanted = Wanted {
            levels: &[1, 12, 8],
            onward: 0,
            beyond: 0,
            causes: &[],
        };
        have_grown(&rt, &whole, &wanted);
        assert_eq!(&rt; first_with(&whole, TORN), None);
    }
    Ok(())
}

#[test]
fn only_a_fault_leads_to_the_clean_up(rt: HostRuntime) -> Result<(), Fail> {
    let alloc = rt.alloc();
    let once = grown(&rt, alloc, Variant::Sound, to_depth(1, 1))?;
    let unlink = Replace::catalogue()
        .iter()
        .position(|name| *name == "replace::unlink");
    let none = grown(&rt, alloc, Variant::Sound, to_depth(0, 1))?;
    assert_eq!(&rt;
        none.outcomes.hits.get(unlink.unwrap_or(64)).copied(),
        Some(0)
    );
    assert_eq!(&rt;
        once.outcomes.hits.get(unlink.unwrap_or(64)).copied(),
        Some(1)
    );
    assert_eq!(&rt; once.outcomes.hits.len(), Replace::catalogue().len());
    Ok(())
}

#[test]
fn a_late_sync_fails_by_a_return_and_by_a_panic(rt: HostRuntime) -> Result<(), Fail> {
    let alloc = rt.alloc();
    for workers in [1, 4] {
        let whole = grown(&rt, alloc, Variant::LateSync, to_depth(2, workers))?;
        let wanted = Wanted {
            levels: &[1, 12, 6],
            onward: 0,
            beyond: 0,
            causes: &[(11, TORN), (12, TORN)],
        };
        have_grown(&rt, &whole, &wanted);
        assert_eq!(&rt; first_with(&whole, TORN), Some(11));
    }
    Ok(())
}

#[test]
fn an_ignored_sync_grows_wider(rt: HostRuntime) -> Result<(), Fail> {
    let alloc = rt.alloc();
    let once = grown(&rt, alloc, Variant::IgnoreSync, to_depth(1, 2))?;
    assert_eq!(&rt; once.list.levels.as_slice(), [1, 12].as_slice());
    assert_eq!(&rt; once.list.beyond, 10);
    assert_eq!(&rt; first_with(&once, TORN), Some(7));
    let twice = grown(&rt, alloc, Variant::IgnoreSync, to_depth(2, 2))?;
    assert_eq!(&rt; twice.list.levels.as_slice(), [1, 12, 10].as_slice());
    assert_eq!(&rt; twice.list.beyond, 2);
    assert_eq!(&rt; first_with(&twice, TORN), Some(7));
    Ok(())
}

#[test]
fn a_level_that_is_too_large_is_refused(rt: HostRuntime) -> Result<(), Fail> {
    let alloc = rt.alloc();
    let mut limits = to_depth(2, 1);
    limits.most_plans = 21;
    let fits = grown_by(&rt, alloc, Variant::Sound, limits)?;
    assert!(&rt; fits.is_ok());
    limits.most_plans = 20;
    let over = grown_by(&rt, alloc, Variant::Sound, limits)?;
    assert_eq!(&rt; over.err(), Some(PlanFault::TooManyPlans));
    Ok(())
}
