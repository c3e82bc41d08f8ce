//! Lists of plans, and which runs they take, if two participants vote yes on one transaction whose commit record is tried twice. The levels to three
//! faults have 1, 26, 66 and 46 plans, three more plans have a sticky last fault, and the level after them has 20.

use crate::commits::one_transaction;
use crate::growing::to_depth;
use commit_target::{Commit, Variant};
use grown_runs::{Conditions, Limits, grow, grow_list};
use plan_gen::PlanFault;
use std::alloc::Global;
use std::process::Abort;
use std::sync::Wait;
use std::test::Fail;
use std::thread::Threads;
use target_checks::Arrivals;

/// How many plans the list to depth 3 has.
const PLANS: u32 = 142;

/// How many plans a list has if this many are looked for, and which plans arrived at the gate for it.
fn listed<R: Threads + Wait + Sync>(
    rt: &R,
    alloc: Global,
    limits: Limits,
    count: usize,
) -> Result<(Result<usize, PlanFault>, Arrivals), Fail> {
    let workload = one_transaction(alloc)?;
    let target = Commit::new(alloc, Variant::TwoTries);
    let gate = Arrivals::new(alloc, PLANS)?;
    let plans = grow_list(
        &Conditions {
            rt,
            alloc,
            gate: &gate,
            target: &target,
            workload: &workload,
            limits,
        },
        count,
    );
    let count = match plans {
        Ok(plans) => Ok(plans.len()),
        Err(fault) => Err(fault),
    };
    Ok((count, gate))
}

#[test]
fn a_list_runs_the_levels_before_its_last_plan(rt: HostRuntime) -> Result<(), Fail> {
    for workers in [1, 3] {
        for (count, plans, runs) in [
            (0, 1, 0),
            (1, 1, 0),
            (2, 27, 1),
            (27, 27, 1),
            (28, 93, 27),
            (93, 93, 27),
            (94, 139, 93),
            (139, 139, 93),
            (140, 142, 139),
            (142, 142, 139),
            (1000, 142, 139),
        ] {
            let (listed, gate) = listed(&rt, rt.alloc(), to_depth(3, workers), count)?;
            assert_eq!(&rt; listed, Ok(plans));
            assert!(&rt; gate.came_once(runs));
        }
    }
    Ok(())
}

#[test]
fn a_level_that_is_not_needed_may_be_too_large(rt: HostRuntime) -> Result<(), Fail> {
    let mut limits = to_depth(3, 1);
    limits.most_plans = 27;
    for (count, plans, runs) in [
        (1, Ok(1), 0),
        (27, Ok(27), 1),
        (28, Err(PlanFault::TooManyPlans), 27),
    ] {
        let (listed, gate) = listed(&rt, rt.alloc(), limits, count)?;
        assert_eq!(&rt; listed, plans);
        assert!(&rt; gate.came_once(runs));
    }
    Ok(())
}

#[test]
fn each_plan_arrives_once(rt: HostRuntime) -> Result<(), Fail> {
    let alloc = rt.alloc();
    let workload = one_transaction(alloc)?;
    let target = Commit::new(alloc, Variant::TwoTries);
    for workers in [1, 3] {
        let gate = Arrivals::new(alloc, PLANS)?;
        let grown = grow(&Conditions {
            rt: &rt,
            alloc,
            gate: &gate,
            target: &target,
            workload: &workload,
            limits: to_depth(3, workers),
        });
        assert!(&rt; grown.is_ok());
        assert!(&rt; gate.came_once(PLANS as usize));
    }
    Ok(())
}
