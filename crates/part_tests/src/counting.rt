//! Both censuses of the small workload, a file of `old` that is replaced once, by the chunks `ne` and `w`; and how often each runs it.
ghost use Rattle.std.specs.Prelude.{◌≡◌};

use file_replace::{Replace, Variant};
use plan_gen::{Census, by_census, by_loop};
use std::alloc::{AllocError, Global};
use std::marker::Model;
use std::process::Abort;
use std::test::Fail;
use target_checks::small_workload;
use target_trait::{Judgement, Session, Target};

/// A target, and how often it was run. Its setup is that of the target.
#[derive(Drop)]
struct Counting<T: Target> {
    target: T,
    runs: u32,
}

impl<T: Target> Model for Counting<T> {
    ghost Value = { T };

    ghost view = { λ c. c.target };
}

impl<T: Target> Target for Counting<T> {
    type Workload = T::Workload;

    ghost names = { T.names };

    ghost label_of = { T.label_of };

    ghost code_text = { T.code_text };

    ghost asks = { T.asks };

    ghost has_cut = { T.has_cut };

    fn label(&self) -> &'static str {
        self.target.label()
    }

    fn catalogue() -> &'static [&'static str] {
        T::catalogue()
    }

    fn code_name(code: u32) -> &'static str {
        T::code_name(code)
    }

    fn twin(&self) -> Result<Self, AllocError> {
        let target = self.target.twin()?;
        Ok(Counting { target, runs: 0 })
    }

    fn run(
        &mut self,
        workload: &T::Workload,
        session: &mut Session<'_>,
    ) -> Result<Judgement, AllocError> {
        self.runs = self.runs.wrapping_add(1);
        self.target.run(workload, session)
    }

    ghost within = { T.within };

    ghost halts = { T.halts };

    ghost lawful = { T.lawful };
}

/// How often each point is asked.
const COUNTS: [u32; 7] = [0, 1, 2, 1, 1, 1, 0];

/// The sound replacement, not run yet.
fn sound(alloc: Global) -> Counting<Replace> {
    Counting {
        target: Replace::new(alloc, Variant::Sound),
        runs: 0,
    }
}

/// These are the counts, after this many runs.
fn is_census(rt: &impl Abort, census: &Census, target: &Counting<Replace>, runs: u32) {
    assert_eq!(rt; census.counts.as_slice(), COUNTS.as_slice());
    assert_eq!(rt; target.runs, runs);
}

#[test]
fn a_census_is_one_run(rt: HostRuntime) -> Result<(), Fail> {
    let workload = small_workload(rt.alloc())?;
    let mut target = sound(rt.alloc());
    let census = by_census(rt.alloc(), &mut target, &workload, 7, 1000)?;
    is_census(&rt, &census, &target, 1);
    Ok(())
}

// Wrong body: by_loop_calls_by_census. The answers are the same, so the runs are counted: one for each of six sites, and one more for each
// of seven points.
fn is_looped(rt: &impl Abort, alloc: Global, onward: bool) -> Result<(), Fail> {
    let workload = small_workload(alloc)?;
    let mut target = sound(alloc);
    let census = by_loop(alloc, &mut target, &workload, 7, 1000, onward)?;
    is_census(rt, &census, &target, 13);
    Ok(())
}

#[test]
fn the_small_workload_is_run_13_times(rt: HostRuntime) -> Result<(), Fail> {
    is_looped(&rt, rt.alloc(), false)?;
    is_looped(&rt, rt.alloc(), true)
}
