//! What runs of targets come to.

use std::alloc::Global;
use std::process::Abort;
use std::test::Fail;
use target_checks::outcome_of;
use target_trait::{Outcome, Target, Verdict};

/// The run has this verdict, and asks these points.
pub fn asks(rt: &impl Abort, told: &Outcome, verdict: Verdict, points: &[u32], at: &str) {
    assert_eq!(rt; told.verdict, verdict, "at {at}");
    assert_eq!(rt; told.asked.as_slice(), points, "at {at}");
}

/// A scenario, the verdict of its run, and how often the cut asks: once for each pending write, in the order in which they were made.
pub type Row<'r> = (&'r str, Verdict, usize);

/// How often the last of this many points was asked, which is that of the cut.
fn keeps_asked(asked: &[u32], points: usize) -> usize {
    asked
        .iter()
        .filter(|point| (**point as usize).saturating_add(1) == points)
        .count()
}

/// A run with its cut has this verdict, and the cut asks this often. Returns how many points were asked, those of the cut among them.
pub fn comes_to<T: Target>(
    rt: &impl Abort,
    alloc: Global,
    target: &mut T,
    workload: &T::Workload,
    row: Row<'_>,
) -> Result<usize, Fail> {
    let (scenario, verdict, keeps) = row;
    let told = outcome_of(alloc, target, workload, scenario, 1000)?;
    assert_eq!(rt; told.verdict, verdict, "at {scenario}");
    let asked = told.asked.as_slice();
    assert_eq!(rt;
        keeps_asked(asked, T::catalogue().len()),
        keeps,
        "at {scenario}"
    );
    Ok(asked.len())
}
