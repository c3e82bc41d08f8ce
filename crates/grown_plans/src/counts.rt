//! How often a run hit each point.
ghost use Rattle.std.specs.Prelude.{[], OnOk};
ghost use Rattle.grown_plans.specs.AskedPoints.{AreCounts};

use action_eval::MOST_POINTS;
use std::alloc::AllocError;

/// Puts a count of 0 for each point into the list, in place of what stood there.
pub(crate) fn count_none(counts: &mut Vec<u32>) -> Result<(), AllocError>
    ensures { OnOk result (AreCounts counts.new.items []) }
{
    counts.clear();
    counts.resize(MOST_POINTS, 0)?;
    Ok(())
}
