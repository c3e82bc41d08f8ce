//! The census by one run.
ghost use Rattle.std.specs.Prelude.{◌≡◌, ◌≤◌, ◌<◌, ◌==◌, ◌^◌, count_by, length, IfOk};
ghost use Rattle.action_eval.specs.Answers.{texts};
ghost use Rattle.plan_gen.specs.Census.{counts_of, census_of};

use crate::rigged_scenario::empty_scenario;
use std::alloc::{AllocError, Global};
use target_trait::{Case, Target, run_case};

/// How often the run of the empty scenario asks each point.
#[derive(Debug, Drop)]
pub struct Census {
    /// A count for each point of the catalogue, in its order.
    pub counts: Vec<u32>,
}

/// How often a point is asked.
pub fn count_of(asked: &[u32], point: u32) -> u32
    requires { length asked.now < 2 ^ 32 }
    ensures { result ≡ count_by (λ q. q == point) asked.now }
{
    asked.iter().filter(|q| **q == point).count() as u32
}

/// How often each point is asked, in the order of points. An error means that memory was refused.
pub fn counts_of(alloc: Global, points: u32, asked: &[u32]) -> Result<Vec<u32>, AllocError>
    requires { length asked.now < 2 ^ 32 }
    ensures { IfOk result (λ counts. counts.items ≡ counts_of points asked.now) }
{
    let mut counts = Vec::with_capacity(alloc, points as usize)?;
    for point in 0..points {
        counts.push(count_of(asked, point))?;
    }
    Ok(counts)
}

/// The census by one run of the empty scenario, with stream number 0.
///
/// `max_hits` is how many hits of the run are answered; hits past that aren't counted. An error means that memory was refused. The target keeps its
/// setup, after an error too.
pub fn by_census<T: Target>(
    alloc: Global,
    target: &mut T,
    workload: &T::Workload,
    seed: u64,
    max_hits: u32,
) -> Result<Census, AllocError>
    ensures ok { IfOk result (λ census. census.counts.items ≡ census_of (T.asks target.old workload.now) T.names seed max_hits) }
    ensures setup { target.new ≡ target.old }
{
    let scenario = empty_scenario(alloc);
    let case = Case {
        scenario: &scenario,
        seed,
        stream: 0,
        max_hits,
    };
    let outcome = run_case(alloc, target, workload, &case)?;
    let points = T::catalogue().len() as u32;
    let counts = counts_of(alloc, points, outcome.asked.as_slice())?;
    Ok(Census { counts })
}
