//! What the plans of a campaign come to.
ghost use Rattle.std.specs.Prelude.{◌≡◌, ◌<◌, ◌≤◌, drop, length, option_map, slice_get, IfOk};
ghost use Rattle.result_book.specs.Says.{input_says};
ghost use Rattle.result_book.specs.Runs.{input_runs, runs_from, unreached_of};
ghost use Rattle.campaign_core.specs.Planned.{AreKnown};
ghost use Rattle.campaign_core.specs.Ran.{AreResults};

use crate::ending::Ending;
use crate::subject::Host;
use crate::workers::run_plans;
use result_book::{RunInput, full_books_tell_their_verdicts};
use std::alloc::AllocError;
use std::sync::Wait;
use std::thread::Threads;
use target_trait::{Target, Verdict};
use work_gate::Gate;

/// What the plans of an input come to.
#[derive(Drop)]
pub struct Results {
    /// The verdict of each plan.
    pub verdicts: Vec<Verdict>,
    /// For each code with which a plan fails, the number of the first plan that does, and the code; in the order of the numbers.
    pub firsts: Vec<(u32, u32)>,
    /// The numbers of the points that no run hits, in the order of the catalogue; none if that wasn't looked at.
    pub unreached: Vec<u32>,
}

impl Results {
    /// How a campaign with these results ends.
    pub fn ending(&self) -> Ending
        ensures { result.first ≡ option_map (λ f. f.0) (slice_get self.now.firsts.items 0) }
    {
        let first = match self.firsts.as_slice().first() {
            Some((number, _)) => Some(*number),
            None => None,
        };
        Ending { first }
    }
}

/// Runs each plan of an input whose verdict isn't known, with one thread and one twin of the target for each worker. The results are the same as with
/// one thread. `unreached` has those of the input's watched points that no run made here hits. An error means that memory was refused.
pub fn run_input_plans<T: Target + Send, G: Gate, R: Threads + Wait + Sync>(
    host: &Host<'_, G, R>,
    target: &T,
    input: &RunInput<'_, T>,
    known: &[Verdict],
) -> Result<Results, AllocError>
where
    T::Workload: Sync,
    requires few { length input.now.plans.now ≤ 65536 }
    requires known { AreKnown (input_says T.Target target.now input.now) input.now.plans.now known.now }
    ensures results { IfOk result (AreResults (input_says T.Target target.now input.now) input.now.plans.now) }
    ensures unreached { IfOk result (λ r. r.unreached.items ≡ unreached_of input.now.watched.now
        (runs_from (input_runs T.Target target.now input.now) (length known.now) (drop (length known.now) input.now.plans.now))) }
{
    let (book, unreached) = run_plans(host, target, input, known)?;
    full_books_tell_their_verdicts();
    let firsts = book.first_failures(host.alloc)?;
    let verdicts = book.into_verdicts();
    Ok(Results {
        verdicts,
        firsts,
        unreached,
    })
}
