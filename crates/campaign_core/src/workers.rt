//! An input's plans, run by workers.
ghost use Rattle.std.specs.Prelude.{◌≡◌, ◌≤◌, drop, length, vec_len, map, Some, All, IfOk};
ghost use Rattle.result_book.specs.Verdicts.{verdicts_from};
ghost use Rattle.result_book.specs.Says.{input_says};
ghost use Rattle.result_book.specs.Runs.{input_runs, runs_from, unreached_of};
ghost use Rattle.campaign_core.specs.Planned.{AreKnown};

use crate::runner::Runner;
use crate::subject::Host;
use crate::watching::left_of;
use grown_runs::{RangeGate, answers_of, range_count};
use result_book::{Book, RunInput, Workspace, put_all};
use std::alloc::{AllocError, Global};
use std::sync::Wait;
use std::thread::Threads;
use target_trait::{Target, Verdict};
use work_gate::{Gate, Stage};

/// So many jobs, each with a twin of the target, to run the plans from this number on. An error means that memory was refused.
fn runners<'a, 'g, T: Target + Send, G: Gate, R: Threads + Wait + Sync>(
    host: &Host<'g, G, R>,
    target: &T,
    input: &'a RunInput<'a, T>,
    first: u32,
    workers: usize,
) -> Result<Vec<Runner<'a, 'g, T, G>>, AllocError>
where
    T::Workload: Sync,
    requires { first ≤ length input.now.plans.now }
    ensures many { IfOk result (λ runners. vec_len runners ≡ workers) }
    ensures same { IfOk result (λ runners. All (λ r. (r.target ≡ target.now) × (r.input.now ≡ input.now) × (r.first ≡ first)) runners.items) }
{
    let Host { rt: _, alloc, gate } = *host;
    let mut all = Vec::new(alloc);
    for _ in 0..workers {
        let target = target.twin()?;
        all.push(Runner {
            gate,
            target,
            input,
            first,
            workspace: Workspace::new(alloc),
            alloc,
        })?;
    }
    Ok(all)
}

/// Runs each plan of an input whose verdict isn't known, with one thread and one twin of the target for each worker that has a range to run, and puts
/// all verdicts into a book. The book is the same as with one thread. It is returned with those of the input's watched points that no run made here hits.
///
/// The book is made once all plans have run and the workers' tickets are gone. If a worker was refused memory, its range is run again. An error means
/// that memory was refused.
pub fn run_plans<T: Target + Send, G: Gate, R: Threads + Wait + Sync>(
    host: &Host<'_, G, R>,
    target: &T,
    input: &RunInput<'_, T>,
    known: &[Verdict],
) -> Result<(Book, Vec<u32>), AllocError>
where
    T::Workload: Sync,
    requires few { length input.now.plans.now ≤ 65536 }
    requires known { AreKnown (input_says T.Target target.now input.now) input.now.plans.now known.now }
    ensures book { IfOk result (λ r. r.0 ≡ map Some (verdicts_from (input_says T.Target target.now input.now) 0 input.now.plans.now)) }
    ensures unreached { IfOk result (λ r. r.1.items ≡ unreached_of input.now.watched.now
        (runs_from (input_runs T.Target target.now input.now) (length known.now) (drop (length known.now) input.now.plans.now))) }
{
    let Host { rt, alloc, gate } = host;
    let first = known.len() as u32;
    let plans = input.plans.len() as u32 - first;
    let count = range_count(plans);
    let workers = input.settings.workers().min(count as usize).max(1);
    let jobs = runners(host, target, input, first, workers)?;
    gate.expect(Stage::Listed, plans);
    let gate = RangeGate {
        gate: *gate,
        first,
        plans,
    };
    let ranges = answers_of(*rt, *alloc, &gate, jobs, count)?;
    let unreached = left_of(*alloc, input.watched, ranges.as_slice())?;
    let mut book = Book::new(*alloc, input)?;
    book.put_known(Vec::from_slice(*alloc, known)?);
    put_all(&mut book, ranges);
    Ok((book, unreached))
}
