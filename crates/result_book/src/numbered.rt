//! A plan's number and verdict.
ghost use Rattle.std.specs.Prelude.{◌≡◌, ℕ, ◌<◌, List, [], not, filter, length, IfOk, OnOk, slice_index_or};
ghost use Rattle.result_book.specs.Says.{input_says};
ghost use Rattle.result_book.specs.Runs.{input_runs, is_asked};

use crate::input::RunInput;
use crate::watched::leave_unasked;
use crate::workspace::Workspace;
use grown_plans::CampaignRigger;
use scenario_values::Scenario;
use std::alloc::{AllocError, Global};
use std::marker::Model;
use target_trait::{RiggedRuns, RunSettings, Target, Verdict, run_session, session_of};

/// The verdict of the run of this number under what is rigged. The points in `unreached` that this run asks are removed. If memory is refused, the
/// buffers may be given back to the system.
fn rigged_verdict<T: Target>(
    target: &mut T,
    input: &RunInput<'_, T>,
    runs: &mut RiggedRuns,
    number: u32,
    unreached: &mut Vec<u32>,
) -> Result<Verdict, AllocError>
    requires { runs.old.table.names ≡ T.names }
    ensures ok { IfOk result (λ verdict. verdict ≡ input_says T.Target target.old input.now number runs.old.table.scenario) }
    ensures unreached { OnOk result (unreached.new.items
        ≡ filter (λ p. not (is_asked p (input_runs T.Target target.old input.now number runs.old.table.scenario).asked)) unreached.old.items) }
    ensures setup { target.new ≡ target.old }
{
    let given = input.settings;
    let settings = RunSettings {
        seed: given.seed,
        stream: u64::from(number),
        max_hits: given.max_hits,
    };
    let verdict = runs.run(target, input.workload, settings)?;
    leave_unasked(unreached, runs.buffers.trace());
    Ok(verdict)
}

/// The same for the plan of this number, by its scenario, which is made for it.
fn written_verdict<T: Target>(
    alloc: Global,
    target: &mut T,
    input: &RunInput<'_, T>,
    number: u32,
    unreached: &mut Vec<u32>,
) -> Result<Verdict, AllocError>
    requires { number < length input.now.plans.now }
    ensures ok { IfOk result (λ verdict. verdict ≡ input_says T.Target target.old input.now number (slice_index_or input.now.plans.now number [])) }
    ensures unreached { OnOk result (unreached.new.items
        ≡ filter (λ p. not (is_asked p (input_runs T.Target target.old input.now number (slice_index_or input.now.plans.now number [])).asked))
        unreached.old.items) }
    ensures setup { target.new ≡ target.old }
{
    let scenario = input.plans.plan(number as usize).scenario(alloc)?;
    let case = input.settings.case(&scenario, u64::from(number));
    let mut session = session_of(alloc, &case, T::catalogue())?;
    let verdict = run_session(target, input.workload, &mut session)?;
    leave_unasked(unreached, session.trace());
    Ok(verdict)
}

/// The verdict of the plan of this number; the points in `unreached` that its run asks are removed. `rigger` rigs the input's plans over the target's
/// points.
pub(crate) fn verdict_of<T: Target>(
    target: &mut T,
    rigger: &CampaignRigger<'_, 'static>,
    workspace: &mut Workspace,
    input: &RunInput<'_, T>,
    number: u32,
    unreached: &mut Vec<u32>,
) -> Result<Verdict, AllocError>
    requires within { number < length input.now.plans.now }
    requires plans { rigger.now.plans ≡ input.now.plans.now }
    requires names { rigger.now.names ≡ T.names }
    ensures ok { IfOk result (λ verdict. verdict ≡ input_says T.Target target.old input.now number (slice_index_or input.now.plans.now number [])) }
    ensures unreached { OnOk result (unreached.new.items
        ≡ filter (λ p. not (is_asked p (input_runs T.Target target.old input.now number (slice_index_or input.now.plans.now number [])).asked))
        unreached.old.items) }
    ensures setup { target.new ≡ target.old }
{
    let Workspace { runs, lists } = workspace;
    if rigger.load(number as usize, &mut runs.table, lists)? {
        rigged_verdict(target, input, runs, number, unreached)
    } else {
        written_verdict(runs.alloc, target, input, number, unreached)
    }
}

/// The number of a plan of an input, with its verdict.
///
/// Only `run` and `PlanRange::pop` make one. So the verdict is always that of the plan of this number, under the stream of this number, for some
/// setup of the target: the type keeps that. Whoever is handed one, from whatever thread, needs no further promise.
#[derive(Drop)]
pub struct Numbered<'a, T: Target> {
    pub(crate) input: &'a RunInput<'a, T>,
    pub(crate) number: u32,
    pub(crate) verdict: Verdict,
}

impl<'a, T: Target> Model for Numbered<'a, T> {
    ghost use Rattle.result_book.specs.Slots.{Pair};

    ghost Value = { Pair };

    ghost use Rattle.std.specs.Prelude.{◌≡◌, ℕ, ◌<◌, length, slice_index_or, []};
    ghost use Rattle.result_book.specs.Says.{input_says};

    ghost view = { λ n. record { number = n.number; verdict = n.verdict } };

    ghost invariant = { λ n. (setup : T) × (n.verdict ≡ input_says T.Target setup n.input.now n.number (slice_index_or n.input.now.plans.now n.number [])) };
}

impl<'a, T: Target> Numbered<'a, T> {
    /// Runs the plan of this number. The random words are those of the stream of the plan's number, whichever worker runs it.
    ///
    /// An error means that memory was refused. The target keeps its setup, even after an error.
    pub fn run(
        alloc: Global,
        target: &mut T,
        input: &'a RunInput<'a, T>,
        number: u32,
    ) -> Result<Self, AllocError>
        requires { number < length input.now.plans.now }
        ensures ok { IfOk result (λ pair. pair ≡ record {
          number = number;
          verdict = input_says T.Target target.old input.now number (slice_index_or input.now.plans.now number []);
        }) }
        ensures setup { target.new ≡ target.old }
    {
        let mut workspace = Workspace::new(alloc);
        let rigger = input.plans.rigger(T::catalogue());
        let mut unwatched = Vec::new(alloc);
        let verdict = verdict_of(
            target,
            &rigger,
            &mut workspace,
            input,
            number,
            &mut unwatched,
        )?;
        Ok(Numbered {
            input,
            number,
            verdict,
        })
    }

    /// The plan's number.
    pub fn number(&self) -> u32
        ensures { result ≡ self.now.number }
    {
        self.number
    }

    /// The plan's verdict.
    pub fn verdict(&self) -> Verdict
        ensures { result ≡ self.now.verdict }
    {
        self.verdict
    }
}
