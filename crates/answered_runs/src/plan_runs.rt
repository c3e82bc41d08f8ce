//! Recorded runs of known plans, played.
ghost use Rattle.std.specs.Prelude.{◌≡◌, ◌<◌, ◌≤◌, [], length, slice_index_or, Some, IfOk, OnOk};
ghost use Rattle.std.specs.List.{AllByRecursion};
ghost use Rattle.scenario_values.specs.Scenario.{IsScenario};
ghost use Rattle.scenario_values.specs.Tidied.{tidied};
ghost use Rattle.action_eval.specs.RiggedScenario.{rigged_as};
ghost use Rattle.grown_plans.specs.numbered.GrownScenarios.{grown_scenario};
ghost use Rattle.answered_runs.specs.Answered.{plan_told};
ghost use Rattle.answered_runs.specs.inside.Played.{IsAdded, IsState};
ghost use Rattle.answered_runs.specs.inside.Trees.{IsPut, IsSeen, IsSound, line_seen};

use crate::broken::BrokenRun;
use crate::plans::KnownPlans;
use crate::played::{Played, add_run};
use crate::saying::{SeenRun, put_run};
use crate::scenarios::plan_scenario;
use crate::table::AnsweredRuns;
use crate::tree::AnswerTree;
use action_eval::{FaultTable, Session, SessionBuffers};
use answer_text::{ToldRun, tidied_from};
use grown_plans::RigLists;
use grown_runs::{Look, RunTable};
use scenario_values::Scenario;
use std::alloc::{AllocError, Global};
use std::mem;

/// What the runs of plans are played in, one after another, so that none needs a scenario or memory of its own. What it holds before a run makes no
/// difference to the run.
#[derive(Drop)]
pub(crate) struct PlayBuffers<'a> {
    lists: RigLists,
    table: FaultTable<'a>,
    session: SessionBuffers,
    alloc: Global,
}

impl<'a> PlayBuffers<'a> {
    /// Buffers that have taken no memory yet.
    pub(crate) fn new(alloc: Global) -> Self {
        PlayBuffers {
            lists: RigLists::new(alloc),
            table: FaultTable::new(alloc),
            session: SessionBuffers::new(alloc),
            alloc,
        }
    }

    /// Rigs the faults of the plan of this number.
    fn rig(&mut self, known: &KnownPlans<'a>, number: usize) -> Result<(), AllocError>
        requires { number < length known.now.list.plans }
        ensures table { OnOk result (self.new.table
            ≡ rigged_as known.now.answered.points (grown_scenario known.now.answered.points (slice_index_or known.now.list.plans number []))) }
        ensures lawful { OnOk result (IsScenario (grown_scenario known.now.answered.points (slice_index_or known.now.list.plans number []))) }
    {
        self.lists.put(&known.list().plans, number)?;
        let rigs = self.lists.rigs.as_slice();
        self.table.load(known.runs().points(), rigs)
    }

    /// Plays a run with hits under the rigged faults, and puts what it says into the tree.
    fn put(
        &mut self,
        runs: &AnsweredRuns<'_>,
        tree: &mut AnswerTree,
        run: &SeenRun<'_>,
    ) -> Result<Option<BrokenRun>, AllocError>
        requires few { length run.now.hits.now ≤ 65536 }
        requires known { AllByRecursion (λ p. p < length runs.now.points) run.now.hits.now }
        requires names { self.old.table.names ≡ runs.now.points }
        requires lawful { IsScenario self.old.table.scenario }
        requires seen { IsSeen runs.now (tidied self.old.table.scenario) run.now }
        requires sound { IsSound runs.now tree.old }
        ensures { IfOk result (IsPut runs.now tree.old tree.new (line_seen (tidied self.old.table.scenario) run.now)) }
    {
        let left = mem::replace(&mut self.session, SessionBuffers::new(self.alloc));
        let limit = run.hits.len() as u32;
        let mut session = Session::over_in(left, &self.table, 0, 0, limit)?;
        let found = put_run(runs, tree, &mut session, run)?;
        self.session = session.into_buffers();
        Ok(found)
    }
}

/// The tidied scenario of the plan of this number.
fn scenario_of(alloc: Global, known: &KnownPlans<'_>, number: usize) -> Result<Scenario, AllocError>
    requires { number < length known.now.list.plans }
    ensures { IfOk result (λ s. s ≡ tidied (grown_scenario known.now.answered.points (slice_index_or known.now.list.plans number []))) }
{
    let _ = known.list();
    let mut faults = Vec::new(alloc);
    known.list().plans.faults_of(number, &mut faults)?;
    let scenario = plan_scenario(alloc, known.runs().points(), faults.as_slice())?;
    tidied_from(alloc, scenario)
}

/// Adds the recorded run of the plan of this number, or finds how it contradicts one that was added before, or itself.
pub(crate) fn add_told<'a>(
    known: &KnownPlans<'a>,
    buffers: &mut PlayBuffers<'a>,
    number: usize,
    played: &mut Played,
    run: &ToldRun,
) -> Result<Option<BrokenRun>, AllocError>
    requires within { number < length known.now.list.plans }
    requires state { IsState known.now.answered played.old }
    requires recorded { plan_told known.now.answered (slice_index_or known.now.list.plans number []) ≡ Some run.now }
    ensures added { IfOk result (IsAdded known.now.answered played.old played.new
        (tidied (grown_scenario known.now.answered.points (slice_index_or known.now.list.plans number []))) run.now) }
    ensures lawful { OnOk result (IsScenario (tidied (grown_scenario known.now.answered.points (slice_index_or known.now.list.plans number [])))) }
{
    let runs = known.runs();
    let line = run.line;
    let _ = runs.lines();
    buffers.rig(known, number)?;
    match runs.read(run, &mut played.hits)? {
        Look::Seen(verdict) => {
            let hits = played.hits.as_slice();
            let seen = SeenRun {
                line,
                verdict,
                hits,
            };
            buffers.put(runs, &mut played.tree, &seen)
        }
        Look::Unseen(_) | Look::Unknown => {
            let scenario = scenario_of(buffers.alloc, known, number)?;
            add_run(buffers.alloc, runs, played, scenario, run)
        }
    }
}
