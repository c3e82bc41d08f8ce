//! The plans that are known by answers, with the recorded run of each.
ghost use Rattle.std.specs.Prelude.{◌≡◌, ◌≤◌, ◌<◌, ◌^◌, [], length, map, option_map, slice_index_or, IfOk, IsErrOf, OnOk};
ghost use Rattle.std.specs.List.{AllByRecursion};
ghost use Rattle.grown_runs.specs.known.Looks.{IsLook};
ghost use Rattle.answered_runs.specs.Answered.{known_plans, plan_told, runs_in, told_of};
ghost use Rattle.answered_runs.specs.KnownLists.{IsKnownList, known_list, verdict_told};
ghost use Rattle.answered_runs.specs.WholeList.{AreTold, unseen_count};

use crate::table::AnsweredRuns;
use answer_text::ToldRun;
use grown_plans::{GrownList, Kinds};
use grown_runs::{Look, ToldList, read_found};
use plan_gen::{MOST_PLANS, PlanFault};
use std::alloc::{AllocError, Global};
use std::marker::Model;
use target_trait::Verdict;

/// The plans up to a depth that are known by answers, each with its recorded run, if there is one. Each plan was looked up once, so its run is read
/// by its number. Contracts see the answers, the depth and the list.
#[derive(Drop)]
pub struct KnownPlans<'a> {
    runs: &'a AnsweredRuns<'a>,
    depth: u32,
    told: ToldList<'a, ToldRun>,
}

impl<'a> Model for KnownPlans<'a> {
    ghost use Rattle.std.specs.Prelude.{◌≡◌, ◌≤◌, length, map, option_map};
    ghost use Rattle.answered_runs.specs.Answered.{plan_told, runs_in, told_of};
    ghost use Rattle.answered_runs.specs.KnownLists.{IsKnownList, KnownList, known_list};

    ghost Value = { KnownList };

    ghost view = { λ k. known_list k.runs.now k.depth k.told.list };

    ghost invariant = { λ k. (k.depth ≤ 64) × IsKnownList k.runs.now k.depth k.told.list × (length k.told.list.plans ≤ 65536)
        × (map (option_map (λ r. told_of r.now)) k.told.runs.items ≡ map (runs_in k.runs.now) k.told.list.plans)
        × (map (option_map (λ r. r.now)) k.told.runs.items ≡ map (plan_told k.runs.now) k.told.list.plans) };
}

/// The plans that are known, each with its recorded run, if there is one.
fn found_plans<'a>(
    alloc: Global,
    runs: &'a AnsweredRuns<'a>,
    depth: u32,
) -> Result<ToldList<'a, ToldRun>, PlanFault>
    requires { depth ≤ 64 }
    ensures list { IfOk result (λ told. IsKnownList runs.now depth told.list) }
    ensures found { IfOk result (λ told. map (option_map (λ r. told_of r.now)) told.runs.items ≡ map (runs_in runs.now) told.list.plans) }
    ensures kept { IfOk result (λ told. map (option_map (λ r. r.now)) told.runs.items ≡ map (plan_told runs.now) told.list.plans) }
    ensures few { IfOk result (λ told. length told.list.plans ≤ 65536) }
    ensures many { IsErrOf result PlanFault.TooManyPlans → 65536 < length (known_plans runs.now depth) }
{
    let kinds = Kinds::with(runs.points(), runs.listed());
    grown_runs::known_plans(alloc, runs, &kinds, depth, MOST_PLANS)
}

impl<'a> KnownPlans<'a> {
    /// The plans up to a depth that are known by now, in the order of the list; the depth is at most 64. A plan is known once the hits of each plan
    /// that it grew from are recorded, so it needn't wait until all of their level are.
    ///
    /// `TooManyPlans` comes only if there are more than 65536.
    pub fn of(alloc: Global, runs: &'a AnsweredRuns<'a>, depth: u32) -> Result<Self, PlanFault>
        requires { depth ≤ 64 }
        ensures known { IfOk result (λ known. (known.answered ≡ runs.now) × (known.depth ≡ depth)) }
        ensures many { IsErrOf result PlanFault.TooManyPlans → 65536 < length (known_plans runs.now depth) }
    {
        let told = found_plans(alloc, runs, depth)?;
        Ok(KnownPlans { runs, depth, told })
    }

    /// The plans, and how many each level has.
    pub fn list(&self) -> &GrownList
        ensures same { result.now ≡ self.now.list }
        ensures known { IsKnownList self.now.answered self.now.depth self.now.list }
        ensures few { length self.now.list.plans ≤ 65536 }
        ensures low { self.now.depth ≤ 64 }
    {
        &self.told.list
    }

    /// The depth, up to 64.
    pub fn depth(&self) -> u32
        ensures { result ≡ self.now.depth }
    {
        self.depth
    }

    /// The table of recorded runs.
    pub fn runs(&self) -> &'a AnsweredRuns<'a>
        ensures { result.now ≡ self.now.answered }
    {
        self.runs
    }

    /// What is recorded of the run of the plan of this number. If its hits are recorded, their points are put into the list, in place of what stood
    /// there. An error means that memory was refused.
    pub fn look(&self, number: usize, hits: &mut Vec<u32>) -> Result<Look, AllocError>
        requires { number < length self.now.list.plans }
        ensures told { IfOk result (IsLook (runs_in self.now.answered (slice_index_or self.now.list.plans number [])) hits.new.items) }
        ensures points { OnOk result (AllByRecursion (λ p. p < 64) hits.new.items) }
        ensures few { OnOk result (length hits.new.items < 2 ^ 32) }
    {
        read_found(self.runs, self.told.runs[number], hits)
    }

    /// The recorded verdict of the plan of this number, if there is one.
    pub fn verdict_told(&self, number: usize) -> Option<Verdict>
        requires { number < length self.now.list.plans }
        ensures { result ≡ verdict_told (runs_in self.now.answered) (slice_index_or self.now.list.plans number []) }
    {
        match self.told.runs[number] {
            Some(run) => Some(run.verdict),
            None => None,
        }
    }

    /// The recorded run of the plan of this number, if there is one.
    pub(crate) fn told(&self, number: usize) -> Option<&ToldRun>
        requires { number < length self.now.list.plans }
        ensures { option_map (λ r. r.now) result ≡ plan_told self.now.answered (slice_index_or self.now.list.plans number []) }
    {
        self.told.runs[number]
    }

    /// The number of the first plan whose run isn't recorded.
    pub fn gap(&self) -> Option<usize>
        ensures { AreTold (runs_in self.now.answered) self.now.list.plans result }
    {
        for number in 0..self.list().plans.len() {
            match self.verdict_told(number) {
                Some(_) => {}
                None => return Some(number),
            }
        }
        None
    }

    /// How many of the plans have a run that is recorded without its hits. Nothing grows from these. An error means that memory was refused.
    pub fn unseen(&self, alloc: Global) -> Result<u32, AllocError>
        ensures { IfOk result (λ unseen. unseen ≡ unseen_count (runs_in self.now.answered) self.now.list.plans) }
    {
        let mut hits = Vec::new(alloc);
        let mut unseen = 0;
        for number in 0..self.list().plans.len() {
            match self.look(number, &mut hits)? {
                Look::Unseen(_) => unseen += 1,
                Look::Seen(_) | Look::Unknown => {}
            }
        }
        Ok(unseen)
    }
}
