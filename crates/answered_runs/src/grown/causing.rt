//! Which plans are causes.
ghost use Rattle.std.specs.Prelude.{◌≡◌, ◌<◌, ◌≤◌, ◌++◌, ◌∷◌, [], length, map, slice_index_or, if◌then◌else◌, IfOk, OnOk};
ghost use Rattle.answer_text.specs.Runs.{told_in};
ghost use Rattle.grown_plans.specs.GrownPlans.{Subject, rigs_of};
ghost use Rattle.grown_plans.specs.Promises.{lesser};
ghost use Rattle.answered_runs.specs.Components.{AgreesWithRuns, IsComponent};
ghost use Rattle.answered_runs.specs.grown.Causes.{AreAmong, AreCauses, AreCausesOf, AreVerdictsFrom, cause_known, is_failure, known_causes, one_fails, open_of, open_scenarios, rigged_in, unknown, verdicts_in};

use crate::{KnownPlans, rigged_scenario};
use action_eval::Rig;
use grown_plans::rigs_of;
use grown_runs::leave_out;
use scenario_values::{Scenario, tidy};
use std::alloc::{AllocError, Global};
use target_trait::Verdict;

/// Which plans are causes, or what has to be tried first.
#[derive(Debug, Drop)]
pub enum Causes {
    /// The number and the code of each cause, in the order of the plans.
    Told(Vec<(u32, u32)>),
    /// The tidied scenarios whose verdicts decide which plans are causes; at least one. Two of them may be equal.
    Open(Vec<Scenario>),
}

/// The causes among the plans so far, the scenarios whose verdicts have yet to decide, and lists in which a plan's rigged hits are made.
#[derive(Drop)]
struct Search {
    causes: Vec<(u32, u32)>,
    waiting: Vec<Scenario>,
    faults: Vec<Rig>,
    ordered: Vec<Rig>,
    rigs: Vec<Rig>,
}

/// Whether a verdict is known to be a failure with this code.
fn is_failure(verdict: Option<Verdict>, code: u32) -> bool
    ensures { result ≡ is_failure code verdict }
{
    match verdict {
        Some(Verdict::Fail(other)) => other == code,
        Some(Verdict::Pass | Verdict::Unresolved) | None => false,
    }
}

/// The verdict of rigged hits, if it is known. If it isn't, their tidied scenario is added.
fn verdict_or_open(
    alloc: Global,
    known: &KnownPlans<'_>,
    rigs: &[Rig],
    waiting: &mut Vec<Scenario>,
) -> Result<Option<Verdict>, AllocError>
    requires { length rigs.now ≤ 64 }
    ensures verdict { IfOk result (λ verdict. verdict ≡ verdicts_in known.now.answered known.now.depth rigs.now) }
    ensures waiting { OnOk result (waiting.new.items ≡ waiting.old.items ++ map (rigged_in known.now.answered)
        (unknown (verdicts_in known.now.answered known.now.depth) (rigs.now ∷ []))) }
{
    let runs = known.runs();
    let scenario = rigged_scenario(alloc, runs.points(), rigs)?;
    let verdict = runs.verdict_of(alloc, known.depth(), &scenario)?;
    if verdict.is_none() {
        waiting.push(tidy(alloc, &scenario)?)?;
    }
    Ok(verdict)
}

/// Whether these rigged hits without one of them are known to fail with this code, whichever is left out. If no such failure is known, the scenarios
/// with one left out whose verdicts aren't known are added.
fn one_fails(
    alloc: Global,
    known: &KnownPlans<'_>,
    rigs: &[Rig],
    code: u32,
    waiting: &mut Vec<Scenario>,
) -> Result<bool, AllocError>
    requires { length rigs.now ≤ 64 }
    ensures fails { IfOk result (λ fails. fails ≡ one_fails (verdicts_in known.now.answered known.now.depth) code (lesser rigs.now)) }
    ensures waiting { OnOk result (waiting.new.items ≡ waiting.old.items ++ map (rigged_in known.now.answered)
        (if one_fails (verdicts_in known.now.answered known.now.depth) code (lesser rigs.now) then []
        else unknown (verdicts_in known.now.answered known.now.depth) (lesser rigs.now))) }
{
    let before = waiting.len();
    let mut less = Vec::new(alloc);
    for left_out in 0..rigs.len() {
        leave_out(&mut less, rigs, left_out)?;
        let verdict = verdict_or_open(alloc, known, less.as_slice(), waiting)?;
        if is_failure(verdict, code) {
            waiting.truncate(before);
            return Ok(true);
        }
    }
    Ok(false)
}

/// Adds the plan of this number if it is a cause, or else the scenarios that have to decide that. `verdict` is the plan's, if it is known.
fn note(
    alloc: Global,
    known: &KnownPlans<'_>,
    number: usize,
    verdict: Option<Verdict>,
    search: &mut Search,
) -> Result<(), AllocError>
    requires within { number < length known.now.list.plans }
    requires verdict { verdict ≡ verdicts_in known.now.answered known.now.depth (rigs_of (slice_index_or known.now.list.plans number [])) }
    ensures causes { OnOk result (search.new.causes.items ≡ search.old.causes.items
        ++ cause_known (verdicts_in known.now.answered known.now.depth) number (slice_index_or known.now.list.plans number [])) }
    ensures waiting { OnOk result (search.new.waiting.items ≡ search.old.waiting.items
        ++ map (rigged_in known.now.answered) (open_of (verdicts_in known.now.answered known.now.depth) (slice_index_or known.now.list.plans number []))) }
{
    if let Some(Verdict::Pass | Verdict::Unresolved) = verdict {
        return Ok(());
    }
    known.list().plans.faults_of(number, &mut search.faults)?;
    rigs_of(
        &mut search.rigs,
        &mut search.ordered,
        search.faults.as_slice(),
    )?;
    let rigs = search.rigs.as_slice();
    let waiting = &mut search.waiting;
    match verdict {
        Some(Verdict::Fail(code)) => {
            if !one_fails(alloc, known, rigs, code, waiting)? {
                search.causes.push((number as u32, code))?;
            }
        }
        Some(Verdict::Pass | Verdict::Unresolved) | None => {
            let scenario = rigged_scenario(alloc, known.runs().points(), rigs)?;
            waiting.push(tidy(alloc, &scenario)?)?;
        }
    }
    Ok(())
}

/// The causes among all plans, and the scenarios whose verdicts have yet to decide. `verdicts` has those of the plans.
fn find_all(
    alloc: Global,
    known: &KnownPlans<'_>,
    verdicts: &[Option<Verdict>],
) -> Result<Search, AllocError>
    requires { AreVerdictsFrom known.now.answered known.now.depth known.now.list.plans verdicts.now }
    ensures causes { IfOk result (λ search. search.causes.items
        ≡ known_causes (verdicts_in known.now.answered known.now.depth) known.now.list.plans) }
    ensures waiting { IfOk result (λ search. search.waiting.items ≡ open_scenarios known.now.answered known.now.depth known.now.list.plans) }
{
    let mut search = Search {
        causes: Vec::new(alloc),
        waiting: Vec::new(alloc),
        faults: Vec::new(alloc),
        ordered: Vec::new(alloc),
        rigs: Vec::new(alloc),
    };
    for number in 0..known.list().plans.len() {
        note(alloc, known, number, verdicts[number], &mut search)?;
    }
    Ok(search)
}

/// Which of the known plans are causes. A cause fails with a code, and without any one of its rigged hits it doesn't fail with this code. The
/// verdicts are the recorded ones, and those that follow from them with plans of at most as many faults as the depth says.
///
/// If a plan with one rigged hit left out is known to fail with the same code, the plan is no cause, whatever else isn't known. Otherwise the
/// scenarios with one left out whose verdicts aren't known are open. So is the scenario of a plan whose own verdict isn't known. Causes are returned
/// once no scenario is open.
///
/// `verdicts` begins with those of the plans; what stands behind them makes no difference. An error means that memory was refused.
pub fn known_causes(
    alloc: Global,
    known: &KnownPlans<'_>,
    verdicts: &[Option<Verdict>],
) -> Result<Causes, AllocError>
    requires { AreVerdictsFrom known.now.answered known.now.depth known.now.list.plans verdicts.now }
    ensures known { IfOk result (AreCauses known.now.answered known.now.depth known.now.list.plans) }
    ensures among { IfOk result (AreAmong (length known.now.list.plans)) }
    // For every component that agrees with the answers.
    ensures whole { IfOk result (λ causes. (t : Subject) → IsComponent known.now.answered.points known.now.answered.listed t
        → AgreesWithRuns t (told_in known.now.answered.book) → AreCausesOf t known.now.list.plans causes) }
{
    let _ = known.list();
    let Search {
        causes,
        waiting,
        ..
    } = find_all(alloc, known, verdicts)?;
    if waiting.is_empty() {
        Ok(Causes::Told(causes))
    } else {
        Ok(Causes::Open(waiting))
    }
}
