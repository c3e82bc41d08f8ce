//! The outcome of a run under a scenario that is given as a text.
ghost use Rattle.std.specs.Prelude.{◌≡◌, IfOk, IfErr};
ghost use Rattle.scenario_values.specs.Scenario.{Entries};
ghost use Rattle.scenario_grammar.specs.FirstFault.{Tells};
ghost use Rattle.scenario_grammar.specs.Spelling.{Spells};
ghost use Rattle.action_eval.specs.Answers.{given_of};
ghost use Rattle.target_trait.specs.Outcomes.{outcome};
ghost use Rattle.target_checks.specs.Singles.{seed};

use scenario_grammar::{ScenarioFault, parse};
use std::alloc::Global;
use target_trait::{Case, Outcome, Target, run_case};

// The seed of all runs.
pub const SEED: u64 = 7;

/// The outcome of one run of a target under a text's scenario, with seed 7 and stream number 0. At most `max_hits` hits are answered.
///
/// # Errors
///
/// The first fault of the text (then the target isn't run), or that memory was refused. The target keeps its setup.
pub fn outcome_of<T: Target>(
    alloc: Global,
    target: &mut T,
    workload: &T::Workload,
    scenario: &str,
    max_hits: u32,
) -> Result<Outcome, ScenarioFault>
    ensures told { IfOk result (λ told. (s : Entries) × Spells scenario.now s
        × (told ≡ outcome (T.asks target.old workload.now) (given_of s T.names seed 0 max_hits))) }
    ensures fault { IfErr result (λ fault. Tells fault scenario.now) }
    ensures setup { target.new ≡ target.old }
{
    let scenario = parse(alloc, scenario)?;
    let case = Case {
        scenario: &scenario,
        seed: SEED,
        stream: 0,
        max_hits,
    };
    Ok(run_case(alloc, target, workload, &case)?)
}
