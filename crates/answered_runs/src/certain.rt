//! Scenarios whose terms leave nothing to chance.
ghost use Rattle.std.specs.Prelude.{◌≡◌, true, take};
ghost use Rattle.std.specs.List.{list_all};
ghost use Rattle.scenario_values.specs.Scenario.{IsScenario};
ghost use Rattle.answered_runs.specs.Agreement.{is_certain, is_sure};

use scenario_values::{FULL_SHARE, Scenario, Term};

/// Whether a term acts at each hit that reaches it, or at none.
fn is_sure(term: &Term) -> bool
    ensures { result ≡ is_sure term.now }
{
    term.share == 0 || term.share == FULL_SHARE
}

/// Whether each of these terms does.
fn are_sure(terms: &[Term]) -> bool
    ensures { result ≡ list_all is_sure terms.now }
{
    terms.iter().all(|term| is_sure(term))
}

/// Whether each term of a scenario does, so that no hit is answered by chance.
pub(crate) fn is_certain(scenario: &Scenario) -> bool
    ensures certain { result ≡ is_certain scenario.now }
    ensures lawful { IsScenario scenario.now }
{
    let _ = scenario.entries();
    for entry in 0..scenario.len() {
        if !are_sure(scenario.chain(entry)) {
            return false;
        }
    }
    true
}
