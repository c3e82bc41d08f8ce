//! The verdicts of scenarios, as far as they are known.
ghost use Rattle.std.specs.Prelude.{◌≡◌, IfOk};
ghost use Rattle.scenario_values.specs.Tidied.{tidied};

use answer_text::Runs;
use scenario_values::Scenario;
use std::alloc::{AllocError, Global};
use target_trait::Verdict;

/// The verdicts of tidied scenarios, as far as they are known.
pub trait VerdictTable {
    ghost use Rattle.answer_text.specs.Known.{KnownVerdicts};

    /// The verdict of each tidied scenario, if it is known.
    ghost verdicts: { Self → KnownVerdicts };

    /// The verdict of the scenario once it is tidied, if it is known. An error means that memory was refused.
    fn look_up(&self, alloc: Global, scenario: &Scenario) -> Result<Option<Verdict>, AllocError>
        ensures { IfOk result (λ verdict. verdict ≡ verdicts self.now (tidied scenario.now)) };
}

/// The verdicts that answers record.
impl VerdictTable for Runs {
    ghost use Rattle.answer_text.specs.Known.{verdicts_in};
    ghost use Rattle.answer_text.specs.Runs.{told_in};

    ghost verdicts = { λ book. verdicts_in (told_in book) };

    fn look_up(&self, alloc: Global, scenario: &Scenario) -> Result<Option<Verdict>, AllocError> {
        self.verdict_of(alloc, scenario)
    }
}
