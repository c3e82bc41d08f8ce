//! The verdicts that follow from recorded runs.
ghost use Rattle.outside_campaign.specs.with_depth.Grown.{known};

use crate::VerdictTable;
use answered_runs::KnownPlans;
use scenario_values::Scenario;
use std::alloc::{AllocError, Global};
use std::marker::Model;
use target_trait::Verdict;

/// What recorded runs say of the verdicts of scenarios, in a campaign with a depth. Contracts see the answers, the depth and the plans.
#[derive(Drop)]
pub struct KnownByRuns<'a> {
    pub known: &'a KnownPlans<'a>,
}

impl<'a> Model for KnownByRuns<'a> {
    ghost use Rattle.answered_runs.specs.KnownLists.{KnownList};

    ghost Value = { KnownList };

    ghost view = { λ k. k.known.now };
}

impl<'a> VerdictTable for KnownByRuns<'a> {
    ghost use Rattle.outside_campaign.specs.with_depth.Grown.{known};

    ghost verdicts = { λ k. known k.answered k.depth };

    fn look_up(&self, alloc: Global, scenario: &Scenario) -> Result<Option<Verdict>, AllocError> {
        let known = self.known;
        known.runs().verdict_of(alloc, known.depth(), scenario)
    }
}
