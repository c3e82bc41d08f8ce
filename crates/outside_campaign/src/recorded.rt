//! What is recorded of a component, with the plans that it makes known. Questions on a campaign are put to this one value, with a depth or without.
ghost use Rattle.std.specs.Prelude.{◌≡◌, ℕ, List, IfErr, IfOk, string_bytes};
ghost use Rattle.outside_campaign.specs.Recorded.{Records, depth_of, strangers_of};
ghost use Rattle.outside_campaign.specs.with_depth.Questions.{IsAskedTo, IsKnownTo, IsReportedTo, Refuses, RefusesYet};

use crate::asking::asks_text;
use crate::campaign::OutsideCampaign;
use crate::partial::partial_text;
use crate::reporting::report_text;
use crate::with_depth::{QuestionFault, grown_lines, grown_partial, grown_report};
use answer_text::{Runs, Stranger};
use answered_runs::KnownPlans;
use grown_plans::CampaignPlans;
use report::Form;
use std::alloc::Global;

/// What a text of answers records of a component, with the plans of its campaign.
#[derive(Clone, Copy)]
pub enum Recorded<'a, 'p> {
    /// Without a depth: what is recorded, and the list of plans, which the settings' counts of hits give.
    ByCensus(&'a Runs, &'a CampaignPlans<'p>),
    /// With a depth: the recorded runs, and the plans that they make known.
    ByRuns(&'a KnownPlans<'p>),
}

impl<'a, 'p> Recorded<'a, 'p> {
    /// The names in answered scenarios that no point has.
    pub fn strangers(self) -> &'a [Stranger]
        ensures { result.now ≡ strangers_of self.entry }
    {
        match self {
            Recorded::ByCensus(runs, _) => runs.strangers(),
            Recorded::ByRuns(known) => known.runs().runs().strangers(),
        }
    }

    /// The lines that ask for what is still to be tried. If all is known, and only then, there is no line. Any of the scenarios may be tried, in any
    /// order.
    ///
    /// Without a depth the open candidates of the reductions come first, and then each plan that isn't answered. With one the plans that are known by
    /// now come first. Once every plan is answered, the candidates of the reductions and of the test for causes are asked for.
    ///
    /// `TooManyPlans` comes only with a depth, if more than 65536 plans are known, or the run without faults has at least as many hits. Any other fault
    /// means that memory was refused.
    pub fn asks_text(
        self,
        alloc: Global,
        campaign: &OutsideCampaign<'_>,
    ) -> Result<String, QuestionFault>
        requires { (answers : List ℕ) × Records campaign.now.outside.now campaign.now.settings.now answers self }
        ensures text { IfOk result (λ text. (answers : List ℕ) → Records campaign.now.outside.now campaign.now.settings.now answers self.entry
            → IsAskedTo (depth_of self.entry) campaign.now.outside.now campaign.now.settings.now answers (string_bytes text)) }
        ensures fault { IfErr result (λ why. (answers : List ℕ) → Records campaign.now.outside.now campaign.now.settings.now answers self.entry
            → RefusesYet (depth_of self.entry) campaign.now.outside.now campaign.now.settings.now answers why) }
    {
        match self {
            Recorded::ByCensus(runs, plans) => Ok(asks_text(alloc, runs, plans)?),
            Recorded::ByRuns(known) => {
                let lines = grown_lines(alloc, known, campaign.settings)?;
                Ok(lines.text(alloc)?)
            }
        }
    }

    /// The text of the report in a form, and the number of the first plan that fails. It is that of every component that agrees with the answers: a
    /// function from tidied scenarios to verdicts or, with a depth, one whose next hit is a function of the answers to its earlier hits.
    ///
    /// `NotAnswered` has a scenario that is still to be tried, if there is one; the other faults are those of
    /// [`asks_text`](Recorded::asks_text).
    pub fn report_text(
        self,
        alloc: Global,
        campaign: &'p OutsideCampaign<'p>,
        form: &Form<'_>,
    ) -> Result<(Vec<u8>, Option<u32>), QuestionFault>
        requires { (answers : List ℕ) × Records campaign.now.outside.now campaign.now.settings.now answers self }
        ensures text { IfOk result (λ r. (answers : List ℕ) → Records campaign.now.outside.now campaign.now.settings.now answers self.entry
            → IsReportedTo (depth_of self.entry) form.now campaign.now.outside.now campaign.now.settings.now answers r.0.items r.1) }
        ensures fault { IfErr result (λ why. (answers : List ℕ) → Records campaign.now.outside.now campaign.now.settings.now answers self.entry
            → Refuses (depth_of self.entry) campaign.now.outside.now campaign.now.settings.now answers why) }
    {
        match self {
            Recorded::ByCensus(runs, plans) => Ok(report_text(alloc, form, campaign, runs, plans)?),
            Recorded::ByRuns(known) => grown_report(alloc, form, campaign, known),
        }
    }

    /// The text of the interim report, on the plans that are known by now, and whether one of them is known to fail. The faults are those of
    /// [`asks_text`](Recorded::asks_text).
    pub fn partial_text(
        self,
        alloc: Global,
        campaign: &OutsideCampaign<'_>,
    ) -> Result<(String, bool), QuestionFault>
        requires { (answers : List ℕ) × Records campaign.now.outside.now campaign.now.settings.now answers self }
        ensures text { IfOk result (λ r. (answers : List ℕ) → Records campaign.now.outside.now campaign.now.settings.now answers self.entry
            → IsKnownTo (depth_of self.entry) campaign.now.outside.now campaign.now.settings.now answers (string_bytes r.0) r.1) }
        ensures fault { IfErr result (λ why. (answers : List ℕ) → Records campaign.now.outside.now campaign.now.settings.now answers self.entry
            → RefusesYet (depth_of self.entry) campaign.now.outside.now campaign.now.settings.now answers why) }
    {
        match self {
            Recorded::ByCensus(runs, plans) => Ok(partial_text(
                alloc, campaign, runs, plans, false,
            )?),
            Recorded::ByRuns(known) => grown_partial(alloc, campaign, known),
        }
    }
}
