//! Why a question isn't answered.
ghost use Rattle.std.specs.Prelude.{◌≡◌};
ghost use Rattle.campaign_core.specs.CommandTexts.{plan_fault};
ghost use Rattle.campaign_core.specs.declared.ending.CampaignFault.TheVariants.{Memory, Write};
ghost use Rattle.outside_campaign.specs.Results.{answers_fault};
ghost use Rattle.outside_campaign.specs.declared.refusal.OutsideFault.TheVariants.{Campaign};
ghost use Rattle.outside_campaign.specs.declared.with_depth.fault.QuestionFault.TheVariants.{Outside, Scenario};

use crate::OutsideFault;
use answer_text::AnswersFault;
use answered_runs::BrokenRun;
use campaign_core::CampaignFault;
use plan_gen::PlanFault;
use report::WriteFault;
use scenario_grammar::ScenarioFault;
use std::alloc::AllocError;

/// Why a question on a component that somebody else runs isn't answered.
#[derive(Debug, Drop)]
pub enum QuestionFault {
    /// A fault of a campaign without a depth.
    Outside(OutsideFault),
    /// Two recorded runs contradict each other: the component's next hit isn't a function of the answers to its earlier hits, or the answers are those
    /// of two components. Nothing was written.
    Broken(BrokenRun),
    /// The text whose run is to be explained spells no scenario. Nothing was written.
    Scenario(ScenarioFault),
    /// The line of this number records the run that is to be explained, but not its hits. Nothing was written.
    Unseen(u32),
}

impl From<AllocError> for QuestionFault {
    ghost from_gives = { λ _ fault. fault ≡ Outside (Campaign Memory) };

    fn from(_: AllocError) -> QuestionFault {
        QuestionFault::Outside(OutsideFault::Campaign(CampaignFault::Memory))
    }
}

impl From<OutsideFault> for QuestionFault {
    ghost from_gives = { λ cause fault. fault ≡ Outside cause };

    fn from(cause: OutsideFault) -> QuestionFault {
        QuestionFault::Outside(cause)
    }
}

impl From<AnswersFault> for QuestionFault {
    ghost from_gives = { λ cause fault. fault ≡ Outside (answers_fault cause) };

    fn from(cause: AnswersFault) -> QuestionFault {
        QuestionFault::Outside(OutsideFault::from(cause))
    }
}

impl From<ScenarioFault> for QuestionFault {
    ghost from_gives = { λ cause fault. fault ≡ Scenario cause };

    fn from(cause: ScenarioFault) -> QuestionFault {
        QuestionFault::Scenario(cause)
    }
}

impl From<PlanFault> for QuestionFault {
    ghost from_gives = { λ cause fault. fault ≡ Outside (Campaign (plan_fault cause)) };

    fn from(cause: PlanFault) -> QuestionFault {
        QuestionFault::Outside(OutsideFault::from(cause))
    }
}

impl From<WriteFault> for QuestionFault {
    ghost from_gives = { λ cause fault. fault ≡ Outside (Campaign (Write cause.written)) };

    fn from(cause: WriteFault) -> QuestionFault {
        QuestionFault::Outside(OutsideFault::from(cause))
    }
}
