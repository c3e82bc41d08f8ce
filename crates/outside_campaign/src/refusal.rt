//! Why a text by answers wasn't written whole.
ghost use Rattle.std.specs.Prelude.{◌≡◌};
ghost use Rattle.campaign_core.specs.CommandTexts.{plan_fault};
ghost use Rattle.campaign_core.specs.declared.ending.CampaignFault.TheVariants.{Memory, Write};
ghost use Rattle.outside_campaign.specs.declared.refusal.OutsideFault.TheVariants.{Campaign};
ghost use Rattle.outside_campaign.specs.Results.{answers_fault};

use answer_text::AnswersFault;
use campaign_core::CampaignFault;
use plan_gen::PlanFault;
use report::WriteFault;
use scenario_values::Scenario;
use std::alloc::AllocError;

/// Why a text by answers wasn't written whole.
#[derive(Debug, Drop)]
pub enum OutsideFault {
    /// The first fault of the answers, which is never that memory was refused. Nothing was written.
    Answers(AnswersFault),
    /// The line of this number, from 1, is the first to answer the run without faults, and some point has more or fewer hits there than the settings
    /// say. Nothing was written.
    Census(u32),
    /// This tidied scenario is the first that is still to be tried. Nothing was written.
    NotAnswered(Scenario),
    /// A fault of a campaign that the program runs itself.
    Campaign(CampaignFault),
}

impl From<AllocError> for OutsideFault {
    ghost from_gives = { λ _ fault. fault ≡ Campaign Memory };

    fn from(_: AllocError) -> OutsideFault {
        OutsideFault::Campaign(CampaignFault::Memory)
    }
}

impl From<AnswersFault> for OutsideFault {
    ghost from_gives = { λ cause fault. fault ≡ answers_fault cause };

    fn from(cause: AnswersFault) -> OutsideFault {
        match cause {
            AnswersFault::Memory => OutsideFault::Campaign(CampaignFault::Memory),
            other => OutsideFault::Answers(other),
        }
    }
}

impl From<PlanFault> for OutsideFault {
    ghost from_gives = { λ cause fault. fault ≡ Campaign (plan_fault cause) };

    fn from(cause: PlanFault) -> OutsideFault {
        OutsideFault::Campaign(CampaignFault::from(cause))
    }
}

impl From<WriteFault> for OutsideFault {
    ghost from_gives = { λ cause fault. fault ≡ Campaign (Write cause.written) };

    fn from(cause: WriteFault) -> OutsideFault {
        OutsideFault::Campaign(CampaignFault::Write(cause.written))
    }
}
