//! Why a command over a target didn't write its whole text.
ghost use Rattle.std.specs.Prelude.{◌≡◌};
ghost use Rattle.campaign_main.specs.declared.fault.CommandFault.TheVariants.{Campaign, Scenario};
ghost use Rattle.campaign_core.specs.declared.ending.CampaignFault.TheVariants.{Memory};

use campaign_core::CampaignFault;
use scenario_grammar::ScenarioFault;
use std::alloc::AllocError;

/// Why a command over a target didn't write its whole text.
#[derive(Debug, Drop)]
pub enum CommandFault {
    /// The text of the command's scenario spells none. Nothing was written.
    Scenario(ScenarioFault),
    /// The campaign has no plan of this number. Nothing was written.
    Plan(u16),
    /// What was to be done with the target gave no text, or the text wasn't written whole.
    Campaign(CampaignFault),
    /// The target breaks a law, or its verdict on a plan changed in a second run. The text is the line that says so, with its line feed. Nothing was
    /// written.
    Unlawful(String),
    /// Somebody else runs the component, but the command would have to run it. Nothing was written.
    Outside,
    /// Somebody else runs the component, and with a depth its plans grow from answers, which the command doesn't read. Nothing was written.
    OutsideWithDepth,
}

impl From<ScenarioFault> for CommandFault {
    ghost from_gives = { λ cause fault. fault ≡ Scenario cause };

    fn from(cause: ScenarioFault) -> CommandFault {
        CommandFault::Scenario(cause)
    }
}

impl From<AllocError> for CommandFault {
    ghost from_gives = { λ _ fault. fault ≡ Campaign Memory };

    fn from(_: AllocError) -> CommandFault {
        CommandFault::Campaign(CampaignFault::Memory)
    }
}

impl From<CampaignFault> for CommandFault {
    ghost from_gives = { λ cause fault. fault ≡ Campaign cause };

    fn from(cause: CampaignFault) -> CommandFault {
        CommandFault::Campaign(cause)
    }
}
