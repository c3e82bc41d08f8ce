//! How a campaign ends, and why a command over a target didn't write its whole text.
ghost use Rattle.std.specs.Prelude.{◌≡◌};
ghost use Rattle.campaign_core.specs.declared.ending.CampaignFault.TheVariants.{Memory, Write};
ghost use Rattle.campaign_core.specs.CommandTexts.{plan_fault};

use plan_gen::PlanFault;
use report::WriteFault;
use std::alloc::AllocError;

/// How a campaign ended whose report was written.
#[derive(Clone, Copy, Debug, PartialEq, Eq)]
pub struct Ending {
    /// The number of the first plan that fails; `None` if no plan fails.
    pub first: Option<u32>,
}

/// Why no whole text was written.
#[derive(Clone, Copy, Debug, PartialEq, Eq)]
pub enum CampaignFault {
    /// The list has more than 65536 plans. Nothing was written.
    TooManyPlans,
    /// Memory was refused. Nothing was written.
    Memory,
    /// A write failed after this many bytes of the text.
    Write(u64),
}

impl From<AllocError> for CampaignFault {
    ghost from_gives = { λ _ fault. fault ≡ Memory };

    fn from(_: AllocError) -> CampaignFault {
        CampaignFault::Memory
    }
}

impl From<PlanFault> for CampaignFault {
    ghost from_gives = { λ cause fault. fault ≡ plan_fault cause };

    fn from(cause: PlanFault) -> CampaignFault {
        match cause {
            PlanFault::TooManyPlans => CampaignFault::TooManyPlans,
            PlanFault::Memory => CampaignFault::Memory,
        }
    }
}

impl From<WriteFault> for CampaignFault {
    ghost from_gives = { λ cause fault. fault ≡ Write cause.written };

    fn from(cause: WriteFault) -> CampaignFault {
        CampaignFault::Write(cause.written)
    }
}
