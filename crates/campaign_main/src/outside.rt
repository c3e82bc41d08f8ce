//! A command on a component that somebody else runs.
ghost use Rattle.std.specs.Prelude.{◌≡◌, None, false};
ghost use Rattle.campaign_main.specs.Commands.{outside_answer, outside_plans};
ghost use Rattle.campaign_main.specs.Notes.{listed_notes};
ghost use Rattle.campaign_core.specs.Writes.{change};
ghost use Rattle.campaign_main.specs.Ends.{ComesTo};

use crate::exit::{Answered, Conclusion};
use crate::fault::CommandFault;
use crate::notes::listed_outside;
use command_words::Order;
use outside_campaign::{OutsideCampaign, list_plans};
use std::alloc::Global;
use target_trait::Sink;

/// Writes the list of plans. The notes are on the listed scenarios.
fn list<W: Sink>(
    alloc: Global,
    campaign: &OutsideCampaign<'_>,
    output: &mut W,
) -> Result<Answered, CommandFault>
    requires { W.has_failed output.old ≡ false }
    ensures { ComesTo (outside_answer Order.Plans None (outside_plans campaign.now.settings.now campaign.now.outside.now)
        (listed_notes campaign.now.outside.now.points campaign.now.settings.now.plans.listed)) (change W.Sink output.old output.new) result }
{
    let notes = listed_outside(alloc, campaign)?;
    list_plans(alloc, campaign, output)?;
    Ok(Answered {
        conclusion: Conclusion::Clean,
        notes,
    })
}

/// Lists the plans of a component that somebody else runs, unless they grow from answers, and refuses any other order.
#[tactic(auto, unfolding(crate::specs::Commands::outside_answer))]
pub fn outside_command<W: Sink>(
    alloc: Global,
    order: &Order,
    campaign: &OutsideCampaign<'_>,
    output: &mut W,
) -> Result<Answered, CommandFault>
    requires { W.has_failed output.old ≡ false }
    ensures { ComesTo (outside_answer order.now campaign.now.settings.now.depth (outside_plans campaign.now.settings.now campaign.now.outside.now)
        (listed_notes campaign.now.outside.now.points campaign.now.settings.now.plans.listed)) (change W.Sink output.old output.new) result }
{
    let settings = campaign.settings;
    match order {
        Order::Plans => match settings.depth {
            None => list(alloc, campaign, output),
            Some(_) => Err(CommandFault::OutsideWithDepth),
        },
        Order::Run { .. } | Order::Try(_) | Order::Reduce(_) | Order::Explain(_) => Err(
            CommandFault::Outside,
        ),
    }
}
