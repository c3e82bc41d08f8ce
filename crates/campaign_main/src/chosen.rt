//! A command over the target that the settings choose.
ghost use Rattle.std.specs.Prelude.{◌≡◌, false, IfSome, OnOk};
ghost use Rattle.campaign_main.specs.Commands.{bundled_answer, campaign_for, campaign_to_cut_in, campaign_with_cut_in, choice_answer, cut_answer};
ghost use Rattle.campaign_core.specs.Writes.{change};
ghost use Rattle.campaign_main.specs.Ends.{ComesTo};
ghost use Rattle.campaign_main.specs.Promises.{KeepsPromises};

use crate::command::command;
use crate::cut_end::CutEnd;
use crate::exit::Answered;
use crate::fault::CommandFault;
use crate::outside::outside_command;
use crate::pending::TellsWrites;
use campaign_core::{Host, Subject};
use campaign_settings::{Choice, Settings};
use command_words::Order;
use commit_target::Commit;
use file_replace::Replace;
use maildir_target::Maildir;
use outside_campaign::OutsideCampaign;
use report::NoEnd;
use std::sync::Wait;
use std::thread::Threads;
use target_trait::{Sink, Target, WithCut};
use work_gate::Gate;

/// Does what is ordered with a bundled target, each of whose runs ends with the power cut. An explained run says which write each hit of the cut
/// stands for.
fn command_to_cut<T: TellsWrites + Send, W: Sink, H: Threads + Wait + Sync, G: Gate>(
    host: &Host<'_, G, H>,
    subject: &Subject<'_, T>,
    order: &Order,
    output: &mut W,
) -> Result<Answered, CommandFault>
where
    T::Workload: Sync,
    requires { W.has_failed output.old ≡ false }
    ensures text { let s = subject.now in
        ComesTo (cut_answer (T.calls s.target.now s.workload.now) T.names order.now (campaign_with_cut_in T.Target T.cut s))
        (change W.Sink output.old output.new) result }
    ensures promises { OnOk result (KeepsPromises order.now (campaign_with_cut_in T.Target T.cut subject.now)) }
{
    let target = WithCut::new(subject.target.twin()?);
    let to_cut = Subject {
        target: &target,
        workload: subject.workload,
        settings: subject.settings,
    };
    let end = CutEnd {
        target: subject.target,
    };
    command(host, &to_cut, &end, order, output)
}

/// Does what is ordered with a bundled target. With crash states each of its runs ends with the power cut.
fn bundled_command<T: TellsWrites + Send, W: Sink, H: Threads + Wait + Sync, G: Gate>(
    host: &Host<'_, G, H>,
    subject: &Subject<'_, T>,
    order: &Order,
    output: &mut W,
) -> Result<Answered, CommandFault>
where
    T::Workload: Sync,
    requires { W.has_failed output.old ≡ false }
    ensures text { let s = subject.now in
        ComesTo (bundled_answer (T.calls s.target.now s.workload.now) T.names s.settings.now order.now (campaign_to_cut_in T.Target T.cut s))
        (change W.Sink output.old output.new) result }
    ensures promises { OnOk result (KeepsPromises order.now (campaign_to_cut_in T.Target T.cut subject.now)) }
{
    let settings = subject.settings;
    if settings.crash_states {
        command_to_cut(host, subject, order, output)
    } else {
        command(host, subject, &NoEnd, order, output)
    }
}

/// Does what is ordered with a bundled target and its workload, or with a component that somebody else runs.
pub fn chosen_command<W: Sink, H: Threads + Wait + Sync, G: Gate>(
    host: &Host<'_, G, H>,
    order: &Order,
    settings: &Settings,
    output: &mut W,
) -> Result<Answered, CommandFault>
    requires { W.has_failed output.old ≡ false }
    ensures text { ComesTo (choice_answer order.now settings.now.campaign settings.now.choice) (change W.Sink output.old output.new) result }
    ensures promises { OnOk result (IfSome (campaign_for settings.now.campaign settings.now.choice) (KeepsPromises order.now)) }
{
    let choice = &settings.choice;
    let settings = &settings.campaign;
    match choice {
        Choice::Replace(variant, work) => {
            let target = &Replace::new(host.alloc, *variant);
            let subject = Subject {
                target,
                workload: work,
                settings,
            };
            bundled_command(host, &subject, order, output)
        }
        Choice::Maildir(variant, work) => {
            let target = &Maildir::new(host.alloc, *variant);
            let subject = Subject {
                target,
                workload: work,
                settings,
            };
            bundled_command(host, &subject, order, output)
        }
        Choice::Commit(variant, work) => {
            let target = &Commit::new(host.alloc, *variant);
            let subject = Subject {
                target,
                workload: work,
                settings,
            };
            bundled_command(host, &subject, order, output)
        }
        Choice::Outside(outside) => {
            let campaign = OutsideCampaign { outside, settings };
            outside_command(host.alloc, order, &campaign, output)
        }
    }
}
