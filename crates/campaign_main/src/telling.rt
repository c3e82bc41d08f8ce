//! The commands over a target that describes the end of a run.
ghost use Rattle.std.specs.Prelude.{◌≡◌, false};
ghost use Rattle.campaign_core.specs.Headline.{campaign_in};
ghost use Rattle.campaign_core.specs.Writes.{change};
ghost use Rattle.campaign_main.specs.Ends.{EndsAs, OnWhole, TellsAs};
ghost use Rattle.campaign_main.specs.Promises.{KeepsPromises};
ghost use Rattle.campaign_main.specs.OwnTarget.{telling_answer};

use crate::exit::Exit;
use crate::lines::end_outcome;
use crate::own::own_command;
use campaign_core::{Host, Subject};
use command_words::Order;
use report::ToldEnd;
use std::sync::Wait;
use std::thread::Threads;
use target_trait::{Sink, TellingTarget};
use work_gate::Gate;

/// Does what [`crate::perform_settings`] does, with the same lines and ends, over a target that describes the end of a run. `explain` writes two more
/// lines: `state` with the state in which the run was judged, and `judged` with the reason, as the target words them. [`report::ToldEnd`] says
/// how they are written, and when one is left out.
pub fn perform_telling<
    T: TellingTarget + Send,
    W: Sink,
    E: Sink,
    H: Threads + Wait + Sync,
    G: Gate,
>(
    host: &Host<'_, G, H>,
    order: &Order,
    subject: &Subject<'_, T>,
    output: &mut W,
    faults: &mut E,
) -> Exit
where
    T::Workload: Sync,
    requires output { W.has_failed output.old ≡ false }
    requires faults { E.has_failed faults.old ≡ false }
    ensures end { EndsAs result (telling_answer (T.state_of subject.now.target.now subject.now.workload.now)
        (T.reason_of subject.now.target.now subject.now.workload.now) order.now (campaign_in T.Target subject.now))
        (change W.Sink output.old output.new) }
    ensures told { TellsAs result (telling_answer (T.state_of subject.now.target.now subject.now.workload.now)
        (T.reason_of subject.now.target.now subject.now.workload.now) order.now (campaign_in T.Target subject.now))
        (change E.Sink faults.old faults.new) }
    ensures promises { OnWhole result (KeepsPromises order.now (campaign_in T.Target subject.now)) }
{
    let outcome = own_command(host, subject, &ToldEnd, order, output);
    end_outcome(host.alloc, outcome, faults)
}
