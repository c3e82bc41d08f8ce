//! The text of a run that was judged, written to a sink.
ghost use Rattle.std.specs.Prelude.{◌≡◌, false, IfOk, IfErr, OnOk};
ghost use Rattle.campaign_core.specs.CommandTexts.{LeavesOnly};
ghost use Rattle.campaign_core.specs.Writes.{change, WritesWhole};

use crate::ending::CampaignFault;
use report::write_report;
use target_trait::{Sink, Verdict};

/// Writes the whole text of a run with this verdict, and returns the verdict. The only fault is `Write`, which says how many bytes of the text, fewer
/// than all, went out before the sink failed.
pub fn write_judged<W: Sink>(
    verdict: Verdict,
    text: &str,
    sink: &mut W,
) -> Result<Verdict, CampaignFault>
    requires { W.has_failed sink.old ≡ false }
    ensures verdict { IfOk result (λ told. told ≡ verdict) }
    ensures text { OnOk result (WritesWhole text.now (change W.Sink sink.old sink.new)) }
    ensures fault { IfErr result (LeavesOnly text.now (change W.Sink sink.old sink.new)) }
{
    write_report(text.as_bytes(), sink)?;
    Ok(verdict)
}
