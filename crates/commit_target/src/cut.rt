//! A question to the session, and why a run may end at one.
ghost use Rattle.std.specs.Prelude.{◌≡◌, ◌<◌, length, None, Some};
ghost use Rattle.action_eval.specs.Answers.{stopped};
ghost use Rattle.commit_target.specs.declared.cut.Cut.TheVariants.{Refused};
ghost use Rattle.commit_target.specs.declared.variant.Variant.{Variant};
ghost use Rattle.commit_target.specs.Work.{Work};
ghost use Rattle.commit_target.specs.Writes.{AllLogs};
ghost use Rattle.commit_target.specs.Steps.{Tally, Over, at_step, point_at};
ghost use Rattle.commit_target.specs.inside.Seen.{Leads, Stands, Answered, Ended};

use std::alloc::AllocError;
use target_trait::{Answer, Session};

/// Why a run goes no further.
#[derive(Clone, Copy, Debug)]
pub enum Cut {
    /// It was halted, or it gives up.
    Over,
    /// Memory was refused.
    Refused,
}

impl From<AllocError> for Cut {
    ghost from_gives = { λ _ cut. cut ≡ Refused };

    fn from(_: AllocError) -> Self {
        Cut::Refused
    }
}

/// Asks a point. True means to go on, false that what was asked fails.
#[inline(always)]
pub fn ask(session: &mut Session<'_>, point: u32) -> Result<bool, Cut>
    requires known { point < length session.old.given.catalogue }
    requires running { stopped session.old ≡ None }
    ensures given { session.new.given ≡ session.old.given }
    ensures answered { (v : Variant) (w : Work) (t : Tally) (logs : AllLogs) → Stands v w session.old t logs → point_at t.step ≡ Some point
        → Leads result (λ goes. Answered v w session.new t logs goes) (Ended v w session.new (at_step t Over) logs) }
{
    match session.hit(point)? {
        Answer::Go => Ok(true),
        Answer::Return(_) => Ok(false),
        Answer::Halt => Err(Cut::Over),
    }
}
