//! Tables of recorded runs.
ghost use Rattle.std.specs.Prelude.{◌≡◌, ◌<◌, ◌^◌, Some, length, option_map, IfOk, OnOk};
ghost use Rattle.std.specs.List.{AllByRecursion};
ghost use Rattle.grown_runs.specs.known.Looks.{IsLook};

use action_eval::Rig;
use std::alloc::AllocError;
use target_trait::Verdict;

/// What is recorded of a plan's run.
#[derive(Clone, Copy, Debug, PartialEq, Eq)]
pub enum Look {
    /// Nothing.
    Unknown,
    /// Its verdict, without its hits.
    Unseen(Verdict),
    /// Its verdict and its hits.
    Seen(Verdict),
}

/// The recorded runs of plans. A run is found by the plan's faults, of which the one that acts last comes first.
pub trait RunTable {
    ghost use Rattle.std.specs.Prelude.{List, Option};
    ghost use Rattle.action_eval.specs.declared.rig.Rig.{Rig};
    ghost use Rattle.grown_runs.specs.known.Known.{KnownRuns, Told};

    /// What a table keeps of a run.
    type Run;

    /// What is recorded of a run that the table keeps.
    ghost tells: { Self.Run → Told };

    /// What is recorded of each plan's run.
    ghost known: { Self → KnownRuns };

    /// The recorded run of each plan, as the table keeps it.
    ghost keeps: { Self → List Rig → Option Self.Run };

    /// The recorded run of a plan, if there is one. An error means that memory was refused.
    fn find(&self, faults: &[Rig]) -> Result<Option<&Self::Run>, AllocError>
        ensures told { IfOk result (λ run. option_map (λ r. tells r.now) run ≡ known self.now faults.now) }
        ensures kept { IfOk result (λ run. option_map (λ r. r.now) run ≡ keeps self.now faults.now) };

    /// Reads a run. If its hits are recorded, their points are put into the list in order, in place of what stood there. An error means that memory
    /// was refused.
    fn read(&self, run: &Self::Run, hits: &mut Vec<u32>) -> Result<Look, AllocError>
        ensures told { IfOk result (IsLook (Some (tells run.now)) hits.new.items) }
        ensures points { OnOk result (AllByRecursion (λ p. p < 64) hits.new.items) }
        ensures few { OnOk result (length hits.new.items < 2 ^ 32) };
}

/// Reads a run that was looked for in a table, as [`RunTable::read`] does. If none was found it is unknown.
pub fn read_found<T: RunTable>(
    table: &T,
    run: Option<&T::Run>,
    hits: &mut Vec<u32>,
) -> Result<Look, AllocError>
    ensures told { IfOk result (IsLook (option_map (λ r. T.tells r.now) run.entry) hits.new.items) }
    ensures points { OnOk result (AllByRecursion (λ p. p < 64) hits.new.items) }
    ensures few { OnOk result (length hits.new.items < 2 ^ 32) }
{
    hits.clear();
    match run {
        Some(run) => table.read(run, hits),
        None => Ok(Look::Unknown),
    }
}

/// Looks up a plan's run, and reads it as [`RunTable::read`] does. An error means that memory was refused.
pub fn look_up<T: RunTable>(
    table: &T,
    faults: &[Rig],
    hits: &mut Vec<u32>,
) -> Result<Look, AllocError>
    ensures told { IfOk result (IsLook (T.known table.now faults.now) hits.new.items) }
    ensures points { OnOk result (AllByRecursion (λ p. p < 64) hits.new.items) }
    ensures few { OnOk result (length hits.new.items < 2 ^ 32) }
{
    let run = table.find(faults)?;
    read_found(table, run, hits)
}
