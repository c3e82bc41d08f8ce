//! Sets of faults, packed as runs.
ghost use Rattle.std.specs.Prelude.{◌≡◌, ℕ, ◌+◌, ◌++◌, ◌∷◌, [], List, Option, IfOk, OnOk, if◌then◌else◌, ◌==◌, Some, None, ◌≤◌};
ghost use Rattle.ddmin_parallel.specs.CoreEvents.{same_set};
ghost use Rattle.ddmin_parallel.specs.Runs.{faults_of, AreApart};
ghost use Rattle.ddmin_parallel.specs.inside.Packing.{runs_of};

use std::alloc::{AllocError, Global};
use std::marker::Model;

/// The first and the last fault of a run: a stretch of faults without a gap.
pub type Run = (u32, u32);

/// A set of faults, kept as its runs. Most sets of a large reduction are parts of all faults, or their complements: these have few runs, however many
/// faults they have.
#[derive(Drop)]
pub struct FaultSet {
    runs: Vec<Run>,
}

impl Model for FaultSet {
    ghost use Rattle.std.specs.Prelude.{ℕ, List};

    ghost Value = { List ℕ };

    ghost use Rattle.ddmin_parallel.specs.Runs.{faults_of};
    ghost use Rattle.ddmin_parallel.specs.inside.Packed.{IsPacked};

    ghost view = { λ s. faults_of s.runs.items };

    ghost invariant = { IsPacked };
}

/// The run with this fault at its end, if that leaves no gap.
fn lengthened(run: Run, fault: u32) -> Option<Run>
    ensures { result ≡ (if run.1 + 1 == fault then Some (run.0, fault) else None) }
{
    if fault > 0 && fault - 1 == run.1 {
        Some((run.0, fault))
    } else {
        None
    }
}

/// The runs of a fault and of those that follow it.
fn runs_from(alloc: Global, first: u32, rest: &[u32]) -> Result<Vec<Run>, AllocError>
    ensures { IfOk result (λ runs. runs.items ≡ runs_of (first ∷ rest.now)) }
{
    let mut runs = Vec::new(alloc);
    let mut run = (first, first);
    for fault in rest {
        match lengthened(run, *fault) {
            Some(longer) => run = longer,
            None => {
                runs.push(run)?;
                run = (*fault, *fault);
            }
        }
    }
    runs.push(run)?;
    Ok(runs)
}

/// Adds the faults of a run to a list.
fn add_run(faults: &mut Vec<u32>, run: Run) -> Result<(), AllocError>
    requires { run.0 ≤ run.1 }
    ensures { OnOk result (faults.new.items ≡ faults.old.items ++ faults_of (run ∷ [])) }
{
    let (first, last) = run;
    for fault in first..last {
        faults.push(fault)?;
    }
    faults.push(last)?;
    Ok(())
}

impl FaultSet {
    /// The empty set. It takes no memory.
    pub(crate) fn empty(alloc: Global) -> FaultSet
        ensures { result ≡ [] }
    {
        FaultSet {
            runs: Vec::new(alloc),
        }
    }

    /// The set of these faults. An error means that memory was refused.
    pub fn pack(alloc: Global, faults: &[u32]) -> Result<FaultSet, AllocError>
        ensures { IfOk result (λ set. set ≡ faults.now) }
    {
        match faults.split_first() {
            Some((first, rest)) => {
                let runs = runs_from(alloc, *first, rest)?;
                Ok(FaultSet { runs })
            }
            None => Ok(FaultSet::empty(alloc)),
        }
    }

    /// The faults of the set, in its order. An error means that memory was refused.
    pub fn faults(&self, alloc: Global) -> Result<Vec<u32>, AllocError>
        ensures { IfOk result (λ faults. faults.items ≡ self.now) }
    {
        let mut faults = Vec::new(alloc);
        for run in self.runs.as_slice() {
            add_run(&mut faults, *run)?;
        }
        Ok(faults)
    }

    /// A copy of the set. An error means that memory was refused.
    pub(crate) fn copied(&self, alloc: Global) -> Result<FaultSet, AllocError>
        ensures { IfOk result (λ copy. copy ≡ self.now) }
    {
        let runs = Vec::from_slice(alloc, self.runs.as_slice())?;
        Ok(FaultSet { runs })
    }

    /// Whether two sets are the same.
    pub fn is(&self, other: &FaultSet) -> bool
        ensures { result ≡ same_set self.now other.now }
    {
        self.runs == other.runs
    }

    /// The runs of the set, in its order: the first and the last fault of each stretch without a gap. None could be joined to the next.
    pub fn runs(&self) -> &[Run]
        ensures faults { faults_of result.now ≡ self.now }
        ensures apart { AreApart result.now }
    {
        self.key()
    }

    /// The key of a set: two sets are the same exactly if their runs are.
    pub(crate) fn key(&self) -> &[Run]
        ensures { result.now ≡ runs_of self.now }
    {
        self.runs.as_slice()
    }

    /// The set's runs, as which it is known in a map.
    pub(crate) fn into_key(self) -> Vec<Run>
        ensures { result.items ≡ runs_of self }
    {
        self.runs
    }
}
