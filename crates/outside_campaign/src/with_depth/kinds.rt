//! The kinds of faults by which a component's plans grow, as its settings list them.
ghost use Rattle.std.specs.Prelude.{◌≡◌, map, true, IfOk};
ghost use Rattle.std.specs.List.{AllByRecursion};
ghost use Rattle.answered_runs.specs.Answered.{CanBeListed};
ghost use Rattle.campaign_given.specs.Description.{AreTried, is_tried};
ghost use Rattle.outside_campaign.specs.with_depth.Kinds.{kind_of, listed_kinds};

use action_eval::{Argument, Kind};
use campaign_given::{Outside, TriedFault, TriedFaults};
use std::alloc::{AllocError, Global};

/// The kind of a fault that is tried.
fn kind_of(fault: &TriedFault) -> Kind
    requires { is_tried fault.now ≡ true }
    ensures { result ≡ kind_of fault.now }
{
    match fault {
        TriedFault::Return(None) => Kind::OnceReturn(Argument::none()),
        TriedFault::Return(Some(text)) => match Argument::of(text.as_str()) {
            Some(argument) => Kind::OnceReturn(argument),
            None => unreachable!(),
        },
        TriedFault::Panic => Kind::OncePanic,
    }
}

/// The kinds of the faults that are tried at a point.
fn kinds_of(alloc: Global, faults: &[TriedFault]) -> Result<Vec<Kind>, AllocError>
    requires { AllByRecursion (λ fault. is_tried fault ≡ true) faults.now }
    ensures { IfOk result (λ kinds. kinds.items ≡ map kind_of faults.now) }
{
    let mut kinds = Vec::with_capacity(alloc, faults.len())?;
    for fault in faults {
        kinds.push(kind_of(fault))?;
    }
    Ok(kinds)
}

/// The same for each of some points.
fn kinds_of_each(alloc: Global, tried: &[TriedFaults]) -> Result<Vec<Vec<Kind>>, AllocError>
    requires { AllByRecursion AreTried tried.now }
    ensures { IfOk result (λ kinds. map (λ k. k.items) kinds.items ≡ map (map kind_of) tried.now) }
{
    let mut kinds = Vec::with_capacity(alloc, tried.len())?;
    for faults in tried {
        kinds.push(kinds_of(alloc, faults.as_slice())?)?;
    }
    Ok(kinds)
}

/// For each point the kinds of faults by which plans grow at its hits, in the order of the settings: up to 8, and none twice. If the usual kinds are
/// tried at a point, it has none here. An error means that memory was refused.
pub(crate) fn listed_kinds(alloc: Global, outside: &Outside) -> Result<Vec<Vec<Kind>>, AllocError>
    ensures listed { IfOk result (λ kinds. map (λ k. k.items) kinds.items ≡ listed_kinds outside.now) }
    ensures lawful { IfOk result (λ kinds. AllByRecursion (λ k. CanBeListed k.items) kinds.items) }
{
    kinds_of_each(alloc, outside.kinds.as_slice())
}
