//! One run of a target, told hit by hit, of whose hits the last ones may be left out.
ghost use Rattle.std.specs.Prelude.{◌≡◌, IfOk};
ghost use Rattle.report.specs.explained.Explained.{given_in};
ghost use Rattle.report.specs.explained.Told.{run_facts};

use crate::explained::ends::MadeRun;
use crate::explained::telling::{hits_of, made_text};
use std::alloc::{AllocError, Global};
use std::marker::Model;
use target_trait::{Case, Target, run_case};

/// A run that is shown.
#[derive(Drop)]
pub struct ToldRun {
    /// Its lines, each with its line feed.
    pub text: String,
    /// How many of its hits have no line among them.
    pub left_out: usize,
}

impl Model for ToldRun {
    ghost use Rattle.std.specs.Prelude.{string_bytes};
    ghost use Rattle.report.specs.explained.Told.{RunFacts};

    ghost Value = { RunFacts };

    ghost view = { λ r. record { text = string_bytes r.text; left_out = r.left_out } };
}

/// Runs a case on a target, and writes the run as `explain` does, but only the first `most` of its hits.
///
/// An error means that memory was refused. The target keeps its setup, after an error too.
pub fn tell<T: Target>(
    alloc: Global,
    target: &mut T,
    workload: &T::Workload,
    case: &Case<'_>,
    most: usize,
) -> Result<ToldRun, AllocError>
    ensures run { IfOk result (λ run. run ≡ run_facts most T.code_text (T.asks target.old workload.now)
        (given_in T.names case.now)) }
    ensures setup { target.new ≡ target.old }
{
    let outcome = run_case(alloc, target, workload, case)?;
    let run = MadeRun {
        case: &*case,
        outcome: &outcome,
    };
    let hits = hits_of(alloc, T::catalogue(), case, &outcome)?;
    let shown = hits.len().min(most);
    let text = made_text(alloc, target, &run, hits.as_slice(), &hits[..shown])?;
    Ok(ToldRun {
        text,
        left_out: hits.len() - shown,
    })
}
