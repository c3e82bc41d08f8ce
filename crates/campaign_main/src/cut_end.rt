//! The end of a run with its power cut: which write each of the cut's hits stands for.
ghost use Rattle.std.specs.Prelude.{◌≡◌, ◌++◌, length, map, string_bytes, take, IfOk, OnOk};
ghost use Rattle.report.specs.ReportText.{ended, text_of};
ghost use Rattle.report.specs.explained.Explained.{given_in};
ghost use Rattle.target_trait.specs.Cuts.{asks_with};
ghost use Rattle.campaign_main.specs.Commands.{cut_end, keep_line, keep_lines, keeps_asked};

use crate::pending::TellsWrites;
use report::{MadeRun, RunEnd};
use std::alloc::{AllocError, Global};
use std::fmt::Write;
use target_trait::{Outcome, WithCut};

/// How often a run asked the cut's point, which stands behind the target's own points.
fn keeps_asked<T: TellsWrites>(asked: &[u32]) -> usize
    ensures { result ≡ keeps_asked T.names asked.now }
{
    let keep = T::catalogue().len() as u32;
    asked.iter().filter(|point| **point == keep).count()
}

/// Appends the line of a call, with the number of its hit.
fn write_keep(out: &mut String, number: usize, call: &str) -> Result<(), AllocError>
    ensures { OnOk result (string_bytes out.new ≡ string_bytes out.old ++ ended (keep_line number call.now)) }
{
    write!(out, "keep {number} {call}\n")
}

/// Appends a line for each of these calls, numbered from 1.
fn write_keeps(out: &mut String, calls: &[String]) -> Result<(), AllocError>
    ensures { OnOk result (string_bytes out.new ≡ string_bytes out.old ++ text_of (keep_lines (map string_bytes calls.now))) }
{
    for (place, call) in calls.iter().enumerate() {
        write_keep(out, place + 1, call.as_str())?;
    }
    Ok(())
}

/// A line for each hit of the cut in an outcome. `calls` has the calls of the writes that were pending.
fn keeps_text<T: TellsWrites>(
    alloc: Global,
    outcome: &Outcome,
    calls: &[String],
) -> Result<String, AllocError>
    ensures { IfOk result (λ text. string_bytes text
        ≡ text_of (keep_lines (take (keeps_asked T.names outcome.now.asked) (map string_bytes calls.now)))) }
{
    let asked = keeps_asked::<T>(outcome.asked.as_slice());
    let met = asked.min(calls.len());
    let mut text = String::new(alloc);
    write_keeps(&mut text, &calls[..met])?;
    Ok(text)
}

/// The same for a run that was made, with the calls as the target describes them.
fn end_text<T: TellsWrites>(
    alloc: Global,
    target: &T,
    workload: &T::Workload,
    run: &MadeRun<'_>,
) -> Result<String, AllocError>
    ensures { IfOk result (λ text. string_bytes text ≡ text_of (keep_lines (take (keeps_asked T.names run.now.outcome.now.asked)
        (T.calls target.now workload.now (given_in T.names run.now.case.now))))) }
{
    let mut twin = target.twin()?;
    let calls = twin.pending_calls(alloc, workload, run.case)?;
    keeps_text::<T>(alloc, run.outcome, calls.as_slice())
}

/// The end of a run of this target with its power cut: `keep K CALL` for each hit of the cut, with K from 1. CALL is what was done by the write that
/// this hit stands for, as the target describes it.
#[derive(Drop)]
pub struct CutEnd<'a, T> {
    pub target: &'a T,
}

impl<'a, T: TellsWrites> RunEnd<WithCut<T>> for CutEnd<'a, T> {
    ghost lines = { λ end setup workload. cut_end (T.calls end.target.now workload) T.names
        (asks_with (T.asks setup workload) (T.cut setup workload) (length T.names)) };

    fn text(
        &self,
        alloc: Global,
        _target: &mut WithCut<T>,
        workload: &T::Workload,
        run: &MadeRun<'_>,
    ) -> Result<String, AllocError> {
        end_text(alloc, self.target, workload, run)
    }
}
