//! A failing scenario, reduced to the faults that it needs to fail.
ghost use Rattle.std.specs.Prelude.{◌≡◌, ◌++◌, ◌∷◌, [], true, false, codes, string_bytes, IfOk, IfErr, OnOk};
ghost use Rattle.std.specs.Fmt.{decimal};
ghost use Rattle.report.specs.ReportText.{scenario_text, text_of};
ghost use Rattle.campaign_core.specs.FaultTest.{fails_with};
ghost use Rattle.campaign_core.specs.Findings.{reduction, reduced, IsMinimal};
ghost use Rattle.campaign_core.specs.Headline.{campaign_in, say};
ghost use Rattle.campaign_core.specs.CommandTexts.{found_lines, reduce_text, IsReducedToMinimal, LeavesOnly};
ghost use Rattle.campaign_core.specs.Writes.{change, WritesWhole};
ghost use Rattle.campaign_core.specs.inside.Says.{failure_says};

use crate::ending::CampaignFault;
use crate::probe::{Failure, fault_count, reduction_of};
use crate::subject::{Host, Subject};
use crate::written::write_judged;
use report::{write_scenario, write_verdict};
use scenario_values::{Scenario, keep, tidy};
use std::alloc::{AllocError, Global};
use std::fmt::Write;
use std::sync::Wait;
use std::thread::Threads;
use target_trait::{Sink, Target, Verdict, run_verdict};
use work_gate::Gate;

/// The scenario that a failure is reduced to, tidied, and how many sets of faults were tested. An error means that memory was refused.
pub fn reduced_scenario<T: Target + Send, G: Gate, R: Threads + Wait + Sync>(
    host: &Host<'_, G, R>,
    target: &T,
    failure: &Failure<'_, T>,
) -> Result<(Scenario, u64), AllocError>
where
    T::Workload: Sync,
    requires fails { fails_with failure.now.code (failure_says T.Target target.now failure.now failure.now.stream failure.now.scenario.now) ≡ true }
    ensures scenario { IfOk result (λ r. r.0 ≡ reduced (failure_says T.Target target.now failure.now)
        failure.now.stream failure.now.code failure.now.scenario.now) }
    ensures tests { IfOk result (λ r. r.1 ≡ (reduction (failure_says T.Target target.now failure.now)
        failure.now.stream failure.now.code failure.now.scenario.now).tests) }
    ensures minimal { OnOk result (IsMinimal (failure_says T.Target target.now failure.now failure.now.stream) failure.now.code
        (reduced (failure_says T.Target target.now failure.now) failure.now.stream failure.now.code failure.now.scenario.now)) }
{
    let _ = failure.scenario.entries();
    let reduction = reduction_of(host, target, failure)?;
    let kept = keep(host.alloc, failure.scenario, reduction.kept.as_slice())?;
    Ok((tidy(host.alloc, &kept)?, reduction.tests))
}

/// The verdict of a scenario under a stream number, with a twin of the target. An error means that memory was refused.
fn verdict_of<T: Target>(
    alloc: Global,
    subject: &Subject<'_, T>,
    stream: u64,
    scenario: &Scenario,
) -> Result<Verdict, AllocError>
    ensures { IfOk result (λ verdict. verdict ≡ say (campaign_in T.Target subject.now) stream scenario.now) }
{
    let case = subject.settings.case(scenario, stream);
    let mut twin = subject.target.twin()?;
    run_verdict(alloc, &mut twin, subject.workload, &case)
}

/// Appends the lines of the scenario that is left, and of how many sets of faults were tested.
fn write_left(
    alloc: Global,
    out: &mut String,
    left: &Scenario,
    tests: u64,
) -> Result<(), AllocError>
    ensures { OnOk result (string_bytes out.new
        ≡ string_bytes out.old ++ text_of ((codes "reduced " ++ scenario_text left.now) ∷ (codes "tests " ++ decimal tests) ∷ [])) }
{
    out.push_str("reduced ")?;
    write_scenario(alloc, out, left)?;
    writeln!(out, "\ntests {tests}")
}

/// Appends the lines of what a scenario that failed with this code is reduced to, and of how many tests that took.
fn write_reduced<T: Target + Send, G: Gate, R: Threads + Wait + Sync>(
    host: &Host<'_, G, R>,
    out: &mut String,
    target: &T,
    failure: &Failure<'_, T>,
) -> Result<(), AllocError>
where
    T::Workload: Sync,
    requires fails { fails_with failure.now.code (failure_says T.Target target.now failure.now failure.now.stream failure.now.scenario.now) ≡ true }
    ensures text { OnOk result (string_bytes out.new ≡ string_bytes out.old ++ text_of
        (found_lines (failure_says T.Target target.now failure.now) failure.now.stream failure.now.code failure.now.scenario.now)) }
    ensures minimal { OnOk result (IsMinimal (failure_says T.Target target.now failure.now failure.now.stream) failure.now.code
        (reduced (failure_says T.Target target.now failure.now) failure.now.stream failure.now.code failure.now.scenario.now)) }
{
    let (left, tests) = reduced_scenario(host, target, failure)?;
    write_left(host.alloc, out, &left, tests)
}

/// The lines of `reduce` for a scenario with this verdict. An error means that memory was refused.
fn reduce_text<T: Target + Send, G: Gate, R: Threads + Wait + Sync>(
    host: &Host<'_, G, R>,
    subject: &Subject<'_, T>,
    stream: u64,
    scenario: &Scenario,
    verdict: Verdict,
) -> Result<String, AllocError>
where
    T::Workload: Sync,
    requires { verdict ≡ say (campaign_in T.Target subject.now) stream scenario.now }
    ensures text { IfOk result (λ text. string_bytes text ≡ reduce_text (campaign_in T.Target subject.now) stream scenario.now) }
    ensures minimal { OnOk result (IsReducedToMinimal (campaign_in T.Target subject.now) stream scenario.now) }
{
    let mut text = String::new(host.alloc);
    text.push_str("verdict ")?;
    write_verdict(&mut text, subject.target, verdict)?;
    text.push_str("\n")?;
    if let Verdict::Fail(code) = verdict {
        let failure = Failure {
            workload: subject.workload,
            settings: subject.settings,
            scenario,
            faults: fault_count(host.alloc, scenario)?,
            stream,
            code,
        };
        write_reduced(host, &mut text, subject.target, &failure)?;
    }
    Ok(text)
}

/// Runs a scenario under a stream number and, if it fails, reduces it. Writes the lines of `reduce`: the verdict and, for a failure, the scenario
/// that is left and how many sets of faults were tested. A plan of a campaign runs under its own number.
///
/// As many threads as the settings say test sets of faults, each on a twin of the target. The text is the same as with one thread, and the caller's
/// target isn't touched. The scenario that is left fails with the same code under the same stream number, and without any single one of its faults it
/// doesn't.
///
/// Nothing is written before the whole text is made: if memory was refused, the sink is as it was and hasn't failed. `Write` says how many bytes of
/// the text, fewer than all, went out before the sink failed.
pub fn reduce_one<T: Target + Send, G: Gate, W: Sink, R: Threads + Wait + Sync>(
    host: &Host<'_, G, R>,
    subject: &Subject<'_, T>,
    stream: u64,
    scenario: &Scenario,
    sink: &mut W,
) -> Result<Verdict, CampaignFault>
where
    T::Workload: Sync,
    requires { W.has_failed sink.old ≡ false }
    ensures verdict { IfOk result (λ verdict. verdict ≡ say (campaign_in T.Target subject.now) stream scenario.now) }
    ensures text { OnOk result (WritesWhole (reduce_text (campaign_in T.Target subject.now) stream scenario.now)
        (change W.Sink sink.old sink.new)) }
    ensures minimal { OnOk result (IsReducedToMinimal (campaign_in T.Target subject.now) stream scenario.now) }
    ensures fault { IfErr result (LeavesOnly (reduce_text (campaign_in T.Target subject.now) stream scenario.now)
        (change W.Sink sink.old sink.new)) }
{
    let verdict = verdict_of(host.alloc, subject, stream, scenario)?;
    let text = reduce_text(host, subject, stream, scenario, verdict)?;
    write_judged(verdict, text.as_str(), sink)
}
