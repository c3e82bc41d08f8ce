//! Campaigns on targets from outside: one whose promise is broken in each run, and one that breaks its promise in three ways.
ghost use Rattle.std.specs.Prelude.{◌≡◌, ◌≤◌, length, IfOk};

use crate::always_broken::AlwaysBroken;
use crate::running::{reported, settings};
use crate::three_codes::ThreeCodes;
use campaign_core::{Host, Subject, try_one};
use campaign_given::CampaignSettings;
use scenario_grammar::{Scenario, parse};
use std::alloc::Global;
use std::process::Abort;
use std::sync::Wait;
use std::test::Fail;
use std::thread::Threads;
use target_trait::{Out, Target, Verdict};
use work_gate::FreeGate;

/// A target without a workload, and the settings of its campaign.
fn subject<'a, T: Target<Workload = ()>>(
    target: &'a T,
    settings: &'a CampaignSettings,
) -> Subject<'a, T> {
    Subject {
        target,
        workload: &(),
        settings,
    }
}

/// The campaign has this report, whose first failure is this one.
fn reports<T: Target<Workload = ()> + Send, H: Threads + Wait + Sync + Abort>(
    rt: &H,
    alloc: Global,
    subject: &Subject<'_, T>,
    first: u32,
    report: &str,
) -> Result<(), Fail> {
    let host = Host {
        rt,
        alloc,
        gate: &FreeGate,
    };
    let Ok((text, found)) = reported(&host, subject) else {
        return Err(Fail::from("no report"));
    };
    assert_eq!(rt; text.as_slice(), report.as_bytes());
    assert_eq!(rt; found, Some(first));
    Ok(())
}

/// Every limit at an end of its range.
fn narrow(alloc: Global, workers: u32) -> CampaignSettings
    requires some { 1 ≤ workers }
    requires few { workers ≤ 64 }
{
    let mut settings = CampaignSettings::new(alloc);
    settings.seed = 9223372036854775807;
    settings.workers = workers;
    settings.max_hits = 1;
    settings.pairs = true;
    settings.storms = 1;
    settings.rate = 1000;
    settings
}

// No point is asked, so that there are no sites: the empty plan, and a storm that takes nothing. A failure without faults needs no test.
const ALWAYS_BROKEN: &str = "target always broken
seed 9223372036854775807
clean fail broken
census broken::point 0
plans 2
verdict 0 fail broken
verdict 1 fail broken
first 0 broken
scenario none
reduced none
tests 0
";

#[test]
fn a_failure_without_faults_needs_no_test(rt: HostRuntime) -> Result<(), Fail> {
    let alloc = rt.alloc();
    for workers in [1, 2, 8, 64] {
        let settings = narrow(alloc, workers);
        let subject = subject(&AlwaysBroken, &settings);
        reports(&rt, alloc, &subject, 0, ALWAYS_BROKEN)?;
    }
    Ok(())
}

// Each point is asked once, so that there are 1 + 3 * 3 plans, and 3 * 2 of two sites. The findings stand in the order of their plans, not
// of their codes, which are 2, 0 and 1. The last one keeps both faults: the first of them alone fails too, but with another code.
const THREE_FINDINGS: &str = "target three codes
seed 7
clean pass
census three::a 1
census three::b 1
census three::c 1
plans 16
verdict 0 pass
verdict 1 pass
verdict 2 pass
verdict 3 pass
verdict 4 fail inner
verdict 5 fail inner
verdict 6 pass
verdict 7 pass
verdict 8 pass
verdict 9 pass
verdict 10 pass
verdict 11 pass
verdict 12 fail outer
verdict 13 pass
verdict 14 pass
verdict 15 fail cut
first 4 inner
scenario three::b=1*return
reduced three::b=1*return
tests 1
first 12 outer
scenario three::a=1*return;three::c=1*return
reduced three::a=1*return;three::c=1*return
tests 3
first 15 cut
scenario three::b=1*return;three::c=1*panic
reduced three::b=1*return;three::c=1*panic
tests 3
";

/// Each of three codes has its first failure, and the last plan is one of them.
#[test]
fn each_code_has_its_finding(rt: HostRuntime) -> Result<(), Fail> {
    let alloc = rt.alloc();
    for workers in [1, 2, 8, 64] {
        let settings = settings(alloc, workers, true, Vec::new(alloc));
        let subject = subject(&ThreeCodes, &settings);
        reports(&rt, alloc, &subject, 4, THREE_FINDINGS)?;
    }
    Ok(())
}

// The first three words of stream 10, as a program in another language drew them for seed 7, let the second point alone fail, those of
// stream 11 the first one, and those of stream 12 the outer ones.
const LAST_PLAN_FINDING: &str = "target three codes
seed 7
clean pass
census three::a 1
census three::b 1
census three::c 1
plans 13
verdict 0 pass
verdict 1 pass
verdict 2 pass
verdict 3 pass
verdict 4 fail inner
verdict 5 fail inner
verdict 6 pass
verdict 7 pass
verdict 8 pass
verdict 9 pass
verdict 10 fail inner
verdict 11 pass
verdict 12 fail outer
first 4 inner
scenario three::b=1*return
reduced three::b=1*return
tests 1
first 12 outer
scenario three::a=50%return;three::b=50%return;three::c=50%return
reduced three::a=50%return;three::b=50%off;three::c=50%return
tests 10
";

/// This many copies of a scenario that draws a word at each point.
fn draws(alloc: Global, count: usize) -> Result<Vec<Scenario>, Fail>
    ensures { IfOk result (λ scenarios. length scenarios.items ≡ count) }
{
    let mut scenarios = Vec::new(alloc);
    for made in 0..count {
        let _ = made;
        let text = "three::a=50%return;three::b=50%return;three::c=50%return";
        scenarios.push(parse(alloc, text)?)?;
    }
    Ok(scenarios)
}

/// A finding is reduced under its own plan's words: with those of the other finding's plan no test would fail.
#[test]
fn a_finding_is_reduced_under_its_own_stream(rt: HostRuntime) -> Result<(), Fail> {
    let alloc = rt.alloc();
    for workers in [1, 2, 8, 64] {
        let settings = settings(alloc, workers, false, draws(alloc, 3)?);
        let subject = subject(&ThreeCodes, &settings);
        reports(&rt, alloc, &subject, 4, LAST_PLAN_FINDING)?;
    }
    Ok(())
}

/// What `try_one` returns and writes for a scenario on the target that is always broken.
#[test]
fn a_broken_target_is_found_by_one_try(rt: HostRuntime) -> Result<(), Fail> {
    let alloc = rt.alloc();
    let scenario = parse(alloc, "broken::point=return")?;
    let settings = settings(alloc, 1, false, Vec::new(alloc));
    let mut sink = Out::new(Vec::new(alloc));
    let subject = subject(&AlwaysBroken, &settings);
    let verdict = try_one(alloc, &subject, 0, &scenario, &mut sink);
    assert_eq!(rt; verdict, Ok(Verdict::Fail(0)));
    assert_eq!(rt;
        sink.into_writer().as_slice(),
        b"verdict fail broken\nasked 0\nwords 0\nmillis 0\nnotes 0\n".as_slice()
    );
    Ok(())
}
