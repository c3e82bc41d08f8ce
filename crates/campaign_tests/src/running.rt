//! Campaigns of the tests.
ghost use Rattle.std.specs.Prelude.{◌≤◌, length};

use campaign_core::{CampaignFault, Host, Subject, campaign};
use campaign_given::CampaignSettings;
use report::Form;
use scenario_grammar::Scenario;
use std::alloc::Global;
use std::sync::Wait;
use std::thread::Threads;
use target_trait::{Out, Target};
use work_gate::Gate;

/// Seed 7, and otherwise the defaults.
pub fn settings(
    alloc: Global,
    workers: u32,
    pairs: bool,
    scenarios: Vec<Scenario>,
) -> CampaignSettings
    requires some { 1 ≤ workers }
    requires few { workers ≤ 64 }
    requires listed { length scenarios.items ≤ 1000 }
{
    let mut settings = CampaignSettings::new(alloc);
    settings.seed = 7;
    settings.workers = workers;
    settings.pairs = pairs;
    settings.scenarios = scenarios;
    settings
}

/// The report of a campaign, and its first failure.
pub fn reported<T: Target + Send, G: Gate, R: Threads + Wait + Sync>(
    host: &Host<'_, G, R>,
    subject: &Subject<'_, T>,
) -> Result<(Vec<u8>, Option<u32>), CampaignFault>
where
    T::Workload: Sync,
{
    let mut sink = Out::new(Vec::new(host.alloc));
    let ending = campaign(host, subject, &Form::Whole, &mut sink)?;
    Ok((sink.into_writer(), ending.first))
}
