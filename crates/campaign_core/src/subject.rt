//! What the calls over a target take.

use campaign_given::CampaignSettings;
use std::alloc::Global;
use std::sync::Wait;
use std::thread::Threads;
use target_trait::Target;
use work_gate::Gate;

/// What runs are given from outside: the threads of the workers, the memory, and the gate at which workers arrive with what they take.
#[derive(Drop)]
pub struct Host<'a, G: Gate, R: Threads + Wait + Sync> {
    pub rt: &'a R,
    pub alloc: Global,
    pub gate: &'a G,
}

/// What is tested: a target, the workload of its runs, and the settings of the campaign. Only twins of the target are run.
#[derive(Drop)]
pub struct Subject<'a, T: Target> {
    pub target: &'a T,
    pub workload: &'a T::Workload,
    pub settings: &'a CampaignSettings,
}
