//! The numbers of the settings, by what they are for.
ghost use Rattle.std.specs.Prelude.{◌≡◌, ◌≤◌, Ok, IfOk, IfErr, IfSome, false, length};
ghost use Rattle.toml.specs.View.{table_view};
ghost use Rattle.campaign_settings.specs.Settings.{IsPlanning, IsRunning, RefusedBy, campaign_of, crash_states_in, depth_beside, planning_in, running_in};

use crate::fault::SettingsFault;
use crate::keys::Key;
use crate::tables::keyed;
use crate::values::{read_boolean, read_number, read_optional, value_at};
use campaign_given::{
    CRASH_STATES_IF_MISSING, CampaignSettings, MAX_HITS_IF_MISSING, PAIRS_IF_MISSING,
    RATE_IF_MISSING, SEED_IF_MISSING, STORMS_IF_MISSING, WORKERS_IF_MISSING,
};
use scenario_grammar::Scenario;
use std::alloc::Global;
use toml::Table;

/// How runs are made.
#[derive(Clone, Copy)]
pub struct Running {
    pub seed: u64,
    pub workers: u32,
    pub max_hits: u32,
}

/// Which plans are made, and how their runs end.
#[derive(Clone, Copy)]
pub struct Planning {
    pub pairs: bool,
    pub storms: u32,
    pub rate: u32,
    pub depth: Option<u32>,
    pub crash_states: bool,
}

/// How runs are made, from the table of the settings.
pub fn read_running(table: &Table) -> Result<Running, SettingsFault>
    ensures ok { IfOk result (λ running. running_in (table_view table.now) ≡ Ok running) }
    ensures ranges { IfOk result IsRunning }
    ensures refused { IfErr result (RefusedBy (running_in (table_view table.now))) }
{
    let seed = read_number(
        value_at(table, "seed"),
        Ok(SEED_IF_MISSING),
        0,
        9223372036854775807,
    );
    let seed = keyed(Key::Seed, seed)?;
    let workers = read_number(
        value_at(table, "workers"),
        Ok(WORKERS_IF_MISSING as u64),
        1,
        64,
    );
    let workers = keyed(Key::Workers, workers)?;
    let max_hits = read_number(
        value_at(table, "max_hits"),
        Ok(MAX_HITS_IF_MISSING as u64),
        1,
        100000,
    );
    let max_hits = keyed(Key::MaxHits, max_hits)?;
    Ok(Running {
        seed,
        workers: workers as u32,
        max_hits: max_hits as u32,
    })
}

/// Which plans are made, from the table of the settings.
pub fn read_planning(table: &Table) -> Result<Planning, SettingsFault>
    ensures ok { IfOk result (λ planning. planning_in (table_view table.now) ≡ Ok planning) }
    ensures ranges { IfOk result IsPlanning }
    ensures refused { IfErr result (RefusedBy (planning_in (table_view table.now))) }
{
    let pairs = keyed(
        Key::Pairs,
        read_boolean(value_at(table, "pairs"), PAIRS_IF_MISSING),
    )?;
    let storms = read_number(
        value_at(table, "storms"),
        Ok(STORMS_IF_MISSING as u64),
        0,
        10000,
    );
    let storms = keyed(Key::Storms, storms)?;
    let rate = read_number(value_at(table, "rate"), Ok(RATE_IF_MISSING as u64), 0, 1000);
    let rate = keyed(Key::Rate, rate)?;
    let depth = read_depth(pairs, table)?;
    let crash_states = read_crash_states(table)?;
    Ok(Planning {
        pairs,
        storms: storms as u32,
        rate: rate as u32,
        depth,
        crash_states,
    })
}

// The depth. With pairs there may be none.
fn read_depth(pairs: bool, table: &Table) -> Result<Option<u32>, SettingsFault>
    ensures ok { IfOk result (λ depth. depth_beside pairs (table_view table.now) ≡ Ok depth) }
    ensures low { IfOk result (λ depth. IfSome depth (λ faults. 1 ≤ faults)) }
    ensures high { IfOk result (λ depth. IfSome depth (λ faults. faults ≤ 64)) }
    ensures without_pairs { IfOk result (λ depth. IfSome depth (λ _. pairs ≡ false)) }
    ensures refused { IfErr result (RefusedBy (depth_beside pairs (table_view table.now))) }
{
    let depth = keyed(Key::Depth, read_optional(value_at(table, "depth"), 1, 64))?;
    if depth.is_some() && pairs {
        return Err(SettingsFault::OutOfRange(Key::Pairs));
    }
    Ok(depth)
}

// Whether the power cut at the end of a run asks what it keeps.
fn read_crash_states(table: &Table) -> Result<bool, SettingsFault>
    ensures ok { IfOk result (λ crash_states. crash_states_in (table_view table.now) ≡ Ok crash_states) }
    ensures refused { IfErr result (RefusedBy (crash_states_in (table_view table.now))) }
{
    keyed(
        Key::CrashStates,
        read_boolean(value_at(table, "crash_states"), CRASH_STATES_IF_MISSING),
    )
}

/// The settings of a campaign from these numbers and its listed scenarios. They have no text yet.
pub fn campaign_of(
    alloc: Global,
    running: Running,
    planning: Planning,
    scenarios: Vec<Scenario>,
) -> CampaignSettings
    requires running { IsRunning running }
    requires planning { IsPlanning planning }
    requires few { length scenarios.items ≤ 1000 }
    ensures { result ≡ campaign_of running planning scenarios.items }
{
    CampaignSettings {
        seed: running.seed,
        workers: running.workers,
        max_hits: running.max_hits,
        pairs: planning.pairs,
        storms: planning.storms,
        rate: planning.rate,
        depth: planning.depth,
        crash_states: planning.crash_states,
        scenarios,
        source: String::new(alloc),
    }
}
