//! Settings read from TOML text.
ghost use Rattle.std.specs.Prelude.{◌≡◌, Ok, IfOk, IfErr};
ghost use Rattle.toml.specs.View.{table_view};
ghost use Rattle.campaign_settings.specs.Settings.{RefusedBy, members_of, settings_for, settings_in, settings_of};
ghost use Rattle.campaign_settings.specs.Own.{given_in, own_settings_in, own_settings_of, worded_settings_in, worded_settings_of};

use crate::fault::SettingsFault;
use crate::keys::{Key, Place, TargetName};
use crate::numbers::{campaign_of, read_planning, read_running};
use crate::own::{OwnSettings, OwnWords, read_variant, read_words};
use crate::scenarios::{read_listed, read_scenarios};
use crate::settings::Settings;
use crate::tables::{keyed, read_choice, refuse_unknown};
use crate::values::{read_setup, read_target, value_at};
use campaign_given::CampaignSettings;
use std::alloc::Global;
use toml::Table;

/// The longest text of settings, in bytes.
pub const LIMIT: usize = 1048576;

impl Settings {
    /// The settings that a text of TOML gives. `Err` is the first fault of the text, or that memory was refused. Faults are looked for in this order:
    /// too long; no TOML; an unknown key at the top; each key as [`Key`] lists them. In the target's table its unknown key comes before its keys.
    ///
    /// Pairs with a depth are out of range; that comes after the depth's own fault, and before the keys behind it.
    ///
    /// A target from outside needs its hits if there is no depth. With a depth any hits are out of range, as answers give them, and each count is 0.
    /// Only with a depth may it have the kinds of faults, a table of points with lists of `return`, `return(TEXT)` and `panic`; the table's unknown
    /// key comes before its values.
    pub fn read(alloc: Global, text: &str) -> Result<Settings, SettingsFault>
        ensures ok { IfOk result (λ settings. settings_of text.now ≡ Ok settings) }
        ensures refused { IfErr result (RefusedBy (settings_of text.now)) }
    {
        let table = read_toml(alloc, text)?;
        let Settings { choice, campaign } = read_members(alloc, &table)?;
        let campaign = campaign.read_from(String::from_str(alloc, text)?);
        Ok(Settings { choice, campaign })
    }

    /// The settings that a text of TOML gives to a program that brings its own target. The keys are those for a bundled target, without `target`,
    /// `variant`, `crash_states` and the target's table. The program itself says by `WithCut` whether runs end with their power cut.
    ///
    /// `Err` is the first fault of the text, or that memory was refused. Faults are looked for in this order: too long; no TOML; an unknown key; each
    /// key as [`Key`] lists them. Pairs with a depth are out of range, after the depth's own fault.
    pub fn read_own(alloc: Global, text: &str) -> Result<CampaignSettings, SettingsFault>
        ensures ok { IfOk result (λ settings. own_settings_of text.now ≡ Ok settings) }
        ensures refused { IfErr result (RefusedBy (own_settings_of text.now)) }
    {
        let table = read_toml(alloc, text)?;
        let campaign = read_own_members(alloc, &table)?;
        Ok(campaign.read_from(String::from_str(alloc, text)?))
    }

    /// The same for a program whose target takes words. Beside the keys of `read_own` there may be a `variant`, a text, and a table `own` of texts,
    /// whole numbers and flags under any names. `Err` is the first fault of the text in the order of `read_own`, with the variant before all other
    /// keys and the table after them. A value of the table that is no word is of the wrong type.
    pub fn read_worded(alloc: Global, text: &str) -> Result<OwnSettings, SettingsFault>
        ensures ok { IfOk result (λ settings. worded_settings_of text.now ≡ Ok settings) }
        ensures refused { IfErr result (RefusedBy (worded_settings_of text.now)) }
    {
        let table = read_toml(alloc, text)?;
        let OwnSettings { words, campaign } = read_worded_members(alloc, &table)?;
        let campaign = campaign.read_from(String::from_str(alloc, text)?);
        Ok(OwnSettings { words, campaign })
    }
}

// The table of a text.
fn read_toml(alloc: Global, text: &str) -> Result<Table, SettingsFault>
    ensures ok { IfOk result (λ table. members_of text.now ≡ Ok (table_view table)) }
    ensures refused { IfErr result (RefusedBy (members_of text.now)) }
{
    if text.len() > LIMIT {
        return Err(SettingsFault::TooLong);
    }
    match toml::table_from_str(alloc, text) {
        Ok(table) => Ok(table),
        Err(error) if error.is_memory() => Err(SettingsFault::Memory),
        Err(_) => Err(SettingsFault::NotToml),
    }
}

fn read_members(alloc: Global, table: &Table) -> Result<Settings, SettingsFault>
    ensures ok { IfOk result (λ settings. settings_in (table_view table.now) ≡ Ok settings) }
    ensures refused { IfErr result (RefusedBy (settings_in (table_view table.now))) }
{
    let target = read_target(value_at(table, "target"));
    refuse_unknown(alloc, Place::Top(target.ok()), table)?;
    let target = keyed(Key::Target, target)?;
    read_for(alloc, target, table)
}

fn read_own_members(alloc: Global, table: &Table) -> Result<CampaignSettings, SettingsFault>
    ensures ok { IfOk result (λ settings. own_settings_in (table_view table.now) ≡ Ok settings) }
    ensures refused { IfErr result (RefusedBy (own_settings_in (table_view table.now))) }
{
    refuse_unknown(alloc, Place::Own, table)?;
    read_given(alloc, table)
}

fn read_worded_members(alloc: Global, table: &Table) -> Result<OwnSettings, SettingsFault>
    ensures ok { IfOk result (λ settings. worded_settings_in (table_view table.now) ≡ Ok settings) }
    ensures refused { IfErr result (RefusedBy (worded_settings_in (table_view table.now))) }
{
    refuse_unknown(alloc, Place::Worded, table)?;
    let variant = read_variant(alloc, value_at(table, "variant"))?;
    let campaign = read_given(alloc, table)?;
    let words = read_words(alloc, value_at(table, "own"))?;
    Ok(OwnSettings {
        words: OwnWords::new(variant, words),
        campaign,
    })
}

// What a campaign is given beside its target.
fn read_given(alloc: Global, table: &Table) -> Result<CampaignSettings, SettingsFault>
    ensures ok { IfOk result (λ settings. given_in (table_view table.now) ≡ Ok settings) }
    ensures refused { IfErr result (RefusedBy (given_in (table_view table.now))) }
{
    let running = read_running(table)?;
    let planning = read_planning(table)?;
    let scenarios = read_listed(alloc, value_at(table, "scenarios"))?;
    Ok(campaign_of(alloc, running, planning, scenarios))
}

// The settings of this target.
fn read_for(alloc: Global, target: TargetName, table: &Table) -> Result<Settings, SettingsFault>
    ensures ok { IfOk result (λ settings. settings_for target (table_view table.now) ≡ Ok settings) }
    ensures refused { IfErr result (RefusedBy (settings_for target (table_view table.now))) }
{
    let setup = keyed(Key::Variant, read_setup(target, value_at(table, "variant")))?;
    let running = read_running(table)?;
    let planning = read_planning(table)?;
    let scenarios = read_scenarios(alloc, setup, value_at(table, "scenarios"))?;
    let choice = read_choice(alloc, target, setup, planning.depth, table)?;
    Ok(Settings {
        choice,
        campaign: campaign_of(alloc, running, planning, scenarios),
    })
}
