//! The tables of the settings: their keys, and each target's own table.
ghost use Rattle.std.specs.Prelude.{◌≡◌, Ok, Err, IfOk, IfErr, OnOk, Some, None, not, find, option_copied, option_map, string_bytes};
ghost use Rattle.std.specs.List.Sorted.{IsStrictlySortedBy};
ghost use Rattle.std.specs.Map.{keys_of};
ghost use Rattle.std.specs.String.{string_cmp};
ghost use Rattle.toml.specs.View.{table_view};
ghost use Rattle.campaign_settings.specs.Keys.{is_known};
ghost use Rattle.campaign_settings.specs.Settings.{RefusedBy, all_known, choice_in, committing_in, delivering_in, keyed, known_in, replacing_in, work_in};

use crate::choice::{Choice, Setup};
use crate::described::read_outside;
use crate::fault::SettingsFault;
use crate::keys::{Key, KeyFault, Place, TargetName};
use crate::lists::{read_chunks, read_votes};
use crate::values::{read_number, read_table, read_text, value_at};
use commit_target::Transactions;
use file_replace::Replacements;
use maildir_target::Messages;
use scenario_grammar::Text;
use std::alloc::Global;
use toml::Table;

/// A key's value, or the key with its fault.
pub fn keyed<X>(key: Key, value: Result<X, KeyFault>) -> Result<X, SettingsFault>
    ensures ok { IfOk result (λ x. value ≡ Ok x) }
    ensures refused { IfErr result (RefusedBy (keyed key value)) }
{
    match value {
        Ok(value) => Ok(value),
        Err(KeyFault::Missing) => Err(SettingsFault::Missing(key)),
        Err(KeyFault::WrongType) => Err(SettingsFault::WrongType(key)),
        Err(KeyFault::OutOfRange) => Err(SettingsFault::OutOfRange(key)),
    }
}

/// Refuses the least key that the table doesn't have.
pub fn refuse_unknown(alloc: Global, place: Place, table: &Table) -> Result<(), SettingsFault>
    ensures ok { OnOk result (known_in place (table_view table.now) ≡ Ok tt) }
    ensures refused { IfErr result (RefusedBy (known_in place (table_view table.now))) }
{
    refuse_key(place, unknown_key(place, table))
}

/// Refuses an unknown key, if there is one.
pub fn refuse_key(place: Place, name: Option<&String>) -> Result<(), SettingsFault>
    ensures ok { OnOk result (all_known place (option_map (λ n. string_bytes n.now) name.entry) ≡ Ok tt) }
    ensures refused { IfErr result (RefusedBy (all_known place (option_map (λ n. string_bytes n.now) name.entry))) }
{
    match name {
        Some(name) => Err(SettingsFault::UnknownKey(place, name.clone()?)),
        None => Ok(()),
    }
}

// The first in the table's order, in which keys ascend.
fn unknown_key(place: Place, table: &Table) -> Option<&String>
    ensures ordered { IsStrictlySortedBy string_cmp (keys_of table.now.entries) }
    ensures found { option_copied result ≡ find (λ name. not (is_known place (string_bytes name))) (keys_of table.now.entries) }
{
    table.keys().find(|name| !place.knows(name.as_str()))
}

fn read_replace(
    alloc: Global,
    variant: file_replace::Variant,
    table: &Table,
) -> Result<Choice, SettingsFault>
    ensures ok { IfOk result (λ choice. replacing_in variant (table_view table.now) ≡ Ok choice) }
    ensures refused { IfErr result (RefusedBy (replacing_in variant (table_view table.now))) }
{
    let old = keyed(Key::Old, read_text(value_at(table, "old"), 65536))?;
    let replacements = read_chunks(alloc, Key::Replacements, value_at(table, "replacements"))?;
    let old = Text::copy_of(alloc, old)?;
    Ok(Choice::Replace(variant, Replacements::new(old, replacements)))
}

fn read_maildir(
    alloc: Global,
    variant: maildir_target::Variant,
    table: &Table,
) -> Result<Choice, SettingsFault>
    ensures ok { IfOk result (λ choice. delivering_in variant (table_view table.now) ≡ Ok choice) }
    ensures refused { IfErr result (RefusedBy (delivering_in variant (table_view table.now))) }
{
    let messages = read_chunks(alloc, Key::Messages, value_at(table, "messages"))?;
    Ok(Choice::Maildir(variant, Messages::new(messages)))
}

fn read_commit(
    alloc: Global,
    variant: commit_target::Variant,
    table: &Table,
) -> Result<Choice, SettingsFault>
    ensures ok { IfOk result (λ choice. committing_in variant (table_view table.now) ≡ Ok choice) }
    ensures refused { IfErr result (RefusedBy (committing_in variant (table_view table.now))) }
{
    let value = value_at(table, "participants");
    let participants = keyed(
        Key::Participants,
        read_number(value, Err(KeyFault::Missing), 1, 8),
    )? as usize;
    let value = value_at(table, "transactions");
    let transactions = read_votes(alloc, Key::Transactions, participants, value)?;
    Ok(Choice::Commit(variant, Transactions::new(participants, transactions)))
}

// What the target's table says, if it has no unknown key, with a depth or without one.
fn read_work(
    alloc: Global,
    setup: Setup,
    depth: Option<u32>,
    table: &Table,
) -> Result<Choice, SettingsFault>
    ensures ok { IfOk result (λ choice. work_in setup depth (table_view table.now) ≡ Ok choice) }
    ensures refused { IfErr result (RefusedBy (work_in setup depth (table_view table.now))) }
{
    match setup {
        Setup::Replace(variant) => read_replace(alloc, variant, table),
        Setup::Maildir(variant) => read_maildir(alloc, variant, table),
        Setup::Commit(variant) => read_commit(alloc, variant, table),
        Setup::Outside => read_outside(alloc, depth, table),
    }
}

/// In the table of the target's name.
pub fn read_choice(
    alloc: Global,
    target: TargetName,
    setup: Setup,
    depth: Option<u32>,
    table: &Table,
) -> Result<Choice, SettingsFault>
    ensures ok { IfOk result (λ choice. choice_in target setup depth (table_view table.now) ≡ Ok choice) }
    ensures refused { IfErr result (RefusedBy (choice_in target setup depth (table_view table.now))) }
{
    let own = keyed(
        Key::Table(target),
        read_table(value_at(table, target.name())),
    )?;
    refuse_unknown(alloc, Place::Within(target), own)?;
    read_work(alloc, setup, depth, own)
}
