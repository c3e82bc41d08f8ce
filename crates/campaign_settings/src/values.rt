//! The value at one key, by its kind and range.
ghost use Rattle.std.specs.Prelude.{◌≡◌, ◌≤◌, Ok, Err, option_map, IfOk, IfErr, IfSome};
ghost use Rattle.toml.specs.Data.{get_member};
ghost use Rattle.toml.specs.View.{table_view, view};
ghost use Rattle.campaign_settings.specs.Values.{boolean_at, commit_named, in_range, number_at, optional_at, maildir_named, replace_named, setup_at, setup_named, table_at, target_at, target_named, text_at, within};

use crate::choice::Setup;
use crate::keys::{KeyFault, TargetName};
use toml::{Table, Value};

/// The value at a key.
pub fn value_at<'a>(table: &'a Table, key: &str) -> Option<&'a Value>
    ensures { option_map (λ value. view value.now) result ≡ get_member key.now (table_view table.now) }
{
    table.get(key)
}

/// A number of TOML, if it is in a range.
fn ranged(number: i64, low: u64, high: u64) -> Result<u64, KeyFault>
    ensures { result ≡ in_range low high number }
{
    if number < 0 {
        return Err(KeyFault::OutOfRange);
    }
    within(number as u64, low, high)
}

fn within(number: u64, low: u64, high: u64) -> Result<u64, KeyFault>
    ensures { result ≡ within low high number }
{
    if low <= number && number <= high {
        Ok(number)
    } else {
        Err(KeyFault::OutOfRange)
    }
}

/// A number at a key, from low to high.
pub fn read_number(
    value: Option<&Value>,
    missing: Result<u64, KeyFault>,
    low: u64,
    high: u64,
) -> Result<u64, KeyFault>
    requires low { IfOk missing (λ n. low ≤ n) }
    requires high { IfOk missing (λ n. n ≤ high) }
    ensures value { result ≡ number_at missing low high (option_map (λ v. view v.now) value.entry) }
    ensures low { IfOk result (λ n. low ≤ n) }
    ensures high { IfOk result (λ n. n ≤ high) }
{
    let Some(value) = value else {
        return missing;
    };
    match value.as_integer() {
        Some(number) => ranged(number, low, high),
        None => Err(KeyFault::WrongType),
    }
}

/// The same for a key that may be missing.
pub fn read_optional(value: Option<&Value>, low: u32, high: u32) -> Result<Option<u32>, KeyFault>
    ensures value { result ≡ optional_at low high (option_map (λ v. view v.now) value.entry) }
    ensures low { IfOk result (λ number. IfSome number (λ n. low ≤ n)) }
    ensures high { IfOk result (λ number. IfSome number (λ n. n ≤ high)) }
{
    if value.is_none() {
        return Ok(None);
    }
    let number = read_number(value, Err(KeyFault::Missing), low as u64, high as u64)?;
    Ok(Some(number as u32))
}

/// A flag at a key; `missing` if the key is missing.
pub fn read_boolean(value: Option<&Value>, missing: bool) -> Result<bool, KeyFault>
    ensures { result ≡ boolean_at missing (option_map (λ v. view v.now) value.entry) }
{
    let Some(value) = value else {
        return Ok(missing);
    };
    match value.as_bool() {
        Some(flag) => Ok(flag),
        None => Err(KeyFault::WrongType),
    }
}

/// The target that is named at a key.
pub fn read_target(value: Option<&Value>) -> Result<TargetName, KeyFault>
    ensures { result ≡ target_at (option_map (λ v. view v.now) value.entry) }
{
    let Some(value) = value else {
        return Err(KeyFault::Missing);
    };
    match value.as_str() {
        Some(name) => target_named(name),
        None => Err(KeyFault::WrongType),
    }
}

fn target_named(name: &str) -> Result<TargetName, KeyFault>
    ensures { result ≡ target_named name.now }
{
    match name {
        "replace" => Ok(TargetName::Replace),
        "maildir" => Ok(TargetName::Maildir),
        "commit" => Ok(TargetName::Commit),
        "outside" => Ok(TargetName::Outside),
        _ => Err(KeyFault::OutOfRange),
    }
}

/// The variant of a target, named at a key; `sound` if the key is missing.
pub fn read_setup(target: TargetName, value: Option<&Value>) -> Result<Setup, KeyFault>
    ensures { result ≡ setup_at target (option_map (λ v. view v.now) value.entry) }
{
    let Some(value) = value else {
        return setup_named(target, "sound");
    };
    match value.as_str() {
        Some(name) => setup_named(target, name),
        None => Err(KeyFault::WrongType),
    }
}

fn setup_named(target: TargetName, name: &str) -> Result<Setup, KeyFault>
    ensures { result ≡ setup_named target name.now }
{
    match target {
        TargetName::Replace => replace_named(name),
        TargetName::Maildir => maildir_named(name),
        TargetName::Commit => commit_named(name),
        TargetName::Outside => Ok(Setup::Outside),
    }
}

fn replace_named(name: &str) -> Result<Setup, KeyFault>
    ensures { result ≡ replace_named name.now }
{
    let variant = match name {
        "sound" => file_replace::Variant::Sound,
        "late_sync" => file_replace::Variant::LateSync,
        "ignore_sync" => file_replace::Variant::IgnoreSync,
        "retry_write" => file_replace::Variant::RetryWrite,
        "rename_first" => file_replace::Variant::RenameFirst,
        "in_place" => file_replace::Variant::InPlace,
        _ => return Err(KeyFault::OutOfRange),
    };
    Ok(Setup::Replace(variant))
}

fn maildir_named(name: &str) -> Result<Setup, KeyFault>
    ensures { result ≡ maildir_named name.now }
{
    let variant = match name {
        "sound" => maildir_target::Variant::Sound,
        "link_first" => maildir_target::Variant::LinkFirst,
        "ignore_write" => maildir_target::Variant::IgnoreWrite,
        "append_tmp" => maildir_target::Variant::AppendTmp,
        "deliver_in_new" => maildir_target::Variant::DeliverInNew,
        _ => return Err(KeyFault::OutOfRange),
    };
    Ok(Setup::Maildir(variant))
}

fn commit_named(name: &str) -> Result<Setup, KeyFault>
    ensures { result ≡ commit_named name.now }
{
    let variant = match name {
        "sound" => commit_target::Variant::Sound,
        "lazy_prepare" => commit_target::Variant::LazyPrepare,
        "early_end" => commit_target::Variant::EarlyEnd,
        "two_tries" => commit_target::Variant::TwoTries,
        "end_first" => commit_target::Variant::EndFirst,
        _ => return Err(KeyFault::OutOfRange),
    };
    Ok(Setup::Commit(variant))
}

/// The table at a key, lent.
pub fn read_table<'a>(value: Option<&'a Value>) -> Result<&'a Table, KeyFault>
    ensures ok { IfOk result (λ table. table_at (option_map (λ v. view v.now) value.entry) ≡ Ok (table_view table.now)) }
    ensures refused { IfErr result (λ fault. table_at (option_map (λ v. view v.now) value.entry) ≡ Err fault) }
{
    let Some(value) = value else {
        return Err(KeyFault::Missing);
    };
    match value.as_table() {
        Some(table) => Ok(table),
        None => Err(KeyFault::WrongType),
    }
}

/// A text, lent.
pub fn read_text<'a>(value: Option<&'a Value>, most: usize) -> Result<&'a str, KeyFault>
    ensures ok { IfOk result (λ text. text_at most (option_map (λ v. view v.now) value.entry) ≡ Ok text.now) }
    ensures refused { IfErr result (λ fault. text_at most (option_map (λ v. view v.now) value.entry) ≡ Err fault) }
{
    let Some(value) = value else {
        return Err(KeyFault::Missing);
    };
    match value.as_str() {
        Some(text) if text.len() <= most => Ok(text),
        Some(_) => Err(KeyFault::OutOfRange),
        None => Err(KeyFault::WrongType),
    }
}
