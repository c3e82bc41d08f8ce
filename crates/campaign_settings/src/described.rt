//! The table of a target from outside.
ghost use Rattle.std.specs.Prelude.{◌≡◌, ◌≤◌, Ok, Err, IfOk, IfErr, true, is_some, length, option_and_then, option_map};
ghost use Rattle.std.specs.List.{AllByRecursion, list_all};
ghost use Rattle.toml.specs.Data.{as_integer};
ghost use Rattle.toml.specs.View.{array_view, table_view, view};
ghost use Rattle.action_eval.specs.Catalogue.{IsCatalogue};
ghost use Rattle.campaign_given.specs.Description.{AreCodes, are_codes, are_points, is_label};
ghost use Rattle.campaign_settings.specs.Lists.{all_in, texts_in};
ghost use Rattle.campaign_settings.specs.Outside.{count_of, counts_at, hits_beside, label_at, listed_at, names_at, uncounted_at};
ghost use Rattle.campaign_settings.specs.declared.keys.Key.TheVariants as key;
ghost use Rattle.campaign_settings.specs.Settings.{RefusedBy, described_by, describing_in, keyed};

use crate::choice::Choice;
use crate::fault::SettingsFault;
use crate::keys::{Key, KeyFault};
use crate::kinds::read_kinds;
use crate::lists::copy_texts;
use crate::names::{are_codes, are_points, is_label};
use crate::tables::keyed;
use crate::values::value_at;
use campaign_given::Outside;
use scenario_grammar::Text;
use std::alloc::{AllocError, Global};
use toml::value::Array;
use toml::{Table, Value};

// ---- names

// The label, lent.
fn read_label<'a>(value: Option<&'a Value>) -> Result<&'a str, KeyFault>
    ensures ok { IfOk result (λ label. label_at (option_map (λ v. view v.now) value.entry) ≡ Ok label.now) }
    ensures lawful { IfOk result (λ label. is_label label.now ≡ true) }
    ensures refused { IfErr result (λ fault. label_at (option_map (λ v. view v.now) value.entry) ≡ Err fault) }
{
    let Some(value) = value else {
        return Err(KeyFault::Missing);
    };
    match value.as_str() {
        Some(label) if is_label(label) => Ok(label),
        Some(_) => Err(KeyFault::OutOfRange),
        None => Err(KeyFault::WrongType),
    }
}

// The texts of a list that has to be there.
fn read_names(alloc: Global, key: Key, value: Option<&Value>) -> Result<Vec<Text>, SettingsFault>
    ensures ok { IfOk result (λ names. listed_at (option_map (λ v. view v.now) value.entry) ≡ Ok names.items) }
    ensures refused { IfErr result (RefusedBy (keyed key (listed_at (option_map (λ v. view v.now) value.entry)))) }
{
    let Some(value) = value else {
        return Err(SettingsFault::Missing(key));
    };
    let Some(items) = value.as_array() else {
        return Err(SettingsFault::WrongType(key));
    };
    match copy_texts(alloc, items)? {
        Some(names) => Ok(names),
        None => Err(SettingsFault::WrongType(key)),
    }
}

#[tactic(auto, using(crate::proofs::DescriptionLemmas::codes_kept))]
fn read_codes(alloc: Global, value: Option<&Value>) -> Result<Vec<Text>, SettingsFault>
    ensures ok { IfOk result (λ names. names_at are_codes (option_map (λ v. view v.now) value.entry) ≡ Ok names.items) }
    ensures lawful { IfOk result (λ names. AreCodes names.items) }
    ensures refused { IfErr result (RefusedBy (keyed key.Codes (names_at are_codes (option_map (λ v. view v.now) value.entry)))) }
{
    let names = read_names(alloc, Key::Codes, value)?;
    if are_codes(names.as_slice()) {
        Ok(names)
    } else {
        Err(SettingsFault::OutOfRange(Key::Codes))
    }
}

#[tactic(auto, using(crate::proofs::DescriptionLemmas::points_kept, crate::proofs::DescriptionLemmas::points_labelled))]
fn read_points(alloc: Global, value: Option<&Value>) -> Result<Vec<Text>, SettingsFault>
    ensures ok { IfOk result (λ names. names_at are_points (option_map (λ v. view v.now) value.entry) ≡ Ok names.items) }
    ensures lawful { IfOk result (λ names. IsCatalogue names.items) }
    ensures plain { IfOk result (λ names. AllByRecursion (λ name. is_label name ≡ true) names.items) }
    ensures refused { IfErr result (RefusedBy (keyed key.Points (names_at are_points (option_map (λ v. view v.now) value.entry)))) }
{
    let names = read_names(alloc, Key::Points, value)?;
    if are_points(names.as_slice()) {
        Ok(names)
    } else {
        Err(SettingsFault::OutOfRange(Key::Points))
    }
}

// ---- counts

fn is_number(item: &Value) -> bool
    ensures { result ≡ is_some (as_integer (view item.now)) }
{
    item.as_integer().is_some()
}

fn all_numbers(items: &[Value]) -> bool
    ensures { result ≡ list_all (λ item. is_some (as_integer (view item))) items.now }
{
    items.iter().all(|item| is_number(item))
}

fn are_numbers(items: &Array) -> bool
    ensures { result ≡ is_some (all_in as_integer (array_view items.now)) }
{
    all_numbers(items.as_slice())
}

// How often a point is hit.
fn count_in(item: &Value) -> Option<u32>
    ensures { result ≡ option_and_then count_of (as_integer (view item.now)) }
{
    match item.as_integer() {
        Some(number) if 0 <= number && number <= 100000 => Some(number as u32),
        _ => None,
    }
}

fn copy_counts(alloc: Global, items: &Array) -> Result<Option<Vec<u32>>, AllocError>
    ensures { IfOk result (λ r. option_map (λ counts. counts.items) r ≡ all_in (λ d. option_and_then count_of (as_integer d)) (array_view items.now)) }
{
    let mut counts = Vec::new(alloc);
    for item in items {
        let Some(count) = count_in(item) else {
            return Ok(None);
        };
        counts.push(count)?;
    }
    Ok(Some(counts))
}

// A count for each point.
fn read_counts(
    alloc: Global,
    points: usize,
    value: Option<&Value>,
) -> Result<Vec<u32>, SettingsFault>
    ensures ok { IfOk result (λ counts. counts_at points (option_map (λ v. view v.now) value.entry) ≡ Ok counts.items) }
    ensures counts { IfOk result (λ counts. length counts.items ≡ points) }
    ensures high { IfOk result (λ counts. AllByRecursion (λ n. n ≤ 100000) counts.items) }
    ensures refused { IfErr result (RefusedBy (keyed key.Hits (counts_at points (option_map (λ v. view v.now) value.entry)))) }
{
    let Some(value) = value else {
        return Err(SettingsFault::Missing(Key::Hits));
    };
    let Some(items) = value.as_array() else {
        return Err(SettingsFault::WrongType(Key::Hits));
    };
    if !are_numbers(items) {
        return Err(SettingsFault::WrongType(Key::Hits));
    }
    let Some(counts) = copy_counts(alloc, items)? else {
        return Err(SettingsFault::OutOfRange(Key::Hits));
    };
    if counts.len() != points {
        return Err(SettingsFault::OutOfRange(Key::Hits));
    }
    Ok(counts)
}

// A count of 0 for each point, if no counts may be given.
fn read_no_counts(
    alloc: Global,
    points: usize,
    value: Option<&Value>,
) -> Result<Vec<u32>, SettingsFault>
    ensures ok { IfOk result (λ counts. uncounted_at points (option_map (λ v. view v.now) value.entry) ≡ Ok counts.items) }
    ensures counts { IfOk result (λ counts. length counts.items ≡ points) }
    ensures high { IfOk result (λ counts. AllByRecursion (λ n. n ≤ 100000) counts.items) }
    ensures refused { IfErr result (RefusedBy (keyed key.Hits (uncounted_at points (option_map (λ v. view v.now) value.entry)))) }
{
    if value.is_some() {
        return Err(SettingsFault::OutOfRange(Key::Hits));
    }
    Ok(vec![in alloc; 0u32; points]?)
}

// The counts of the points. Without a depth they have to be there; with one they may not.
fn read_hits(
    alloc: Global,
    depth: Option<u32>,
    points: usize,
    value: Option<&Value>,
) -> Result<Vec<u32>, SettingsFault>
    ensures ok { IfOk result (λ counts. hits_beside depth points (option_map (λ v. view v.now) value.entry) ≡ Ok counts.items) }
    ensures counts { IfOk result (λ counts. length counts.items ≡ points) }
    ensures high { IfOk result (λ counts. AllByRecursion (λ n. n ≤ 100000) counts.items) }
    ensures refused { IfErr result (RefusedBy (keyed key.Hits (hits_beside depth points (option_map (λ v. view v.now) value.entry)))) }
{
    match depth {
        None => read_counts(alloc, points, value),
        Some(_) => read_no_counts(alloc, points, value),
    }
}

// ---- the table

// What stands after the label.
fn read_described(
    alloc: Global,
    depth: Option<u32>,
    label: Text,
    table: &Table,
) -> Result<Choice, SettingsFault>
    requires { is_label label ≡ true }
    ensures ok { IfOk result (λ choice. described_by depth label (table_view table.now) ≡ Ok choice) }
    ensures refused { IfErr result (RefusedBy (described_by depth label (table_view table.now))) }
{
    let codes = read_codes(alloc, value_at(table, "codes"))?;
    let points = read_points(alloc, value_at(table, "points"))?;
    let hits = read_hits(alloc, depth, points.len(), value_at(table, "hits"))?;
    let kinds = read_kinds(alloc, depth, points.as_slice(), value_at(table, "kinds"))?;
    Ok(Choice::Outside(Outside {
        label,
        codes,
        points,
        hits,
        kinds,
    }))
}

/// The description of a component, with a depth or without one.
pub fn read_outside(
    alloc: Global,
    depth: Option<u32>,
    table: &Table,
) -> Result<Choice, SettingsFault>
    ensures ok { IfOk result (λ choice. describing_in depth (table_view table.now) ≡ Ok choice) }
    ensures refused { IfErr result (RefusedBy (describing_in depth (table_view table.now))) }
{
    let label = keyed(Key::Label, read_label(value_at(table, "label")))?;
    read_described(alloc, depth, Text::copy_of(alloc, label)?, table)
}
