//! The kinds of faults that are tried at the points of a target from outside.
ghost use Rattle.std.specs.Prelude.{◌≡◌, Ok, IfOk, IfErr, OnOk, [], is_some, find, length, not, option_and_then, option_copied, option_map, replicate, string_bytes};
ghost use Rattle.std.specs.List.{AllByRecursion, list_all};
ghost use Rattle.std.specs.List.Sorted.{IsStrictlySortedBy};
ghost use Rattle.std.specs.Map.{keys_of};
ghost use Rattle.std.specs.String.{string_cmp};
ghost use Rattle.toml.specs.View.{table_view, view};
ghost use Rattle.scenario_grammar.specs.Words.{without_last};
ghost use Rattle.campaign_given.specs.Description.{AreTried};
ghost use Rattle.campaign_settings.specs.Lists.{each};
ghost use Rattle.campaign_settings.specs.Outside.{is_fault_list, fault_of, faults_of, is_one_of, kinds_in, texts_for, return_of, text_of_return, faults_where};
ghost use Rattle.campaign_settings.specs.Settings.{RefusedBy, all_known, keyed, kinds_beside, kinds_by, least_unknown};
ghost use Rattle.campaign_settings.specs.declared.keys.Key.TheVariants as key;
ghost use Rattle.campaign_settings.specs.declared.keys.Place.TheVariants as place;

use crate::fault::SettingsFault;
use crate::keys::{Key, Place};
use crate::lists::{copy_list, is_text_list};
use crate::names::{are_distinct, is_return_text};
use crate::tables::{keyed, refuse_key};
use crate::values::{read_table, value_at};
use campaign_given::{TriedFault, TriedFaults};
use scenario_grammar::{Text, cut_once};
use std::alloc::{AllocError, Global};
use toml::{Table, Value};

// ---- a fault

fn without_parenthesis(text: &str) -> Option<&str>
    ensures { option_map (λ front. front.now) result ≡ without_last 41 text.now }
{
    text.strip_suffix(')')
}

// What stands in the parentheses of `return(..)`.
fn text_of_return(spelled: &str) -> Option<&str>
    ensures { option_map (λ text. text.now) result ≡ text_of_return spelled.now }
{
    match cut_once(spelled, '(') {
        Some(("return", rest)) => without_parenthesis(rest),
        _ => None,
    }
}

fn copy_return(alloc: Global, text: &str) -> Result<Option<TriedFault>, AllocError>
    ensures { IfOk result (λ r. r ≡ return_of text.now) }
{
    if !is_return_text(text) {
        return Ok(None);
    }
    Ok(Some(TriedFault::Return(Some(Text::copy_of(alloc, text)?))))
}

// The fault that a text spells, or none.
fn copy_fault(alloc: Global, spelled: &str) -> Result<Option<TriedFault>, AllocError>
    ensures { IfOk result (λ r. r ≡ fault_of spelled.now) }
{
    if spelled == "return" {
        return Ok(Some(TriedFault::Return(None)));
    }
    if spelled == "panic" {
        return Ok(Some(TriedFault::Panic));
    }
    match text_of_return(spelled) {
        Some(text) => copy_return(alloc, text),
        None => Ok(None),
    }
}

// ---- the faults of a point

fn copy_each(alloc: Global, spelled: &[Text]) -> Result<Option<Vec<TriedFault>>, AllocError>
    ensures { IfOk result (λ r. option_map (λ faults. faults.items) r ≡ each fault_of spelled.now) }
{
    let mut faults = Vec::new(alloc);
    for text in spelled {
        let Some(fault) = copy_fault(alloc, text.as_str())? else {
            return Ok(None);
        };
        faults.push(fault)?;
    }
    Ok(Some(faults))
}

fn is_fault_list(spelled: &[Text]) -> bool
    ensures { result ≡ is_fault_list spelled.now }
{
    !spelled.is_empty() && spelled.len() <= 8 && are_distinct(spelled)
}

fn copy_faults(alloc: Global, spelled: &[Text]) -> Result<Option<TriedFaults>, AllocError>
    ensures { IfOk result (λ r. r ≡ faults_of spelled.now) }
{
    if !is_fault_list(spelled) {
        return Ok(None);
    }
    match copy_each(alloc, spelled)? {
        Some(faults) => Ok(Some(TriedFaults::new(faults))),
        None => Ok(None),
    }
}

// The kinds of a point, or none if what the table has for it is no list of them. If the table has nothing for it, they are the usual ones.
fn copy_tried(alloc: Global, table: &Table, point: &str) -> Result<Option<TriedFaults>, AllocError>
    ensures { IfOk result (λ r. r ≡ option_and_then faults_where (texts_for (table_view table.now) point.now)) }
{
    let Some(value) = value_at(table, point) else {
        return Ok(Some(TriedFaults::new(Vec::new(alloc))));
    };
    match copy_list(alloc, value)? {
        Some(spelled) => copy_faults(alloc, spelled.as_slice()),
        None => Ok(None),
    }
}

fn copy_kinds(
    alloc: Global,
    table: &Table,
    points: &[Text],
) -> Result<Option<Vec<TriedFaults>>, AllocError>
    ensures { IfOk result (λ r. option_map (λ kinds. kinds.items) r
        ≡ each (λ point. option_and_then faults_where (texts_for (table_view table.now) point)) points.now) }
{
    let mut kinds = Vec::new(alloc);
    for point in points {
        let Some(tried) = copy_tried(alloc, table, point.as_str())? else {
            return Ok(None);
        };
        kinds.push(tried)?;
    }
    Ok(Some(kinds))
}

// ---- the table

// Whether the table has a list of texts for the point, or nothing.
fn is_listed(table: &Table, point: &str) -> bool
    ensures { result ≡ is_some (texts_for (table_view table.now) point.now) }
{
    match value_at(table, point) {
        Some(value) => is_text_list(value),
        None => true,
    }
}

fn all_listed(table: &Table, points: &[Text]) -> bool
    ensures { result ≡ list_all (λ point. is_some (texts_for (table_view table.now) point)) points.now }
{
    points.iter().all(|point| is_listed(table, point.as_str()))
}

fn are_listed(table: &Table, points: &[Text]) -> bool
    ensures { result ≡ is_some (each (texts_for (table_view table.now)) points.now) }
{
    all_listed(table, points)
}

fn is_one_of(points: &[Text], name: &str) -> bool
    ensures { result ≡ is_one_of points.now name.now }
{
    points.iter().any(|point| name == point.as_str())
}

// The first key of the table that is no point. Keys are in ascending order.
fn unknown_point<'a>(points: &[Text], table: &'a Table) -> Option<&'a String>
    ensures ordered { IsStrictlySortedBy string_cmp (keys_of table.now.entries) }
    ensures found { option_copied result ≡ find (λ name. not (is_one_of points.now (string_bytes name))) (keys_of table.now.entries) }
{
    table.keys().find(|name| !is_one_of(points, name.as_str()))
}

fn refuse_unknown_point(points: &[Text], table: &Table) -> Result<(), SettingsFault>
    ensures ok { OnOk result (all_known place.Kinds (least_unknown (is_one_of points.now) (table_view table.now)) ≡ Ok tt) }
    ensures refused { IfErr result (RefusedBy (all_known place.Kinds (least_unknown (is_one_of points.now) (table_view table.now)))) }
{
    refuse_key(Place::Kinds, unknown_point(points, table))
}

// The kinds at each of the points, from a table that has no other key.
fn read_values(
    alloc: Global,
    points: &[Text],
    table: &Table,
) -> Result<Vec<TriedFaults>, SettingsFault>
    ensures ok { IfOk result (λ kinds. kinds_in points.now (table_view table.now) ≡ Ok kinds.items) }
    ensures many { IfOk result (λ kinds. length kinds.items ≡ length points.now) }
    ensures tried { IfOk result (λ kinds. AllByRecursion AreTried kinds.items) }
    ensures refused { IfErr result (RefusedBy (keyed key.Kinds (kinds_in points.now (table_view table.now)))) }
{
    if !are_listed(table, points) {
        return Err(SettingsFault::WrongType(Key::Kinds));
    }
    match copy_kinds(alloc, table, points)? {
        Some(kinds) => Ok(kinds),
        None => Err(SettingsFault::OutOfRange(Key::Kinds)),
    }
}

fn read_kinds_table(
    alloc: Global,
    points: &[Text],
    value: &Value,
) -> Result<Vec<TriedFaults>, SettingsFault>
    ensures ok { IfOk result (λ kinds. kinds_by points.now (view value.now) ≡ Ok kinds.items) }
    ensures many { IfOk result (λ kinds. length kinds.items ≡ length points.now) }
    ensures tried { IfOk result (λ kinds. AllByRecursion AreTried kinds.items) }
    ensures refused { IfErr result (RefusedBy (kinds_by points.now (view value.now))) }
{
    let table = keyed(Key::Kinds, read_table(Some(value)))?;
    refuse_unknown_point(points, table)?;
    read_values(alloc, points, table)
}

// The usual kinds at each point.
fn usual_kinds(alloc: Global, points: usize) -> Result<Vec<TriedFaults>, AllocError>
    ensures { IfOk result (λ kinds. kinds.items ≡ replicate points []) }
{
    let mut kinds = Vec::new(alloc);
    for _ in 0..points {
        kinds.push(TriedFaults::new(Vec::new(alloc)))?;
    }
    Ok(kinds)
}

/// The kinds that are tried at each of the points. Settings may give them only with a depth.
pub fn read_kinds(
    alloc: Global,
    depth: Option<u32>,
    points: &[Text],
    value: Option<&Value>,
) -> Result<Vec<TriedFaults>, SettingsFault>
    ensures ok { IfOk result (λ kinds. kinds_beside depth points.now (option_map (λ v. view v.now) value.entry) ≡ Ok kinds.items) }
    ensures many { IfOk result (λ kinds. length kinds.items ≡ length points.now) }
    ensures tried { IfOk result (λ kinds. AllByRecursion AreTried kinds.items) }
    ensures refused { IfErr result (RefusedBy (kinds_beside depth points.now (option_map (λ v. view v.now) value.entry))) }
{
    let Some(value) = value else {
        return Ok(usual_kinds(alloc, points.len())?);
    };
    if depth.is_none() {
        return Err(SettingsFault::OutOfRange(Key::Kinds));
    }
    read_kinds_table(alloc, points, value)
}
