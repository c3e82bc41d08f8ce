//! Lists of texts at one key, and what is made of them.
ghost use Rattle.std.specs.Prelude.{◌≡◌, ◌≤◌, Ok, Err, IfOk, IfErr, All, is_some, map, length, option_and_then, option_map};
ghost use Rattle.std.specs.List.{list_all};
ghost use Rattle.toml.specs.View.{array_view, view};
ghost use Rattle.toml.specs.Data.{as_str};
ghost use Rattle.campaign_settings.specs.Lists.{all_in, chunks_of, is_chunk, is_chunk_list, is_wish, is_wish_list, list_in, lists_in, texts_in, wish_of, wishes_of};
ghost use Rattle.campaign_settings.specs.Values.{lists_at, texts_at};
ghost use Rattle.campaign_settings.specs.Settings.{RefusedBy, keyed};

use crate::fault::SettingsFault;
use crate::keys::Key;
use commit_target::{Vote, Votes};
use file_replace::Chunks;
use scenario_grammar::Text;
use std::alloc::{AllocError, Global};
use toml::Value;
use toml::value::Array;

// ---- types

fn is_text(item: &Value) -> bool
    ensures { result ≡ is_some (as_str (view item.now)) }
{
    item.as_str().is_some()
}

fn all_texts(items: &[Value]) -> bool
    ensures { result ≡ list_all (λ item. is_some (as_str (view item))) items.now }
{
    items.iter().all(|item| is_text(item))
}

fn are_texts(items: &Array) -> bool
    ensures { result ≡ is_some (texts_in (array_view items.now)) }
{
    all_texts(items.as_slice())
}

/// Whether it is a list of texts.
pub fn is_text_list(item: &Value) -> bool
    ensures { result ≡ is_some (list_in (view item.now)) }
{
    match item.as_array() {
        Some(items) => are_texts(items),
        None => false,
    }
}

fn all_text_lists(items: &[Value]) -> bool
    ensures { result ≡ list_all (λ item. is_some (list_in (view item))) items.now }
{
    items.iter().all(|item| is_text_list(item))
}

fn are_text_lists(items: &Array) -> bool
    ensures { result ≡ is_some (lists_in (array_view items.now)) }
{
    all_text_lists(items.as_slice())
}

// ---- texts

/// The texts of a list, or none if an item is no text.
pub fn copy_texts(alloc: Global, items: &Array) -> Result<Option<Vec<Text>>, AllocError>
    ensures { IfOk result (λ r. option_map (λ texts. texts.items) r ≡ texts_in (array_view items.now)) }
{
    let mut texts = Vec::new(alloc);
    for item in items {
        let Some(text) = item.as_str() else {
            return Ok(None);
        };
        texts.push(Text::copy_of(alloc, text)?)?;
    }
    Ok(Some(texts))
}

/// The same for a value, or none if it is no such list.
pub fn copy_list(alloc: Global, item: &Value) -> Result<Option<Vec<Text>>, AllocError>
    ensures { IfOk result (λ r. option_map (λ texts. texts.items) r ≡ list_in (view item.now)) }
{
    match item.as_array() {
        Some(items) => copy_texts(alloc, items),
        None => Ok(None),
    }
}

/// Up to `most` texts at a key. A missing key gives no texts.
pub fn read_texts(
    alloc: Global,
    key: Key,
    most: usize,
    value: Option<&Value>,
) -> Result<Vec<Text>, SettingsFault>
    ensures bound { IfOk result (λ texts. length texts.items ≤ most) }
    ensures ok { IfOk result (λ texts. keyed key (texts_at most (option_map (λ v. view v.now) value.entry)) ≡ Ok texts.items) }
    ensures refused { IfErr result (RefusedBy (keyed key (texts_at most (option_map (λ v. view v.now) value.entry)))) }
{
    let Some(value) = value else {
        return Ok(Vec::new(alloc));
    };
    let Some(items) = value.as_array() else {
        return Err(SettingsFault::WrongType(key));
    };
    let Some(texts) = copy_texts(alloc, items)? else {
        return Err(SettingsFault::WrongType(key));
    };
    if texts.len() > most {
        return Err(SettingsFault::OutOfRange(key));
    }
    Ok(texts)
}

// ---- chunks

fn all_chunks(chunks: &[Text]) -> bool
    ensures { result ≡ list_all is_chunk chunks.now }
{
    chunks.iter().all(|chunk| chunk.as_str().len() <= 4096)
}

fn is_chunk_list(chunks: &[Text]) -> bool
    ensures { result ≡ is_chunk_list chunks.now }
{
    chunks.len() <= 1000 && all_chunks(chunks)
}

fn copy_chunks(alloc: Global, item: &Value) -> Result<Option<Chunks>, AllocError>
    ensures { IfOk result (λ r. r ≡ option_and_then chunks_of (list_in (view item.now))) }
{
    let Some(texts) = copy_list(alloc, item)? else {
        return Ok(None);
    };
    if !is_chunk_list(texts.as_slice()) {
        return Ok(None);
    }
    Ok(Some(Chunks::new(alloc, texts.as_slice())?))
}

fn copy_chunk_lists(alloc: Global, items: &Array) -> Result<Option<Vec<Chunks>>, AllocError>
    ensures { IfOk result (λ r. option_map (λ lists. lists.items) r ≡ all_in (λ d. option_and_then chunks_of (list_in d)) (array_view items.now)) }
{
    let mut lists = Vec::new(alloc);
    for item in items {
        let Some(chunks) = copy_chunks(alloc, item)? else {
            return Ok(None);
        };
        lists.push(chunks)?;
    }
    Ok(Some(lists))
}

/// Up to 1000 lists of chunks at a key.
pub fn read_chunks(
    alloc: Global,
    key: Key,
    value: Option<&Value>,
) -> Result<Vec<Chunks>, SettingsFault>
    ensures ok { IfOk result (λ lists. keyed key (lists_at chunks_of 1000 (option_map (λ v. view v.now) value.entry)) ≡ Ok lists.items) }
    ensures few { IfOk result (λ lists. length lists.items ≤ 1000) }
    ensures refused { IfErr result (RefusedBy (keyed key (lists_at chunks_of 1000 (option_map (λ v. view v.now) value.entry)))) }
{
    let Some(value) = value else {
        return Err(SettingsFault::Missing(key));
    };
    let Some(items) = value.as_array() else {
        return Err(SettingsFault::WrongType(key));
    };
    if !are_text_lists(items) {
        return Err(SettingsFault::WrongType(key));
    }
    let Some(lists) = copy_chunk_lists(alloc, items)? else {
        return Err(SettingsFault::OutOfRange(key));
    };
    if lists.len() > 1000 {
        return Err(SettingsFault::OutOfRange(key));
    }
    Ok(lists)
}

// ---- wishes

fn is_wish(word: &str) -> bool
    ensures { result ≡ is_wish word.now }
{
    word == "yes" || word == "no"
}

fn wish_of(word: &str) -> Vote
    ensures { result ≡ wish_of word.now }
{
    if word == "yes" { Vote::Yes } else { Vote::No }
}

fn all_wishes(words: &[Text]) -> bool
    ensures { result ≡ list_all is_wish words.now }
{
    words.iter().all(|word| is_wish(word.as_str()))
}

fn is_wish_list(participants: usize, words: &[Text]) -> bool
    ensures { result ≡ is_wish_list participants words.now }
{
    words.len() == participants && all_wishes(words)
}

fn copy_wishes(alloc: Global, words: &[Text]) -> Result<Votes, AllocError>
    ensures { IfOk result (λ votes. votes ≡ map wish_of words.now) }
{
    let mut votes = Vec::new(alloc);
    for word in words {
        votes.push(wish_of(word.as_str()))?;
    }
    Ok(Votes::new(votes))
}

fn copy_votes(alloc: Global, participants: usize, item: &Value) -> Result<Option<Votes>, AllocError>
    ensures { IfOk result (λ r. r ≡ option_and_then (wishes_of participants) (list_in (view item.now))) }
{
    let Some(words) = copy_list(alloc, item)? else {
        return Ok(None);
    };
    if !is_wish_list(participants, words.as_slice()) {
        return Ok(None);
    }
    Ok(Some(copy_wishes(alloc, words.as_slice())?))
}

fn copy_vote_lists(
    alloc: Global,
    participants: usize,
    items: &Array,
) -> Result<Option<Vec<Votes>>, AllocError>
    ensures { IfOk result (λ r. option_map (λ lists. lists.items) r
        ≡ all_in (λ d. option_and_then (wishes_of participants) (list_in d)) (array_view items.now)) }
{
    let mut lists = Vec::new(alloc);
    for item in items {
        let Some(votes) = copy_votes(alloc, participants, item)? else {
            return Ok(None);
        };
        lists.push(votes)?;
    }
    Ok(Some(lists))
}

/// Up to 100 lists of wishes at a key, each with one wish for each participant.
pub fn read_votes(
    alloc: Global,
    key: Key,
    participants: usize,
    value: Option<&Value>,
) -> Result<Vec<Votes>, SettingsFault>
    ensures ok { IfOk result (λ lists. keyed key (lists_at (wishes_of participants) 100 (option_map (λ v. view v.now) value.entry)) ≡ Ok lists.items) }
    ensures few { IfOk result (λ lists. length lists.items ≤ 100) }
    ensures wishes { IfOk result (λ lists. All (λ votes. length votes ≡ participants) lists.items) }
    ensures refused { IfErr result (RefusedBy (keyed key (lists_at (wishes_of participants) 100 (option_map (λ v. view v.now) value.entry)))) }
{
    let Some(value) = value else {
        return Err(SettingsFault::Missing(key));
    };
    let Some(items) = value.as_array() else {
        return Err(SettingsFault::WrongType(key));
    };
    if !are_text_lists(items) {
        return Err(SettingsFault::WrongType(key));
    }
    let Some(lists) = copy_vote_lists(alloc, participants, items)? else {
        return Err(SettingsFault::OutOfRange(key));
    };
    if lists.len() > 100 {
        return Err(SettingsFault::OutOfRange(key));
    }
    Ok(lists)
}
