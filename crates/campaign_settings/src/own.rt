//! The words that settings have for a program's own target: its variant, and the table `own`.
ghost use Rattle.std.specs.Prelude.{◌≡◌, Ok, IfOk, IfErr, option_map, option_copied};
ghost use Rattle.toml.specs.View.{table_view, view};
ghost use Rattle.campaign_settings.specs.Own.{own_table, own_value, variant_at, words_at};
ghost use Rattle.campaign_settings.specs.Words.{word_at};
ghost use Rattle.campaign_settings.specs.Settings.{RefusedBy, keyed};
ghost use Rattle.campaign_settings.specs.declared.keys.Key.TheVariants as key;

use crate::fault::SettingsFault;
use crate::keys::Key;
use campaign_given::CampaignSettings;
use scenario_grammar::Text;
use std::alloc::{AllocError, Global};
use std::marker::Model;
use toml::{Table, Value};

/// A value of the table `own`. Other values of TOML are refused there.
#[derive(Debug, Drop)]
pub enum OwnValue {
    Text(Text),
    Number(i64),
    Flag(bool),
}

/// A key of the table `own`, and its value.
#[derive(Debug, Drop)]
pub struct OwnWord {
    pub name: Text,
    pub value: OwnValue,
}

/// What settings say about a program's own target: the variant that they name, and the table `own`. The program makes its target and its workload
/// from these. It decides what the words mean, and which it refuses.
#[derive(Debug, Drop)]
pub struct OwnWords {
    variant: Option<Text>,
    table: Vec<OwnWord>,
}

impl Model for OwnWords {
    ghost use Rattle.campaign_settings.specs.Words.{Words};

    ghost Value = { Words };

    ghost view = { λ words. record { variant = words.variant; table = words.table.items } };
}

/// What a text of settings gives to a program whose own target takes words.
#[derive(Drop)]
pub struct OwnSettings {
    pub words: OwnWords,
    pub campaign: CampaignSettings,
}

impl OwnWords {
    /// These words.
    pub fn new(variant: Option<Text>, table: Vec<OwnWord>) -> Self
        ensures { result ≡ record { variant = variant; table = table.items } }
    {
        OwnWords { variant, table }
    }

    /// The variant that is named, if one is.
    pub fn variant(&self) -> Option<&str>
        ensures { option_copied result ≡ self.now.variant }
    {
        match &self.variant {
            Some(name) => Some(name.as_str()),
            None => None,
        }
    }

    /// The words of the table. If they come from a text of settings, they are in the order of their names' bytes.
    pub fn table(&self) -> &[OwnWord]
        ensures { result.now ≡ self.now.table }
    {
        self.table.as_slice()
    }

    /// The value under a name, if there is one.
    pub fn get(&self, name: &str) -> Option<&OwnValue>
        ensures { option_copied result ≡ word_at name.now self.now.table }
    {
        for word in &self.table {
            if word.name.as_str() == name {
                return Some(&word.value);
            }
        }
        None
    }
}

/// The variant that is named, if one is.
pub fn read_variant(alloc: Global, value: Option<&Value>) -> Result<Option<Text>, SettingsFault>
    ensures ok { IfOk result (λ variant. keyed key.Variant (variant_at (option_map (λ v. view v.now) value.entry)) ≡ Ok variant) }
    ensures refused { IfErr result (RefusedBy (keyed key.Variant (variant_at (option_map (λ v. view v.now) value.entry)))) }
{
    let Some(value) = value else {
        return Ok(None);
    };
    match value.as_str() {
        Some(name) => Ok(Some(Text::copy_of(alloc, name)?)),
        None => Err(SettingsFault::WrongType(Key::Variant)),
    }
}

fn copy_value(alloc: Global, value: &Value) -> Result<Option<OwnValue>, AllocError>
    ensures { IfOk result (λ r. r ≡ own_value (view value.now)) }
{
    let value = match value {
        Value::String(text) => OwnValue::Text(Text::copy_of(alloc, text.as_str())?),
        Value::Integer(number) => OwnValue::Number(*number),
        Value::Boolean(flag) => OwnValue::Flag(*flag),
        _ => return Ok(None),
    };
    Ok(Some(value))
}

// The words of a table, or none if a value is no word.
fn copy_table(alloc: Global, table: &Table) -> Result<Option<Vec<OwnWord>>, AllocError>
    ensures { IfOk result (λ r. option_map (λ words. words.items) r ≡ own_table (table_view table.now)) }
{
    let mut words = Vec::new(alloc);
    for (name, value) in table {
        let Some(value) = copy_value(alloc, value)? else {
            return Ok(None);
        };
        let name = Text::copy_of(alloc, name.as_str())?;
        words.push(OwnWord { name, value })?;
    }
    Ok(Some(words))
}

/// The table of words. A missing table has none.
pub fn read_words(alloc: Global, value: Option<&Value>) -> Result<Vec<OwnWord>, SettingsFault>
    ensures ok { IfOk result (λ words. keyed key.Own (words_at (option_map (λ v. view v.now) value.entry)) ≡ Ok words.items) }
    ensures refused { IfErr result (RefusedBy (keyed key.Own (words_at (option_map (λ v. view v.now) value.entry)))) }
{
    let Some(value) = value else {
        return Ok(Vec::new(alloc));
    };
    let Some(table) = value.as_table() else {
        return Err(SettingsFault::WrongType(Key::Own));
    };
    match copy_table(alloc, table)? {
        Some(words) => Ok(words),
        None => Err(SettingsFault::WrongType(Key::Own)),
    }
}
