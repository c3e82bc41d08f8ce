//! The words of a program's own target: what settings give of them, and with which line they are refused.

use campaign_main::{
    Exit, Out, OwnSettings, OwnValue, OwnWords, Settings, read_own_settings, refuse_own_words,
};
use std::alloc::Global;
use std::process::Abort;
use std::test::Fail;

/// The settings that a text gives to a target that takes words.
fn read(alloc: Global, text: &str) -> Result<OwnSettings, Fail> {
    Ok(Settings::read_worded(alloc, text)?)
}

const WORDS: &str =
    "variant = 'early_ack'\nseed = 7\n[own]\nwhole = -3\nfile = 'a'\nstrict = true\n";

/// The names of the words of the table, in their order.
fn names<'w>(alloc: Global, words: &'w OwnWords) -> Result<Vec<&'w str>, Fail> {
    let mut names = Vec::new(alloc);
    for word in words.table() {
        names.push(word.name.as_str())?;
    }
    Ok(names)
}

#[test]
fn words_that_are_given(rt: HostRuntime) -> Result<(), Fail> {
    let settings = read(rt.alloc(), WORDS)?;
    assert_eq!(rt; settings.campaign.seed, 7);
    assert!(rt; settings.words.variant() == Some("early_ack"));
    let names = names(rt.alloc(), &settings.words)?;
    assert_eq!(rt; names.as_slice(), ["file", "strict", "whole"].as_slice());
    Ok(())
}

/// Whether a value is this text.
fn is_text(value: Option<&OwnValue>, wanted: &str) -> bool {
    matches!(value, Some(OwnValue::Text(text)) if text.as_str() == wanted)
}

#[test]
fn values_of_words_that_are_given(rt: HostRuntime) -> Result<(), Fail> {
    let settings = read(rt.alloc(), WORDS)?;
    let words = &settings.words;
    assert!(rt; matches!(words.get("whole"), Some(OwnValue::Number(-3))));
    assert!(rt; matches!(words.get("strict"), Some(OwnValue::Flag(true))));
    assert!(rt; is_text(words.get("file"), "a"));
    assert!(rt; words.get("variant").is_none());
    Ok(())
}

#[test]
fn words_may_be_missing(rt: HostRuntime) -> Result<(), Fail> {
    let settings = read(rt.alloc(), "")?;
    assert!(rt; settings.words.variant().is_none());
    assert!(rt; settings.words.table().is_empty());
    assert_eq!(rt; settings.campaign.max_hits, 1000);
    Ok(())
}

/// The line with which settings are refused.
pub fn refuses<T: Drop>(
    rt: &impl Abort,
    alloc: Global,
    read: Result<T, campaign_main::SettingsFault>,
    line: &str,
) -> Result<(), Fail> {
    let Err(fault) = read else {
        return Err(Fail::from("not refused"));
    };
    let told = format!(in alloc; "{fault}")?;
    assert_eq!(rt; told.as_str(), line);
    Ok(())
}

#[test]
fn words_are_refused(rt: HostRuntime) -> Result<(), Fail> {
    let alloc = rt.alloc();
    for (text, line) in [
        ("target = 'replace'\n", "settings: unknown key target"),
        ("[replace]\n", "settings: unknown key replace"),
        ("variant = 3\nseed = -1\n", "settings: wrong type variant"),
        ("seed = -1\nown = 3\n", "settings: out of range seed"),
        ("own = 3\n", "settings: wrong type own"),
        ("[own]\nwhole = 0.5\n", "settings: wrong type own"),
        ("[own]\nwhole = [1]\n", "settings: wrong type own"),
        ("[own.inner]\nwhole = 1\n", "settings: wrong type own"),
    ] {
        refuses(&rt, alloc, Settings::read_worded(alloc, text), line)?;
    }
    Ok(())
}

#[test]
fn a_target_without_words_knows_none(rt: HostRuntime) -> Result<(), Fail> {
    let alloc = rt.alloc();
    for (text, line) in [
        ("variant = 'early_ack'\n", "settings: unknown key variant"),
        ("[own]\n", "settings: unknown key own"),
        (
            "crash_states = true\n",
            "settings: unknown key crash_states",
        ),
    ] {
        refuses(&rt, alloc, Settings::read_own(alloc, text), line)?;
    }
    Ok(())
}

#[test]
fn a_program_refuses_words_of_its_own(rt: HostRuntime) {
    let mut faults = Out::new(Vec::new(rt.alloc()));
    let exit = refuse_own_words(rt.alloc(), "no such variant", &mut faults);
    assert_eq!(rt; exit, Exit::Refused);
    let line = b"settings: own: no such variant\n".as_slice();
    assert_eq!(rt; faults.into_writer().as_slice(), line);
}

#[test]
fn settings_with_words_are_read(rt: HostRuntime) -> Result<(), Fail> {
    let mut faults = Out::new(Vec::new(rt.alloc()));
    let mut reader = b"variant = 'sound'\n".as_slice();
    let Ok(settings) = read_own_settings(rt.alloc(), &mut reader, &mut faults) else {
        return Err(Fail::from("refused"));
    };
    assert_eq!(rt; settings.words.variant(), Some("sound"));
    let mut reader = b"own = 3\n".as_slice();
    let Err(exit) = read_own_settings(rt.alloc(), &mut reader, &mut faults) else {
        return Err(Fail::from("not refused"));
    };
    assert_eq!(rt; exit, Exit::Refused);
    let line = b"settings: wrong type own\n".as_slice();
    assert_eq!(rt; faults.into_writer().as_slice(), line);
    Ok(())
}
