//! The values that settings give.

use crate::own_words::refuses;
use campaign_main::{CampaignSettings, Choice, CommitVariant, ReplaceVariant, Settings};
use std::alloc::Global;
use std::process::Abort;
use std::test::Fail;

/// The settings that a text gives.
pub fn read(alloc: Global, text: &str) -> Result<Settings, Fail> {
    Ok(Settings::read(alloc, text)?)
}

/// The settings have these numbers: seed, workers, most hits, storms, rate, and how many scenarios are listed; and these flags: `pairs`, and
/// `crash_states`.
fn has_values(rt: &impl Abort, settings: &CampaignSettings, numbers: [u64; 6], flags: [bool; 2]) {
    let found = [
        settings.seed,
        u64::from(settings.workers),
        u64::from(settings.max_hits),
        u64::from(settings.storms),
        u64::from(settings.rate),
        settings.scenarios.len() as u64,
    ];
    assert_eq!(rt; found, numbers);
    assert_eq!(rt; [settings.pairs, settings.crash_states], flags);
}

#[test]
fn values_if_missing(rt: HostRuntime) -> Result<(), Fail> {
    let text = "target = 'replace'\n[replace]\nold = 'old'\nreplacements = [['ne', 'w'], []]\n";
    let settings = read(rt.alloc(), text)?;
    let campaign = &settings.campaign;
    has_values(&rt, campaign, [0, 1, 1000, 0, 100, 0], [false, false]);
    assert_eq!(rt; campaign.depth, None);
    let Choice::Replace(ReplaceVariant::Sound, work) = &settings.choice else {
        return Err(Fail::from("another target"));
    };
    assert_eq!(rt; work.old().as_str(), "old");
    assert_eq!(rt; work.as_slice().len(), 2);
    Ok(())
}

#[test]
fn values_that_are_given(rt: HostRuntime) -> Result<(), Fail> {
    let text =
        "target = 'commit'\nvariant = 'two_tries'\nseed = 9223372036854775807\nworkers = 3\nmax_hits = 4\npairs = true\nstorms = 5\nrate = 6\ncrash_states = true\nscenarios = ['a=off', '']\n[commit]\nparticipants = 2\ntransactions = [['yes', 'no']]\n";
    let settings = read(rt.alloc(), text)?;
    let numbers = [9223372036854775807, 3, 4, 5, 6, 2];
    has_values(&rt, &settings.campaign, numbers, [true, true]);
    let Choice::Commit(CommitVariant::TwoTries, work) = &settings.choice else {
        return Err(Fail::from("another target"));
    };
    assert_eq!(rt; work.participants(), 2);
    assert_eq!(rt; work.len(), 1);
    Ok(())
}

#[test]
fn depths_that_are_given(rt: HostRuntime) -> Result<(), Fail> {
    for (value, depth) in [("1", 1), ("64", 64)] {
        let text = format!(in rt.alloc();
            "target = 'maildir'\ndepth = {value}\n[maildir]\nmessages = []\n"
        )?;
        let settings = read(rt.alloc(), text.as_str())?;
        assert_eq!(rt; settings.campaign.depth, Some(depth));
    }
    Ok(())
}

/// Settings of a component that somebody else runs, with these lines before its table and at its end.
fn outside_text(alloc: Global, top: &str, hits: &str) -> Result<String, Fail> {
    Ok(format!(in alloc;
        "target = 'outside'\n{top}\n[outside]\nlabel = 's'\ncodes = []\npoints = ['a', 'b', 'c']\n{hits}\n"
    )?)
}

#[test]
fn a_component_takes_a_depth_without_hits(rt: HostRuntime) -> Result<(), Fail> {
    for (top, depth) in [("depth = 1", 1), ("pairs = false\ndepth = 64", 64)] {
        let text = outside_text(rt.alloc(), top, "")?;
        let settings = read(rt.alloc(), text.as_str())?;
        assert_eq!(rt; settings.campaign.depth, Some(depth));
        let Choice::Outside(outside) = &settings.choice else {
            return Err(Fail::from("another target"));
        };
        assert_eq!(rt; outside.points.len(), 3);
        assert_eq!(rt; outside.hits.as_slice(), [0, 0, 0].as_slice());
    }
    Ok(())
}

// Lines before the table of a component and at its end, and the line with which they are refused.
const REFUSED: [(&str, &str, &str); 10] = [
    ("", "", "settings: missing outside.hits"),
    (
        "depth = 2",
        "hits = [0, 0, 0]",
        "settings: out of range outside.hits",
    ),
    (
        "depth = 2",
        "hits = [0, 0]",
        "settings: out of range outside.hits",
    ),
    (
        "depth = 2",
        "hits = 'none'",
        "settings: out of range outside.hits",
    ),
    (
        "depth = 2",
        "hits = 1\nother = 1",
        "settings: unknown key outside.other",
    ),
    (
        "depth = 2\npairs = true",
        "hits = 1",
        "settings: out of range pairs",
    ),
    ("depth = 0", "hits = 1", "settings: out of range depth"),
    ("depth = 65", "hits = 1", "settings: out of range depth"),
    ("depth = '2'", "hits = 1", "settings: wrong type depth"),
    (
        "depth = 2\nscenarios = 1",
        "hits = 1",
        "settings: wrong type scenarios",
    ),
];

#[test]
fn hits_of_a_component_go_with_no_depth(rt: HostRuntime) -> Result<(), Fail> {
    let alloc = rt.alloc();
    for (top, hits, line) in REFUSED {
        let text = outside_text(alloc, top, hits)?;
        refuses(&rt, alloc, Settings::read(alloc, text.as_str()), line)?;
    }
    Ok(())
}

/// A text of TOML gives these old contents.
fn gives_old(rt: &impl Abort, alloc: Global, value: &str, old: &str) -> Result<(), Fail> {
    let text = format!(in alloc;
        "target = 'replace'\n[replace]\nold = {value}\nreplacements = []\n"
    )?;
    let settings = read(alloc, text.as_str())?;
    let Choice::Replace(_, work) = &settings.choice else {
        return Err(Fail::from("another target"));
    };
    assert_eq!(rt; work.old().as_str(), old);
    Ok(())
}

#[test]
fn toml_as_its_version_1_1_has_it(rt: HostRuntime) -> Result<(), Fail> {
    for (value, old) in [
        ("\"\"\"a\nb\"\"\"", "a\nb"),
        ("\"\"\"a\r\nb\"\"\"", "a\r\nb"),
        ("\"\\e\\x41\"", "\u{1b}A"),
        ("'''\n\r\n'''", "\r\n"),
    ] {
        gives_old(&rt, rt.alloc(), value, old)?;
    }
    Ok(())
}
