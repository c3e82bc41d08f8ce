//! The keys of the settings, and which table has which of them.
ghost use Rattle.std.specs.Prelude.{◌≡◌, Some};
ghost use Rattle.std.specs.List.{list_any};
ghost use Rattle.std.specs.Str.{bytes_eq};
ghost use Rattle.campaign_settings.specs.Keys.{is_bundled_key, is_key_of, is_known, is_own_key, is_shared_key, is_word_key, key_name, target_name};
ghost use Rattle.campaign_settings.specs.declared.keys.Place.TheVariants.{Within};

use std::fmt;

/// A key of the settings. `Own` is the table of your own target's words. `Table` is the key of a bundled target's table; the keys after it stand in
/// such a table.
#[derive(Clone, Copy, Debug, PartialEq, Eq)]
pub enum Key {
    Target,
    Variant,
    Seed,
    Workers,
    MaxHits,
    Pairs,
    Storms,
    Rate,
    Depth,
    CrashStates,
    Scenarios,
    Own,
    Table(TargetName),
    Old,
    Replacements,
    Messages,
    Participants,
    Transactions,
    Label,
    Codes,
    Points,
    Hits,
    Kinds,
}

/// What is wrong with the value at a key.
#[derive(Clone, Copy)]
pub enum KeyFault {
    Missing,
    WrongType,
    OutOfRange,
}

/// A target as settings name it: a bundled one, or a component that somebody else runs.
#[derive(Clone, Copy, Debug, PartialEq, Eq)]
pub enum TargetName {
    Replace,
    Maildir,
    Commit,
    Outside,
}

/// A table of the settings: the whole text's, with the target that it names; the whole text's for a program with its own target, which takes words or
/// doesn't; the table of the kinds of faults, within that of a target from outside; or the table of a target.
#[derive(Clone, Copy, Debug)]
pub enum Place {
    Top(Option<TargetName>),
    Own,
    Worded,
    Kinds,
    Within(TargetName),
}

impl TargetName {
    /// The target's name.
    pub fn name(self) -> &'static str
        ensures { result.now ≡ target_name self }
    {
        match self {
            TargetName::Replace => "replace",
            TargetName::Maildir => "maildir",
            TargetName::Commit => "commit",
            TargetName::Outside => "outside",
        }
    }
}

impl Key {
    /// The key as it stands in the line of its fault.
    pub fn name(self) -> &'static str
        ensures { result.now ≡ key_name self }
    {
        match self {
            Key::Target => "target",
            Key::Variant => "variant",
            Key::Seed => "seed",
            Key::Workers => "workers",
            Key::MaxHits => "max_hits",
            Key::Pairs => "pairs",
            Key::Storms => "storms",
            Key::Rate => "rate",
            Key::Depth => "depth",
            Key::CrashStates => "crash_states",
            Key::Scenarios => "scenarios",
            Key::Own => "own",
            Key::Table(target) => target.name(),
            Key::Old => "replace.old",
            Key::Replacements => "replace.replacements",
            Key::Messages => "maildir.messages",
            Key::Participants => "commit.participants",
            Key::Transactions => "commit.transactions",
            Key::Label => "outside.label",
            Key::Codes => "outside.codes",
            Key::Points => "outside.points",
            Key::Hits => "outside.hits",
            Key::Kinds => "outside.kinds",
        }
    }
}

impl fmt::Display for TargetName {
    ghost output = { λ target. Some (target_name target) };

    fn fmt<W: fmt::Write>(&self, f: &mut fmt::Formatter<W>) -> fmt::Result {
        f.write_str(self.name())
    }
}

impl fmt::Display for Key {
    ghost output = { λ key. Some (key_name key) };

    fn fmt<W: fmt::Write>(&self, f: &mut fmt::Formatter<W>) -> fmt::Result {
        f.write_str(self.name())
    }
}

impl Place {
    /// Whether a table has this key. The table of the kinds of faults has none of these, as its keys are the settings' points.
    pub fn knows(self, name: &str) -> bool
        ensures { result ≡ is_known self name.now }
    {
        match self {
            Place::Top(None) => is_shared_key(name) || is_bundled_key(name),
            Place::Top(Some(target)) => is_key_of(target, name) || name == target.name(),
            Place::Own => is_own_key(name),
            Place::Worded => is_own_key(name) || is_word_key(name),
            Place::Within(target) => is_key_within(target, name),
            Place::Kinds => false,
        }
    }
}

fn stands_in(name: &str, names: &[&str]) -> bool
    ensures { result ≡ list_any (λ other. bytes_eq name.now other.now) names.now }
{
    names.iter().any(|other| name == *other)
}

/// Whether settings that name a target, bundled or from outside, have this key.
fn is_shared_key(name: &str) -> bool
    ensures { result ≡ is_shared_key name.now }
{
    stands_in(
        name,
        &[
            "target",
            "seed",
            "pairs",
            "storms",
            "rate",
            "depth",
            "scenarios",
        ],
    )
}

/// Whether the settings of a bundled target have this key besides.
fn is_bundled_key(name: &str) -> bool
    ensures { result ≡ is_bundled_key name.now }
{
    stands_in(name, &["variant", "workers", "max_hits", "crash_states"])
}

/// Whether the settings of your own target have this key.
fn is_own_key(name: &str) -> bool
    ensures { result ≡ is_own_key name.now }
{
    stands_in(
        name,
        &[
            "seed",
            "workers",
            "max_hits",
            "pairs",
            "storms",
            "rate",
            "depth",
            "scenarios",
        ],
    )
}

/// Whether the settings of your own target have this key besides, if it takes words.
fn is_word_key(name: &str) -> bool
    ensures { result ≡ is_word_key name.now }
{
    stands_in(name, &["variant", "own"])
}

/// Whether the settings of this target have this key at the top.
fn is_key_of(target: TargetName, name: &str) -> bool
    ensures { result ≡ is_key_of target name.now }
{
    match target {
        TargetName::Outside => is_shared_key(name),
        _ => is_shared_key(name) || is_bundled_key(name),
    }
}

/// Whether the target's own table has this key.
fn is_key_within(target: TargetName, name: &str) -> bool
    ensures { result ≡ is_known (Within target) name.now }
{
    match target {
        TargetName::Replace => stands_in(name, &["old", "replacements"]),
        TargetName::Maildir => stands_in(name, &["messages"]),
        TargetName::Commit => stands_in(name, &["participants", "transactions"]),
        TargetName::Outside => stands_in(name, &["label", "codes", "points", "hits", "kinds"]),
    }
}
