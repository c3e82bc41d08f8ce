//! What is wrong with a catalogue.
ghost use Rattle.std.specs.Prelude.{◌≡◌, ◌<◌, None, false, length};
ghost use Rattle.action_eval.specs.Answers.{texts};
ghost use Rattle.action_eval.specs.Catalogue.{IsCatalogue};
ghost use Rattle.campaign_core.specs.target_laws.inside.Names.{IsLawfulAt, IsNewAt};

use action_eval::MOST_POINTS;
use scenario_grammar::is_name;
use std::fmt;

/// The most bytes of a name.
const MOST_BYTES: usize = 200;

/// What is wrong with a catalogue.
#[derive(Clone, Copy, Debug, PartialEq, Eq)]
pub enum CatalogueFault {
    /// It has no point.
    NoPoints,
    /// It has this many points, more than 64.
    ManyPoints(usize),
    /// This name has more than 200 bytes.
    LongName(&'static str),
    /// No scenario can have this name.
    UnlawfulName(&'static str),
    /// Two points have this name.
    RepeatedName(&'static str),
}

impl fmt::Display for CatalogueFault {
    fn fmt<W: fmt::Write>(&self, f: &mut fmt::Formatter<W>) -> fmt::Result {
        match self {
            CatalogueFault::NoPoints => f.write_str("no points"),
            CatalogueFault::ManyPoints(count) => write!(f, "{count} points, more than 64"),
            CatalogueFault::LongName(name) => write!(f, "more than 200 bytes in {name}"),
            CatalogueFault::UnlawfulName(name) => write!(f, "no scenario can name {name}"),
            CatalogueFault::RepeatedName(name) => write!(f, "two points are named {name}"),
        }
    }
}

/// Whether the name at this place stands at an earlier place too.
fn is_repeated(names: &[&str], place: usize) -> bool
    requires { place < length names.now }
    ensures lawful { IsCatalogue (texts names.now) → result ≡ false }
    ensures new { result ≡ false → IsNewAt (texts names.now) place }
{
    for earlier in 0..place {
        if names[earlier] == names[place] {
            return true;
        }
    }
    false
}

/// What is wrong with the name at this place: it is too long, no scenario can have it, or it stands at an earlier place too.
fn name_fault(names: &[&'static str], place: usize) -> Option<CatalogueFault>
    requires { place < length names.now }
    ensures lawful { IsCatalogue (texts names.now) → result ≡ None }
    ensures only { result ≡ None → IsLawfulAt (texts names.now) place }
{
    let name = names[place];
    if name.len() > MOST_BYTES {
        return Some(CatalogueFault::LongName(name));
    }
    if !is_name(name) {
        return Some(CatalogueFault::UnlawfulName(name));
    }
    if is_repeated(names, place) {
        return Some(CatalogueFault::RepeatedName(name));
    }
    None
}

/// The first thing that is wrong with a catalogue. The number of names is looked at first, then each name in order. `None` exactly if there are 1 to
/// 64 distinct names of at most 200 bytes, each of which a scenario can have.
pub fn catalogue_fault(names: &[&'static str]) -> Option<CatalogueFault>
    ensures lawful { IsCatalogue (texts names.now) → result ≡ None }
    ensures only { result ≡ None → IsCatalogue (texts names.now) }
{
    if names.is_empty() {
        return Some(CatalogueFault::NoPoints);
    }
    if names.len() > MOST_POINTS {
        return Some(CatalogueFault::ManyPoints(names.len()));
    }
    for place in 0..names.len() {
        match name_fault(names, place) {
            Some(fault) => return Some(fault),
            None => {}
        }
    }
    None
}
