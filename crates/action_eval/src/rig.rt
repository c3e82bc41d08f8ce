//! Hits at which faults are planned.
ghost use Rattle.std.specs.Prelude.{◌≡◌, option_map};
ghost use Rattle.action_eval.specs.RiggedScenario.{text_of, HasLawfulText, HaveLawfulTexts};

use crate::argument::Argument;

/// The most points that a catalogue has.
pub const MOST_POINTS: usize = 64;

/// The most hits that are rigged in one run.
pub const MOST_RIGS: usize = 64;

/// A hit of a point.
#[derive(Clone, Copy, Debug, PartialEq, Eq)]
pub struct Site {
    /// The point's number in the catalogue, from 0.
    pub point: u32,
    /// The number of the hit among those of the point, from 1.
    pub hit: u32,
}

/// What is done at a rigged hit.
#[derive(Clone, Copy, Debug)]
pub enum Kind {
    /// This hit alone fails, with this text if there is one.
    OnceReturn(Argument),
    /// This hit fails, with this text if there is one, and so does each later hit of the point.
    OnwardReturn(Argument),
    /// The component stops there.
    OncePanic,
}

/// A hit at which something is done.
#[derive(Clone, Copy, Debug)]
pub struct Rig {
    pub site: Site,
    pub kind: Kind,
}

impl Kind {
    /// The text with which it fails, if it has one.
    pub fn text(self) -> Argument
        ensures { result ≡ text_of self }
    {
        match self {
            Kind::OnceReturn(text) | Kind::OnwardReturn(text) => text,
            Kind::OncePanic => Argument::none(),
        }
    }

    /// The text with which it fails, if it has one.
    pub(crate) fn as_str(&self) -> Option<&str>
        ensures { option_map (λ text. text.now) result ≡ text_of self.now }
    {
        match self {
            Kind::OnceReturn(text) | Kind::OnwardReturn(text) => text.as_str(),
            Kind::OncePanic => None,
        }
    }

    /// Whether its text, if it has one, may stand in a scenario. It always may.
    fn is_lawful(&self) -> bool
        ensures { HasLawfulText self.now }
    {
        match self {
            Kind::OnceReturn(text) | Kind::OnwardReturn(text) => text.is_lawful(),
            Kind::OncePanic => true,
        }
    }
}

/// Does nothing; its contract says that the texts of rigged hits may stand in a scenario.
pub fn have_lawful_texts(rigs: &[Rig])
    ensures { HaveLawfulTexts rigs.now }
{
    for rig in rigs {
        let _ = rig.kind.is_lawful();
    }
}
