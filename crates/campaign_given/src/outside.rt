//! A component that somebody else runs.
ghost use Rattle.std.specs.Prelude.{◌≡◌};

use scenario_values::Text;
use std::marker::Model;

/// A kind of fault that is tried at a point: a return, with its text if it has one, or a panic.
#[derive(Debug, Drop, PartialEq, Eq)]
pub enum TriedFault {
    /// The text is a lawful argument in a scenario, without ASCII control characters and of up to 32 bytes. No text and an empty one are
    /// different.
    Return(Option<Text>),
    Panic,
}

/// The faults that are tried at one point, in the order in which plans have them.
#[derive(Debug, Drop)]
pub struct TriedFaults {
    faults: Vec<TriedFault>,
}

impl Model for TriedFaults {
    ghost use Rattle.std.specs.Prelude.{List};
    ghost use Rattle.campaign_given.specs.declared.outside.TriedFault.{TriedFault};

    ghost Value = { List TriedFault };

    ghost view = { λ tried. tried.faults.items };
}

impl TriedFaults {
    /// These faults.
    pub fn new(faults: Vec<TriedFault>) -> Self
        ensures { result ≡ faults.items }
    {
        TriedFaults { faults }
    }

    /// The faults, in their order.
    pub fn as_slice(&self) -> &[TriedFault]
        ensures { result.now ≡ self.now }
    {
        self.faults.as_slice()
    }
}

/// A component that somebody else runs, as settings describe it. No text has an ASCII control character.
#[derive(Drop)]
pub struct Outside {
    /// What the component is, in up to 200 bytes.
    pub label: Text,
    /// The codes of its failures, up to 64, distinct and each of 1 to 200 bytes. The number of a code is its place, from 0.
    pub codes: Vec<Text>,
    /// The names of its points, 1 to 64, distinct, each lawful in a scenario and of up to 200 bytes.
    pub points: Vec<Text>,
    /// How often each point is hit in a run without faults, 0 to 100000. With a depth the answers give the hits, and this is 0 for each point.
    pub hits: Vec<u32>,
    /// The kinds of faults that are tried at each point, up to 8, none twice. An empty list stands for the usual ones, a return and a panic; for the
    /// point `power::keep` that is the return alone. Settings give kinds only with a depth.
    pub kinds: Vec<TriedFaults>,
}

impl Model for Outside {
    ghost use Rattle.campaign_given.specs.Description.{Description, IsDescription};

    ghost Value = { Description };

    ghost view = { λ o. record {
      label = o.label;
      codes = o.codes.items;
      points = o.points.items;
      hits = o.hits.items;
      kinds = o.kinds.items;
    } };

    ghost invariant = { λ o. IsDescription (record {
      label = o.label;
      codes = o.codes.items;
      points = o.points.items;
      hits = o.hits.items;
      kinds = o.kinds.items;
    }) };
}
