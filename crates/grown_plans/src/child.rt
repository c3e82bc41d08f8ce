//! Plans that grew, in few bytes each.
ghost use Rattle.std.specs.Prelude.{◌≡◌, ◌<◌, ◌^◌};
ghost use Rattle.action_eval.specs.RiggedScenario.{rig, text_of};
ghost use Rattle.action_eval.specs.declared.rig.Kind.TheVariants.{OnwardReturn};
ghost use Rattle.grown_plans.specs.Kept.{grew};

use action_eval::{Kind, Rig, Site};
use std::marker::Model;
use std::mem::size_of;

/// What is kept of a plan that grew: the number of its parent, below 65536, and the fault that was added to it, which is at one of at most 64 points.
/// It takes 44 bytes, with the text of a return.
#[derive(Clone, Copy, Debug)]
pub struct Child {
    hit: u32,
    parent: u16,
    point: u8,
    kind: Kind,
}

const _: () = prove!(size_of::<Child>() == 44);

impl Model for Child {
    ghost use Rattle.grown_plans.specs.Kept.{Grew};

    ghost Value = { Grew };

    ghost view = { λ c. record {
      parent = c.parent;
      fault = record { site = record { point = c.point; hit = c.hit }; kind = c.kind };
    } };

    ghost inverse = { λ g. record {
      hit = g.fault.site.hit;
      parent = g.parent;
      point = g.fault.site.point;
      kind = g.fault.kind;
    } };
}

impl Child {
    /// The child of the plan of this number by this fault.
    pub fn new(parent: usize, site: Site, kind: Kind) -> Self
        requires { (parent < 2 ^ 16) × (site.point < 2 ^ 8) }
        ensures { result ≡ grew parent (rig site kind) }
    {
        Child {
            hit: site.hit,
            parent: parent as u16,
            point: site.point as u8,
            kind,
        }
    }

    /// Its parent's number.
    pub fn parent(self) -> usize
        ensures { result ≡ self.parent }
    {
        usize::from(self.parent)
    }

    /// The fault that was added.
    pub fn fault(self) -> Rig
        ensures { result ≡ self.fault }
    {
        Rig {
            site: Site {
                point: u32::from(self.point),
                hit: self.hit,
            },
            kind: self.kind,
        }
    }

    /// The same plan with its fault as a sticky return, with the same text.
    pub(crate) fn from_then_on(self) -> Self
        ensures { result ≡ grew self.parent (rig self.fault.site (OnwardReturn (text_of self.fault.kind))) }
    {
        Child {
            kind: Kind::OnwardReturn(self.kind.text()),
            ..self
        }
    }
}
