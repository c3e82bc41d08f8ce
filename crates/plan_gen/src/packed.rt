//! Sites, packed.
ghost use Rattle.std.specs.Prelude.{◌≡◌, ◌<◌, ◌^◌};
ghost use Rattle.action_eval.specs.RiggedScenario.{rig};

use action_eval::{Kind, Rig, Site};
use std::marker::Model;

/// A site in three bytes, so that a plan with two sites takes 8 bytes. Contracts see the site.
#[derive(Clone, Copy, Debug)]
pub struct PackedSite {
    point: u8,
    high: u8,
    low: u8,
}

impl Model for PackedSite {
    ghost use Rattle.std.specs.Prelude.{◌+◌, ◌*◌, ◌/◌, ◌%◌, ◌<◌};
    ghost use Rattle.action_eval.specs.declared.rig.Site.{Site};
    ghost use Rattle.std.proofs.lemmas.Nat.{div-mul-add, mod-mul-add};

    ghost Value = { Site };

    ghost view = { λ s. record { point = s.point; hit = s.high * 256 + s.low } };

    ghost invariant = { λ s. s.low < 256 };

    ghost inverse = { λ s. record { point = s.point; high = s.hit / 256; low = s.hit % 256 } };

    ghost inverse_ok = { λ s low i. record {
      point = s.point;
      high = div-mul-add s.high 256 s.low low i;
      low = mod-mul-add s.high 256 s.low low i;
    } };
}

impl PackedSite {
    /// Packs a site. The sites of a list of at most 65536 plans, over a catalogue of at most 64 points, fit.
    pub fn new(site: Site) -> Self
        requires { (site.point < 2 ^ 8) × (site.hit < 2 ^ 16) }
        ensures { result ≡ site }
    {
        PackedSite {
            point: site.point as u8,
            high: (site.hit / 256) as u8,
            low: (site.hit % 256) as u8,
        }
    }

    /// The rigged hit: the site, with what is done at it.
    pub fn rig(self, kind: Kind) -> Rig
        ensures { result ≡ rig self kind }
    {
        Rig {
            site: Site {
                point: u32::from(self.point),
                hit: u32::from(self.high) * 256 + u32::from(self.low),
            },
            kind,
        }
    }
}
