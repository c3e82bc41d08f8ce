//! From what the plans of a list are made, and what is kept of each plan.
ghost use Rattle.std.specs.Prelude.{◌≡◌, ◌≤◌, ◌∷◌, [], true, None, length, IfOk, OnOk};
ghost use Rattle.action_eval.specs.Answers.{texts};
ghost use Rattle.action_eval.specs.Catalogue.{IsCatalogue};
ghost use Rattle.action_eval.specs.declared.rig.Kind.TheVariants.{OnceReturn};
ghost use Rattle.action_eval.specs.RiggedScenario.{rig, rigged_as, HasLawfulText, HaveLawfulTexts};
ghost use Rattle.plan_gen.specs.PlanList.{most_plans};
ghost use Rattle.plan_gen.specs.inside.Drawn.{drawn, kind_of};

use crate::names::have_same_names;
use crate::packed::PackedSite;
use crate::rigged_scenario::{empty_scenario, scenario_of};
use crate::storms::storm;
use action_eval::{Argument, FaultTable, Kind, Rig};
use scenario_values::Scenario;
use std::alloc::{AllocError, Global};
use std::marker::Model;
use std::mem::size_of;

/// What a plan of a list does at a site. Its returns have no text, so that a plan takes 8 bytes.
#[derive(Clone, Copy, Debug)]
pub enum PlainKind {
    /// This hit alone fails.
    OnceReturn,
    /// This hit fails, and so does each later hit of the point.
    OnwardReturn,
    /// The component stops there.
    OncePanic,
}

impl PlainKind {
    /// The kind of fault.
    fn kind(self) -> Kind
        ensures kind { result ≡ kind_of self }
        ensures text { HasLawfulText result }
    {
        match self {
            PlainKind::OnceReturn => Kind::OnceReturn(Argument::none()),
            PlainKind::OnwardReturn => Kind::OnwardReturn(Argument::none()),
            PlainKind::OncePanic => Kind::OncePanic,
        }
    }
}

/// What a list keeps of a plan that isn't a listed scenario.
#[derive(Clone, Copy, Debug)]
pub enum Source {
    /// No hit is rigged.
    Empty,
    /// One rigged hit.
    One(PackedSite, PlainKind),
    /// Two rigged hits: the first fails once, and this is done at the second.
    Two(PackedSite, PackedSite, PlainKind),
    /// The storm of this number.
    Storm(u32),
}

const _: () = prove!(size_of::<Source>() == 8);

/// The rigged hits of a plan that has two.
fn two_rigs(first: PackedSite, second: PackedSite, plain: PlainKind) -> [Rig; 2]
    ensures rigs { result ≡ rig first (OnceReturn None) ∷ rig second (kind_of plain) ∷ [] }
    ensures texts { HaveLawfulTexts result }
{
    [
        first.rig(Kind::OnceReturn(Argument::none())),
        second.rig(plain.kind()),
    ]
}

/// What all plans of a list share: the points, their sites, and the seed and rate of storms. A storm's rigged hits are drawn by its number when it is
/// run.
#[derive(Debug, Drop)]
pub struct Drawing<'a> {
    catalogue: &'a [&'a str],
    sites: Vec<PackedSite>,
    seed: u64,
    rate: u32,
}

impl<'a> Model for Drawing<'a> {
    ghost use Rattle.std.specs.Prelude.{◌≤◌, length};
    ghost use Rattle.action_eval.specs.Answers.{texts};
    ghost use Rattle.action_eval.specs.Catalogue.{IsCatalogue};
    ghost use Rattle.plan_gen.specs.PlanList.{most_plans};
    ghost use Rattle.plan_gen.specs.inside.Drawn.{Shared};

    ghost Value = { Shared };

    ghost view = { λ d. record { names = texts d.catalogue.now; sites = d.sites.items; seed = d.seed; rate = d.rate } };

    ghost invariant = { λ d. IsCatalogue (texts d.catalogue.now) × (length d.sites.items ≤ most_plans) };
}

impl<'a> Drawing<'a> {
    /// The parts that all plans of a list share. The rate is how many of a thousand sites a storm takes.
    pub fn new(catalogue: &'a [&'a str], sites: Vec<PackedSite>, seed: u64, rate: u32) -> Self
        requires lawful { IsCatalogue (texts catalogue.now) }
        requires few { length sites.items ≤ most_plans }
        ensures { result ≡ record { names = texts catalogue.now; sites = sites.items; seed = seed; rate = rate } }
    {
        Drawing {
            catalogue,
            sites,
            seed,
            rate,
        }
    }

    /// Whether a catalogue has the names of the points.
    pub fn is_over(&self, catalogue: &[&str]) -> bool
        ensures { result ≡ true → self.now.names ≡ texts catalogue.now }
    {
        have_same_names(self.catalogue, catalogue)
    }

    /// Rigs the hits of a plan over a catalogue of the same names. The hits of a storm are drawn into the list, in place of what stood there. An
    /// error means that memory was refused.
    pub fn load<'c>(
        &self,
        source: Source,
        table: &mut FaultTable<'c>,
        rigs: &mut Vec<Rig>,
        catalogue: &'c [&'c str],
    ) -> Result<(), AllocError>
        requires { self.now.names ≡ texts catalogue.now }
        ensures { OnOk result (table.new ≡ rigged_as (texts catalogue.now) (drawn self.now source)) }
    {
        match source {
            Source::Empty => table.load(catalogue, &[]),
            Source::One(site, plain) => table.load(catalogue, &[site.rig(plain.kind())]),
            Source::Two(first, second, plain) => {
                table.load(catalogue, &two_rigs(first, second, plain))
            }
            Source::Storm(number) => {
                let sites = self.sites.as_slice();
                storm(rigs, self.seed, self.rate, sites, number)?;
                table.load(catalogue, rigs.as_slice())
            }
        }
    }

    /// Makes the scenario of a plan. An error means that memory was refused.
    pub fn scenario(&self, alloc: Global, source: Source) -> Result<Scenario, AllocError>
        ensures { IfOk result (λ scenario. scenario ≡ drawn self.now source) }
    {
        match source {
            Source::Empty => Ok(empty_scenario(alloc)),
            Source::One(site, plain) => scenario_of(
                alloc,
                self.catalogue,
                &[site.rig(plain.kind())],
            ),
            Source::Two(first, second, plain) => {
                scenario_of(alloc, self.catalogue, &two_rigs(first, second, plain))
            }
            Source::Storm(number) => {
                let sites = self.sites.as_slice();
                let mut rigs = Vec::new(alloc);
                storm(&mut rigs, self.seed, self.rate, sites, number)?;
                scenario_of(alloc, self.catalogue, rigs.as_slice())
            }
        }
    }
}
