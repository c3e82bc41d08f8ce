//! The list of plans.
ghost use Rattle.std.specs.Prelude.{◌≡◌, ◌≤◌, ◌<◌, ◌+◌, ◌*◌, [], length, slice_index_or, IfOk, OnOk, IsErrOf};
ghost use Rattle.action_eval.specs.Answers.{texts};
ghost use Rattle.action_eval.specs.Catalogue.{IsCatalogue};
ghost use Rattle.plan_gen.specs.declared.list.PlanFault.TheVariants.{Memory};
ghost use Rattle.plan_gen.specs.inside.Counts.{total_of};
ghost use Rattle.plan_gen.specs.PlanList.{most_plans, plan_list};
ghost use Rattle.plan_gen.specs.inside.Drawn.{plans_of, sources_of};

use crate::census::Census;
use crate::copies::copy_of;
use crate::count::plan_count;
use crate::drawing::{Drawing, Source};
use crate::packed::PackedSite;
use crate::parts::{add_pairs, add_sites, add_storms};
use crate::plan::{Plan, PlanSettings};
use crate::rigger::Rigger;
use crate::sites::{sites_of, total_of};
use scenario_values::Scenario;
use std::alloc::{AllocError, Global};
use std::marker::Model;

/// Why there is no list of plans.
#[derive(Clone, Copy, Debug, PartialEq, Eq)]
pub enum PlanFault {
    /// The list has more than 65536 plans. Nothing was made.
    TooManyPlans,
    /// Memory was refused.
    Memory,
}

impl From<AllocError> for PlanFault {
    ghost from_gives = { λ _ fault. fault ≡ Memory };

    fn from(_: AllocError) -> Self {
        PlanFault::Memory
    }
}

/// A list of plans, at most 65536. A plan's number is its place in it, from 0. Contracts see the list of their scenarios.
///
/// It keeps 8 bytes for each plan (the hits at which something is done, or a storm's number) and borrows the listed scenarios. A plan's scenario is
/// made when it is asked for.
#[derive(Debug, Drop)]
pub struct PlanList<'a> {
    drawing: Drawing<'a>,
    sources: Vec<Source>,
    listed: &'a [Scenario],
}

impl<'a> Model for PlanList<'a> {
    ghost use Rattle.std.specs.Prelude.{◌≤◌, ◌+◌, List, length};
    ghost use Rattle.scenario_values.specs.Scenario.{Entries};
    ghost use Rattle.plan_gen.specs.PlanList.{most_plans};
    ghost use Rattle.plan_gen.specs.inside.Drawn.{plans_of};

    ghost Value = { List Entries };

    ghost view = { λ p. plans_of p.drawing p.sources.items p.listed.now };

    ghost invariant = { λ p. length p.sources.items + length p.listed.now ≤ most_plans };
}

impl<'a> PlanList<'a> {
    /// The list of these plans.
    pub(crate) fn new(drawing: Drawing<'a>, sources: Vec<Source>, listed: &'a [Scenario]) -> Self
        requires { length sources.items + length listed.now ≤ most_plans }
        ensures { result ≡ plans_of drawing.entry sources.items listed.now }
    {
        PlanList {
            drawing,
            sources,
            listed,
        }
    }

    /// How many plans there are.
    pub fn len(&self) -> usize
        ensures many { result ≡ length self.now }
        ensures few { result ≤ most_plans }
    {
        self.sources.len() + self.listed.len()
    }

    /// The plan of this number.
    pub fn plan(&self, number: usize) -> Plan<'_>
        requires { number < length self.now }
        ensures { result ≡ slice_index_or self.now number [] }
    {
        Plan { list: self, number }
    }

    /// Makes the scenario of the plan of this number. An error means that memory was refused.
    pub(crate) fn scenario(&self, alloc: Global, number: usize) -> Result<Scenario, AllocError>
        requires { number < length self.now }
        ensures { IfOk result (λ scenario. scenario ≡ slice_index_or self.now number []) }
    {
        match self.sources.get(number) {
            Some(source) => self.drawing.scenario(alloc, *source),
            None => copy_of(alloc, &self.listed[number - self.sources.len()]),
        }
    }

    /// What rigs these plans over the points of a catalogue.
    pub fn rigger<'c>(&self, catalogue: &'c [&'c str]) -> Rigger<'_, 'c>
        ensures plans { result.plans ≡ self.now }
        ensures names { result.names ≡ texts catalogue.now }
    {
        Rigger::new(
            &self.drawing,
            self.sources.as_slice(),
            self.listed,
            catalogue,
        )
    }
}

/// What is kept of the plans that aren't listed scenarios, made with room for all of them.
fn sources_of(
    alloc: Global,
    sites: &[PackedSite],
    settings: &PlanSettings<'_>,
    room: usize,
) -> Result<Vec<Source>, AllocError>
    ensures { IfOk result (λ sources. sources.items ≡ sources_of settings.now sites.now) }
{
    let mut sources = Vec::with_capacity(alloc, room)?;
    sources.push(Source::Empty)?;
    add_sites(&mut sources, sites)?;
    if settings.pairs {
        add_pairs(&mut sources, sites)?;
    }
    add_storms(&mut sources, settings.storms)?;
    Ok(sources)
}

/// Makes the list, of which it is known how many plans it has.
#[tactic(auto, unfolding(crate::specs::PlanList::plan_list))]
fn made_plans<'a>(
    alloc: Global,
    counts: &[u32],
    catalogue: &'a [&'a str],
    settings: &PlanSettings<'a>,
    count: usize,
) -> Result<PlanList<'a>, AllocError>
    requires lawful { IsCatalogue (texts catalogue.now) }
    requires counts { length counts.now ≤ 64 }
    requires sites { 3 * total_of counts.now ≤ most_plans }
    requires few { length (plan_list (texts catalogue.now) counts.now settings.now) ≤ most_plans }
    requires room { length settings.now.listed ≤ count }
    ensures { IfOk result (λ plans. plans ≡ plan_list (texts catalogue.now) counts.now settings.now) }
{
    let sites = sites_of(alloc, counts)?;
    let room = count - settings.listed.len();
    let sources = sources_of(alloc, sites.as_slice(), settings, room)?;
    let drawing = Drawing::new(catalogue, sites, settings.seed, settings.rate);
    Ok(PlanList::new(drawing, sources, settings.listed))
}

/// The list of plans that a census over a catalogue gives. A plan's number is its place in the list, from 0. In order these are:
///
/// - the empty plan;
/// - for each site of the census, which is a point and one of its hits: the hit fails once, it fails from then on, and it panics;
/// - if pairs are wanted, for each two sites: both fail once, and the first fails once and the second panics;
/// - the storms, each of which takes one random word for each site, from a stream of its own, and by these words at most 64 sites;
/// - the listed scenarios.
///
/// The plans are counted before any is made, and more than 65536 are refused. The caller needs one count for each name of a lawful catalogue.
pub fn plans<'a>(
    alloc: Global,
    census: &Census,
    catalogue: &'a [&'a str],
    settings: &PlanSettings<'a>,
) -> Result<PlanList<'a>, PlanFault>
    requires lawful { IsCatalogue (texts catalogue.now) }
    requires counts { length census.now.counts.items ≡ length catalogue.now }
    ensures ok { IfOk result (λ plans. plans ≡ plan_list (texts catalogue.now) census.now.counts.items settings.now) }
    ensures few { OnOk result (length (plan_list (texts catalogue.now) census.now.counts.items settings.now) ≤ most_plans) }
    ensures some { IfOk result (λ plans. 0 < length plans) }
    ensures many { IsErrOf result PlanFault.TooManyPlans → most_plans < length (plan_list (texts catalogue.now) census.now.counts.items settings.now) }
    ensures memory { IsErrOf result PlanFault.Memory → length (plan_list (texts catalogue.now) census.now.counts.items settings.now) ≤ most_plans }
{
    let counts = census.counts.as_slice();
    let count = plan_count(
        total_of(counts),
        settings.pairs,
        settings.storms,
        settings.listed.len(),
    );
    match count {
        None => Err(PlanFault::TooManyPlans),
        Some(count) => match made_plans(alloc, counts, catalogue, settings, count as usize) {
            Ok(plans) => Ok(plans),
            Err(_) => Err(PlanFault::Memory),
        },
    }
}
