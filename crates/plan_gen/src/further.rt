//! The storms and the listed scenarios, which stand behind all other plans.
ghost use Rattle.std.specs.Prelude.{◌≡◌, ◌≤◌, ◌<◌, ◌+◌, length, map, IfOk, OnOk, IsErrOf};
ghost use Rattle.std.specs.List.{range_with_len};
ghost use Rattle.action_eval.specs.Answers.{texts};
ghost use Rattle.action_eval.specs.Catalogue.{IsCatalogue};
ghost use Rattle.plan_gen.specs.declared.drawing.Source.TheVariants.{Storm};
ghost use Rattle.plan_gen.specs.Census.{sites_of};
ghost use Rattle.plan_gen.specs.PlanList.{most_plans, further_list};

use crate::census::Census;
use crate::count::are_few;
use crate::drawing::{Drawing, Source};
use crate::list::{PlanFault, PlanList};
use crate::parts::add_storms;
use crate::plan::PlanSettings;
use crate::sites::sites_of;
use std::alloc::{AllocError, Global};

/// What is kept of this many storms.
fn storm_sources(alloc: Global, storms: u32) -> Result<Vec<Source>, AllocError>
    ensures { IfOk result (λ sources. sources.items ≡ map Storm (range_with_len 0 storms)) }
{
    let mut sources = Vec::with_capacity(alloc, storms as usize)?;
    add_storms(&mut sources, storms)?;
    Ok(sources)
}

/// Makes the list of these further plans, which have to be few enough.
fn made_plans<'a>(
    alloc: Global,
    counts: &[u32],
    catalogue: &'a [&'a str],
    settings: &PlanSettings<'a>,
) -> Result<PlanList<'a>, AllocError>
    requires lawful { IsCatalogue (texts catalogue.now) }
    requires counts { length counts.now ≤ 64 }
    requires sites { length (sites_of counts.now) < most_plans }
    requires few { length (further_list (texts catalogue.now) counts.now settings.now) ≤ most_plans }
    ensures { IfOk result (λ plans. plans ≡ further_list (texts catalogue.now) counts.now settings.now) }
{
    let sites = sites_of(alloc, counts)?;
    let sources = storm_sources(alloc, settings.storms)?;
    let drawing = Drawing::new(catalogue, sites, settings.seed, settings.rate);
    Ok(PlanList::new(drawing, sources, settings.listed))
}

/// The storms over the sites of a census, and the listed scenarios: what `plans` lists behind the plans of one and of two sites. Here they stand
/// behind `before` plans that are found in another way. Whether the settings ask for pairs makes no difference.
///
/// All plans together are counted before any is made, and more than 65536 are refused. The caller needs one count for each name of a lawful
/// catalogue, and fewer than 65536 sites.
pub fn further_plans<'a>(
    alloc: Global,
    census: &Census,
    catalogue: &'a [&'a str],
    settings: &PlanSettings<'a>,
    before: usize,
) -> Result<PlanList<'a>, PlanFault>
    requires lawful { IsCatalogue (texts catalogue.now) }
    requires counts { length census.now.counts.items ≡ length catalogue.now }
    requires sites { length (sites_of census.now.counts.items) < most_plans }
    ensures ok { IfOk result (λ plans. plans ≡ further_list (texts catalogue.now) census.now.counts.items settings.now) }
    ensures few { OnOk result (before + length (further_list (texts catalogue.now) census.now.counts.items settings.now) ≤ most_plans) }
    ensures many { IsErrOf result PlanFault.TooManyPlans
        → most_plans < before + length (further_list (texts catalogue.now) census.now.counts.items settings.now) }
    ensures memory { IsErrOf result PlanFault.Memory
        → before + length (further_list (texts catalogue.now) census.now.counts.items settings.now) ≤ most_plans }
{
    let counts = census.counts.as_slice();
    if !are_few(before, settings.storms, settings.listed.len()) {
        return Err(PlanFault::TooManyPlans);
    }
    match made_plans(alloc, counts, catalogue, settings) {
        Ok(plans) => Ok(plans),
        Err(_) => Err(PlanFault::Memory),
    }
}
