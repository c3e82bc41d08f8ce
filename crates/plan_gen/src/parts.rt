//! The parts of the list of plans, as the list keeps them.
ghost use Rattle.std.specs.Prelude.{◌≡◌, ◌++◌, ◌∷◌, [], flat_map, map, OnOk};
ghost use Rattle.std.specs.List.{range_with_len};
ghost use Rattle.plan_gen.specs.declared.drawing.Source.TheVariants.{Storm};
ghost use Rattle.plan_gen.specs.inside.Drawn.{site_sources, pair_sources};
ghost use Rattle.plan_gen.specs.PlanList.{pairs_of};

use crate::drawing::{PlainKind, Source};
use crate::packed::PackedSite;
use std::alloc::AllocError;

/// Adds the plans of a site.
fn add_site(sources: &mut Vec<Source>, site: PackedSite) -> Result<(), AllocError>
    ensures { OnOk result (sources.new.items ≡ sources.old.items ++ site_sources site) }
{
    sources.push(Source::One(site, PlainKind::OnceReturn))?;
    sources.push(Source::One(site, PlainKind::OnwardReturn))?;
    sources.push(Source::One(site, PlainKind::OncePanic))?;
    Ok(())
}

/// Adds the plans of each site.
pub fn add_sites(sources: &mut Vec<Source>, sites: &[PackedSite]) -> Result<(), AllocError>
    ensures { OnOk result (sources.new.items ≡ sources.old.items ++ flat_map site_sources sites.now) }
{
    for site in sites {
        add_site(sources, *site)?;
    }
    Ok(())
}

/// Adds the plans of two sites.
fn add_pair(
    sources: &mut Vec<Source>,
    first: PackedSite,
    second: PackedSite,
) -> Result<(), AllocError>
    ensures { OnOk result (sources.new.items ≡ sources.old.items ++ pair_sources (first, second)) }
{
    sources.push(Source::Two(first, second, PlainKind::OnceReturn))?;
    sources.push(Source::Two(first, second, PlainKind::OncePanic))?;
    Ok(())
}

/// Adds the plans of a site with each of those after it.
fn add_pairs_of(
    sources: &mut Vec<Source>,
    first: &PackedSite,
    rest: &[PackedSite],
) -> Result<(), AllocError>
    ensures { OnOk result (sources.new.items ≡ sources.old.items ++ flat_map (λ b. pair_sources (first.now, b)) rest.now) }
{
    for second in rest {
        add_pair(sources, *first, *second)?;
    }
    Ok(())
}

/// Adds the plans of each two sites.
pub fn add_pairs(sources: &mut Vec<Source>, sites: &[PackedSite]) -> Result<(), AllocError>
    ensures { OnOk result (sources.new.items ≡ sources.old.items ++ flat_map pair_sources (pairs_of sites.now)) }
{
    for (i, first) in sites.iter().enumerate() {
        add_pairs_of(sources, first, &sites[i + 1..])?;
    }
    Ok(())
}

/// Adds this many storms.
pub fn add_storms(sources: &mut Vec<Source>, storms: u32) -> Result<(), AllocError>
    ensures { OnOk result (sources.new.items ≡ sources.old.items ++ map Storm (range_with_len 0 storms)) }
{
    for number in 0..storms {
        sources.push(Source::Storm(number))?;
    }
    Ok(())
}
