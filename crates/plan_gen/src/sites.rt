//! The sites of a census.
ghost use Rattle.std.specs.Prelude.{◌≡◌, ◌++◌, ◌≤◌, ◌<◌, ◌^◌, length, IfOk, OnOk};
ghost use Rattle.plan_gen.specs.Census.{sites_at, sites_of};
ghost use Rattle.plan_gen.specs.inside.Counts.{total_of};

use crate::packed::PackedSite;
use action_eval::Site;
use std::alloc::{AllocError, Global};

/// How many sites there are.
pub fn total_of(counts: &[u32]) -> u64
    requires { length counts.now ≤ 64 }
    ensures { result ≡ total_of counts.now }
{
    let mut total = 0u64;
    for count in counts {
        total += u64::from(*count);
    }
    total
}

/// Adds the sites of a point.
fn add_sites(sites: &mut Vec<PackedSite>, point: u32, count: u32) -> Result<(), AllocError>
    requires { (point < 2 ^ 8) × (count < 2 ^ 16) }
    ensures { OnOk result (sites.new.items ≡ sites.old.items ++ sites_at point count) }
{
    for done in 0..count {
        sites.push(PackedSite::new(Site {
            point,
            hit: done + 1,
        }))?;
    }
    Ok(())
}

/// The sites, in catalogue order.
pub fn sites_of(alloc: Global, counts: &[u32]) -> Result<Vec<PackedSite>, AllocError>
    requires points { length counts.now ≤ 64 }
    requires few { total_of counts.now < 2 ^ 16 }
    ensures { IfOk result (λ sites. sites.items ≡ sites_of counts.now) }
{
    let mut sites = Vec::with_capacity(alloc, total_of(counts) as usize)?;
    let mut point = 0;
    for count in counts {
        add_sites(&mut sites, point, *count)?;
        point += 1;
    }
    Ok(sites)
}
