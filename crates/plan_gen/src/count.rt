//! How many plans there are.
ghost use Rattle.std.specs.Prelude.{◌≡◌, true, false, ◌<◌, ◌≤◌, ◌+◌, ◌*◌, IfSome, IfNone, if◌then◌else◌};
ghost use Rattle.plan_gen.specs.inside.Counts.{pairs_count};
ghost use Rattle.plan_gen.specs.PlanList.{most_plans};

/// The most plans that a list has.
pub const MOST_PLANS: usize = 65536;

/// How many pairs this many sites make.
fn pair_count(sites: u64) -> u64
    requires { sites ≤ most_plans }
    ensures pairs { result ≡ pairs_count sites }
    ensures small { result ≤ most_plans * sites }
{
    if sites == 0 {
        return 0;
    }
    sites * (sites - 1) / 2
}

/// How many plans there are; `None` if they are too many. Nothing wraps: past the limit no more is counted.
pub fn plan_count(sites: u64, pairs: bool, storms: u32, listed: usize) -> Option<u64>
    ensures few { IfSome result (λ count. count ≡ 1 + 3 * sites + (if pairs then 2 * pairs_count sites else 0) + storms + listed) }
    ensures small { IfSome result (λ count. count ≤ most_plans) }
    ensures many { IfNone result (most_plans < 1 + 3 * sites + (if pairs then 2 * pairs_count sites else 0) + storms + listed) }
{
    let most = MOST_PLANS as u64;
    if sites > most {
        return None;
    }
    let mut made = 1 + 3 * sites + u64::from(storms);
    if pairs {
        made += 2 * pair_count(sites);
    }
    if made > most || listed as u64 > most - made {
        return None;
    }
    Some(made + listed as u64)
}

/// Whether this many storms and listed scenarios, behind this many other plans, are few enough. Nothing wraps.
pub fn are_few(before: usize, storms: u32, listed: usize) -> bool
    ensures few { result ≡ true → before + storms + listed ≤ most_plans }
    ensures many { result ≡ false → most_plans < before + storms + listed }
{
    if before > MOST_PLANS || listed > MOST_PLANS - before {
        return false;
    }
    storms as usize <= MOST_PLANS - before - listed
}
