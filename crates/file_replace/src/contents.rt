//! Contents, compared with those of a workload.
ghost use Rattle.std.specs.Prelude.{◌≡◌, ◌≤◌, length, map};
ghost use Rattle.scenario_values.specs.chunked.Chunks.{joined};
ghost use Rattle.file_replace.specs.Judgement.{is_among};
ghost use Rattle.file_replace.specs.inside.Seen.{all_contents, contents_between};

use crate::work::Replacements;
use scenario_values::Chunks;

/// Whether bytes are the contents of one of these replacements.
#[inline(always)]
fn is_one(replacements: &[Chunks], bytes: &[u8]) -> bool
    ensures { result ≡ is_among bytes.now (map joined replacements.now) }
{
    for replacement in replacements {
        if replacement.is_whole(bytes) {
            return true;
        }
    }
    false
}

/// Whether these bytes are the contents of a workload with a number from `first` to `last`. Number 0 is the old contents.
// Each run asks it once, with bounds that its caller knows.
#[inline(always)]
pub fn is_among(workload: &Replacements, first: usize, last: usize, bytes: &[u8]) -> bool
    requires order { first ≤ last }
    requires within { last ≤ length workload.now.replacements }
    ensures { result ≡ is_among bytes.now (contents_between first last (all_contents workload.now.old workload.now.replacements)) }
{
    let begun = &workload.as_slice()[..last];
    if first > 0 {
        return is_one(&begun[first - 1..], bytes);
    }
    bytes == workload.old().as_str().as_bytes() || is_one(begun, bytes)
}
