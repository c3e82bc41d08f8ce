//! The small workload of the replacement of a file.
ghost use Rattle.std.specs.Prelude.{◌≡◌, [], ◌∷◌, codes, IfOk};

use file_replace::{Chunks, Replacements};
use scenario_values::Text;
use std::alloc::{AllocError, Global};

/// The chunks `ne` and `w`.
fn new_chunks(alloc: Global) -> Result<Chunks, AllocError>
    ensures { IfOk result (λ chunks. chunks ≡ codes "ne" ∷ codes "w" ∷ []) }
{
    let mut chunks = Vec::new(alloc);
    chunks.push(Text::copy_of(alloc, "ne")?)?;
    chunks.push(Text::copy_of(alloc, "w")?)?;
    Chunks::new(alloc, chunks.as_slice())
}

/// A file of `old` that is replaced once, by the chunks `ne` and `w`. An error means that memory was refused.
pub fn small_workload(alloc: Global) -> Result<Replacements, AllocError>
    ensures { IfOk result (λ work. work ≡ record { old = codes "old"; replacements = (codes "ne" ∷ codes "w" ∷ []) ∷ [] }) }
{
    let mut replacements = Vec::new(alloc);
    replacements.push(new_chunks(alloc)?)?;
    Ok(Replacements::new(Text::copy_of(alloc, "old")?, replacements))
}
