//! The first failure of each code.
ghost use Rattle.std.specs.Prelude.{◌≡◌, ◌≤◌, ◌^◌, ◌==◌, length, IfOk, OnOk};
ghost use Rattle.std.specs.List.{list_any};
ghost use Rattle.result_book.specs.FirstFailures.{first_failures};
ghost use Rattle.result_book.specs.Slots.{in_book};
ghost use Rattle.result_book.specs.inside.Places.{with_first};

use std::alloc::{AllocError, Global};
use target_trait::Verdict;

/// Whether one of these failures has this code. A component has few codes, so there are few failures to look at.
fn has_code(failures: &[(u32, u32)], code: u32) -> bool
    ensures { result ≡ list_any (λ f. f.1 == code) failures.now }
{
    failures.iter().any(|failure| failure.1 == code)
}

/// Adds the failure of a place, by its number and code, if it is the first of its code. An error means that memory was refused.
pub(crate) fn add_first(
    firsts: &mut Vec<(u32, u32)>,
    number: u32,
    slot: Option<Verdict>,
) -> Result<(), AllocError>
    ensures { OnOk result (firsts.new.items ≡ with_first firsts.old.items number slot) }
{
    let Some(Verdict::Fail(code)) = slot else {
        return Ok(());
    };
    if has_code(firsts, code) {
        return Ok(());
    }
    firsts.push((number, code))?;
    Ok(())
}

/// The first failure of each code in a list of verdicts, numbered from 0, which may have gaps: for each code the least number with it, and the code,
/// in the order of the numbers. The list has at most 2^32 places. An error means that memory was refused.
pub fn first_failures_of(
    alloc: Global,
    slots: &[Option<Verdict>],
) -> Result<Vec<(u32, u32)>, AllocError>
    requires { length slots.now ≤ 2 ^ 32 }
    ensures { IfOk result (λ firsts. firsts.items ≡ first_failures (in_book slots.now)) }
{
    let mut firsts = Vec::new(alloc);
    for (number, slot) in slots.iter().enumerate() {
        add_first(&mut firsts, number as u32, *slot)?;
    }
    Ok(firsts)
}
