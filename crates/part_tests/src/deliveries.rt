//! How plans of a delivery grow, of one message in the chunks `He` and `llo`. Both attempts write on at the end of what stands under one name.

use crate::growing::{Wanted, grown_on, have_grown, to_depth};
use maildir_target::{Maildir, Messages, TORN, Variant};
use scenario_values::{Chunks, Text};
use std::alloc::{AllocError, Global};
use std::process::Abort;
use std::test::Fail;

/// The message.
fn one_message(alloc: Global) -> Result<Messages, AllocError> {
    let mut chunks = Vec::new(alloc);
    chunks.push(Text::copy_of(alloc, "He")?)?;
    chunks.push(Text::copy_of(alloc, "llo")?)?;
    let mut messages = Vec::new(alloc);
    messages.push(Chunks::new(alloc, chunks.as_slice())?)?;
    Ok(Messages::new(messages))
}

/// A write, the sync or the link fails, and then the unlink that cleans up, once or from then on.
#[test]
fn a_refused_unlink_tears_the_second_attempt(rt: HostRuntime) -> Result<(), Fail> {
    let alloc = rt.alloc();
    let workload = one_message(alloc)?;
    let target = Maildir::new(alloc, Variant::AppendTmp);
    for workers in [1, 3] {
        let Ok(grown) = grown_on(&rt, alloc, &target, &workload, to_depth(2, workers)) else {
            return Err(Fail::from("plans that don't grow"));
        };
        let wanted = Wanted {
            levels: &[1, 14, 80],
            onward: 4,
            beyond: 106,
            causes: &[
                (29, TORN),
                (45, TORN),
                (61, TORN),
                (77, TORN),
                (95, TORN),
                (96, TORN),
                (97, TORN),
                (98, TORN),
            ],
        };
        have_grown(&rt, &grown, &wanted);
    }
    Ok(())
}
