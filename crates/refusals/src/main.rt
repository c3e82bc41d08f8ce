//! Shows what refused calls leave: if a call is refused memory, its value is unchanged, what was handed in comes back, and a second call succeeds.
//! The program writes the same whichever of its allocations is refused, or `no memory` if its own setup is refused.
//!
//! `tools/refuse.py` refuses every allocation in turn.
#![tactic(auto)]

mod check;
mod hits;
mod requests;
mod tickets;

use crate::check::told;
use crate::hits::hits;
use crate::requests::{boards_requests, cores_requests};
use crate::tickets::tickets;
use std::alloc::{AllocError, Global};
use std::fmt::Write as _;
use std::io::Write;
use std::process::ExitCode;
use std::sync::Wait;
use std::thread::Threads;

/// What each check came to, a line each.
fn lines<R: Threads + Wait + Sync>(rt: &R, alloc: Global) -> Result<String, AllocError> {
    let mut text = String::new(alloc);
    for (what, came_to) in [
        ("hits of a session", hits(alloc)),
        ("requests of a core", cores_requests(alloc)),
        ("requests of a board", boards_requests(alloc)),
        ("tickets of three workers", tickets(rt, alloc)),
    ] {
        let ending = told(&came_to)?;
        writeln!(text, "{what}: {ending}")?;
    }
    Ok(text)
}

fn main(rt: HostRuntime) -> ExitCode {
    let Ok(text) = lines(&rt, rt.alloc()) else {
        let _told = rt.stderr().write_all(b"no memory\n");
        return ExitCode::from(3);
    };
    match rt.stdout().write_all(text.as_bytes()) {
        Ok(()) => ExitCode::SUCCESS,
        Err(_) => ExitCode::from(4),
    }
}
