//! What `target` holds after runs of the replacement of a file, which are played on one device, one after another.

use crate::given::read;
use campaign_main::{Choice, parse};
use file_replace::{Replace, play_on};
use sim_device::FileDevice;
use std::alloc::Global;
use std::process::Abort;
use std::test::Fail;
use target_trait::{Session, Target};

// The name of what is replaced, on the device.
const TARGET: u32 = 0;

// In each line a variant, the keys of its table, and a scenario; and the contents at the end.
const RUNS: &str = "\
sound|old = 'old', replacements = [['ne', 'w']]||new
sound|old = 'old', replacements = [['ne', 'w']]|replace::sync=1*return|old
sound|old = 'old', replacements = [['ne', 'w']]|replace::write=1*return|old
sound|old = 'old', replacements = [['ne', 'w']]|replace::rename=1*panic|old
sound|old = 'old', replacements = [['ne', 'w']]|replace::rename=1*pause|old
sound|old = 'old', replacements = [['ne', 'w']]|replace::sync=1*return;replace::unlink=1*return|old
sound|old = 'other', replacements = [['x', 'y']]||xy
sound|old = 'old', replacements = []||old
sound|old = 'old', replacements = [[]]||
sound|old = 'old', replacements = [['', 'x']]||x
sound|old = 'old', replacements = [['ab'], ['cd']]|replace::write=1*return;replace::unlink=1*return|cd
sound|old = 'old', replacements = [['ab'], ['cd']]|replace::sync_dir=1*off->1*return|ab
late_sync|old = 'old', replacements = [['ne', 'w']]||new
late_sync|old = 'old', replacements = [['ne', 'w']]|replace::sync=1*return|
ignore_sync|old = 'old', replacements = [['ne', 'w']]||new
ignore_sync|old = 'old', replacements = [['ne', 'w']]|replace::sync=1*return|
ignore_sync|old = '', replacements = [['ne', 'w']]|replace::sync=1*return|
ignore_sync|old = '', replacements = [['ab'], ['cd']]|replace::sync=1*off->1*return|
retry_write|old = 'old', replacements = [['ne', 'w']]||new
retry_write|old = 'old', replacements = [['ne', 'w']]|replace::write=1*return|nnew
retry_write|old = 'old', replacements = [['abc', 'd']]|replace::write=1*return|aabcd
retry_write|old = 'old', replacements = [['', 'x']]|replace::write=1*return|x
";

/// Plays a run on the device.
fn play(
    alloc: Global,
    device: &mut FileDevice,
    variant: &str,
    table: &str,
    scenario: &str,
) -> Result<(), Fail> {
    let text = format!(in alloc;
        "target = 'replace'\nvariant = '{variant}'\nreplace = {{ {table} }}\n"
    )?;
    let settings = read(alloc, text.as_str())?;
    let Choice::Replace(variant, work) = &settings.choice else {
        return Err(Fail::from("another target"));
    };
    let scenario = parse(alloc, scenario)?;
    let mut session = Session::new(alloc, &scenario, Replace::catalogue(), 7, 0, 1000)?;
    play_on(*variant, work, device, &mut session)?;
    Ok(())
}

/// The device holds these contents after the run.
fn leaves(rt: &impl Abort, alloc: Global, device: &mut FileDevice, run: &str) -> Result<(), Fail> {
    let mut parts = run.split('|');
    let (Some(variant), Some(table)) = (parts.next(), parts.next()) else {
        return Err(Fail::from("no run"));
    };
    let (Some(scenario), Some(contents)) = (parts.next(), parts.next()) else {
        return Err(Fail::from("no contents"));
    };
    play(alloc, device, variant, table, scenario)?;
    assert_eq!(rt; device.read(TARGET), Ok(contents.as_bytes()), "at {run}");
    Ok(())
}

#[test]
fn runs_leave_their_contents(rt: HostRuntime) -> Result<(), Fail> {
    let mut device = FileDevice::new(rt.alloc());
    for run in RUNS.lines() {
        leaves(&rt, rt.alloc(), &mut device, run)?;
    }
    Ok(())
}

/// The half of one letter of two bytes, and the letter.
#[test]
fn half_a_letter_is_left(rt: HostRuntime) -> Result<(), Fail> {
    let mut device = FileDevice::new(rt.alloc());
    play(
        rt.alloc(),
        &mut device,
        "retry_write",
        "old = 'old', replacements = [['\u{e9}', '']]",
        "replace::write=1*return",
    )?;
    assert_eq!(rt; device.read(TARGET), Ok(b"\xc3\xc3\xa9".as_slice()));
    Ok(())
}
