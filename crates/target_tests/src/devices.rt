//! The file devices and the record log.

use sim_device::{CrashDevice, DeviceFault, FileDevice, RecordLog};
use std::alloc::AllocError;
use std::process::Abort;

const A: u32 = 0;

const B: u32 = 1;

const MISSING: u32 = 5;

/// A call of a file device that may change it.
#[derive(Clone, Copy)]
enum Call<'c> {
    Create(u32),
    Append(u32, &'c [u8]),
    Sync(u32),
    Rename(u32, u32),
    Link(u32, u32),
    Unlink(u32),
    SyncDir,
    PowerCut,
    Clear,
}

use Call::{Append, Clear, Create, Link, PowerCut, Rename, Sync, SyncDir, Unlink};

fn perform(device: &mut FileDevice, call: Call<'_>) -> Result<(), DeviceFault> {
    match call {
        Create(name) => device.create(name)?,
        Append(name, bytes) => device.append(name, bytes)?,
        Sync(name) => device.sync(name)?,
        Rename(from, to) => device.rename(from, to)?,
        Link(from, to) => device.link(from, to)?,
        Unlink(name) => device.unlink(name)?,
        SyncDir => device.sync_dir(),
        PowerCut => device.power_cut(),
        Clear => device.clear(),
    }
    Ok(())
}

/// All these calls are accepted.
fn perform_all(device: &mut FileDevice, calls: &[Call<'_>]) -> Result<(), DeviceFault> {
    for call in calls {
        perform(device, *call)?;
    }
    Ok(())
}

/// What a name holds; nothing if it is gone.
type Contents<'c> = Option<&'c [u8]>;

/// The name holds these contents, or it is gone.
fn holds(rt: &impl Abort, device: &FileDevice, name: u32, contents: Contents<'_>, at: &str) {
    assert_eq!(rt; device.exists(name), contents.is_some(), "{at}");
    let want = contents.ok_or(DeviceFault::NotFound);
    assert_eq!(rt; device.read(name), want, "{at}");
}

/// These calls are refused for this fault.
fn refuses(rt: &impl Abort, device: &mut FileDevice, calls: &[Call<'_>], fault: DeviceFault) {
    for call in calls {
        assert!(rt; perform(device, *call) == Err(fault));
    }
}

/// Calls that are accepted, and what a name holds then.
type Step = (&'static [Call<'static>], u32, Contents<'static>);

// What is to be seen, and the steps on one device.
const RUNS: [(&str, &[Step]); 5] = [
    (
        "unsynced contents are lost",
        &[(
            &[Create(A), Append(A, b"x"), SyncDir, PowerCut],
            A,
            Some(b""),
        )],
    ),
    (
        "an unsynced name is lost",
        &[(&[Create(A), Sync(A), PowerCut], A, None)],
    ),
    (
        "a synced file survives a later write",
        &[
            (
                &[
                    Create(A),
                    Append(A, b"x"),
                    Sync(A),
                    SyncDir,
                    Append(A, b"y"),
                    Unlink(A),
                    PowerCut,
                ],
                A,
                Some(b"x"),
            ),
            (&[Append(A, b"z")], A, Some(b"xz")),
        ],
    ),
    (
        "a rename takes the name of another",
        &[
            (
                &[Create(A), Append(A, b"x"), Create(B), Rename(A, B)],
                B,
                Some(b"x"),
            ),
            (&[], A, None),
            (&[Rename(B, B)], B, Some(b"x")),
        ],
    ),
    (
        "a cleared device is new",
        &[
            (
                &[Create(A), Append(A, b"x"), Sync(A), SyncDir, Clear],
                A,
                None,
            ),
            (&[PowerCut], A, None),
            (&[Create(A)], A, Some(b"")),
        ],
    ),
];

#[test]
fn accepted_calls_have_their_effects(rt: HostRuntime) -> Result<(), DeviceFault> {
    for (what, steps) in RUNS {
        let mut device = FileDevice::new(rt.alloc());
        for (calls, name, contents) in steps {
            perform_all(&mut device, calls)?;
            holds(&rt, &device, *name, *contents, what);
        }
    }
    Ok(())
}

const OF_A_MISSING_NAME: [Call<'static>; 5] = [
    Append(MISSING, b"y"),
    Sync(MISSING),
    Unlink(MISSING),
    Rename(MISSING, A),
    Link(MISSING, A),
];

#[test]
fn refused_calls_change_nothing(rt: HostRuntime) -> Result<(), DeviceFault> {
    let mut device = FileDevice::new(rt.alloc());
    let lasting = [Create(A), Append(A, b"x"), Sync(A), SyncDir];
    perform_all(&mut device, &lasting)?;
    refuses(&rt, &mut device, &[Create(A)], DeviceFault::Exists);
    refuses(&rt, &mut device, &OF_A_MISSING_NAME, DeviceFault::NotFound);
    holds(&rt, &device, MISSING, None, "now");
    holds(&rt, &device, A, Some(b"x"), "now");
    perform(&mut device, PowerCut)?;
    holds(&rt, &device, A, Some(b"x"), "after the power cut");
    Ok(())
}

#[test]
fn link_shares_the_file(rt: HostRuntime) -> Result<(), DeviceFault> {
    let mut device = FileDevice::new(rt.alloc());
    perform_all(&mut device, &[Create(A), Append(A, b"x")])?;
    refuses(&rt, &mut device, &[Link(MISSING, A)], DeviceFault::NotFound);
    perform(&mut device, Create(B))?;
    refuses(&rt, &mut device, &[Link(A, B)], DeviceFault::Exists);
    let shared = [Unlink(B), Link(A, B), Append(A, b"y"), Unlink(A)];
    perform_all(&mut device, &shared)?;
    holds(&rt, &device, B, Some(b"xy"), "the other name");
    Ok(())
}

// Which of two appended bytes a power cut keeps; and what is there in the end, after another power cut, a third byte that is appended and synced, and
// one more power cut. If the second byte is kept without the first, there is a zero in the first one's place.
const RECOVERED: [(&[bool], &[u8]); 4] = [
    (&[], b"z"),
    (&[true], b"xz"),
    (&[false, true], b"\0yz"),
    (&[true, true], b"xyz"),
];

#[test]
fn what_a_cut_kept_lasts_and_is_appended_to(rt: HostRuntime) -> Result<(), DeviceFault> {
    for (keep, contents) in RECOVERED {
        let mut device = CrashDevice::new(rt.alloc());
        device.create(A)?;
        device.sync_dir();
        device.append(A, b"x")?;
        device.append(A, b"y")?;
        device.cut_keeping(keep)?;
        assert!(rt; device.pending().is_empty());
        device.power_cut();
        device.append(A, b"z")?;
        device.sync(A)?;
        device.power_cut();
        assert_eq!(rt; device.read(A), Ok(contents));
    }
    Ok(())
}

/// Adds these records; `force` says which are forced.
fn add(log: &mut RecordLog<u32>, records: &[(u32, bool)]) -> Result<(), AllocError> {
    for (record, force) in records {
        if *force {
            log.force(*record)?;
        } else {
            log.append(*record)?;
        }
    }
    Ok(())
}

// Records to add, as above; what the log has then, and what it has after a restart.
const LOGGED: [(&[(u32, bool)], &[u32], &[u32]); 2] = [
    (&[(1, false), (2, true), (3, false)], &[1, 2, 3], &[1, 2]),
    (&[(4, false)], &[1, 2, 4], &[1, 2]),
];

#[test]
fn restart_keeps_what_was_forced(rt: HostRuntime) -> Result<(), AllocError> {
    let mut log = RecordLog::new(rt.alloc());
    for (records, now, kept) in LOGGED {
        add(&mut log, records)?;
        assert_eq!(rt; log.records(), now);
        log.restart();
        assert_eq!(rt; log.records(), kept);
    }
    log.clear();
    log.restart();
    assert!(rt; log.records().is_empty());
    Ok(())
}

#[test]
fn faults_are_told(rt: HostRuntime) -> Result<(), DeviceFault> {
    for (fault, want) in [
        (DeviceFault::Exists, "the name exists"),
        (DeviceFault::NotFound, "no such name"),
        (DeviceFault::Memory, "out of memory"),
    ] {
        let text = format!(in rt.alloc(); "{fault}")?;
        assert_eq!(rt; text.as_str(), want);
    }
    Ok(())
}
