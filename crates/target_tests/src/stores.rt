//! What a store does with a file beside appending: writing at a place, cutting, and finding the names that are there. Contents are worked out
//! by hand from what pwrite(2), ftruncate(2) and fsync(2) of Linux do.

use sim_device::{DeviceFault, File, FileDevice};
use std::alloc::{AllocError, Global};
use std::process::Abort;

const A: u32 = 3;

const B: u32 = 17;

const C: u32 = 40;

/// The file `A` with these contents, which last under their name.
fn with_lasting(alloc: Global, bytes: &[u8]) -> Result<FileDevice, DeviceFault> {
    let mut device = FileDevice::new(alloc);
    device.create(A)?;
    device.append(A, bytes)?;
    device.sync(A)?;
    device.sync_dir();
    Ok(device)
}

/// The file `A` holds these bytes, and those after a power cut.
fn holds_then(rt: &impl Abort, device: &mut FileDevice, now: &[u8], cut: &[u8], what: &str) {
    assert_eq!(rt; device.read(A), Ok(now), "{what}");
    device.power_cut();
    assert_eq!(rt; device.read(A), Ok(cut), "{what}");
}

/// A call that changes the file `A`.
#[derive(Clone, Copy)]
enum Call<'c> {
    Append(&'c [u8]),
    WriteAt(usize, &'c [u8]),
    Truncate(usize),
    Sync,
}

use Call::{Append, Sync, Truncate, WriteAt};

fn perform(device: &mut FileDevice, calls: &[Call<'_>]) -> Result<(), DeviceFault> {
    for call in calls {
        match *call {
            Append(bytes) => device.append(A, bytes)?,
            WriteAt(place, bytes) => device.write_at(A, place, bytes)?,
            Truncate(count) => device.truncate(A, count)?,
            Sync => device.sync(A)?,
        }
    }
    Ok(())
}

/// Calls; what the file `A` holds then, and what it holds after a power cut then.
type Step = (&'static [Call<'static>], &'static [u8], &'static [u8]);

// What is to be seen, what the file holds at first, and the steps, one after the other.
const RUNS: [(&str, &[u8], [Step; 2]); 5] = [
    (
        "cut bytes come back until the sync",
        b"abcd",
        [
            (&[Truncate(1)], b"a", b"abcd"),
            (&[Truncate(1), Sync], b"a", b"a"),
        ],
    ),
    (
        "appends follow a cut",
        b"abcd",
        [
            (&[Truncate(2), Append(b"xyz")], b"abxyz", b"abcd"),
            (
                &[Truncate(2), Append(b"xyz"), Sync, Truncate(0)],
                b"",
                b"abxyz",
            ),
        ],
    ),
    (
        "a shorter file is not cut",
        b"ab",
        [
            (&[Append(b"c"), Truncate(3)], b"abc", b"ab"),
            (&[Truncate(9)], b"ab", b"ab"),
        ],
    ),
    (
        "bytes are written over others",
        b"abcd",
        [
            (&[WriteAt(1, b"XY")], b"aXYd", b"abcd"),
            (
                &[WriteAt(1, b"XY"), Sync, WriteAt(3, b"Z!")],
                b"aXYZ!",
                b"aXYd",
            ),
        ],
    ),
    (
        "a gap holds zeros",
        b"ab",
        [
            (&[WriteAt(9, b""), WriteAt(4, b"z")], b"ab\0\0z", b"ab"),
            (&[WriteAt(2, b"c")], b"abc", b"ab"),
        ],
    ),
];

#[test]
fn contents_are_those_now_and_after_a_power_cut(rt: HostRuntime) -> Result<(), DeviceFault> {
    for (what, lasting, steps) in RUNS {
        let mut device = with_lasting(rt.alloc(), lasting)?;
        for (calls, now, cut) in steps {
            perform(&mut device, calls)?;
            holds_then(&rt, &mut device, now, cut, what);
        }
    }
    Ok(())
}

#[test]
fn a_name_that_is_missing_is_refused(rt: HostRuntime) -> Result<(), DeviceFault> {
    let mut device = with_lasting(rt.alloc(), b"ab")?;
    assert!(rt; device.truncate(B, 0) == Err(DeviceFault::NotFound));
    assert!(rt; device.write_at(B, 0, b"x") == Err(DeviceFault::NotFound));
    holds_then(&rt, &mut device, b"ab", b"ab", "the calls are refused");
    Ok(())
}

/// The names below 64 that are there, each found from itself on.
fn names_of(alloc: Global, device: &FileDevice) -> Result<Vec<u32>, AllocError> {
    let mut names = Vec::new(alloc);
    for place in 0..64 {
        if device.next_name(place) == Some(place) {
            names.push(place)?;
        }
    }
    Ok(names)
}

/// From these places on, these names are the next ones.
fn finds(rt: &impl Abort, device: &FileDevice, rows: &[(u32, Option<u32>)]) {
    for (place, name) in rows {
        assert_eq!(rt; device.next_name(*place), *name, "from {place} on");
    }
}

#[test]
fn names_are_found_in_their_order(rt: HostRuntime) -> Result<(), DeviceFault> {
    let mut device = with_lasting(rt.alloc(), b"ab")?;
    device.create(C)?;
    device.link(A, B)?;
    assert_eq!(rt;
        names_of(rt.alloc(), &device)?.as_slice(),
        [A, B, C].as_slice()
    );
    finds(
        &rt,
        &device,
        &[(0, Some(A)), (A + 1, Some(B)), (C + 1, None)],
    );
    device.unlink(A)?;
    finds(&rt, &device, &[(0, Some(B))]);
    device.power_cut();
    finds(&rt, &device, &[(0, Some(A)), (A + 1, None)]);
    Ok(())
}

/// The file holds these bytes.
fn has(rt: &impl Abort, file: &File, bytes: &[u8]) {
    assert_eq!(rt; file.read(), bytes);
}

#[test]
fn a_file_by_itself_is_written_and_cut(rt: HostRuntime) -> Result<(), AllocError> {
    let mut file = File::new(rt.alloc());
    file.append(b"abcd")?;
    file.sync();
    file.write_at(3, b"XY")?;
    has(&rt, &file, b"abcXY");
    file.truncate(1)?;
    has(&rt, &file, b"a");
    file.cut();
    has(&rt, &file, b"abcd");
    file.truncate(2)?;
    file.sync();
    file.cut();
    has(&rt, &file, b"ab");
    file.clear();
    file.cut();
    has(&rt, &file, b"");
    Ok(())
}
