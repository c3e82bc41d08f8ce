//! The lines about settings and words that can't be read because memory is refused.

use campaign_main::{Exit, Out, unreadable_settings, unreadable_words};
use std::io::{Error, ErrorKind};

#[test]
fn memory_for_settings_is_refused(rt: HostRuntime) {
    let memory = Error::from(ErrorKind::OutOfMemory);
    let mut faults = Out::new(Vec::new(rt.alloc()));
    assert_eq!(rt; unreadable_settings(&memory, &mut faults), Exit::Memory);
    let line = b"no memory\n".as_slice();
    assert_eq!(rt; faults.into_writer().as_slice(), line);
}

#[test]
fn memory_for_words_is_refused(rt: HostRuntime) {
    let memory = Error::from(ErrorKind::OutOfMemory);
    let mut faults = Out::new(Vec::new(rt.alloc()));
    assert_eq!(rt; unreadable_words(&memory, &mut faults), Exit::Memory);
    let line = b"no memory\n".as_slice();
    assert_eq!(rt; faults.into_writer().as_slice(), line);
}
