//! A reader that goes wrong, and what a command does with readers and writers.

use campaign_main::{Exit, Form, FreeGate, Host, Order, Out, Sink, perform};
use std::alloc::Global;
use std::io;
use std::io::Read;
use std::process::Abort;
use std::sync::Wait;
use std::thread::Threads;
use target_checks::Narrow;

/// A reader that gives its bytes one at a time, and fails at one of its reads, counted from 1.
#[derive(Drop)]
pub struct Torn<'a> {
    pub bytes: &'a [u8],
    pub reads: u32,
    pub fails_at: u32,
}

impl Read for Torn<'_> {
    fn read(&mut self, buf: &mut [u8]) -> io::Result<usize> {
        self.reads = self.reads.saturating_add(1);
        if self.reads == self.fails_at {
            return Err(io::Error::from(io::ErrorKind::ConnectionReset));
        }
        let (Some((first, rest)), Some(place)) = (self.bytes.split_first(), buf.first_mut()) else {
            return Ok(0);
        };
        *place = *first;
        self.bytes = rest;
        Ok(1)
    }
}

/// What a command did: its end, its output, whether the writer of that went wrong, and its line for a fault.
#[derive(Drop)]
pub struct Answered {
    pub exit: Exit,
    pub output: Vec<u8>,
    pub has_failed: bool,
    pub fault: Vec<u8>,
}

/// The command has ended so, with this output and this line for a fault.
pub fn has_ended(rt: &impl Abort, did: &Answered, exit: Exit, output: &[u8], fault: &[u8]) {
    assert_eq!(rt; did.exit, exit);
    assert_eq!(rt; did.output.as_slice(), output);
    assert_eq!(rt; did.fault.as_slice(), fault);
}

/// The command that runs a campaign, and writes its whole report.
pub fn whole_run() -> Order {
    Order::Run {
        form: Form::Whole,
        strict: false,
    }
}

/// Performs a command over a reader and a writer.
pub fn answer<R: Read, H: Threads + Wait + Sync>(
    rt: &H,
    alloc: Global,
    order: &Order,
    reader: &mut R,
    writer: Narrow,
) -> Answered {
    let mut output = Out::new(writer);
    let mut faults = Out::new(Vec::new(alloc));
    let host = Host {
        rt,
        alloc,
        gate: &FreeGate,
    };
    let exit = perform(&host, order, reader, &mut output, &mut faults);
    let has_failed = output.failed();
    Answered {
        exit,
        output: output.into_writer().bytes,
        has_failed,
        fault: faults.into_writer(),
    }
}
