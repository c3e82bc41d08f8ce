//! The commands over a target that a program brings.
use campaign_main::{Exit, FreeGate, Host, Order, Out, Subject, perform_settings, perform_target};
use example_target::{Amount, Transfer};
use journal_target::Journal;
use std::sync::Wait;
use std::thread::Threads;
use target_trait::{ByTable, WithCut};

/// The commands over a target, with settings as a text.
pub fn transfer_is_performed<H: Threads + Wait + Sync>(
    host: &Host<'_, FreeGate, H>,
    order: &Order,
    transfer: &mut Transfer,
    amount: &Amount,
    settings: &[u8],
) -> Exit {
    let mut output = Out::new(Vec::new(host.alloc));
    let mut faults = Out::new(Vec::new(host.alloc));
    let mut reader = settings;
    perform_target(
        host,
        order,
        transfer,
        amount,
        &mut reader,
        &mut output,
        &mut faults,
    )
}

/// The commands over a target that is given by a table of its steps and ends with its power cut.
pub fn journal_is_cut<H: Threads + Wait + Sync>(
    host: &Host<'_, FreeGate, H>,
    order: &Order,
    subject: &Subject<'_, WithCut<ByTable<Journal>>>,
) -> Exit {
    let mut output = Out::new(Vec::new(host.alloc));
    let mut faults = Out::new(Vec::new(host.alloc));
    perform_settings(host, order, subject, &mut output, &mut faults)
}
