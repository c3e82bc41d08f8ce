//! What a run leaves.

/// What a run leaves: the device, and the numbers of the messages that were acknowledged.
#[derive(Drop)]
pub struct Mailbox<D> {
    pub device: D,
    pub acknowledged: Vec<u16>,
}
