//! The points of the protocol.

/// A point. Its number in the catalogue is its place here.
#[derive(Clone, Copy)]
pub enum Point {
    SendPrepare,
    ForcePrepare,
    SendVote,
    ForceCommit,
    SendOutcome,
    ForceOutcome,
    SendAck,
}
