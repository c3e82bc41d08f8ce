//! What a target says of its own run, and what a case comes to.

/// What a target says of its own run, after a power cut or a restart, with faults switched off.
#[derive(Clone, Copy, Debug, PartialEq, Eq)]
pub enum Judgement {
    /// What the target promises was kept.
    Kept,
    /// A promise was broken: the one that the target's code with this number names.
    Broken(u32),
}

/// What a case comes to.
#[derive(Clone, Copy, Debug, PartialEq, Eq)]
pub enum Verdict {
    /// The run came to its end, or to a panic, and the target judged that all was kept.
    Pass,
    /// The run came to its end, or to a panic, and the target judged that the promise which this code names was broken.
    Fail(u32),
    /// The run was stopped by a pause or by its limit of hits, so nothing is known, whatever the target judged.
    Unresolved,
}
