//! The variants of a replacement.

/// How a replacement does its steps.
#[derive(Clone, Copy, Debug, PartialEq, Eq)]
pub enum Variant {
    /// Write, sync, rename, sync the directory: nothing is acknowledged before all of it lasts.
    Sound,
    /// The file is synced only after it was renamed and the directory was synced.
    LateSync,
    /// A sync that fails is treated as if it had succeeded.
    IgnoreSync,
    /// A chunk whose write fails is written once more, after the half that is there already.
    RetryWrite,
    /// The file is renamed before it is synced; both before the directory is. Only a cut that keeps some of what is pending shows it.
    RenameFirst,
    /// There is only the name of the old contents: it is removed, and the new contents are written and synced under it. Only a cut that keeps some of
    /// what is pending shows it.
    InPlace,
}
