//! The variants of a delivery.

/// How a delivery does its steps.
#[derive(Clone, Copy, Debug, PartialEq, Eq)]
pub enum Variant {
    /// Look, create, write, sync, link, remove the name under `tmp/`, sync the directory: a message is acknowledged only once all of
    /// it lasts, and no name under `new/` leads to a file that isn't whole and synced.
    Sound,
    /// The name under `new/` is made directly after the file, before anything is written.
    LinkFirst,
    /// A write that fails is treated as if it had succeeded, though only half of the chunk was written.
    IgnoreWrite,
    /// Both attempts use the names of the first, without a look. So the second writes on at the end of what a failed attempt left under `tmp/`.
    AppendTmp,
    /// There is no name under `tmp/`: a message is written under `new/` itself, and synced there. Only a cut that keeps some of what is pending
    /// shows it.
    DeliverInNew,
}
