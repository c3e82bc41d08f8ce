//! The points of a delivery.

/// A point. Its number in the catalogue is its place here.
#[derive(Clone, Copy)]
pub enum Point {
    Stat,
    Create,
    Write,
    Sync,
    Link,
    Unlink,
    SyncDir,
}
