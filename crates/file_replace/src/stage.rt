//! The stages of a replacement.
use crate::rest::Rest;

/// The step that is asked for next, with the chunks that are left to be written.
#[derive(Clone, Copy)]
pub enum Stage<'w> {
    Clearing(Rest<'w>),
    Creating(Rest<'w>),
    Writing(&'w [u8], Rest<'w>),
    WritingAgain(&'w [u8], Rest<'w>),
    Syncing,
    Renaming,
    SyncingRenamed,
    SyncingDir,
    SyncingLate,
    Cleaning,
    Over,
}
