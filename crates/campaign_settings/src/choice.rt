//! The target that settings choose.
use campaign_given::Outside;
use commit_target::Transactions;
use file_replace::Replacements;
use maildir_target::Messages;

/// A bundled target with its variant, or a target from outside, which has no variant.
#[derive(Clone, Copy)]
pub enum Setup {
    Replace(file_replace::Variant),
    Maildir(maildir_target::Variant),
    Commit(commit_target::Variant),
    Outside,
}

/// A bundled target with its variant and its workload, or a target from outside.
#[derive(Drop)]
pub enum Choice {
    /// Atomic replacement of a file.
    Replace(file_replace::Variant, Replacements),
    /// Delivery of messages into a maildir.
    Maildir(maildir_target::Variant, Messages),
    /// Two-phase commit with presumed abort.
    Commit(commit_target::Variant, Transactions),
    /// A component that somebody else runs.
    Outside(Outside),
}
