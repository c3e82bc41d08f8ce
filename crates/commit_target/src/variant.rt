//! The variants of the protocol.

/// How the parties of a commit do their steps.
#[derive(Clone, Copy, Debug, PartialEq, Eq)]
pub enum Variant {
    /// Presumed abort as published.
    Sound,
    /// A participant votes yes on a prepare record that it did not force.
    LazyPrepare,
    /// The coordinator ends a commit whatever was acknowledged, and forces that.
    EarlyEnd,
    /// A commit record that is refused is tried once more, and then treated as if it stood.
    TwoTries,
    /// The coordinator ends a commit before anybody is told of it. Only a cut that keeps some of what is pending shows it.
    EndFirst,
}
