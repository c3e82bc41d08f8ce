//! The place of a term in a scenario.

/// The place of a term in a scenario.
#[derive(Clone, Copy, Debug, PartialEq, Eq)]
pub struct Place {
    /// The entry's number in the order of entries, from 0 to 255.
    pub entry: u32,
    /// The term's number in its chain, from 0 to 255.
    pub term: u32,
}
