//! Texts as they stand inside XML, escaped.
#![tactic(auto)]

mod escaping;

pub use escaping::write_escaped;
