//! A page to look at: a fixed frame, and in it the brief report's text and the JSON document that the frame's script shows.
#![tactic(auto)]

mod frame;
mod laws;
mod page;

pub use frame::{BEFORE, BEHIND, BETWEEN};
pub use laws::nothing_ends_what_it_stands_in;
pub use page::page_text;
