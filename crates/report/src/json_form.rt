//! A report as one JSON document, for programs that read it. docs/MACHINES.md describes its members.
//!
//! The tokens are written by the kit's `json`, whose contracts give the text token by token. The contracts of `serde_json` give a value's text too.
//! But it puts an object's members in the order of their keys, and it would keep a tree of all failing plans in memory before it writes the first.

mod about;
mod document;
mod faults;
mod growth;
mod members;
mod plans;
mod runs;

pub use about::{Appendix, Notes, Shown};
pub use document::json_text;
pub use runs::{Runs, ShownRun};
