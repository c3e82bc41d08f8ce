//! A report as JUnit's XML: a suite of the campaign, with a case for each plan.
//!
//! The kit has no writer of XML. All that is needed here are elements whose names stand in this crate, with texts in them, which `xml_text` escapes.

mod cases;
mod document;

pub use document::junit_text;
