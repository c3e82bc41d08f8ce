//! A report in each of its forms, and the runs that it shows. This crate doesn't depend on the source of the runs.

mod forms;
mod runs;

pub use forms::{Form, text_in};
pub use runs::{MOST_HITS_SHOWN, Teller};
