//! The words of the command line: which command they name, with its scenario and its file; and the texts of help. What a command does is no matter of
//! this crate.
#![tactic(auto)]

mod help;
mod numbers;
mod refusing;
mod words;

pub use words::{
    Form, Line, Order, ProgressForm, Question, Shown, VERSION, Which, WordsFault, read_words,
};
