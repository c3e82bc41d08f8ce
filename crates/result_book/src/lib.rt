//! Plans run as numbered results, in ranges, and the book that takes each number's result once and finds the first failures.
#![tactic(auto)]

mod book;
mod failures;
mod input;
mod laws;
mod numbered;
mod range;
mod watched;
mod workspace;

pub use book::{Book, PutFault, put_all};
pub use failures::first_failures_of;
pub use input::RunInput;
pub use laws::{
    books_tell_the_least_failures, first_failures_are_the_least, full_books_tell_their_verdicts,
};
pub use numbered::Numbered;
pub use range::PlanRange;
pub use workspace::Workspace;
