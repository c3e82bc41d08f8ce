//! Texts read and printed.

use scenario_grammar::{Scenario, print};
use std::alloc::Global;
use std::process::Abort;
use std::test::Fail;

/// The scenario is printed as this text.
pub fn prints(rt: &impl Abort, alloc: Global, scenario: &Scenario, want: &str) -> Result<(), Fail> {
    assert_eq!(rt; print(alloc, scenario)?.as_str(), want);
    Ok(())
}
