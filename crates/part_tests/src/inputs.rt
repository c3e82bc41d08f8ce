//! Inputs of the tests, and what books and ranges have of them.

use crate::one_step::OneStep;
use campaign_given::CampaignSettings;
use grown_plans::CampaignPlans;
use result_book::{Book, PlanRange, RunInput, Workspace};
use std::alloc::Global;
use std::process::Abort;
use std::test::Fail;
use target_trait::{Target, Verdict};

/// The runs of these plans have seed 7, and at most 1000 of their hits are answered.
pub fn settings(alloc: Global) -> CampaignSettings {
    let mut settings = CampaignSettings::new(alloc);
    settings.seed = 7;
    settings
}

/// The input of these plans, over the target of one step.
pub fn input<'a>(
    settings: &'a CampaignSettings,
    plans: &'a CampaignPlans<'a>,
) -> RunInput<'a, OneStep> {
    RunInput {
        workload: &(),
        settings,
        plans,
        watched: &[],
    }
}

/// The range of the plans from the first number on, before the second one, which the input has to have.
pub fn range<'a, T: Target>(
    rt: &impl Abort,
    alloc: Global,
    target: &mut T,
    input: &'a RunInput<'a, T>,
    stretch: (u32, u32),
) -> Result<PlanRange<'a, T>, Fail> {
    let (first, end) = stretch;
    assert!(rt; first <= end && end as usize <= input.plans.len());
    let mut workspace = Workspace::new(alloc);
    Ok(PlanRange::run_over(alloc, target, &mut workspace, input, first..end)?)
}

/// The book of an input that nothing is put in.
pub fn book<T: Target>(
    rt: &impl Abort,
    alloc: Global,
    input: &RunInput<'_, T>,
) -> Result<Book, Fail> {
    assert!(rt; input.plans.len() <= 65536);
    Ok(Book::new(alloc, input)?)
}

/// The book has these verdicts, and no others.
pub fn has(rt: &impl Abort, alloc: Global, book: &Book, verdicts: &[Verdict]) -> Result<(), Fail> {
    assert_eq!(rt; book.verdicts(alloc)?.as_slice(), verdicts);
    Ok(())
}

/// The book has these first failures.
pub fn tells(
    rt: &impl Abort,
    alloc: Global,
    book: &Book,
    firsts: &[(u32, u32)],
) -> Result<(), Fail> {
    assert_eq!(rt; book.first_failure(), firsts.first().copied());
    assert_eq!(rt; book.first_failures(alloc)?.as_slice(), firsts);
    Ok(())
}
