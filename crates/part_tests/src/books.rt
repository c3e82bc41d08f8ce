//! Tests of numbered results and of the book.

use crate::inputs::{book, has, input, range, settings, tells};
use crate::one_step::OneStep;
use crate::scenarios::{plans, scenarios};
use grown_plans::CampaignPlans;
use result_book::{Book, Numbered, PlanRange, PutFault, RunInput, put_all};
use std::alloc::Global;
use std::process::Abort;
use std::test::Fail;
use target_trait::Verdict;

/// The code of the target's only failure.
const REFUSED: u32 = 4;

const FAILS: Verdict = Verdict::Fail(REFUSED);

/// The result of the plan of this number, which the input has to have.
fn result<'a>(
    rt: &impl Abort,
    alloc: Global,
    input: &'a RunInput<'a, OneStep>,
    number: u32,
) -> Result<Numbered<'a, OneStep>, Fail> {
    assert!(rt; (number as usize) < input.plans.len());
    Ok(Numbered::run(alloc, &mut OneStep, input, number)?)
}

/// What came of a result of this number that was put into a book. A result that isn't put comes back.
fn outcome(number: u32, put: Result<(), PutFault<'_, OneStep>>) -> &'static str {
    match put {
        Ok(()) => "put",
        Err(PutFault::Twice(pair)) if pair.number() == number => "twice",
        Err(PutFault::Stranger(pair)) if pair.number() == number => "stranger",
        Err(_) => "another result",
    }
}

/// Puts the result of the plan with this number, which has to end so.
fn put(
    rt: &impl Abort,
    alloc: Global,
    book: &mut Book,
    input: &RunInput<'_, OneStep>,
    row: (u32, &str),
) -> Result<(), Fail> {
    let (number, want) = row;
    let result = result(rt, alloc, input, number)?;
    assert_eq!(rt; outcome(number, book.put(result)), want);
    Ok(())
}

/// Results of 19 plans, and a book of 10.
fn is_put_once(
    rt: &impl Abort,
    alloc: Global,
    longer: &RunInput<'_, OneStep>,
    mut book: Book,
) -> Result<(), Fail> {
    assert_eq!(rt; longer.plans.len(), 19);
    for row in [(3, "put"), (3, "twice"), (12, "stranger")] {
        put(rt, alloc, &mut book, longer, row)?;
    }
    assert!(rt; !book.whole());
    has(rt, alloc, &book, &[Verdict::Pass])?;
    tells(rt, alloc, &book, &[])
}

/// The book of the plan without faults and nine listed ones.
fn book_of_ten(rt: &impl Abort, alloc: Global) -> Result<Book, Fail> {
    let nine = scenarios(alloc, 9, &[])?;
    let nine = plans(alloc, &nine)?;
    let shorter = CampaignPlans::by_census(&nine);
    let settings = settings(alloc);
    book(rt, alloc, &input(&settings, &shorter))
}

/// All results are put from the last one on.
fn fails_first_at_10(
    rt: &impl Abort,
    alloc: Global,
    input: &RunInput<'_, OneStep>,
) -> Result<(), Fail> {
    let mut book = book(rt, alloc, input)?;
    for number in (0..19).rev() {
        put(rt, alloc, &mut book, input, (number, "put"))?;
    }
    assert!(rt; book.whole());
    tells(rt, alloc, &book, &[(10, REFUSED)])
}

/// The ranges of these plans, each from its first number on, before its end, as one worker hands them back.
fn ranges<'a>(
    rt: &impl Abort,
    alloc: Global,
    input: &'a RunInput<'a, OneStep>,
    stretches: &[(u32, u32)],
) -> Result<Vec<(u32, PlanRange<'a, OneStep>)>, Fail> {
    let mut list = Vec::new(alloc);
    for stretch in stretches {
        let range = range(rt, alloc, &mut OneStep, input, *stretch)?;
        list.push((stretch.0, range))?;
    }
    Ok(list)
}

/// Puts the results of 0 to 2, from two workers. One of them has an empty range too, and one that overlaps what is put.
fn put_others<'a>(
    rt: &impl Abort,
    alloc: Global,
    input: &'a RunInput<'a, OneStep>,
    book: &mut Book,
) -> Result<(), Fail> {
    let mut lists: Vec<Vec<(u32, PlanRange<'a, OneStep>)>> = Vec::new(alloc);
    lists.push(ranges(rt, alloc, input, &[(1, 3), (2, 4), (4, 4)])?)?;
    lists.push(ranges(rt, alloc, input, &[(0, 1)])?)?;
    put_all(book, lists);
    Ok(())
}

/// The book is full of these verdicts.
fn is_full_of(
    rt: &impl Abort,
    alloc: Global,
    book: Book,
    verdicts: &[Verdict],
) -> Result<(), Fail> {
    has(rt, alloc, &book, verdicts)?;
    assert!(rt; book.whole());
    assert_eq!(rt; book.into_verdicts().as_slice(), verdicts);
    Ok(())
}

/// The last of four results is put first.
fn are_put_by_number(
    rt: &impl Abort,
    alloc: Global,
    input: &RunInput<'_, OneStep>,
) -> Result<(), Fail> {
    let mut book = book(rt, alloc, input)?;
    put(rt, alloc, &mut book, input, (3, "put"))?;
    tells(rt, alloc, &book, &[(3, REFUSED)])?;
    put_others(rt, alloc, input, &mut book)?;
    tells(rt, alloc, &book, &[(1, REFUSED)])?;
    is_full_of(
        rt,
        alloc,
        book,
        &[Verdict::Pass, FAILS, Verdict::Pass, FAILS],
    )
}

/// What is taken out of the range of plans 1 and 2 comes from its end.
fn is_taken_from_its_end(
    rt: &impl Abort,
    alloc: Global,
    input: &RunInput<'_, OneStep>,
) -> Result<(), Fail> {
    let mut range = range(rt, alloc, &mut OneStep, input, (1, 3))?;
    for want in [Some((2, Verdict::Pass)), Some((1, FAILS)), None] {
        let last = range.pop().map(|pair| (pair.number(), pair.verdict()));
        assert_eq!(rt; last, want);
    }
    Ok(())
}

/// Two verdicts are known, and then four, of three plans.
fn are_put_in_the_first_places(
    rt: &impl Abort,
    alloc: Global,
    input: &RunInput<'_, OneStep>,
) -> Result<(), Fail> {
    let mut book = book(rt, alloc, input)?;
    book.put_known(vec![in alloc; Verdict::Pass, FAILS]?);
    assert!(rt; !book.whole());
    has(rt, alloc, &book, &[Verdict::Pass, FAILS])?;
    put(rt, alloc, &mut book, input, (1, "twice"))?;
    book.put_known(vec![in alloc; FAILS, Verdict::Unresolved, FAILS, Verdict::Pass]?);
    assert!(rt; book.whole());
    has(rt, alloc, &book, &[Verdict::Pass, FAILS, FAILS])?;
    tells(rt, alloc, &book, &[(1, REFUSED)])
}

/// What is to be seen of an input.
#[derive(Clone, Copy)]
enum Check {
    IsPutOnce,
    FailsFirstAt10,
    ArePutByNumber,
    IsTakenFromItsEnd,
    ArePutInTheFirstPlaces,
}

/// Looks at the input of the plan without faults and this many listed ones, of which those with the given numbers refuse the step.
fn look(
    rt: &impl Abort,
    alloc: Global,
    count: u32,
    refused: &[u32],
    check: Check,
) -> Result<(), Fail> {
    let scenarios = scenarios(alloc, count, refused)?;
    let listed = plans(alloc, &scenarios)?;
    let plans = CampaignPlans::by_census(&listed);
    let settings = settings(alloc);
    let input = input(&settings, &plans);
    match check {
        Check::IsPutOnce => is_put_once(rt, alloc, &input, book_of_ten(rt, alloc)?),
        Check::FailsFirstAt10 => fails_first_at_10(rt, alloc, &input),
        Check::ArePutByNumber => are_put_by_number(rt, alloc, &input),
        Check::IsTakenFromItsEnd => is_taken_from_its_end(rt, alloc, &input),
        Check::ArePutInTheFirstPlaces => are_put_in_the_first_places(rt, alloc, &input),
    }
}

#[test]
fn a_book_takes_each_result_of_its_input_once(rt: HostRuntime) -> Result<(), Fail> {
    look(&rt, rt.alloc(), 18, &[], Check::IsPutOnce)
}

/// Three plans fail with one code.
#[test]
fn the_first_failure_of_a_code_is_told_once(rt: HostRuntime) -> Result<(), Fail> {
    look(&rt, rt.alloc(), 18, &[9, 10, 11], Check::FailsFirstAt10)
}

#[test]
fn results_of_workers_are_put_by_their_numbers(rt: HostRuntime) -> Result<(), Fail> {
    look(&rt, rt.alloc(), 3, &[0, 2], Check::ArePutByNumber)
}

/// A range has what its plans come to.
#[test]
fn a_range_gives_its_last_result_first(rt: HostRuntime) -> Result<(), Fail> {
    look(&rt, rt.alloc(), 3, &[0, 2], Check::IsTakenFromItsEnd)
}

/// The verdicts that are known are put once: others of the same numbers change nothing, and neither does one more than there are plans.
#[test]
fn known_verdicts_are_put_in_the_first_places(rt: HostRuntime) -> Result<(), Fail> {
    look(&rt, rt.alloc(), 2, &[], Check::ArePutInTheFirstPlaces)
}
