//! Laws on first failures, and on books that are full.
ghost use Rattle.std.specs.Prelude.{◌≡◌, List, Option, Some, map, slice_get, true};
ghost use Rattle.std.specs.List.{list_all};
ghost use Rattle.target_trait.specs.declared.judgement.Verdict.{Verdict};
ghost use Rattle.result_book.specs.FirstFailure.{first_from, FailsAt, IsFirstFailure};
ghost use Rattle.result_book.specs.FirstFailures.{first_failures, AreFirstFailures};
ghost use Rattle.result_book.specs.Slots.{first_in, in_book, is_full, present, FailsIn};
ghost use Rattle.result_book.specs.Verdicts.{numbered};

/// The recursion finds the first failure of a list of verdicts: the least number whose verdict is a failure, with its code, or none if no verdict
/// fails. The first failures are, for each code, the least number that fails with it, and they begin with the first failure.
pub fn first_failures_are_the_least()
    ensures first { (verdicts : List Verdict) → IsFirstFailure (FailsAt verdicts) (first_from 0 verdicts) }
    ensures each { (verdicts : List Verdict) → AreFirstFailures (FailsAt verdicts) (first_failures (numbered verdicts)) }
    ensures head { (verdicts : List Verdict) → slice_get (first_failures (numbered verdicts)) 0 ≡ first_from 0 verdicts }
{}

/// The same for the numbers and verdicts in a book, which may have gaps: a number fails if its place has a failure.
pub fn books_tell_the_least_failures()
    ensures first { (slots : List (Option Verdict)) → IsFirstFailure (FailsIn slots) (first_in 0 slots) }
    ensures each { (slots : List (Option Verdict)) → AreFirstFailures (FailsIn slots) (first_failures (in_book slots)) }
    ensures head { (slots : List (Option Verdict)) → slice_get (first_failures (in_book slots)) 0 ≡ first_in 0 slots }
{}

/// A book in which each plan has its verdict is whole, and has just these verdicts, their first failure, and the first failure of each code.
pub fn full_books_tell_their_verdicts()
    ensures whole { (verdicts : List Verdict) → list_all is_full (map Some verdicts) ≡ true }
    ensures first { (verdicts : List Verdict) → first_in 0 (map Some verdicts) ≡ first_from 0 verdicts }
    ensures firsts { (verdicts : List Verdict) → first_failures (in_book (map Some verdicts)) ≡ first_failures (numbered verdicts) }
    ensures all { (verdicts : List Verdict) → present (map Some verdicts) ≡ verdicts }
{}
