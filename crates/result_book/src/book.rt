//! The book of an input's verdicts, in which each plan has a place.
ghost use Rattle.std.specs.Prelude.{◌≡◌, ℕ, ◌+◌, ◌<◌, ◌≤◌, List, [], length, Option, None, Some, true, false, IfOk, IfErr, OnOk, OnErr, replicate, slice_set, slice_index_or};
ghost use Rattle.std.specs.List.{list_all};
ghost use Rattle.result_book.specs.Refused.{IsRefused};
ghost use Rattle.result_book.specs.FirstFailures.{first_failures};
ghost use Rattle.result_book.specs.Slots.{first_in, in_book, is_full, has, enter, present};
ghost use Rattle.result_book.specs.Ranges.{enter_range, enter_ranges, enter_lists};

use crate::failures::add_first;
use crate::input::RunInput;
use crate::numbered::Numbered;
use crate::range::PlanRange;
use std::alloc::{AllocError, Global};
use std::marker::Model;
use target_trait::{Target, Verdict};

/// A place for the verdict of each plan of an input, in the order of the plans' numbers. The verdicts may be put in any order. Contracts see it as
/// the list of the places, of which there are at most 65536, as many as a campaign may have plans.
///
/// The verdicts stand one after another, apart from the note of which were put. So the list of verdicts of a whole book is there already.
#[derive(Drop)]
pub struct Book {
    /// The verdict of each place. A place into which none was put has any.
    verdicts: Vec<Verdict>,
    is_put: Vec<bool>,
}

impl Model for Book {
    ghost use Rattle.std.specs.Prelude.{◌≡◌, List, Option, length, ◌≤◌};
    ghost use Rattle.target_trait.specs.declared.judgement.Verdict.{Verdict};
    ghost use Rattle.result_book.specs.inside.Places.{places};

    ghost Value = { List (Option Verdict) };

    ghost view = { λ b. places b.is_put.items b.verdicts.items };

    ghost invariant = { λ b. (length b.is_put.items ≤ 65536) × (length b.verdicts.items ≡ length b.is_put.items) };
}

/// Why a result wasn't put. Either fault hands the result back.
#[derive(Drop)]
pub enum PutFault<'a, T: Target> {
    /// The book has no place for its number.
    Stranger(Numbered<'a, T>),
    /// The book has a verdict in its place already.
    Twice(Numbered<'a, T>),
}

impl Book {
    /// An empty book, with a place for each plan of the input. An error means that memory was refused.
    pub fn new<T: Target>(alloc: Global, input: &RunInput<'_, T>) -> Result<Self, AllocError>
        requires { length input.now.plans.now ≤ 65536 }
        ensures { IfOk result (λ book. book ≡ replicate (length input.now.plans.now) None) }
    {
        let places = input.plans.len();
        let mut verdicts = Vec::new(alloc);
        verdicts.resize(places, Verdict::Unresolved)?;
        let mut is_put = Vec::new(alloc);
        is_put.resize(places, false)?;
        Ok(Book { verdicts, is_put })
    }

    /// Puts a result in its place. No memory is taken, and after a fault the book is as it was.
    pub fn put<'a, T: Target>(&mut self, pair: Numbered<'a, T>) -> Result<(), PutFault<'a, T>>
        ensures ok { OnOk result ((pair.entry.number < length self.old) × (has self.old pair.entry.number ≡ false)
            × (self.new ≡ slice_set self.old pair.entry.number (Some pair.entry.verdict))) }
        ensures err { OnErr result (self.new ≡ self.old) }
        ensures fault { IfErr result (λ fault. IsRefused self.old pair.entry fault) }
        ensures entered { self.new ≡ enter self.old pair.entry.number pair.entry.verdict }
    {
        let number = pair.number() as usize;
        if number >= self.is_put.len() {
            return Err(PutFault::Stranger(pair));
        }
        if self.is_put[number] {
            return Err(PutFault::Twice(pair));
        }
        self.fill(number, pair.verdict());
        Ok(())
    }

    /// Puts the verdicts of the first plans, whose runs are known already, each into the place of its number, from 0 on. A verdict changes nothing if
    /// its number has one already, or has no place. No memory is taken.
    pub fn put_known(&mut self, verdicts: Vec<Verdict>)
        ensures { self.new ≡ enter_range self.old 0 verdicts.items }
    {
        let mut verdicts = verdicts;
        while let Some(verdict) = verdicts.pop() {
            self.put_free(verdicts.len(), verdict);
        }
    }

    /// Puts a verdict into the place of this number, if there is such a place and it is free.
    fn put_free(&mut self, number: usize, verdict: Verdict)
        ensures { self.new ≡ enter self.old number verdict }
    {
        if number < self.len() && self.at(number).is_none() {
            self.fill(number, verdict);
        }
    }

    /// Makes this verdict that of the place of this number.
    fn fill(&mut self, number: usize, verdict: Verdict)
        requires { number < length self.now }
        ensures { self.new ≡ slice_set self.old number (Some verdict) }
    {
        self.verdicts[number] = verdict;
        self.is_put[number] = true;
    }

    /// How many places there are.
    #[tactic(auto, using(crate::proofs::PlaceLemmas::length_seen))]
    fn len(&self) -> usize
        ensures many { result ≡ length self.now }
        ensures few { result ≤ 65536 }
    {
        self.is_put.len()
    }

    /// The verdict of this number, if it was put.
    fn at(&self, number: usize) -> Option<Verdict>
        requires { number < length self.now }
        ensures { result ≡ slice_index_or self.now number None }
    {
        if !self.is_put[number] {
            return None;
        }
        Some(self.verdicts[number])
    }

    /// The first failure: the least number in the book whose verdict is a failure, and its code.
    pub fn first_failure(&self) -> Option<(u32, u32)>
        ensures { result ≡ first_in 0 self.now }
    {
        for number in 0..self.len() {
            if let Some(Verdict::Fail(code)) = self.at(number) {
                return Some((number as u32, code));
            }
        }
        None
    }

    /// The first failure of each code, in the order of the numbers, each as the number and the code. The first of them is the first failure. An error
    /// means that memory was refused; the book stays as it is.
    pub fn first_failures(&self, alloc: Global) -> Result<Vec<(u32, u32)>, AllocError>
        ensures { IfOk result (λ firsts. firsts.items ≡ first_failures (in_book self.now)) }
    {
        let mut firsts = Vec::new(alloc);
        for number in 0..self.len() {
            add_first(&mut firsts, number as u32, self.at(number))?;
        }
        Ok(firsts)
    }

    /// The verdicts that were put, in the order of their numbers. An error means that memory was refused.
    pub fn verdicts(&self, alloc: Global) -> Result<Vec<Verdict>, AllocError>
        ensures { IfOk result (λ all. all.items ≡ present self.now) }
    {
        let mut all = Vec::with_capacity(alloc, self.len())?;
        for number in 0..self.len() {
            if let Some(verdict) = self.at(number) {
                all.push(verdict)?;
            }
        }
        Ok(all)
    }

    /// The verdict of each plan, from a book in which each has its own. No memory is taken, as it is the book's own list.
    pub fn into_verdicts(self) -> Vec<Verdict>
        requires { list_all is_full self ≡ true }
        ensures { result.items ≡ present self }
    {
        let Book { verdicts, .. } = self;
        verdicts
    }

    /// Whether each plan has its verdict.
    pub fn whole(&self) -> bool
        ensures { result ≡ list_all is_full self.now }
    {
        !self.is_put.contains(&false)
    }
}

/// Puts each result of a range, from the last to the first. A result changes nothing if its number has a verdict already, or has no place.
fn put_range<'a, T: Target>(book: &mut Book, range: PlanRange<'a, T>)
    ensures { book.new ≡ enter_range book.old range.entry.first range.entry.verdicts }
{
    let mut range = range;
    while let Some(result) = range.pop() {
        let _ = book.put(result);
    }
}

/// Puts each range of a list, from the last to the first.
fn put_list<'a, T: Target>(book: &mut Book, list: Vec<(u32, PlanRange<'a, T>)>)
    ensures { book.new ≡ enter_ranges book.old list.entry.items }
{
    let mut list = list;
    while let Some((_, range)) = list.pop() {
        put_range(book, range);
    }
}

/// Puts each range of these lists, which workers hand back, one list for each worker. An empty range changes nothing, nor does a result whose number
/// has a verdict already, or has no place.
pub fn put_all<'a, T: Target>(book: &mut Book, lists: Vec<Vec<(u32, PlanRange<'a, T>)>>)
    ensures { book.new ≡ enter_lists book.old lists.entry.items }
{
    let mut lists = lists;
    while let Some(list) = lists.pop() {
        put_list(book, list);
    }
}
