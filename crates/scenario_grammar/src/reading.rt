//! One term, read.
ghost use Rattle.std.specs.Prelude.{◌≡◌, ◌<◌, ◌+◌, ◌-◌, ◌*◌, ◌^◌, ◌≤◌, Option, Some, None, true, min, length};
ghost use Rattle.std.specs.Char.{is_ascii_digit};
ghost use Rattle.std.specs.List.{list_all};
ghost use Rattle.std.specs.Option.{option_map};
ghost use Rattle.scenario_grammar.specs.FirstFault.{Gives, number_up_to, share_of, head_of, share_at, count_at, millis_of, task_of, term_of};
ghost use Rattle.scenario_grammar.specs.Words.{is_number, number};

use crate::cuts::{cut_once, strip_last};
use crate::fault::{Kind, TermError};
use scenario_values::{Task, Term, Text};
use std::alloc::Global;

fn all_digits(bytes: &[u8]) -> bool
    ensures { result ≡ list_all is_ascii_digit bytes.now }
{
    bytes.iter().all(|b| b.is_ascii_digit())
}

/// Whether the text is one or more digits.
fn is_number(text: &str) -> bool
    ensures { result ≡ is_number text.now }
{
    !text.is_empty() && all_digits(text.as_bytes())
}

/// The number that the text is, if it is digits alone and at most this.
fn number_up_to(most: u32, text: &str) -> Option<u32>
    ensures { result ≡ number_up_to most text.now }
{
    if !is_number(text) {
        return None;
    }
    match text.parse::<u32>() {
        Err(_) => None,
        Ok(n) => { if n <= most { Some(n) } else { None } }
    }
}

/// The whole percents of a share, at most a hundred.
fn whole_percents(text: &str) -> u32
    requires { is_number text.now ≡ true }
    ensures { result ≡ min 100 (number text.now) }
{
    match number_up_to(100, text) {
        None => 100,
        Some(n) => n,
    }
}

/// Up to four decimals of a percent, in millionths.
#[tactic(auto, using(crate::proofs::Numbers::short_number))]
fn decimals(text: &str) -> u32
    requires digits { is_number text.now ≡ true }
    requires short { length text.now ≤ 4 }
    ensures value { result ≡ number text.now * 10 ^ (4 - length text.now) }
    ensures small { result < 10000 }
{
    match number_up_to(9999, text) {
        None => 0,
        Some(n) => match text.len() {
            1 => n * 1000,
            2 => n * 100,
            3 => n * 10,
            _ => n,
        },
    }
}

/// The share that a percentage names.
#[tactic(auto, unfolding(crate::specs::FirstFault::share_of))]
fn share_of(text: &str) -> Option<u32>
    ensures { result ≡ share_of text.now }
{
    match cut_once(text, '.') {
        None => {
            if !is_number(text) {
                return None;
            }
            Some(whole_percents(text) * 10000)
        }
        Some((whole, rest)) => {
            if !is_number(whole) || !is_number(rest) || rest.len() > 4 {
                return None;
            }
            Some(1000000.min(whole_percents(whole) * 10000 + decimals(rest)))
        }
    }
}

/// The head of a term, and its argument.
#[tactic(auto, unfolding(crate::specs::FirstFault::head_of))]
fn head_of(term: &str) -> Result<(&str, Option<&str>), TermError>
    ensures { Gives (λ x. (x.0.now, option_map (λ t. t.now) x.1)) result (head_of term.now) }
{
    match cut_once(term, '(') {
        None => Ok((term, None)),
        Some((head, rest)) => match strip_last(rest, ')') {
            None => Err(TermError::Bad(Kind::Parentheses)),
            Some(argument) => Ok((head, Some(argument))),
        },
    }
}

/// The count at the front of a head, and what stands after it.
#[tactic(auto, unfolding(crate::specs::FirstFault::count_at))]
fn count_at(head: &str) -> Result<(Option<u32>, &str), TermError>
    ensures { Gives (λ x. (x.0, x.1.now)) result (count_at head.now) }
{
    match cut_once(head, '*') {
        None => Ok((None, head)),
        Some((count, rest)) => match number_up_to(u32::MAX, count) {
            None => Err(TermError::Bad(Kind::BadCount)),
            Some(count) => Ok((Some(count), rest)),
        },
    }
}

/// The milliseconds that the argument of `sleep` or `delay` gives.
fn millis_of(argument: Option<&str>) -> Result<u32, TermError>
    ensures { Gives (λ n. n) result (millis_of (option_map (λ t. t.now) argument.entry)) }
{
    match argument {
        None => Err(TermError::Bad(Kind::BadMillis)),
        Some(text) => match number_up_to(1000000000, text) {
            None => Err(TermError::Bad(Kind::BadMillis)),
            Some(millis) => Ok(millis),
        },
    }
}

/// A copy of the argument, if there is one.
fn kept(alloc: Global, argument: Option<&str>) -> Result<Option<Text>, TermError>
    ensures { Gives (λ t. t) result (Ok (option_map (λ t. t.now) argument.entry)) }
{
    match argument {
        None => Ok(None),
        Some(text) => Ok(Some(Text::copy_of(alloc, text)?)),
    }
}

/// The task that a word and its argument name.
#[tactic(auto, unfolding(crate::specs::FirstFault::task_of))]
fn task_of(alloc: Global, word: &str, argument: Option<&str>) -> Result<Task, TermError>
    ensures { Gives (λ t. t) result (task_of word.now (option_map (λ t. t.now) argument.entry)) }
{
    match word {
        "off" => Ok(Task::Off),
        "return" => Ok(Task::Return(kept(alloc, argument)?)),
        "sleep" => Ok(Task::Sleep(millis_of(argument)?)),
        "panic" => Ok(Task::Panic(kept(alloc, argument)?)),
        "print" => Ok(Task::Print(kept(alloc, argument)?)),
        "pause" => Ok(Task::Pause),
        "yield" => Ok(Task::Yield),
        "delay" => Ok(Task::Delay(millis_of(argument)?)),
        _ => Err(TermError::Bad(Kind::UnknownTask)),
    }
}

/// The share at the front of a head, and what stands after it.
#[tactic(auto, unfolding(crate::specs::FirstFault::share_at))]
fn share_at(head: &str) -> Result<(u32, &str), TermError>
    ensures { Gives (λ x. (x.0, x.1.now)) result (share_at head.now) }
{
    match cut_once(head, '%') {
        None => Ok((1000000, head)),
        Some((share, rest)) => match share_of(share) {
            None => Err(TermError::Bad(Kind::BadPercent)),
            Some(share) => Ok((share, rest)),
        },
    }
}

/// The term that a text spells.
#[tactic(auto, unfolding(crate::specs::FirstFault::term_of))]
pub fn term_of(alloc: Global, text: &str) -> Result<Term, TermError>
    ensures { Gives (λ t. t) result (term_of text.now) }
{
    let (head, argument) = head_of(text)?;
    let (share, rest) = share_at(head)?;
    let (count, word) = count_at(rest)?;
    let task = task_of(alloc, word, argument)?;
    Ok(Term { share, count, task })
}
