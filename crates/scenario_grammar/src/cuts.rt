//! Texts trimmed and cut.
ghost use Rattle.std.specs.Prelude.{◌≡◌, ◌+◌, ◌-◌, ◌<◌, ◌≤◌, ◌==◌, length, drop, ◌∷◌, [], slice_index, true, map, IfOk, MatchOption};
ghost use Rattle.std.specs.List.{prefix_len, suffix_len, slice_split};
ghost use Rattle.std.specs.Option.{option_map};
ghost use Rattle.scenario_values.specs.Words.{is_blank, end_trimmed, trimmed};
ghost use Rattle.scenario_grammar.specs.Words.{cut, without_last, cut_at_arrows};

use std::alloc::{AllocError, Global};

fn is_blank(b: u8) -> bool
    ensures { result ≡ is_blank b }
{
    b == b' ' || b == b'\t' || b == b'\n' || b == b'\r'
}

/// How many blank characters stand at the front.
fn blanks_at_front(bytes: &[u8]) -> usize
    ensures { result ≡ prefix_len is_blank bytes.now }
{
    let mut n = 0;
    while n < bytes.len() && is_blank(bytes[n]) {
        n += 1;
    }
    n
}

/// The length without the blank characters at the end.
fn len_without_blank_end(bytes: &[u8]) -> usize
    ensures value { result ≡ length bytes.now - suffix_len is_blank bytes.now }
    ensures stops { result < length bytes.now → is_blank (slice_index bytes.now result) ≡ true }
    ensures bound { result ≤ length bytes.now }
{
    let mut n = bytes.len();
    while n > 0 && is_blank(bytes[n - 1]) {
        n -= 1;
    }
    n
}

fn trim_front(text: &str) -> &str
    ensures { result.now ≡ drop (prefix_len is_blank text.now) text.now }
{
    let n = blanks_at_front(text.as_bytes());
    &text[n..]
}

fn trim_end(text: &str) -> &str
    ensures { result.now ≡ end_trimmed text.now }
{
    let n = len_without_blank_end(text.as_bytes());
    &text[..n]
}

/// The text without blank characters at its ends.
pub fn trim(text: &str) -> &str
    ensures { result.now ≡ trimmed text.now }
{
    trim_end(trim_front(text))
}

/// What stands before and after the first such character.
pub fn cut_once(text: &str, mark: char) -> Option<(&str, &str)>
    requires { mark < 128 }
    ensures { option_map (λ x. (x.0.now, x.1.now)) result ≡ cut mark text.now }
{
    text.split_once(mark)
}

/// The text without its last character, if that is `mark`.
pub fn strip_last(text: &str, mark: char) -> Option<&str>
    requires { mark < 128 }
    ensures { option_map (λ x. x.now) result ≡ without_last mark text.now }
{
    text.strip_suffix(mark)
}

/// The pieces between the semicolons.
pub fn pieces(alloc: Global, text: &str) -> Result<Vec<&str>, AllocError>
    ensures { IfOk result (λ v. map (λ x. x.now) v.items ≡ slice_split (λ b. b == 59) text.now) }
{
    text.split(';').collect(alloc)
}

/// What stands before and after the first arrow `->`.
fn cut_at_arrow(text: &str) -> Option<(&str, &str)>
    ensures { MatchOption result (cut_at_arrows text.now ≡ text.now ∷ [])
        (λ x. (cut_at_arrows text.now ≡ x.0.now ∷ cut_at_arrows x.1.now) × (length x.1.now < length text.now)) }
{
    text.split_once("->")
}

/// The parts between the arrows, from left to right.
pub fn cut_at_arrows(alloc: Global, text: &str) -> Result<Vec<&str>, AllocError>
    ensures { IfOk result (λ v. map (λ x. x.now) v.items ≡ cut_at_arrows text.now) }
{
    let mut parts = Vec::new(alloc);
    let mut rest = text;
    while let Some((front, after)) = cut_at_arrow(rest) {
        parts.push(front)?;
        rest = after;
    }
    parts.push(rest)?;
    Ok(parts)
}
