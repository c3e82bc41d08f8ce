//! Texts cut at a byte.
ghost use Rattle.std.specs.Prelude.{◌≡◌, ◌==◌, position, option_map};
ghost use Rattle.scenario_grammar.specs.Words.{cut};

use memchr::memchr;

/// Where the first such byte stands.
fn place_of_byte(byte: u8, text: &[u8]) -> Option<usize>
    ensures { result ≡ position (λ b. b == byte) text.now }
{
    memchr(byte, text)
}

/// The first line without its line feed, and what follows it, if a line feed ends it.
pub fn cut_line(text: &[u8]) -> Option<(&[u8], &[u8])>
    ensures { option_map (λ x. (x.0.now, x.1.now)) result ≡ cut 10 text.now }
{
    match place_of_byte(b'\n', text) {
        None => None,
        Some(end) => Some((&text[..end], &text[end + 1..])),
    }
}

/// What stands before and after the first semicolon.
pub(crate) fn cut_item(text: &str) -> Option<(&str, &str)>
    ensures { option_map (λ x. (x.0.now, x.1.now)) result ≡ cut 59 text.now }
{
    match place_of_byte(b';', text.as_bytes()) {
        None => None,
        Some(end) => Some((&text[..end], &text[end + 1..])),
    }
}
