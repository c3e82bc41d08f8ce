//! Which names and arguments are lawful.
ghost use Rattle.std.specs.Prelude.{◌≡◌};
ghost use Rattle.scenario_values.specs.Words.{lacks, lacks_arrow};
ghost use Rattle.scenario_values.specs.Scenario.{is_name, is_argument};

use crate::cuts::trim;

/// Whether no byte of the text is `mark`.
fn lacks(text: &str, mark: u8) -> bool
    ensures { result ≡ lacks mark text.now }
{
    text.as_bytes().iter().all(|b| *b != mark)
}

/// Whether the text holds no `->`.
fn lacks_arrow(text: &str) -> bool
    ensures { result ≡ lacks_arrow text.now }
{
    !text.contains("->")
}

/// Whether a text may name an entry: it isn't empty, has no blank character (space, tab, line feed, carriage return) at either
/// end, and holds no `;` and no `=`.
pub fn is_name(text: &str) -> bool
    ensures { result ≡ is_name text.now }
{
    !text.is_empty() && trim(text) == text && lacks(text, b';') && lacks(text, b'=')
}

/// Whether a text may be an argument: it holds no `;` and no `->`.
pub fn is_argument(text: &str) -> bool
    ensures { result ≡ is_argument text.now }
{
    lacks(text, b';') && lacks_arrow(text)
}
