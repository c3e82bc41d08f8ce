//! Numbers among the words.
ghost use Rattle.std.specs.Prelude.{◌≡◌, ◌∷◌, [], None, IfSome};
ghost use Rattle.command_words.specs.Words.{Spells, number_kinds};

use clap::error::ErrorKind;

/// The number that a text spells, from 0 to 65535.
pub fn small_number(text: &str) -> Option<u16>
    ensures some { IfSome result (λ n. Spells text.now n × (number_kinds text.now ≡ [])) }
    ensures none { result ≡ None → number_kinds text.now ≡ ErrorKind.ValueValidation ∷ [] }
{
    match text.parse::<u16>() {
        Ok(number) => Some(number),
        Err(_) => None,
    }
}
