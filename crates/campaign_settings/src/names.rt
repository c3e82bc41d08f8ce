//! The rules for the names of a target from outside.
ghost use Rattle.std.specs.Prelude.{◌≡◌};
ghost use Rattle.std.specs.List.{list_all, list_any};
ghost use Rattle.std.specs.Str.{bytes_eq};
ghost use Rattle.campaign_given.specs.Description.{are_codes, are_distinct, are_points, has_control, is_code, is_label, is_point, is_return_text};

use action_eval::MOST_TEXT;
use scenario_grammar::{Text, is_argument, is_name};

/// Whether a byte of the text is an ASCII control character.
pub fn has_control(text: &str) -> bool
    ensures { result ≡ has_control text.now }
{
    text.as_bytes().iter().any(|b| b.is_ascii_control())
}

/// Whether a target may have this label.
pub fn is_label(text: &str) -> bool
    ensures { result ≡ is_label text.now }
{
    text.len() <= 200 && !has_control(text)
}

fn is_code(name: &str) -> bool
    ensures { result ≡ is_code name.now }
{
    !name.is_empty() && is_label(name)
}

fn is_point(name: &str) -> bool
    ensures { result ≡ is_point name.now }
{
    is_name(name) && is_label(name)
}

/// Whether a return may have this text.
pub fn is_return_text(text: &str) -> bool
    ensures { result ≡ is_return_text text.now }
{
    is_argument(text) && text.len() <= MOST_TEXT && !has_control(text)
}

fn stands_in(name: &Text, names: &[Text]) -> bool
    ensures { result ≡ list_any (λ other. bytes_eq other name.now) names.now }
{
    names.iter().any(|other| other == name)
}

/// Whether no name stands twice.
pub fn are_distinct(names: &[Text]) -> bool
    ensures { result ≡ are_distinct names.now }
{
    for i in 0..names.len() {
        if stands_in(&names[i], &names[i + 1..]) {
            return false;
        }
    }
    true
}

fn all_codes(names: &[Text]) -> bool
    ensures { result ≡ list_all is_code names.now }
{
    names.iter().all(|name| is_code(name.as_str()))
}

fn all_points(names: &[Text]) -> bool
    ensures { result ≡ list_all is_point names.now }
{
    names.iter().all(|name| is_point(name.as_str()))
}

/// Whether these may be a target's codes: at most 64 distinct lawful names.
pub fn are_codes(names: &[Text]) -> bool
    ensures { result ≡ are_codes names.now }
{
    names.len() <= 64 && all_codes(names) && are_distinct(names)
}

/// Whether these may be a target's points: 1 to 64 distinct lawful names.
pub fn are_points(names: &[Text]) -> bool
    ensures { result ≡ are_points names.now }
{
    !names.is_empty() && names.len() <= 64 && all_points(names) && are_distinct(names)
}
