//! Verdicts, read.
ghost use Rattle.std.specs.Prelude.{◌≡◌, ◌<◌, ◌^◌, length, map, position};
ghost use Rattle.std.specs.Str.{bytes_eq};
ghost use Rattle.answer_text.specs.FirstFault.{Gives, verdict_in};

use crate::fault::{LineError, LineFault};
use scenario_grammar::cut_once;
use scenario_values::Text;
use std::alloc::Global;
use target_trait::Verdict;

/// The place of a name among names.
pub fn place_of(name: &str, names: &[Text]) -> Option<usize>
    ensures { result ≡ position (bytes_eq name.now) names.now }
{
    names.iter().position(|other| name == other.as_str())
}

/// The verdict that a word spells, if each code is named by its text.
#[tactic(auto, unfolding(crate::specs::FirstFault::verdict_in))]
pub fn verdict_in(alloc: Global, codes: &[Text], word: &str) -> Result<Verdict, LineError>
    requires { length codes.now < 2 ^ 32 }
    ensures { Gives (λ v. v) result (verdict_in codes.now word.now) }
{
    match word {
        "pass" => Ok(Verdict::Pass),
        "unresolved" => Ok(Verdict::Unresolved),
        _ => match cut_once(word, ' ') {
            Some(("fail", name)) => match place_of(name, codes) {
                Some(code) => Ok(Verdict::Fail(code as u32)),
                None => Err(LineError::Bad(LineFault::UnknownCode(Text::copy_of(alloc, name)?))),
            },
            _ => Err(LineError::Bad(LineFault::UnknownVerdict(Text::copy_of(alloc, word)?))),
        },
    }
}
