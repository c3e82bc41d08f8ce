//! Answers as numbers.
ghost use Rattle.std.specs.Prelude.{◌≡◌, Some, IfOk, OnOk};
ghost use Rattle.action_eval.specs.Answers.{reply_of_answer};
ghost use Rattle.answered_runs.specs.inside.Replies.{Extends, number_in};

use action_eval::Answer;
use indexmap::IndexSet;
use scenario_values::Text;
use std::alloc::{AllocError, Global};

/// The number of no answer.
pub(crate) const NONE: usize = 0;

/// The number of `Go`.
pub(crate) const GO: usize = 1;

const HALT: usize = 2;

const RETURN: usize = 3;

/// The number of a return with the first text. Those with other texts follow.
const TEXTS: usize = 4;

/// The number of an answer, if its text is among these or it has none.
pub(crate) fn number_in(
    alloc: Global,
    texts: &IndexSet<Text>,
    answer: Answer<'_>,
) -> Result<Option<usize>, AllocError>
    ensures { IfOk result (λ number. number ≡ number_in texts.now.keys (reply_of_answer answer.entry)) }
{
    let _ = texts.len();
    match answer {
        Answer::Go => Ok(Some(GO)),
        Answer::Halt => Ok(Some(HALT)),
        Answer::Return(None) => Ok(Some(RETURN)),
        Answer::Return(Some(text)) => match texts.get_index_of(&Text::copy_of(alloc, text)?) {
            Some(place) => Ok(Some(TEXTS + place)),
            None => Ok(None),
        },
    }
}

/// The number of an answer. Its text is added to these if it is new.
pub(crate) fn number_of(
    alloc: Global,
    texts: &mut IndexSet<Text>,
    answer: Answer<'_>,
) -> Result<usize, AllocError>
    ensures number { IfOk result (λ n. number_in texts.new.keys (reply_of_answer answer.entry) ≡ Some n) }
    ensures texts { Extends texts.old.keys texts.new.keys }
{
    match answer {
        Answer::Go => Ok(GO),
        Answer::Halt => Ok(HALT),
        Answer::Return(None) => Ok(RETURN),
        Answer::Return(Some(text)) => {
            let (place, _) = texts.insert_full(Text::copy_of(alloc, text)?)?;
            let _ = texts.len();
            Ok(TEXTS + place)
        }
    }
}
