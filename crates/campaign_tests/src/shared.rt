//! What the tests share.

use answer_text::{AnswersFault, Runs, read, read_runs};
use scenario_grammar::Text;
use std::alloc::Global;
use std::test::Fail;

/// Names, at most 8.
fn texts(alloc: Global, names: &[&str]) -> Result<Vec<Text>, Fail> {
    let mut texts = Vec::new(alloc);
    for name in names {
        texts.push(Text::copy_of(alloc, name)?)?;
    }
    if texts.len() > 8 {
        return Err(Fail::from("there are few names"));
    }
    Ok(texts)
}

/// What a text is read as, if the codes are `torn`, `lost note` and `stale`, numbered 0, 1 and 2, and the points `a`, `b` and `2*b`. The hits are
/// needed, or not.
pub fn read_as(
    alloc: Global,
    needed: bool,
    text: &[u8],
) -> Result<Result<Runs, AnswersFault>, Fail> {
    let codes = texts(alloc, &["torn", "lost note", "stale"])?;
    let points = texts(alloc, &["a", "b", "2*b"])?;
    if codes.len() > 8 || points.len() > 8 {
        return Err(Fail::from("there are few names"));
    }
    Ok(if needed {
        read_runs(alloc, codes.as_slice(), points.as_slice(), text)
    } else {
        read(alloc, codes.as_slice(), points.as_slice(), text)
    })
}

/// The same if hits aren't needed.
pub fn answers(alloc: Global, text: &[u8]) -> Result<Result<Runs, AnswersFault>, Fail> {
    read_as(alloc, false, text)
}

/// What is known by a text that has no fault.
pub fn known(alloc: Global, text: &str) -> Result<Runs, Fail> {
    match answers(alloc, text.as_bytes())? {
        Ok(known) => Ok(known),
        Err(_) => Err(Fail::from("the answers are refused")),
    }
}
