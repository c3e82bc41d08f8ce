//! The lines of what a target reports about the end of a run.
ghost use Rattle.std.specs.Prelude.{◌≡◌, ◌++◌, flat_map, string_bytes, OnOk};
ghost use Rattle.std.specs.Str.{chars};
ghost use Rattle.report.specs.ReportText.{text_of};
ghost use Rattle.report.specs.explained.Tales.{in_line, is_control, reason_line, tale_lines, told_end, word_line};

use crate::explained::ends::{MadeRun, RunEnd};
use std::alloc::{AllocError, Global};
use target_trait::{Tale, TellingTarget, Verdict};

fn is_control(character: char) -> bool
    ensures { result ≡ is_control character }
{
    character < ' ' || ('~' < character && character < '\u{a0}')
}

/// Appends a character so that it can't end the line.
fn write_character(out: &mut String, character: char) -> Result<(), AllocError>
    ensures { OnOk result (string_bytes out.new ≡ string_bytes out.old ++ in_line character) }
{
    match character {
        '\n' => out.push_str("\\n"),
        '\r' => out.push_str("\\r"),
        '\t' => out.push_str("\\t"),
        '\\' => out.push_str("\\\\"),
        _ if is_control(character) => out.push('\u{fffd}'),
        _ => out.push(character),
    }
}

/// Appends a text on one line.
fn write_in_line(out: &mut String, text: &str) -> Result<(), AllocError>
    ensures { OnOk result (string_bytes out.new ≡ string_bytes out.old ++ flat_map in_line (chars text.now)) }
{
    for character in text.chars() {
        write_character(out, character)?;
    }
    Ok(())
}

/// Appends the line of a text after a word, if the text isn't empty.
fn write_word(out: &mut String, word: &str, text: &str) -> Result<(), AllocError>
    ensures { OnOk result (string_bytes out.new ≡ string_bytes out.old ++ text_of (word_line word.now text.now)) }
{
    if text.is_empty() {
        return Ok(());
    }
    out.push_str(word)?;
    out.push_str(" ")?;
    write_in_line(out, text)?;
    out.push_str("\n")
}

/// Appends the line `judged`, unless the run is unresolved.
fn write_reason(out: &mut String, verdict: Verdict, reason: &str) -> Result<(), AllocError>
    ensures { OnOk result (string_bytes out.new ≡ string_bytes out.old ++ text_of (reason_line verdict reason.now)) }
{
    match verdict {
        Verdict::Pass | Verdict::Fail(_) => write_word(out, "judged", reason),
        Verdict::Unresolved => Ok(()),
    }
}

fn write_tale(out: &mut String, verdict: Verdict, tale: &Tale) -> Result<(), AllocError>
    ensures { OnOk result (string_bytes out.new ≡ string_bytes out.old
        ++ text_of (tale_lines verdict (string_bytes tale.now.state) (string_bytes tale.now.reason))) }
{
    write_word(out, "state", tale.state.as_str())?;
    write_reason(out, verdict, tale.reason.as_str())
}

/// The end of a run of a target that describes it: `state` with the state in which the run was judged, and `judged` with the reason, as the target
/// words them.
///
/// Each is one line: ends of lines, returns, tabs and backslashes stand as `\n`, `\r`, `\t` and `\\`, and U+FFFD in place of other control
/// characters. An empty text has no line, and a run that is unresolved no reason.
#[derive(Clone, Copy, Debug)]
pub struct ToldEnd;

impl<T: TellingTarget> RunEnd<T> for ToldEnd {
    ghost lines = { λ end setup workload. told_end (T.asks setup workload) (T.state_of setup workload) (T.reason_of setup workload) };

    fn text(
        &self,
        alloc: Global,
        target: &mut T,
        workload: &T::Workload,
        run: &MadeRun<'_>,
    ) -> Result<String, AllocError> {
        let outcome = run.outcome;
        let tale = target.tell(alloc, workload, run.case)?;
        let mut text = String::new(alloc);
        write_tale(&mut text, outcome.verdict, &tale)?;
        Ok(text)
    }
}
