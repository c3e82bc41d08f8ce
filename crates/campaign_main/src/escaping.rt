//! Texts of somebody else's, as a line on a terminal has them.
ghost use Rattle.std.specs.Prelude.{◌≡◌, ◌++◌, string_bytes, IfOk, OnOk};
ghost use Rattle.report.specs.ReportText.{ended};
ghost use Rattle.campaign_main.specs.Escaped.{escaped, shown};

use std::alloc::{AllocError, Global};
use std::fmt::Write;

/// Appends a character: one that controls the terminal as `\x` and two digits.
fn write_shown(out: &mut String, character: char) -> Result<(), AllocError>
    ensures { OnOk result (string_bytes out.new ≡ string_bytes out.old ++ shown character) }
{
    if character.is_control() {
        write!(out, "\\x{:02x}", character as u32)
    } else {
        out.push(character)
    }
}

/// Appends a text with each control character as `\x1b`.
pub fn write_escaped(out: &mut String, text: &str) -> Result<(), AllocError>
    ensures { OnOk result (string_bytes out.new ≡ string_bytes out.old ++ escaped text.now) }
{
    for character in text.chars() {
        write_shown(out, character)?;
    }
    Ok(())
}

/// A line with this text, escaped.
pub fn escaped_line(alloc: Global, text: &str) -> Result<String, AllocError>
    ensures { IfOk result (λ line. string_bytes line ≡ ended (escaped text.now)) }
{
    let mut line = String::new(alloc);
    write_escaped(&mut line, text)?;
    line.push_str("\n")?;
    Ok(line)
}
