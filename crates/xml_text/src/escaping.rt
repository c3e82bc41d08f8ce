//! Texts inside XML.
ghost use Rattle.std.specs.Prelude.{◌≡◌, ◌++◌, string_bytes, OnOk, OnErr};
ghost use Rattle.std.specs.Io.{StartsWith};
ghost use Rattle.xml_text.specs.Xml.{is_forbidden, escape, escaped};

use std::alloc::AllocError;

/// Whether XML can't have this character. Tabs and ends of lines, which it can have, are dealt with before.
fn is_forbidden(character: char) -> bool
    ensures { result ≡ is_forbidden character }
{
    character < ' ' || character == '\u{fffe}' || character == '\u{ffff}'
}

fn write_character(out: &mut String, character: char) -> Result<(), AllocError>
    ensures ok { OnOk result (string_bytes out.new ≡ string_bytes out.old ++ escape character) }
    ensures err { OnErr result (string_bytes out.new ≡ string_bytes out.old) }
{
    match character {
        '&' => out.push_str("&amp;"),
        '<' => out.push_str("&lt;"),
        '>' => out.push_str("&gt;"),
        '"' => out.push_str("&quot;"),
        '\'' => out.push_str("&apos;"),
        '\t' => out.push_str("&#9;"),
        '\n' => out.push_str("&#10;"),
        '\r' => out.push_str("&#13;"),
        _ if is_forbidden(character) => out.push('\u{fffd}'),
        _ => out.push(character),
    }
}

/// Appends a text as XML has it, in content and between quotes: `&`, `<`, `>`, `"` and `'` by their names, tabs and ends of lines by their numbers,
/// and each other character as it is. Characters that XML 1.0 can't have at all (those below a blank, U+FFFE and U+FFFF) are lost: U+FFFD stands in
/// place of each.
///
/// An error means that memory was refused. Then some of the bytes may have been appended.
pub fn write_escaped(out: &mut String, text: &str) -> Result<(), AllocError>
    ensures text { OnOk result (string_bytes out.new ≡ string_bytes out.old ++ escaped text.now) }
    ensures kept { OnErr result (StartsWith (string_bytes out.new) (string_bytes out.old)) }
{
    for character in text.chars() {
        write_character(out, character)?;
    }
    Ok(())
}
