//! The page.
ghost use Rattle.std.specs.Prelude.{◌≡◌, ◌++◌, flat_map, IfOk, OnOk};
ghost use Rattle.report_page.specs.Page.{in_html, in_script, page_text};

use crate::frame::{BEFORE, BEHIND, BETWEEN};
use std::alloc::{AllocError, Global};

fn write_in_html(out: &mut Vec<u8>, byte: u8) -> Result<(), AllocError>
    ensures { OnOk result (out.new.items ≡ out.old.items ++ in_html byte) }
{
    match byte {
        b'&' => out.extend_from_slice(b"&amp;"),
        b'<' => out.extend_from_slice(b"&lt;"),
        b'>' => out.extend_from_slice(b"&gt;"),
        0 => out.extend_from_slice(&[239, 191, 189]),
        _ => Ok(out.push(byte)?),
    }
}

fn write_in_script(out: &mut Vec<u8>, byte: u8) -> Result<(), AllocError>
    ensures { OnOk result (out.new.items ≡ out.old.items ++ in_script byte) }
{
    match byte {
        b'&' => out.extend_from_slice(b"\\u0026"),
        b'<' => out.extend_from_slice(b"\\u003c"),
        b'>' => out.extend_from_slice(b"\\u003e"),
        _ => Ok(out.push(byte)?),
    }
}

fn write_brief(out: &mut Vec<u8>, brief: &[u8]) -> Result<(), AllocError>
    ensures { OnOk result (out.new.items ≡ out.old.items ++ flat_map in_html brief.now) }
{
    for byte in brief {
        write_in_html(out, *byte)?;
    }
    Ok(())
}

fn write_document(out: &mut Vec<u8>, document: &[u8]) -> Result<(), AllocError>
    ensures { OnOk result (out.new.items ≡ out.old.items ++ flat_map in_script document.now) }
{
    for byte in document {
        write_in_script(out, *byte)?;
    }
    Ok(())
}

/// One HTML document that needs nothing else: the frame, and in it the document of a report, which its script shows, and the brief report's text, for
/// readers without a script. No name ends the element in which it stands ([`crate::nothing_ends_what_it_stands_in`]). An error means that memory was
/// refused.
pub fn page_text(alloc: Global, brief: &[u8], document: &[u8]) -> Result<Vec<u8>, AllocError>
    ensures { IfOk result (λ text. text.items ≡ page_text brief.now document.now) }
{
    let mut out = Vec::with_capacity(alloc, document.len())?;
    out.extend_from_slice(BEFORE.as_bytes())?;
    write_brief(&mut out, brief)?;
    out.extend_from_slice(BETWEEN.as_bytes())?;
    write_document(&mut out, document)?;
    out.extend_from_slice(BEHIND.as_bytes())?;
    Ok(out)
}
