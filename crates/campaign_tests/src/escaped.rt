//! Texts inside XML.

use std::test::Fail;
use xml_text::write_escaped;

/// What XML 1.0 makes of each character: five have names, tabs and ends of lines go by their numbers, and what it can't have stands as
/// U+FFFD.
#[test]
fn characters_are_escaped_as_xml_says(rt: HostRuntime) -> Result<(), Fail> {
    for (text, want) in [
        ("", ""),
        ("plain ~", "plain ~"),
        ("a<b>&\"c'", "a&lt;b&gt;&amp;&quot;c&apos;"),
        ("&amp;", "&amp;amp;"),
        ("\t\n\r", "&#9;&#10;&#13;"),
        (
            "\0\u{1}\u{8}\u{b}\u{c}\u{e}\u{1f} ",
            "\u{fffd}\u{fffd}\u{fffd}\u{fffd}\u{fffd}\u{fffd}\u{fffd} ",
        ),
        (
            "\u{7f}\u{e9}\u{d7ff}\u{e000}",
            "\u{7f}\u{e9}\u{d7ff}\u{e000}",
        ),
        (
            "\u{fffd}\u{fffe}\u{ffff}\u{10000}",
            "\u{fffd}\u{fffd}\u{fffd}\u{10000}",
        ),
    ] {
        let mut out = String::from_str(rt.alloc(), ">")?;
        write_escaped(&mut out, text)?;
        assert_eq!(rt; out.as_str().strip_prefix(">"), Some(want));
    }
    Ok(())
}
