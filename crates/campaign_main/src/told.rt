//! What was written of the lines that ask for scenarios.
ghost use Rattle.std.specs.Prelude.{◌≡◌, ◌∷◌, ◌<◌, ◌==◌, [], OnOk, length, position};
ghost use Rattle.std.specs.Str.{bytes_eq};
ghost use Rattle.indexmap.specs.IndexSet.{insert_key};
ghost use Rattle.campaign_main.specs.Following.{lines_in, lines_with};
ghost use Rattle.campaign_main.specs.inside.Looks.{IsOfItsLines};

use crate::told_line::ToldLine;
use indexmap::IndexSet;
use std::alloc::{AllocError, Global};

/// Lines that were written, each once, and their text.
#[derive(Drop)]
pub struct Told {
    /// The lines, in the order in which they were written, each with its line feed.
    pub lines: IndexSet<ToldLine>,
    /// The text of these lines.
    pub text: Vec<u8>,
}

/// Where the first line feed stands.
fn line_feed(text: &[u8]) -> Option<usize>
    ensures { result ≡ position (λ byte. byte == 10) text.now }
{
    text.iter().position(|byte| *byte == b'\n')
}

/// The first line of a text with its line feed, and what follows it. A text without a line feed is one line.
fn first_line(text: &[u8]) -> (&[u8], &[u8])
    requires { 0 < length text.now }
    ensures lines { lines_in text.now ≡ result.0.now ∷ lines_in result.1.now }
    ensures less { length result.1.now < length text.now }
{
    match line_feed(text) {
        Some(end) => text.split_at(end + 1),
        None => (text, &[]),
    }
}

impl Told {
    /// No lines.
    pub fn new(alloc: Global) -> Told
        ensures lines { result.lines.keys ≡ [] }
        ensures text { result.text.items ≡ [] }
    {
        Told {
            lines: IndexSet::new(alloc),
            text: Vec::new(alloc),
        }
    }

    /// Adds a line, unless it is there. After an error nothing is known of what is there.
    fn add(&mut self, alloc: Global, line: &[u8]) -> Result<(), AllocError>
        requires { IsOfItsLines self.old }
        ensures lines { OnOk result (self.new.lines.keys ≡ insert_key bytes_eq self.old.lines.keys line.now) }
        ensures text { OnOk result (IsOfItsLines self.new) }
    {
        if self.lines.insert(ToldLine::copy_of(alloc, line)?)? {
            self.text.extend_from_slice(line)?;
        }
        Ok(())
    }

    /// Adds the lines of a text that aren't there. After an error nothing is known of what is there.
    pub fn add_all(&mut self, alloc: Global, text: &[u8]) -> Result<(), AllocError>
        requires { IsOfItsLines self.old }
        ensures lines { OnOk result (self.new.lines.keys ≡ lines_with self.old.lines.keys text.now) }
        ensures text { OnOk result (IsOfItsLines self.new) }
    {
        let mut rest = text;
        while !rest.is_empty() {
            let (line, after) = first_line(rest);
            self.add(alloc, line)?;
            rest = after;
        }
        Ok(())
    }
}
