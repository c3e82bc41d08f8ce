//! The lines that ask for scenarios of a component that somebody else runs: each scenario's text, once. Which scenarios are asked for is said elsewhere.
ghost use Rattle.std.specs.Prelude.{◌≡◌, ◌↔◌, [], string_bytes, IfOk, IsTrue, OnErr, OnOk};
ghost use Rattle.std.specs.Str.{bytes_eq};
ghost use Rattle.indexmap.specs.IndexSet.{insert_key};
ghost use Rattle.report.specs.ReportText.{scenario_text, text_of};
ghost use Rattle.answered_runs.specs.asked.Lines.{lines_for};

use indexmap::IndexSet;
use report::write_scenario;
use scenario_values::{Scenario, Text};
use std::alloc::{AllocError, Global};
use std::marker::Model;

/// The lines that ask for scenarios: the text of each (`none` if it has no entries), in the order in which they were added. No text stands twice.
/// Contracts see the list of the lines, without their line feeds.
#[derive(Drop)]
pub struct AskedLines {
    lines: IndexSet<Text>,
}

impl Model for AskedLines {
    ghost use Rattle.std.specs.Prelude.{List, ℕ};

    ghost Value = { List (List ℕ) };

    ghost view = { λ a. a.lines.keys };
}

impl AskedLines {
    /// No lines.
    pub fn new(alloc: Global) -> Self
        ensures { result ≡ [] }
    {
        AskedLines {
            lines: IndexSet::new(alloc),
        }
    }

    /// Adds the text of a scenario, unless it is there already. An error means that memory was refused; then nothing is added.
    pub fn add(&mut self, alloc: Global, scenario: &Scenario) -> Result<(), AllocError>
        ensures ok { OnOk result (self.new ≡ insert_key bytes_eq self.old (scenario_text scenario.now)) }
        ensures err { OnErr result (self.new ≡ self.old) }
    {
        let mut text = String::new(alloc);
        write_scenario(alloc, &mut text, scenario)?;
        self.lines.insert(Text::from_string(text)?)?;
        Ok(())
    }

    /// The lines for these scenarios. An error means that memory was refused.
    pub fn of(alloc: Global, scenarios: &[Scenario]) -> Result<Self, AllocError>
        ensures { IfOk result (λ lines. lines ≡ lines_for scenarios.now) }
    {
        let mut lines = AskedLines::new(alloc);
        for scenario in scenarios {
            lines.add(alloc, scenario)?;
        }
        Ok(lines)
    }

    /// Whether there is no line.
    pub fn is_empty(&self) -> bool
        ensures { IsTrue result ↔ (self.now ≡ []) }
    {
        self.lines.is_empty()
    }

    /// The text of the lines, each with its line feed. An error means that memory was refused.
    pub fn text(&self, alloc: Global) -> Result<String, AllocError>
        ensures { IfOk result (λ text. string_bytes text ≡ text_of self.now) }
    {
        let mut text = String::new(alloc);
        for line in self.lines.as_slice() {
            text.push_str(line.as_str())?;
            text.push_str("\n")?;
        }
        Ok(text)
    }
}
