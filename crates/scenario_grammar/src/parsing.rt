//! The text of a scenario, read.
ghost use Rattle.std.specs.Prelude.{◌≡◌, ◌<◌, ◌^◌, length, map, List, ℕ, IfOk, IfErr, Ok, None};
ghost use Rattle.scenario_grammar.specs.FirstFault.{Reads, pieces_from, nothing, reading};
ghost use Rattle.scenario_grammar.specs.Spelling.{Spells, Writes, Within};
ghost use Rattle.scenario_grammar.specs.FirstFault.{Tells, fault};
ghost use Rattle.scenario_values.specs.Scenario.{entries_of};
ghost use Rattle.scenario_values.specs.declared.term.Term.{Term};
ghost use Rattle.scenario_grammar.specs.inside.Built.{progress};

use crate::builder::Builder;
use crate::cuts::{pieces, trim};
use crate::fault::{Kind, ScenarioFault};
use indexmap::IndexMap;
use scenario_values::{Chain, Scenario, Text};
use std::alloc::Global;

/// Reads the pieces, from left to right.
pub fn read_pieces(alloc: Global, pieces: &[&str]) -> Result<Builder, ScenarioFault>
    requires { length pieces.now < 2 ^ 32 }
    ensures { Reads progress result (pieces_from nothing 1 (map (λ t. t.now) pieces.now)) }
{
    let mut builder = Builder::new(alloc);
    let mut entry = 0;
    for piece in pieces {
        entry += 1;
        builder.add_piece(alloc, entry, trim(piece))?;
    }
    Ok(builder)
}

/// The entries of the scenario that a text spells.
#[tactic(auto, unfolding(crate::specs::FirstFault::reading))]
fn read_entries(alloc: Global, text: &str) -> Result<IndexMap<Text, Chain>, ScenarioFault>
    ensures { Reads (λ m. m.entries) result (reading text.now) }
{
    if text.len() > 65536 {
        return Err(ScenarioFault::Bad {
            kind: Kind::TooLong,
            entry: 0,
            term: 0,
        });
    }
    let pieces = pieces(alloc, text)?;
    let builder = read_pieces(alloc, &pieces)?;
    Ok(builder.entries)
}

fn read(alloc: Global, text: &str) -> Result<Scenario, ScenarioFault>
    ensures { Reads (λ s. s) result (reading text.now) }
{
    let entries = read_entries(alloc, text)?;
    Ok(Scenario::from_entries(entries))
}

/// The scenario that a text spells: `name=term->term;name=..`, where a term is `[<percent>%][<count>*]<task>[(argument)]`. Blank characters are
/// allowed round names and terms. A name that is given again keeps its first place and takes its last chain. The grammar is that of the FAILPOINTS
/// variable of fail-rs. The limits are 65536 bytes, 256 pieces that aren't blank, 256 terms in a chain, and 4096 faults, including those of
/// overwritten entries.
///
/// `Err` is the first fault of the text with its place, or that memory was refused.
pub fn parse(alloc: Global, text: &str) -> Result<Scenario, ScenarioFault>
    // What is answered is spelled so, and there is no fault.
    ensures found { IfOk result (λ s. Spells text.now s × (fault text.now ≡ None)) }
    // A fault that is answered is the first one.
    ensures refused { IfErr result (λ e. Tells e text.now) }
    // What is spelled so within the limits is answered, unless memory runs out.
    ensures only { (actions : List (List ℕ × List Term)) → Writes text.now actions → Within text.now actions → Reads (λ s. s) result (Ok (entries_of actions)) }
    // Which of these it is.
    ensures exact { Reads (λ s. s) result (reading text.now) }
{
    read(alloc, text)
}
