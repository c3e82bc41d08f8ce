//! A scenario while its text is read.
ghost use Rattle.std.specs.Prelude.{◌≤◌};

use crate::cuts::{cut_at_arrows, cut_once, trim};
use crate::fault::{Kind, ScenarioFault};
use crate::terms::chain_of;
use indexmap::IndexMap;
use scenario_values::{Chain, Text};
use std::alloc::Global;

/// What was read so far: the entries, how many pieces weren't blank, and how many faults there are.
#[derive(Drop)]
pub struct Builder {
    pub entries: IndexMap<Text, Chain>,
    pub pieces: u32,
    pub faults: u32,
    ghost few_pieces: { pieces ≤ 256 },
    ghost few_faults: { faults ≤ 4096 },
}

impl Builder {
    ghost use Rattle.std.specs.Prelude.{◌≡◌, ◌+◌};
    ghost use Rattle.scenario_grammar.specs.FirstFault.{Reads, piece_in, nothing};
    ghost use Rattle.scenario_grammar.specs.inside.Built.{progress};

    /// Nothing was read yet.
    pub fn new(alloc: Global) -> Builder
        ensures { progress result ≡ nothing }
    {
        Builder {
            entries: IndexMap::new(alloc),
            pieces: 0,
            faults: 0,
        }
    }

    /// Reads one piece, which is trimmed.
    #[tactic(auto, unfolding(crate::specs::FirstFault::piece_in))]
    pub fn add_piece(&mut self, alloc: Global, entry: u32, piece: &str) -> Result<(), ScenarioFault>
        ensures { Reads (λ _. progress self.new) result (piece_in (progress self.old) entry piece.now) }
    {
        if piece.is_empty() {
            return Ok(());
        }
        if self.pieces >= 256 {
            return Err(ScenarioFault::Bad {
                kind: Kind::TooMany,
                entry,
                term: 0,
            });
        }
        let Some((front, rest)) = cut_once(piece, '=') else {
            return Err(ScenarioFault::Bad {
                kind: Kind::NoAction,
                entry,
                term: 0,
            });
        };
        let name = trim(front);
        if name.is_empty() {
            return Err(ScenarioFault::Bad {
                kind: Kind::NoName,
                entry,
                term: 0,
            });
        }
        let parts = cut_at_arrows(alloc, rest)?;
        let (terms, faults) = chain_of(alloc, entry, self.faults, &parts)?;
        let name = Text::copy_of(alloc, name)?;
        self.entries.insert(name, Chain::from_vec(terms))?;
        self.pieces += 1;
        self.faults = faults;
        Ok(())
    }
}
