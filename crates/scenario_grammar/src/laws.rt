//! Laws about the definitions, each the contract of a function.
ghost use Rattle.std.specs.Prelude.{◌≡◌, ◌-◌, true, List, ℕ, Ok, Some, None};
ghost use Rattle.scenario_values.specs.declared.term.Term.{Term};
ghost use Rattle.scenario_values.specs.Scenario.{Entries, IsScenario, entries_of, is_lawful_term};
ghost use Rattle.scenario_values.specs.Printed.{printed, term_text};
ghost use Rattle.scenario_grammar.specs.declared.fault.Kind.TheVariants.{TooLong};
ghost use Rattle.scenario_grammar.specs.FirstFault.{Fault, term_of, share_of, reading, fault};
ghost use Rattle.scenario_grammar.specs.FirstPieces.{first_pieces};
ghost use Rattle.scenario_grammar.specs.Spelling.{IsScenarioText, Spells, Writes, Within, SpellsTerm, WholePercent, DecimalPercent};

/// A percentage is read as it is spelled.
pub fn percentages_are_read()
    ensures whole { (text : List ℕ) (share : ℕ) → WholePercent text share → share_of text ≡ Some share }
    ensures decimal { (text : List ℕ) (share : ℕ) → DecimalPercent text share → share_of text ≡ Some share }
{}

/// What spells a term is read as that term.
pub fn spelled_terms_are_read()
    ensures { (text : List ℕ) (t : Term) → SpellsTerm text t → term_of text ≡ Ok t }
{}

/// What is read as a term spells that term.
pub fn terms_read_are_spelled()
    ensures { (text : List ℕ) (t : Term) → term_of text ≡ Ok t → SpellsTerm text t }
{}

/// What spells a scenario within the limits is read as that scenario.
pub fn spelled_texts_are_read()
    ensures { (text : List ℕ) (actions : List (List ℕ × List Term)) → Writes text actions → Within text actions → reading text ≡ Ok (entries_of actions) }
{}

/// A text spells at most one scenario.
pub fn texts_spell_one_scenario()
    ensures { (text : List ℕ) (s other : Entries) → Spells text s → Spells text other → s ≡ other }
{}

/// If a text is read as a scenario, it spells that scenario within the limits.
pub fn texts_read_are_spelled()
    ensures { (text : List ℕ) (s : Entries) → reading text ≡ Ok s
        → (actions : List (List ℕ × List Term)) × Writes text actions × Within text actions × (s ≡ entries_of actions) }
{}

/// A text has a fault exactly if it spells nothing or passes a limit.
pub fn faults_tell()
    ensures spelled { (text : List ℕ) → fault text ≡ None → IsScenarioText text }
    ensures sound { (text : List ℕ) → IsScenarioText text → fault text ≡ None }
{}

/// If a text that isn't too long has its first fault in some piece, the text up to the end of that piece has the same first fault, and the text of
/// the pieces before it has none.
pub fn first_fault_is_local()
    ensures same { (text : List ℕ) (f : Fault) → fault text ≡ Some f → (f.kind ≡ TooLong → ⊥) → fault (first_pieces f.entry text) ≡ Some f }
    ensures before { (text : List ℕ) (f : Fault) → fault text ≡ Some f → (f.kind ≡ TooLong → ⊥) → fault (first_pieces (f.entry - 1) text) ≡ None }
{}

/// The printed form of a lawful term spells the term, and is read as the term.
pub fn printed_terms_are_read()
    ensures spelled { (t : Term) → is_lawful_term t ≡ true → SpellsTerm (term_text t) t }
    ensures again { (t : Term) → is_lawful_term t ≡ true → term_of (term_text t) ≡ Ok t }
{}

/// The printed form of a scenario spells the scenario, has no fault, and is read as the scenario.
pub fn printed_scenarios_are_read()
    ensures spelled { (s : Entries) → IsScenario s → Spells (printed s) s }
    ensures again { (s : Entries) → IsScenario s → reading (printed s) ≡ Ok s }
{}
