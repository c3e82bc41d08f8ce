//! Laws on answers, as contracts of functions that do nothing.
ghost use Rattle.std.specs.Prelude.{◌≡◌, ℕ, Bool, List, Ok, Err, false};
ghost use Rattle.scenario_values.specs.Scenario.{Entries};
ghost use Rattle.scenario_values.specs.Tidied.{tidied};
ghost use Rattle.answer_text.specs.Answers.{Says};
ghost use Rattle.answer_text.specs.Known.{AgreesWithText, Ran, TellsText};
ghost use Rattle.answer_text.specs.Runs.{answers_of, reading_of};
ghost use Rattle.answer_text.specs.declared.fault.AnswersFault.TheVariants.{Line};
ghost use Rattle.answer_text.specs.declared.fault.LineFault.TheVariants.{Contradicts};
ghost use Rattle.answer_text.specs.declared.runs.RunLine.{RunLine};

/// A text says exactly the runs that it is read as, whether hits are needed or not.
pub fn texts_say_what_is_read()
    ensures read { (needed : Bool) (names points : List (List ℕ)) (text : List ℕ) (runs : List RunLine)
        → Says needed names points text runs → reading_of needed names points text ≡ Ok runs }
    ensures said { (needed : Bool) (names points : List (List ℕ)) (text : List ℕ) (runs : List RunLine)
        → reading_of needed names points text ≡ Ok runs → Says needed names points text runs }
{}

/// Tidying a tidied scenario changes nothing. This is so for all entries, even if the counts of `off` terms are so large that they aren't joined.
pub fn tidying_again_changes_nothing()
    ensures { (s : Entries) → tidied (tidied s) ≡ tidied s }
{}

/// Some component has the answers of each text that is read, a function from tidied scenarios to verdicts and hits. No component has those of a text
/// that contradicts itself. A component with the answers of a text agrees with its verdicts.
pub fn contradictions_agree_with_no_component()
    ensures some { (names points : List (List ℕ)) (text : List ℕ) (runs : List RunLine) → Says false names points text runs
        → (ran_of : Entries → Ran) × TellsText names points text ran_of }
    ensures none { (names points : List (List ℕ)) (text : List ℕ) (number earlier : ℕ) → answers_of names points text ≡ Err (Line number (Contradicts earlier))
        → (ran_of : Entries → Ran) → TellsText names points text ran_of → ⊥ }
    ensures verdicts { (names points : List (List ℕ)) (text : List ℕ) (ran_of : Entries → Ran) → TellsText names points text ran_of
        → AgreesWithText names points text (λ s. (ran_of s).0) }
{}
