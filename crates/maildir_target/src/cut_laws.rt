//! Laws of runs with their power cut, compared with those without, and of returns with a text, compared with those without.
ghost use Rattle.std.specs.Prelude.{ℕ, List};
ghost use Rattle.target_trait.specs.Cuts.{asks_with};
ghost use Rattle.target_trait.specs.cut_laws.KeptSets.{LosesAlike, IsNoWeaker};
ghost use Rattle.target_trait.specs.cut_laws.Texts.{PassesOverTexts};
ghost use Rattle.maildir_target.specs.declared.variant.Variant.{Variant};
ghost use Rattle.maildir_target.specs.Words.{point_names};
ghost use Rattle.maildir_target.specs.Steps.{asks_of};
ghost use Rattle.maildir_target.specs.Crash.{cut_of};

use crate::Maildir;
use target_trait::nothing_is_weaker;

/// A delivery, in each variant, is judged after a power cut that loses everything as it is without one.
pub fn loses_alike()
    ensures { (variant : Variant) (messages : List (List (List ℕ))) → LosesAlike (asks_of variant messages) (cut_of variant messages) }
{}

/// Nothing weaker: in each variant and over each workload, a scenario has with its power cut the verdict that it has without, if the scenario doesn't
/// name the cut's point and the limit has room for a hit for each pending write. It is the law [`target_trait::nothing_is_weaker`] at this target.
pub fn is_no_weaker()
    ensures { (variant : Variant) (messages : List (List (List ℕ))) → IsNoWeaker (asks_of variant messages) (cut_of variant messages) point_names }
{
    nothing_is_weaker::<Maildir>();
}

/// The text of a return changes nothing: in each variant and over each workload, the same is asked and judged whatever the text is, with the power cut
/// too, whichever point that asks. So what is promised of plans whose returns have no text holds of all scenarios.
pub fn text_of_a_return_changes_nothing()
    ensures alone { (variant : Variant) (messages : List (List (List ℕ))) → PassesOverTexts (asks_of variant messages) }
    ensures with_cut { (variant : Variant) (messages : List (List (List ℕ))) (keep : ℕ)
        → PassesOverTexts (asks_with (asks_of variant messages) (cut_of variant messages) keep) }
{}
