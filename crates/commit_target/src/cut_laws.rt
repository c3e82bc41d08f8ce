//! Laws of runs with their power cut, compared with those without, and of returns with a text, compared with those without.
ghost use Rattle.std.specs.Prelude.{ℕ};
ghost use Rattle.target_trait.specs.Cuts.{asks_with};
ghost use Rattle.target_trait.specs.cut_laws.KeptSets.{LosesAlike, IsNoWeaker};
ghost use Rattle.target_trait.specs.cut_laws.Texts.{PassesOverTexts};
ghost use Rattle.commit_target.specs.declared.variant.Variant.{Variant};
ghost use Rattle.commit_target.specs.Work.{Work};
ghost use Rattle.commit_target.specs.Words.{point_names};
ghost use Rattle.commit_target.specs.Steps.{asks_of};
ghost use Rattle.commit_target.specs.Crash.{cut_of};

use crate::Commit;
use target_trait::nothing_is_weaker;

/// A commit, in each variant, is judged after a power cut that loses everything as it is without one. At either all parties restart.
pub fn loses_alike()
    ensures { (variant : Variant) (workload : Work) → LosesAlike (asks_of variant workload) (cut_of variant workload) }
{}

/// Nothing weaker: in each variant and over each workload, a scenario has with its power cut the verdict that it has without, if the scenario doesn't
/// name the cut's point and the limit has room for a hit for each pending write. It is the law [`target_trait::nothing_is_weaker`] at this target.
pub fn is_no_weaker()
    ensures { (variant : Variant) (workload : Work) → IsNoWeaker (asks_of variant workload) (cut_of variant workload) point_names }
{
    nothing_is_weaker::<Commit>();
}

/// The text of a return changes nothing: in each variant and over each workload, the same is asked and judged whatever the text is, with the power cut
/// too, whichever point that asks. So what is promised of plans whose returns have no text holds of all scenarios.
pub fn text_of_a_return_changes_nothing()
    ensures alone { (variant : Variant) (workload : Work) → PassesOverTexts (asks_of variant workload) }
    ensures with_cut { (variant : Variant) (workload : Work) (keep : ℕ)
        → PassesOverTexts (asks_with (asks_of variant workload) (cut_of variant workload) keep) }
{}
