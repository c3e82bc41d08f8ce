//! Laws on campaigns by answers, as contracts of functions that do nothing.
ghost use Rattle.std.specs.Prelude.{ℕ};
ghost use Rattle.grown_plans.specs.Promises.{CanBeTried};
ghost use Rattle.answered_runs.specs.Answered.{kinds_over};
ghost use Rattle.campaign_given.specs.Description.{Description, IsDescription};
ghost use Rattle.outside_campaign.specs.with_depth.Kinds.{listed_kinds};

/// The kinds that settings list for a point, or the usual ones if they list none, are as those of a component that keeps a target's laws have to be:
/// each acts once, none stands there twice, and the texts may stand in a scenario.
pub fn kinds_of_settings_can_be_tried()
    ensures { (outside : Description) → IsDescription outside → (point : ℕ)
        → CanBeTried (kinds_over outside.points (listed_kinds outside) point) }
{}
