//! Laws of plans, as contracts of functions that do nothing.
ghost use Rattle.std.specs.Prelude.{ℕ, List, [], map};
ghost use Rattle.std.specs.List.{AllByRecursion};
ghost use Rattle.action_eval.specs.Catalogue.{IsCatalogue};
ghost use Rattle.action_eval.specs.declared.rig.Rig.{Rig};
ghost use Rattle.plan_gen.specs.PlanList.{Asked, plan_list};
ghost use Rattle.plan_gen.specs.RiggedAnswers.{AreInOrder, AnswersAsRigged, IsOfHits};

/// Under the scenario of rigged hits, in order and none twice, each hit is answered as it is rigged, whatever was hit before. A hit that is to fail,
/// once or from then on, is answered by an error; a hit at which the component stops by a halt; and every other hit goes on.
pub fn hits_are_answered_as_rigged()
    ensures { (names : List (List ℕ)) (rigs : List Rig) → IsCatalogue names → AreInOrder (map (λ r. r.site) rigs) → AnswersAsRigged names rigs }
{}

/// Each plan that isn't a listed scenario is the scenario of rigged hits, in order and none twice.
pub fn plans_rig_hits_in_order()
    ensures { (names : List (List ℕ)) (counts : List ℕ) (asked : Asked)
        → AllByRecursion (IsOfHits names) (plan_list names counts (record asked { listed = [] })) }
{}
