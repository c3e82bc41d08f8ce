//! The verdict of rigged hits, by recorded runs.
ghost use Rattle.std.specs.Prelude.{◌≡◌, ◌∷◌, ◌<◌, ◌^◌, ℕ, None, length, map, find, option_map, Contains, IfOk, IfSome, OnOk};
ghost use Rattle.std.specs.List.{AllByRecursion};
ghost use Rattle.plan_gen.specs.RiggedAnswers.{AreInOrder, acts_at};
ghost use Rattle.grown_plans.specs.AskedPoints.{is_asked_again};
ghost use Rattle.grown_plans.specs.GrownPlans.{Subject, usual_at};
ghost use Rattle.grown_plans.specs.Kept.{kept_children};
ghost use Rattle.grown_plans.specs.Promises.{IsLawful, verdict_of_rigs};
ghost use Rattle.grown_runs.specs.known.Known.{Agrees, hits_of};
ghost use Rattle.grown_runs.specs.known.ToldPart.{onward_told};
ghost use Rattle.grown_runs.specs.known.Walks.{do_alike, first_acting, if_alike, are_alike, is_alike, is_return, once, onward_walked, verdict_walked, walk, walk_from};
ghost use Rattle.grown_runs.specs.known.inside.Grown.{again_told};
ghost use Rattle.grown_runs.specs.known.inside.WalkSteps.{CameTo, IsOnward, IsStep, grew_at};

use crate::known::table::{Look, RunTable, look_up};
use action_eval::{Kind, Rig, Site, is_same_text};
use grown_plans::{Child, Kinds, add_children};
use std::alloc::{AllocError, Global};
use target_trait::Verdict;

/// The lists in which a walk works. What stands in them before a step makes no difference to it.
#[derive(Drop)]
struct Lists {
    hits: Vec<u32>,
    counts: Vec<u32>,
    children: Vec<Child>,
}

/// What follows the plan that a walk has come to.
#[derive(Clone, Copy, Debug)]
enum Step {
    /// Its run isn't recorded with its hits.
    Unknown,
    /// No further rigged hit acts, and the plan has this verdict.
    Ends(Verdict),
    /// This rigged hit is the next one to act.
    Acts(Rig),
}

/// Whether a rigged hit acts at this site.
fn acts_at(rig: &Rig, site: Site) -> bool
    ensures { result ≡ acts_at site.point site.hit rig.now }
{
    let is_there = match rig.kind {
        Kind::OnwardReturn(_) => rig.site.hit <= site.hit,
        Kind::OnceReturn(_) | Kind::OncePanic => rig.site.hit == site.hit,
    };
    rig.site.point == site.point && is_there
}

/// What is done at a site by the first rigged hit that acts there.
fn kind_at(rigs: &[Rig], site: Site) -> Option<Kind>
    ensures { result ≡ option_map (λ r. r.kind) (find (acts_at site.point site.hit) rigs.now) }
{
    for rig in rigs {
        if acts_at(rig, site) {
            return Some(rig.kind);
        }
    }
    None
}

/// What a fault does at one of the hits at which it acts.
fn once(kind: Kind) -> Kind
    ensures { result ≡ once kind }
{
    match kind {
        Kind::OnceReturn(text) | Kind::OnwardReturn(text) => Kind::OnceReturn(text),
        Kind::OncePanic => Kind::OncePanic,
    }
}

/// The first hit at which a child grew and a rigged hit acts, with what that does there.
fn first_acting(rigs: &[Rig], children: &[Child]) -> Option<Rig>
    ensures { result ≡ first_acting rigs.now (grew_at children.now) }
{
    for child in children {
        let site = child.fault().site;
        if let Some(kind) = kind_at(rigs, site) {
            let kind = once(kind);
            return Some(Rig { site, kind });
        }
    }
    None
}

/// Puts the children that grow from a plan's hits past its last fault into the list, in place of what stood there. Returns whether that fault's point
/// is hit once more. A walk only looks at where children grew, so any kinds of faults will do.
fn put_children(
    children: &mut Vec<Child>,
    counts: &mut Vec<u32>,
    plan: &[Rig],
    hits: &[u32],
) -> Result<bool, AllocError>
    requires points { AllByRecursion (λ p. p < 64) hits.now }
    requires few { length hits.now < 2 ^ 32 }
    ensures children { OnOk result (children.new.items ≡ kept_children (usual_at None) 0 plan.now hits.now) }
    ensures again { IfOk result (λ is_again. is_again ≡ is_asked_again plan.now hits.now) }
{
    children.clear();
    add_children(children, counts, &Kinds::of(&[]), 0, plan, hits)
}

/// What follows a plan. In the list of its faults the one that acts last comes first.
fn next_step<T: RunTable>(
    table: &T,
    rigs: &[Rig],
    plan: &[Rig],
    lists: &mut Lists,
) -> Result<Step, AllocError>
    ensures { IfOk result (IsStep (T.known table.now) rigs.now plan.now) }
{
    match look_up(table, plan, &mut lists.hits)? {
        Look::Unknown | Look::Unseen(_) => Ok(Step::Unknown),
        Look::Seen(verdict) => {
            let hits = lists.hits.as_slice();
            put_children(&mut lists.children, &mut lists.counts, plan, hits)?;
            match first_acting(rigs, lists.children.as_slice()) {
                Some(fault) => Ok(Step::Acts(fault)),
                None => Ok(Step::Ends(verdict)),
            }
        }
    }
}

/// Puts a fault before those that acted earlier.
fn put_first(plan: &mut Vec<Rig>, fault: Rig) -> Result<(), AllocError>
    ensures { OnOk result (plan.new.items ≡ fault ∷ plan.old.items) }
{
    let Rig { site, kind } = fault;
    plan.insert(0, Rig { site, kind })?;
    Ok(())
}

/// Whether two kinds of faults answer a hit alike.
fn are_alike(one: &Kind, other: &Kind) -> bool
    ensures { result ≡ are_alike one.now other.now }
{
    let text = one.text();
    let others = other.text();
    if is_return(one) {
        is_return(other) && is_same_text(&text, &others)
    } else {
        !is_return(other)
    }
}

/// Whether two faults do the same at a hit; `None` is no fault.
fn is_alike(one: Option<Kind>, other: Option<Kind>) -> bool
    ensures { result ≡ is_alike one other }
{
    match (one, other) {
        (Some(one), Some(other)) => are_alike(&one, &other),
        (None, None) => true,
        _ => false,
    }
}

fn is_return(kind: &Kind) -> bool
    ensures { result ≡ is_return kind.now }
{
    match kind {
        Kind::OnceReturn(_) | Kind::OnwardReturn(_) => true,
        Kind::OncePanic => false,
    }
}

/// Whether rigged hits do the same as others at each of the hits at which these children grew.
fn do_alike(rigs: &[Rig], others: &[Rig], children: &[Child]) -> bool
    ensures { result ≡ do_alike rigs.now others.now (grew_at children.now) }
{
    for child in children {
        let site = child.fault().site;
        if !is_alike(kind_at(rigs, site), kind_at(others, site)) {
            return false;
        }
    }
    true
}

/// The verdict of a plan, if the hits of its run are recorded and the rigged hits do the same as the plan at each of them.
fn verdict_alike<T: RunTable>(
    table: &T,
    rigs: &[Rig],
    plan: &[Rig],
    lists: &mut Lists,
) -> Result<Option<Verdict>, AllocError>
    ensures { IfOk result (CameTo (T.known table.now) (if_alike rigs.now plan.now (hits_of (T.known table.now) plan.now)) plan.now) }
{
    let Look::Seen(verdict) = look_up(table, plan, &mut lists.hits)? else {
        return Ok(None);
    };
    // children at each hit, as none of them is past a fault of the plan without faults
    let hits = lists.hits.as_slice();
    put_children(&mut lists.children, &mut lists.counts, &[], hits)?;
    if do_alike(rigs, plan, lists.children.as_slice()) {
        Ok(Some(verdict))
    } else {
        Ok(None)
    }
}

/// Whether a plan's run hits its last fault's point once more after that fault. False if its hits aren't recorded.
fn is_asked_again<T: RunTable>(
    table: &T,
    plan: &[Rig],
    lists: &mut Lists,
) -> Result<bool, AllocError>
    ensures { IfOk result (λ is_again. is_again ≡ again_told plan.now (hits_of (T.known table.now) plan.now)) }
{
    let Look::Seen(_) = look_up(table, plan, &mut lists.hits)? else {
        return Ok(false);
    };
    let hits = lists.hits.as_slice();
    put_children(&mut lists.children, &mut lists.counts, plan, hits)
}

/// Puts a plan into the list with its last fault as a sticky fault, in place of what stood there. Returns false, and puts nothing, if that fault
/// isn't a return whose point is hit once more.
fn put_onward<T: RunTable>(
    table: &T,
    plan: &[Rig],
    onward: &mut Vec<Rig>,
    lists: &mut Lists,
) -> Result<bool, AllocError>
    ensures { IfOk result (IsOnward (onward_told plan.now (hits_of (T.known table.now) plan.now)) onward.new.items) }
{
    let Some((last, earlier)) = plan.split_first() else {
        return Ok(false);
    };
    if !matches!(last.kind, Kind::OnceReturn(_)) {
        return Ok(false);
    }
    if !is_asked_again(table, plan, lists)? {
        return Ok(false);
    }
    onward.clear();
    onward.push(Rig {
        site: last.site,
        kind: Kind::OnwardReturn(last.kind.text()),
    })?;
    onward.extend_from_slice(earlier)?;
    Ok(true)
}

/// Goes on to the plan that a walk has come to, with its last fault as a sticky fault. Returns its verdict, if the walk comes to it.
fn go_onward<T: RunTable>(
    alloc: Global,
    table: &T,
    rigs: &[Rig],
    plan: &mut Vec<Rig>,
    lists: &mut Lists,
) -> Result<Option<Verdict>, AllocError>
    ensures { IfOk result (CameTo (T.known table.now) (onward_walked (T.known table.now) rigs.now plan.old.items) plan.new.items) }
{
    let mut onward = Vec::new(alloc);
    if !put_onward(table, plan.as_slice(), &mut onward, lists)? {
        return Ok(None);
    }
    let verdict = verdict_alike(table, rigs, onward.as_slice(), lists)?;
    *plan = onward;
    Ok(verdict)
}

/// Ends a walk that has come to a plan with as many faults as the depth allows. Returns the verdict of the plan that it ends at.
fn end_walk<T: RunTable>(
    alloc: Global,
    table: &T,
    rigs: &[Rig],
    plan: &mut Vec<Rig>,
    lists: &mut Lists,
) -> Result<Option<Verdict>, AllocError>
    ensures { IfOk result (CameTo (T.known table.now) (walk_from (T.known table.now) rigs.now 0 plan.old.items) plan.new.items) }
{
    match next_step(table, rigs, plan.as_slice(), lists)? {
        Step::Unknown => Ok(None),
        Step::Ends(verdict) => Ok(Some(verdict)),
        Step::Acts(_) => go_onward(alloc, table, rigs, plan, lists),
    }
}

/// Walks from the plan without faults, which is put into the list in place of what stood there. The next rigged hit to act becomes the plan's next
/// fault. If more than `depth` of them act, the last fault becomes a sticky one. Returns the verdict of the plan that the walk comes to; `None` if a
/// run on the way isn't recorded with its hits, or if the plan with the sticky fault doesn't do the same as the rigged hits.
fn walk<T: RunTable>(
    alloc: Global,
    table: &T,
    rigs: &[Rig],
    depth: u32,
    plan: &mut Vec<Rig>,
) -> Result<Option<Verdict>, AllocError>
    ensures { IfOk result (CameTo (T.known table.now) (walk (T.known table.now) rigs.now depth) plan.new.items) }
{
    plan.clear();
    let mut lists = Lists {
        hits: Vec::new(alloc),
        counts: Vec::new(alloc),
        children: Vec::new(alloc),
    };
    for _ in 0..depth {
        match next_step(table, rigs, plan.as_slice(), &mut lists)? {
            Step::Unknown => return Ok(None),
            Step::Ends(verdict) => return Ok(Some(verdict)),
            Step::Acts(fault) => put_first(plan, fault)?,
        }
    }
    end_walk(alloc, table, rigs, plan, &mut lists)
}

/// The plan whose run rigged hits have, which are in order, if recorded runs lead to it with at most `depth` faults. It is the plan at which a walk
/// over the recorded runs ends, so the hits of its run are recorded. In the list of its faults the one that acts last comes first. An error means
/// that memory was refused.
pub fn plan_of<T: RunTable>(
    alloc: Global,
    table: &T,
    rigs: &[Rig],
    depth: u32,
) -> Result<Option<Vec<Rig>>, AllocError>
    ensures { IfOk result (λ plan. option_map (λ p. p.items) plan ≡ walk (T.known table.now) rigs.now depth) }
{
    let mut plan = Vec::new(alloc);
    match walk(alloc, table, rigs, depth, &mut plan)? {
        Some(_) => Ok(Some(plan)),
        None => Ok(None),
    }
}

/// The verdict of the plan whose run rigged hits have, as by [`plan_of`].
///
/// It is the verdict of each lawful subject that agrees with the table and tries each rigged hit's kind at its point. An error means that memory was
/// refused.
pub fn verdict_of<T: RunTable>(
    alloc: Global,
    table: &T,
    rigs: &[Rig],
    depth: u32,
) -> Result<Option<Verdict>, AllocError>
    ensures walked { IfOk result (λ verdict. verdict ≡ verdict_walked (T.known table.now) rigs.now depth) }
    ensures same { IfOk result (λ verdict. (t : Subject) → IsLawful t → Agrees t depth (T.known table.now) → AreInOrder (map (λ r. r.site) rigs.now)
        → AllByRecursion (λ r. Contains (t.kinds r.site.point) (once r.kind)) rigs.now
        → IfSome verdict (λ v. (seed stream : ℕ) → verdict_of_rigs t seed stream rigs.now ≡ v)) }
{
    let mut plan = Vec::new(alloc);
    walk(alloc, table, rigs, depth, &mut plan)
}
