//! Plans that grow from recorded runs.
ghost use Rattle.std.specs.Prelude.{◌≡◌, ◌+◌, ◌-◌, ◌<◌, ◌≤◌, ◌++◌, ◌∷◌, ◌&&◌, [], length, map, option_map, slice_index_or, take, IfOk, OnOk, IsErrOf};
ghost use Rattle.std.proofs.Props.{props};
ghost use Rattle.std.specs.List.{AllByRecursion};
ghost use Rattle.grown_plans.specs.GrownPlans.{Subject, kinds_at};
ghost use Rattle.grown_plans.specs.AskedPoints.{is_last_return, onward_if};
ghost use Rattle.grown_plans.specs.Kept.{GrewFrom, plan_of};
ghost use Rattle.grown_plans.specs.Lists.{AreLevels};
ghost use Rattle.grown_plans.specs.Promises.{IsLawful};
ghost use Rattle.grown_runs.specs.known.Known.{Agrees};
ghost use Rattle.grown_runs.specs.known.KnownPlans.{AreKnown};
ghost use Rattle.grown_runs.specs.known.ToldPart.{level_known, levels_known, part_known};
ghost use Rattle.grown_runs.specs.known.inside.Grown.{again_known, kept_known, kept_over, onward_over};

use crate::known::table::{Look, RunTable, read_found};
use action_eval::Rig;
use grown_plans::{Child, GrownLevels, GrownList, GrownPlans, Kinds, add_children};
use plan_gen::PlanFault;
use std::alloc::{AllocError, Global};

/// The lists that a look into a table needs.
#[derive(Drop)]
pub struct Workspace {
    pub faults: Vec<Rig>,
    pub hits: Vec<u32>,
    pub counts: Vec<u32>,
}

impl Workspace {
    /// Lists that have taken no memory yet.
    pub fn new(alloc: Global) -> Self {
        Workspace {
            faults: Vec::new(alloc),
            hits: Vec::new(alloc),
            counts: Vec::new(alloc),
        }
    }
}

/// Plans whose runs were looked up in a table, and the kinds of faults by which they grow.
#[derive(Drop)]
struct Looked<'a, 'k, 't, T: RunTable> {
    table: &'t T,
    kinds: &'a Kinds<'k>,
    plans: &'a GrownPlans,
    /// The recorded run of each plan, if there is one.
    runs: &'a [Option<&'t T::Run>],
    ghost found: { map (option_map (λ r. T.tells r.now)) runs.now ≡ map (T.known table.now) plans.now } by { Prim.hlevel props },
    ghost few: { length plans.now ≤ 65536 },
}

/// Looks up the runs of the plans behind those that were looked up before.
fn find_rest<'a, T: RunTable>(
    alloc: Global,
    table: &'a T,
    plans: &GrownPlans,
    runs: &mut Vec<Option<&'a T::Run>>,
) -> Result<(), AllocError>
    requires found { map (option_map (λ r. T.tells r.now)) runs.old.items ≡ map (T.known table.now) (take (length runs.old.items) plans.now) }
    requires kept { map (option_map (λ r. r.now)) runs.old.items ≡ map (T.keeps table.now) (take (length runs.old.items) plans.now) }
    ensures found { OnOk result (map (option_map (λ r. T.tells r.now)) runs.new.items ≡ map (T.known table.now) plans.now) }
    ensures kept { OnOk result (map (option_map (λ r. r.now)) runs.new.items ≡ map (T.keeps table.now) plans.now) }
{
    let mut faults = Vec::new(alloc);
    for number in runs.len()..plans.len() {
        plans.faults_of(number, &mut faults)?;
        runs.push(table.find(faults.as_slice())?)?;
    }
    Ok(())
}

/// Adds the children of the plan of this number, if its hits are recorded. Returns whether the last fault's point is hit once more after that fault.
fn add_children_of<T: RunTable>(
    looked: &Looked<'_, '_, '_, T>,
    number: usize,
    workspace: &mut Workspace,
    children: &mut Vec<Child>,
) -> Result<bool, AllocError>
    requires within { number < length looked.now.plans.now }
    ensures children { OnOk result (children.new.items ≡ children.old.items
        ++ kept_known (kinds_at looked.now.kinds.now) (T.known looked.now.table.now) looked.now.plans.now number) }
    ensures again { IfOk result (λ is_again. is_again ≡ again_known (T.known looked.now.table.now) looked.now.plans.now number) }
{
    match read_found(looked.table, looked.runs[number], &mut workspace.hits)? {
        Look::Unknown | Look::Unseen(_) => Ok(false),
        Look::Seen(_) => {
            looked.plans.faults_of(number, &mut workspace.faults)?;
            let faults = workspace.faults.as_slice();
            let hits = workspace.hits.as_slice();
            let counts = &mut workspace.counts;
            add_children(children, counts, looked.kinds, number, faults, hits)
        }
    }
}

/// The children of the plans from this number on.
fn children_from<T: RunTable>(
    alloc: Global,
    looked: &Looked<'_, '_, '_, T>,
    first: usize,
) -> Result<Vec<Child>, AllocError>
    requires within { first ≤ length looked.now.plans.now }
    ensures { IfOk result (λ children. children.items ≡ kept_over (kinds_at looked.now.kinds.now) (T.known looked.now.table.now) looked.now.plans.now
        first (length looked.now.plans.now - first)) }
{
    let mut children = Vec::new(alloc);
    let mut workspace = Workspace::new(alloc);
    for number in first..looked.plans.len() {
        add_children_of(looked, number, &mut workspace, &mut children)?;
    }
    Ok(children)
}

/// Adds the plan of this number with its last fault sticky, if that is a return whose point is hit again.
fn push_onward(
    plans: &GrownPlans,
    number: usize,
    is_again: bool,
    onward: &mut Vec<Child>,
) -> Result<(), AllocError>
    requires { number < length plans.now }
    ensures plans { OnOk result (map (plan_of plans.now) onward.new.items
        ≡ map (plan_of plans.now) onward.old.items
        ++ onward_if (is_last_return (slice_index_or plans.now number []) && is_again) (slice_index_or plans.now number [])) }
    ensures parents { OnOk result (GrewFrom (length plans.now) onward.old.items → GrewFrom (length plans.now) onward.new.items) }
{
    if !is_again {
        return Ok(());
    }
    if let Some(child) = plans.from_then_on(number) {
        onward.push(child)?;
    }
    Ok(())
}

/// What grows from the plans of the last level: the plans with their last fault sticky, as they are kept, and how many children they have.
#[derive(Drop)]
struct Ends {
    onward: Vec<Child>,
    beyond: u64,
}

/// What grows from the plans from this number on, which are those of the last level.
fn ends_from<T: RunTable>(
    alloc: Global,
    looked: &Looked<'_, '_, '_, T>,
    first: usize,
) -> Result<Ends, AllocError>
    requires within { first ≤ length looked.now.plans.now }
    ensures plans { IfOk result (λ ends. map (plan_of looked.now.plans.now) ends.onward.items
        ≡ onward_over (T.known looked.now.table.now) looked.now.plans.now first (length looked.now.plans.now - first)) }
    ensures parents { IfOk result (λ ends. GrewFrom (length looked.now.plans.now) ends.onward.items) }
    ensures beyond { IfOk result (λ ends. ends.beyond
        ≡ length (kept_over (kinds_at looked.now.kinds.now) (T.known looked.now.table.now) looked.now.plans.now first (length looked.now.plans.now - first))) }
{
    let mut onward = Vec::new(alloc);
    let mut beyond = 0u64;
    let mut children = Vec::new(alloc);
    let mut workspace = Workspace::new(alloc);
    for number in first..looked.plans.len() {
        children.clear();
        let is_again = add_children_of(looked, number, &mut workspace, &mut children)?;
        push_onward(looked.plans, number, is_again, &mut onward)?;
        // no memory holds the hits from which so many children grow
        let Some(more) = beyond.checked_add(children.len() as u64) else {
            return Err(AllocError);
        };
        beyond = more;
    }
    Ok(Ends { onward, beyond })
}

/// Levels 0 to a depth, with at most `most` plans, and the recorded run of each plan.
fn grow_levels<'a, T: RunTable>(
    alloc: Global,
    table: &'a T,
    kinds: &Kinds<'_>,
    depth: u32,
    most: usize,
) -> Result<(GrownLevels, Vec<Option<&'a T::Run>>), PlanFault>
    requires { most ≤ 65536 }
    ensures levels { IfOk result (λ r. AreLevels (level_known (kinds_at kinds.now) (T.known table.now)) depth r.0) }
    ensures found { IfOk result (λ r. map (option_map (λ run. T.tells run.now)) r.1.items ≡ map (T.known table.now) r.0.plans) }
    ensures kept { IfOk result (λ r. map (option_map (λ run. run.now)) r.1.items ≡ map (T.keeps table.now) r.0.plans) }
    ensures few { IfOk result (λ r. length r.0.plans ≤ most) }
    ensures many { IsErrOf result PlanFault.TooManyPlans → most < length (levels_known (kinds_at kinds.now) (T.known table.now) depth) }
{
    let mut levels = GrownLevels::first(alloc, most)?;
    let mut runs = Vec::new(alloc);
    find_rest(alloc, table, &levels.plans, &mut runs)?;
    for _ in 0..depth {
        let looked = Looked {
            table,
            kinds,
            plans: &levels.plans,
            runs: runs.as_slice(),
        };
        let children = children_from(alloc, &looked, levels.last)?;
        levels.add(children.as_slice(), most)?;
        find_rest(alloc, table, &levels.plans, &mut runs)?;
    }
    Ok((levels, runs))
}

/// Plans that are known by now, and the recorded run of each.
#[derive(Drop)]
pub struct ToldList<'a, R> {
    pub list: GrownList,
    /// The recorded run of each plan, if there is one, by the plan's number.
    pub runs: Vec<Option<&'a R>>,
}

/// The plans up to a depth that are known by now, in the order of the list. Each level has the children, by these kinds of faults, of those plans of
/// the level before whose hits are recorded. Behind the last level come its plans with their last fault sticky, if that fault is a return whose point
/// is hit again. A plan is known once the hits of each plan that it grew from are recorded, so it needn't wait until all of their level are. For
/// every lawful subject that agrees with the table these plans are the known part of its list. Each plan is looked up once.
///
/// There are at most `most` of them, which is at most 65536. `TooManyPlans` comes only if there would be more.
pub fn known_plans<'a, T: RunTable>(
    alloc: Global,
    table: &'a T,
    kinds: &Kinds<'_>,
    depth: u32,
    most: usize,
) -> Result<ToldList<'a, T::Run>, PlanFault>
    requires { most ≤ 65536 }
    ensures known { IfOk result (λ told. (t : Subject) → IsLawful t → t.kinds ≡ kinds_at kinds.now → Agrees t depth (T.known table.now)
        → AreKnown t depth (T.known table.now) told.list) }
    ensures grown { IfOk result (λ told. told.list.plans ≡ part_known (kinds_at kinds.now) (T.known table.now) depth) }
    ensures found { IfOk result (λ told. map (option_map (λ run. T.tells run.now)) told.runs.items ≡ map (T.known table.now) told.list.plans) }
    ensures kept { IfOk result (λ told. map (option_map (λ run. run.now)) told.runs.items ≡ map (T.keeps table.now) told.list.plans) }
    ensures short { IfOk result (λ told. AllByRecursion (λ plan. length plan ≤ depth) told.list.plans) }
    ensures few { IfOk result (λ told. length told.list.plans ≤ most) }
    ensures many { IsErrOf result PlanFault.TooManyPlans → most < length (part_known (kinds_at kinds.now) (T.known table.now) depth) }
{
    let (levels, runs) = grow_levels(alloc, table, kinds, depth, most)?;
    let mut runs = runs;
    let looked = Looked {
        table,
        kinds,
        plans: &levels.plans,
        runs: runs.as_slice(),
    };
    let ends = ends_from(alloc, &looked, levels.last)?;
    let list = levels.end(ends.onward.as_slice(), ends.beyond, most)?;
    find_rest(alloc, table, &list.plans, &mut runs)?;
    Ok(ToldList { list, runs })
}
