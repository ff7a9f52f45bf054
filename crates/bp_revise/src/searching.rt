// The search of the branches that are open in what is kept.
ghost use Rattle.std.specs.Prelude.{◌≡◌, ◌∷◌, ◌++◌, [], ◌+◌, ◌<◌, ◌≤◌, List, IfOk, OnOk, reverse};
ghost use Rattle.bp_base.specs.declared.path.Step.{Step as AnyStep};
ghost use Rattle.bp_base.specs.declared.point.Placement.{Placement as AnyPlacement};
ghost use Rattle.bp_base.specs.declared.record.Record.{Record as AnyRecord};
ghost use Rattle.bp_base.specs.Limits.{most_number};
ghost use Rattle.bp_revise.specs.Course.{IsAtEnd, IsOnCourse, placed, with_task};

use bp_base::{NoMemory, Placement, Record, Sequence, Settled, Task};
use bp_metric::Metric;
use bp_turn::Examiner;
use std::alloc::Global;

/// Works a revision off as a stack, until the side, in grid units, is at or below the floor's, no branch is left, or as many as the budget are
/// examined. After NoMemory all is gone.
pub fn search(
    alloc: Global,
    metric: &Metric,
    begun: Settled,
    floor: u64,
    budget: u64,
) -> Result<Settled, NoMemory>
    requires course { (start : AnyPlacement) × (base : List AnyRecord) × (roots : List (List AnyStep)) × (start.side ≤ most_number) × (begun.examined ≤ budget) × IsOnCourse metric.now.tree metric.now.sheet start base roots begun }
    ensures course { IfOk result (λ Z. (start : AnyPlacement) (base : List AnyRecord) (roots : List (List AnyStep)) → IsOnCourse metric.now.tree metric.now.sheet start base roots begun → IsOnCourse metric.now.tree metric.now.sheet start base roots Z) }
    ensures end { IfOk result (λ Z. IsAtEnd floor budget Z) }
{
    let mut examiner = match Examiner::open(alloc, metric) {
        Ok(examiner) => examiner,
        Err(error) => {
            drop(begun);
            return Err(error);
        }
    };
    let mut search = begun;
    let worked = work_off(alloc, metric, &mut examiner, &mut search, floor, budget);
    drop(examiner);
    match worked {
        Ok(()) => Ok(search),
        Err(error) => {
            drop(search);
            Err(error)
        }
    }
}

// Examines branch by branch until the search is at its end.
fn work_off(
    alloc: Global,
    metric: &Metric,
    examiner: &mut Examiner,
    search: &mut Settled,
    floor: u64,
    budget: u64,
) -> Result<(), NoMemory>
    requires metric { metric.now ≡ examiner.old }
    requires course { (start : AnyPlacement) × (base : List AnyRecord) × (roots : List (List AnyStep)) × (start.side ≤ most_number) × (search.old.examined ≤ budget) × IsOnCourse metric.now.tree metric.now.sheet start base roots search.old }
    ensures course { OnOk result ((start : AnyPlacement) (base : List AnyRecord) (roots : List (List AnyStep)) → IsOnCourse metric.now.tree metric.now.sheet start base roots search.old → IsOnCourse metric.now.tree metric.now.sheet start base roots search.new) }
    ensures end { OnOk result (IsAtEnd floor budget search.new) }
{
    let mut children = Sequence::new(alloc);
    while search.side > floor && search.examined < budget {
        match search.left.pop() {
            None => return Ok(()),
            Some(task) => work_on(alloc, metric, examiner, &mut children, search, task)?,
        }
    }
    Ok(())
}

// Examines the branch in hand: it gets a record, and the search goes on with what follows of it. The list of children is empty before and
// afterwards.
fn work_on(
    alloc: Global,
    metric: &Metric,
    examiner: &mut Examiner,
    children: &mut Sequence<Task>,
    search: &mut Settled,
    task: Task,
) -> Result<(), NoMemory>
    requires metric { metric.now ≡ examiner.old }
    requires course { (start : AnyPlacement) × (base : List AnyRecord) × (roots : List (List AnyStep)) × (start.side ≤ most_number) × IsOnCourse metric.now.tree metric.now.sheet start base roots (with_task search.old task) }
    requires ticket { search.old.examined < u64.MAX }
    requires empty { children.old ≡ [] }
    ensures metric { examiner.new ≡ examiner.old }
    ensures empty { OnOk result (children.new ≡ []) }
    ensures course { OnOk result ((start : AnyPlacement) (base : List AnyRecord) (roots : List (List AnyStep)) → IsOnCourse metric.now.tree metric.now.sheet start base roots (with_task search.old task) → IsOnCourse metric.now.tree metric.now.sheet start base roots search.new) }
    ensures ticket { OnOk result (search.new.examined ≡ search.old.examined + 1) }
{
    let _leaves = metric.leaves();
    let bound = search.side;
    let found = examiner.judge_any(alloc, metric, &task.path, bound, children)?;
    let (kind, placement) = found;
    let Task { path, bound: given } = task;
    let ticket = search.examined;
    place(search, placement);
    stack(&mut search.left, children)?;
    search.records.push(Record {
        path,
        kind,
        ticket,
        given,
        bound,
    })?;
    search.examined += 1;
    Ok(())
}

// Takes the placement of a solved branch as the best one.
fn place(search: &mut Settled, placement: Option<Placement>)
    ensures { search.new ≡ placed search.old placement }
{
    if let Some(Placement { side, points }) = placement {
        search.side = side;
        search.points = points;
    }
}

// Puts the children on the stack, the last one first, so that the first is taken next.
fn stack(left: &mut Sequence<Task>, children: &mut Sequence<Task>) -> Result<(), NoMemory>
    ensures left { OnOk result (left.new ≡ left.old ++ reverse children.old) }
    ensures children { OnOk result (children.new ≡ []) }
{
    while let Some(child) = children.pop() {
        left.push(child)?;
    }
    Ok(())
}
