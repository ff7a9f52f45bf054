// One turn: a branch is examined.
ghost use Rattle.std.specs.Prelude.{◌≡◌, ◌+◌, ◌<◌, ◌++◌, [], reverse, OnOk};
ghost use Rattle.bp_stack.specs.Turns.{IsOnItsWay, IsTaken, placed};

use bp_base::{NoMemory, Placement, Sequence, Settled, Task};
use bp_metric::Metric;
use bp_turn::{Examiner, Turn};
use std::alloc::Global;

// Takes the placement of a solved branch as the best one.
fn place(search: &mut Settled, placement: Option<Placement>)
    ensures { search.new ≡ placed search.old placement }
{
    if let Some(Placement { side, points }) = placement {
        search.side = side;
        search.points = points;
    }
}

// Puts the children on the stack, the last one first, so that the first is taken next.
fn stack(left: &mut Sequence<Task>, children: &mut Sequence<Task>) -> Result<(), NoMemory>
    ensures left { OnOk result (left.new ≡ left.old ++ reverse children.old) }
    ensures children { OnOk result (children.new ≡ []) }
{
    while let Some(child) = children.pop() {
        left.push(child)?;
    }
    Ok(())
}

/// Examines the branch in hand: it gets the next ticket and a record, and the search goes on with what follows of it. The list of
/// children is empty before and afterwards.
pub fn work_on(
    alloc: Global,
    metric: &Metric,
    examiner: &mut Examiner,
    children: &mut Sequence<Task>,
    search: &mut Settled,
    task: Task,
) -> Result<(), NoMemory>
    requires metric { metric.now ≡ examiner.old }
    requires taken { IsTaken metric.now.tree metric.now.sheet search.old task }
    requires ticket { search.old.examined < u64.MAX }
    requires empty { children.old ≡ [] }
    ensures metric { examiner.new ≡ examiner.old }
    ensures empty { OnOk result (children.new ≡ []) }
    ensures underway { OnOk result (IsOnItsWay metric.now.tree metric.now.sheet search.new) }
    ensures ticket { OnOk result (search.new.examined ≡ search.old.examined + 1) }
{
    let _leaves = metric.leaves();
    let turn = examiner.examine(alloc, metric, task, search.side, search.examined, children)?;
    let Turn { record, placement } = turn;
    place(search, placement);
    stack(&mut search.left, children)?;
    search.records.push(record)?;
    search.examined += 1;
    Ok(())
}
