// The nodes of a proof in memory, in preorder.
ghost use Rattle.std.specs.Prelude.{◌≡◌, ◌<◌, ◌+◌, ◌*◌, ◌++◌, ◌∷◌, [], length, IfOk, OnOk};
ghost use Rattle.bp_metric.specs.Nodes.{nodes_of};
ghost use Rattle.bp_check.specs.Found.{found_of};
ghost use Rattle.bp_document.specs.Told.{node_list};
ghost use Rattle.bp_check.specs.Stack.{IsStack, run};
ghost use Rattle.bp_check.specs.Levels.{lines_to_come, size_to_come};

use crate::found::Found;
use crate::stack::Stack;
use bp_base::{NoMemory, Refutation};
use bp_metric::Metric;
use std::alloc::Global;

/// The children of a split that are not fed yet.
#[derive(Clone, Copy)]
pub struct Level<'a> {
    pub children: &'a [Refutation],
}

/// What is found of the nodes of a proof. It goes without recursion, since a proof may be deep.
pub fn found_in(alloc: Global, metric: &Metric, proof: &Refutation) -> Result<Found, NoMemory>
    ensures { IfOk result (λ f. f ≡ found_of metric.now.tree metric.now.sheet 0 (nodes_of metric.now.tree metric.now.sheet proof.now)) }
{
    let mut stack = Stack::empty(alloc)?;
    let mut levels = Vec::new(alloc);
    visit(metric, &mut stack, &mut levels, proof)?;
    while let Some(level) = levels.pop() {
        visit_next(metric, &mut stack, &mut levels, level)?;
    }
    Ok(stack.finish(metric))
}

// Feeds the next child of a level, where there is one.
fn visit_next<'a>(
    metric: &Metric,
    stack: &mut Stack,
    levels: &mut Vec<Level<'a>>,
    level: Level<'a>,
) -> Result<(), NoMemory>
    requires kept { IsStack metric.now.tree metric.now.sheet stack.old }
    ensures lines { OnOk result (run metric.now.tree metric.now.sheet stack.new (lines_to_come levels.new.items) ≡ run metric.now.tree metric.now.sheet stack.old (lines_to_come (levels.old.items ++ level.entry ∷ []))) }
    ensures kept { OnOk result (IsStack metric.now.tree metric.now.sheet stack.new) }
    ensures less { OnOk result (size_to_come levels.new.items < size_to_come (levels.old.items ++ level.entry ∷ [])) }
{
    if let Some((first, rest)) = level.children.split_first() {
        levels.push(Level { children: rest })?;
        visit(metric, stack, levels, first)?;
    }
    Ok(())
}

// Feeds the node, and leaves its children as the deepest level.
fn visit<'a>(
    metric: &Metric,
    stack: &mut Stack,
    levels: &mut Vec<Level<'a>>,
    node: &'a Refutation,
) -> Result<(), NoMemory>
    requires kept { IsStack metric.now.tree metric.now.sheet stack.old }
    ensures lines { OnOk result (run metric.now.tree metric.now.sheet stack.new (lines_to_come levels.new.items) ≡ run metric.now.tree metric.now.sheet stack.old (node_list node.now (length levels.old.items) ++ lines_to_come levels.old.items)) }
    ensures kept { OnOk result (IsStack metric.now.tree metric.now.sheet stack.new) }
    ensures less { OnOk result (size_to_come levels.new.items < size_to_come levels.old.items + 2 * length (node_list node.now (length levels.old.items))) }
{
    // no memory holds so many nodes
    if stack.count == u64::MAX {
        return Err(NoMemory);
    }
    let depth = levels.len() as u64;
    match node {
        Refutation::Split { pair, children } => {
            stack.feed_split(metric, depth, *pair);
            let children = children.as_slice();
            levels.push(Level { children })?;
        }
        Refutation::Closed { claim } => stack.feed_claim(metric, depth, claim),
        Refutation::Open { claim } => stack.feed_claim(metric, depth, claim),
    }
    Ok(())
}
