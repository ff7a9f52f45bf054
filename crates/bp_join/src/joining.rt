// All nodes of a search as one refutation.
ghost use Rattle.std.specs.Prelude.{◌≡◌, ◌++◌, ℕ, [], IfOk, OnOk, All, map, reverse};
ghost use Rattle.std.specs.List.Sorted.{IsPermutation};
ghost use Rattle.bp_base.specs.declared.point.Sheet.{Sheet as AnySheet};
ghost use Rattle.bp_base.specs.Tree.{TreeValue, leaf_count};
ghost use Rattle.bp_metric.specs.Chains.{HasPairsOf};
ghost use Rattle.bp_metric.specs.Records.{IsBalanced, IsSound};
ghost use Rattle.bp_metric.specs.Refutation.{Fits};
ghost use Rattle.bp_join.specs.Entries.{entry_node, opened_node, stacked};
ghost use Rattle.bp_join.specs.Joined.{AreOpenNodes, HasPairOf, IsJoined, IsOpenNode, node_of};
ghost use Rattle.bp_join.specs.Trees.{AreInOrder};

use crate::building::tree;
use crate::entry::{Entry, Found, Opened, compare};
use bp_base::{NoMemory, Record, RecordKind, Refutation, Task, Walked};
use bp_branch::{law_of_branches, law_of_children};
use bp_metric::Metric;
use bp_walks::least;
use std::alloc::Global;

/// The records and the tasks left as one refutation: exactly one node for each of them, at its path. A record's node is its kind,
/// a task's is open, with the walk that is shown for its path or, where that has a cycle, a cycle of it. The empty path and all
/// children of split records must be, each as often, the paths of the records and of the tasks (specs/Records of bp_metric); the
/// pairs must be pairs of leaves. Where the records are sound the refutation fits the empty path. After NoMemory the arguments
/// are gone.
pub fn join(
    alloc: Global,
    metric: &Metric,
    records: Vec<Record>,
    left: Vec<Task>,
) -> Result<Refutation, NoMemory>
    requires balanced { IsBalanced metric.now.tree metric.now.sheet records.items left.items }
    requires splits { All (λ r. HasPairOf metric.now.tree r.kind) records.items }
    requires paths { All (λ t. HasPairsOf (leaf_count metric.now.tree) t.path) left.items }
    ensures joined { IfOk result (λ r. IsJoined metric.now.tree metric.now.sheet records.items left.items r) }
    ensures fits { IfOk result (λ r. (S : ℕ) → All (IsSound metric.now.tree metric.now.sheet S) records.items → Fits metric.now.tree metric.now.sheet r []) }
{
    law_of_branches(metric);
    law_of_children(metric);
    let opened = opened_of(alloc, metric, left)?;
    let mut entries = Vec::with_capacity(alloc, records.len().saturating_add(opened.len()))?;
    add_opened(&mut entries, &opened)?;
    put_in_order(&mut entries)?;
    add_records(&mut entries, &records)?;
    put_in_order(&mut entries)?;
    tree(alloc, metric, &mut entries)
}

// The tasks left, in order.
fn opened_of(alloc: Global, metric: &Metric, left: Vec<Task>) -> Result<Vec<Opened>, NoMemory>
    requires { All (λ t. HasPairsOf (leaf_count metric.now.tree) t.path) left.items }
    ensures { IfOk result (λ v. AreOpenNodes metric.now.tree metric.now.sheet left.items (map opened_node v.items)) }
{
    let mut opened = Vec::with_capacity(alloc, left.len())?;
    for task in left {
        opened.push(opened_at(alloc, metric, task)?)?;
    }
    Ok(opened)
}

// A task with what is shown there, or a cycle.
fn opened_at(alloc: Global, metric: &Metric, task: Task) -> Result<Opened, NoMemory>
    requires { HasPairsOf (leaf_count metric.now.tree) task.path }
    ensures { IfOk result (λ o. IsOpenNode metric.now.tree metric.now.sheet task (opened_node o)) }
{
    let claim = match least(alloc, metric, &task.path)? {
        Walked::Fine(found) => found.claim,
        Walked::Cycle(claim) => claim,
    };
    Ok(Opened {
        path: task.path,
        claim,
    })
}

fn add_opened<'a>(entries: &mut Vec<Entry<'a>>, opened: &'a [Opened]) -> Result<(), NoMemory>
    ensures { OnOk result ((T : TreeValue) (G : AnySheet) → map (entry_node T G) entries.new.items ≡ map (entry_node T G) entries.old.items ++ map opened_node opened.now) }
{
    for task in opened {
        entries.push(Entry {
            path: &task.path,
            found: Found::Open { claim: &task.claim },
        })?;
    }
    Ok(())
}

// Adds the records' entries, the last one first: where records come in preorder, all entries are in order then.
fn add_records<'a>(entries: &mut Vec<Entry<'a>>, records: &'a [Record]) -> Result<(), NoMemory>
    ensures { OnOk result ((T : TreeValue) (G : AnySheet) → map (entry_node T G) entries.new.items ≡ map (entry_node T G) entries.old.items ++ map (node_of T G) (reverse records.now)) }
{
    let mut rest = records;
    while let Some((last, before)) = rest.split_last() {
        entries.push(entry_of(last))?;
        rest = before;
    }
    Ok(())
}

fn entry_of(given: &Record) -> Entry<'_>
    ensures { (T : TreeValue) (G : AnySheet) → entry_node T G result ≡ node_of T G given.now }
{
    let found = match &given.kind {
        RecordKind::Split { pair } => Found::Split { pair: *pair },
        RecordKind::Closed { claim } => Found::Closed { claim },
    };
    Entry {
        path: &given.path,
        found,
    }
}

// Sorts the entries into the preorder of their tree, its root on top. Of n entries in order that takes n - 1 comparisons, and of some
// that stand in k runs about n log k, since the stable sort merges runs.
fn put_in_order(entries: &mut Vec<Entry<'_>>) -> Result<(), NoMemory>
    ensures moved { IsPermutation entries.old.items entries.new.items }
    ensures order { OnOk result ((T : TreeValue) (G : AnySheet) → AreInOrder (stacked T G entries.new.items)) }
{
    entries.sort_by(|a, b| compare(b.path, a.path))?;
    Ok(())
}
