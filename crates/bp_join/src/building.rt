// Trees of entries that stand in preorder.
ghost use Rattle.std.specs.Prelude.{◌≡◌, ◌<◌, ◌≤◌, ◌++◌, [], ◌∷◌, length, IfOk, OnOk};
ghost use Rattle.bp_base.specs.Path.{IsPairOf};
ghost use Rattle.bp_base.specs.Tree.{leaf_count};
ghost use Rattle.bp_metric.specs.Choices.{allowed};
ghost use Rattle.bp_join.specs.Entries.{stacked};
ghost use Rattle.bp_join.specs.Trees.{BeginsWithForest, BeginsWithTree, TakesForest, TakesTree};

use crate::entry::{Entry, Found};
use bp_base::{NoMemory, Pair, Refutation};
use bp_metric::Metric;
use bp_pairs::allowed;
use sqlite_items::Items;
use std::alloc::Global;

/// Takes the entries of one tree off the stack and makes it.
#[cycle(trees)]
pub fn tree(
    alloc: Global,
    metric: &Metric,
    entries: &mut Vec<Entry<'_>>,
) -> Result<Refutation, NoMemory>
    requires { BeginsWithTree metric.now.tree metric.now.sheet (stacked metric.now.tree metric.now.sheet entries.old.items) }
    ensures tree { IfOk result (λ r. TakesTree metric.now.tree metric.now.sheet (stacked metric.now.tree metric.now.sheet entries.old.items) (stacked metric.now.tree metric.now.sheet entries.new.items) r) }
    ensures fewer { length entries.new.items ≤ length entries.old.items }
{
    match take(entries).found {
        Found::Split { pair } => {
            let children = forest(alloc, metric, pair, entries)?;
            Ok(Refutation::Split { pair, children })
        }
        Found::Closed { claim } => Ok(Refutation::Closed {
            claim: claim.copy(),
        }),
        Found::Open { claim } => Ok(Refutation::Open {
            claim: claim.copy(),
        }),
    }
}

// Takes the top entry off.
fn take<'a>(entries: &mut Vec<Entry<'a>>) -> Entry<'a>
    requires { 0 < length entries.old.items }
    ensures { entries.old.items ≡ entries.new.items ++ result ∷ [] }
{
    match entries.pop() {
        Some(entry) => entry,
        None => unreachable!(),
    }
}

// Takes the entries of the trees of a split's children off the stack and makes these.
#[cycle(trees)]
fn forest(
    alloc: Global,
    metric: &Metric,
    pair: Pair,
    entries: &mut Vec<Entry<'_>>,
) -> Result<Items<Refutation>, NoMemory>
    requires pair { IsPairOf (leaf_count metric.now.tree) pair }
    requires forest { BeginsWithForest metric.now.tree metric.now.sheet pair (allowed metric.now.tree metric.now.sheet pair) (stacked metric.now.tree metric.now.sheet entries.old.items) }
    ensures forest { IfOk result (λ rs. TakesForest metric.now.tree metric.now.sheet pair (allowed metric.now.tree metric.now.sheet pair) (stacked metric.now.tree metric.now.sheet entries.old.items) (stacked metric.now.tree metric.now.sheet entries.new.items) rs) }
    ensures fewer { length entries.new.items ≤ length entries.old.items }
{
    let count = allowed(metric, pair).count();
    let mut children = Vec::with_capacity(alloc, count as usize)?;
    for _ in 0..count {
        children.push(tree(alloc, metric, entries)?)?;
    }
    Ok(Items::from_vec(children))
}
