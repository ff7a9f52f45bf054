// The table of all distances of two leaves.
ghost use Rattle.std.specs.Prelude.{◌≡◌, ◌<◌, ◌≤◌, ◌+◌, ◌++◌, ◌∷◌, [], length, map, IfOk, OnOk, All};
ghost use Rattle.std.specs.List.{flat_map};
ghost use Rattle.bp_base.specs.Tree.{leaf_nodes, node_count};
ghost use Rattle.bp_metric.specs.Distance.{dist};
ghost use Rattle.bp_metric.specs.Table.{IsTable, row_of, rows_of};

use crate::distance::distance;
use bp_base::{NoMemory, Tree};
use std::alloc::Global;

// A row for each leaf.
pub fn table_of(alloc: Global, tree: &Tree, leaves: &[u64]) -> Result<Vec<u64>, NoMemory>
    requires { leaves.now ≡ leaf_nodes tree.now }
    ensures { IfOk result (λ v. IsTable tree.now v.items) }
{
    let mut table = Vec::new(alloc);
    for from in leaves {
        add_row(&mut table, tree, leaves, *from)?;
    }
    Ok(table)
}

// The distances of one leaf's node and all leaves' nodes.
fn add_row(table: &mut Vec<u64>, tree: &Tree, leaves: &[u64], from: u64) -> Result<(), NoMemory>
    requires from { from < node_count tree.now }
    requires leaves { All (λ k. k < node_count tree.now) leaves.now }
    ensures { OnOk result (table.new.items ≡ table.old.items ++ row_of tree.now leaves.now from) }
{
    for to in leaves {
        table.push(distance(tree, from, *to))?;
    }
    Ok(())
}
