ghost use Rattle.std.specs.Prelude.{◌≡◌, ◌<◌, ◌≤◌, ◌↔◌, IsTrue, IfOk};
ghost use Rattle.bp_base.specs.declared.point.Sheet.TheVariants.{Square};
ghost use Rattle.bp_base.specs.Tree.{IsEdge, IsLeaf, leaf_count, leaf_node, node_count};
ghost use Rattle.bp_metric.specs.Choices.{are_twins};
ghost use Rattle.bp_metric.specs.Distance.{leaf_below, leaf_dist, most_distance, radius};
ghost use Rattle.bp_metric.specs.Metric.{IsMetric, IsSheet};

use crate::distance::{distance, is_below, leaves_of};
use crate::table::table_of;
use bp_base::{NoMemory, Sheet, Tree};
use std::alloc::Global;
use std::marker::Model;

/// The distances of a tree's leaves, and the sheet that their tips are placed on. Leaves are numbered from 1.
#[derive(Drop)]
pub struct Metric {
    tree: Tree,
    sheet: Sheet,
    leaves: Vec<u64>,
    // the distance of leaves i and j at (i - 1) * n + j - 1, since a search asks for millions
    table: Vec<u64>,
}

impl Model for Metric {
    ghost use Rattle.bp_metric.specs.Metric.{MetricValue, IsSheet};
    ghost use Rattle.std.specs.Prelude.{◌≡◌, length};
    ghost use Rattle.bp_base.specs.Tree.{leaf_nodes};
    ghost use Rattle.bp_metric.specs.Table.{IsTable};

    ghost Value = { MetricValue };

    ghost view = { λ m. record { tree = m.tree; sheet = m.sheet } };

    ghost invariant = { λ m. (m.leaves.items ≡ leaf_nodes m.tree) × IsTable m.tree m.table.items × IsSheet m.sheet };
}

impl Metric {
    /// The metric of a tree on a sheet. A strip's width is at most 999,999.
    pub fn on(alloc: Global, tree: &Tree, sheet: Sheet) -> Result<Metric, NoMemory>
        requires { IsSheet sheet }
        ensures value { IfOk result (λ m. m ≡ record { tree = tree.now; sheet = sheet }) }
        ensures metric { IfOk result (λ m. IsMetric m) }
    {
        let copy = tree.copy(alloc)?;
        let leaves = leaves_of(alloc, &copy)?;
        let table = table_of(alloc, &copy, &leaves)?;
        Ok(Metric {
            tree: copy,
            sheet,
            leaves,
            table,
        })
    }

    /// The metric of a tree on a square.
    pub fn of(alloc: Global, tree: &Tree) -> Result<Metric, NoMemory>
        ensures value { IfOk result (λ m. m ≡ record { tree = tree.now; sheet = Square }) }
        ensures metric { IfOk result (λ m. IsMetric m) }
    {
        Metric::on(alloc, tree, Sheet::Square)
    }

    /// The tree.
    pub fn tree(&self) -> &Tree
        ensures tree { result.now ≡ self.now.tree }
        ensures metric { IsMetric self.now }
    {
        let _tree = self.tree.parents();
        &self.tree
    }

    /// Gives its tree back. It takes no memory.
    pub fn into_tree(self) -> Tree
        ensures { result ≡ self.tree }
    {
        self.tree
    }

    pub fn sheet(&self) -> Sheet
        ensures sheet { result ≡ self.now.sheet }
        ensures metric { IsMetric self.now }
    {
        let _tree = self.tree.parents();
        self.sheet
    }

    /// Puts the tips on another sheet. It takes no memory. A strip's width is at most 999,999.
    pub fn set_sheet(&mut self, sheet: Sheet)
        requires { IsSheet sheet }
        ensures { self.new ≡ record { tree = self.old.tree; sheet = sheet } }
    {
        self.sheet = sheet;
    }

    /// The number of leaves.
    pub fn leaves(&self) -> u64
        ensures count { result ≡ leaf_count self.now.tree }
        ensures metric { IsMetric self.now }
    {
        let _tree = self.tree.parents();
        self.leaves.len() as u64
    }

    /// The node of a leaf.
    pub fn leaf_node(&self, leaf: u64) -> u64
        requires { IsLeaf self.now.tree leaf }
        ensures node { result ≡ leaf_node self.now.tree leaf }
        ensures within { result < node_count self.now.tree }
    {
        let _tree = self.tree.parents();
        self.leaves[leaf as usize - 1]
    }

    /// The distance of two leaves, in grid units.
    pub fn dist(&self, i: u64, j: u64) -> u64
        requires i { IsLeaf self.now.tree i }
        requires j { IsLeaf self.now.tree j }
        ensures value { result ≡ leaf_dist self.now.tree i j }
        ensures small { result ≤ most_distance }
    {
        let _tree = self.tree.parents();
        let place = (i as usize - 1) * self.leaves.len() + (j as usize - 1);
        self.table[place]
    }

    /// Whether a leaf lies below an edge.
    pub fn below(&self, leaf: u64, edge: u64) -> bool
        requires leaf { IsLeaf self.now.tree leaf }
        requires edge { IsEdge self.now.tree edge }
        ensures { result ≡ leaf_below self.now.tree leaf edge }
    {
        is_below(&self.tree, self.leaf_node(leaf), edge)
    }

    /// The distance of a leaf and the upper node of an edge above it, in grid units.
    pub fn reach_radius(&self, leaf: u64, edge: u64) -> u64
        requires leaf { IsLeaf self.now.tree leaf }
        requires edge { IsEdge self.now.tree edge }
        requires below { IsTrue (leaf_below self.now.tree leaf edge) }
        ensures value { result ≡ radius self.now.tree leaf edge }
        ensures small { result ≤ most_distance }
    {
        let upper = self.tree.parents()[edge as usize];
        distance(&self.tree, self.leaf_node(leaf), upper)
    }

    /// Whether two leaves have the same parent and equal lengths.
    #[tactic(auto, unfolding(crate::specs::Choices::are_twins))]
    pub fn twins(&self, i: u64, j: u64) -> bool
        requires i { IsLeaf self.now.tree i }
        requires j { IsLeaf self.now.tree j }
        ensures { result ≡ are_twins self.now.tree i j }
    {
        let first = self.leaf_node(i) as usize;
        let second = self.leaf_node(j) as usize;
        let parents = self.tree.parents();
        let lengths = self.tree.lengths();
        parents[first] == parents[second] && lengths[first] == lengths[second]
    }
}
