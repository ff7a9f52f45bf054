// What arranges placements: a corner, or a mirror with its tables.
ghost use Rattle.std.specs.Prelude.{◌≡◌, ◌<◌, ◌≤◌, ℕ, IfOk, length, slice_index_or};
ghost use Rattle.bp_base.specs.declared.point.Axis.{Axis as AnyAxis};
ghost use Rattle.bp_base.specs.Tree.{TreeValue, leaf_count};
ghost use Rattle.bp_lemmas.specs.Systems.{Order};
ghost use Rattle.bp_lemmas.specs.Trees.{are_two_leaves};
ghost use Rattle.bp_mirror.specs.Systems.{mirror_order};
ghost use Rattle.bp_replay.specs.declared.relation.Relation.{Relation as AnyRelation};
ghost use Rattle.bp_replay.specs.Cells.{first_name, names, order_named, rows};
ghost use Rattle.bp_replay.specs.Readings.{order_as};
ghost use Rattle.bp_replay.specs.Tables.{AreFirst};

use crate::cell::{axis_at, leaf_at};
use crate::reading::Readings;
use crate::relation::{Relation, is_same};
use bp_base::{NoMemory, Pair};
use bp_metric::Metric;
use std::alloc::Global;

#[derive(Drop)]
pub enum Ties {
    Corner { corner: Pair },
    // with the first name of the order of each name
    Mirror { readings: Readings, first: Vec<u16> },
}

// The first name of the order of each name.
pub fn first_names(
    alloc: Global,
    metric: &Metric,
    readings: &Readings,
) -> Result<Vec<u16>, NoMemory>
    requires few { leaf_count metric.now.tree < rows }
    ensures { IfOk result (λ first. AreFirst metric.now.tree (mirror_order metric.now.tree readings.now.kind readings.now.pairs) first.items) }
{
    let orders = orders_of(alloc, metric, readings)?;
    let mut first = Vec::with_capacity(alloc, 2178)?;
    for name in 0..2178 {
        first.push(first_name(&orders, name) as u16)?;
    }
    Ok(first)
}

// The order by each name.
fn orders_of(alloc: Global, metric: &Metric, readings: &Readings) -> Result<Vec<Relation>, NoMemory>
    requires few { leaf_count metric.now.tree < rows }
    ensures each { IfOk result (λ orders. length orders.items ≡ names) }
    ensures named { IfOk result (λ orders. (d : AnyRelation) (n : ℕ) → n < names → order_as (slice_index_or orders.items n d) ≡ order_named metric.now.tree (mirror_order metric.now.tree readings.now.kind readings.now.pairs) n) }
{
    let mut orders = Vec::with_capacity(alloc, 2178)?;
    for name in 0..2178 {
        orders.push(order_at(metric, readings, name))?;
    }
    Ok(orders)
}

fn order_at(metric: &Metric, readings: &Readings, name: usize) -> Relation
    requires few { leaf_count metric.now.tree < rows }
    requires name { name < names }
    ensures { order_as result ≡ order_named metric.now.tree (mirror_order metric.now.tree readings.now.kind readings.now.pairs) name }
{
    let place = name / 33;
    let first = leaf_at(place);
    let second = (name % 33) as u64;
    if are_two(metric, first, second) {
        return readings.relation(metric, axis_at(place), first, second);
    }
    Relation::Never
}

fn are_two(metric: &Metric, i: u64, j: u64) -> bool
    ensures { result ≡ are_two_leaves metric.now.tree i j }
{
    let leaves = metric.leaves();
    i >= 1 && i <= leaves && (j >= 1 && j <= leaves) && i != j
}

// The first name of the order by a name.
fn first_name(orders: &[Relation], name: usize) -> usize
    requires each { length orders.now ≡ names }
    requires name { name < names }
    ensures first { (T : TreeValue) (order : AnyAxis → ℕ → ℕ → Order) → ((d : AnyRelation) (n : ℕ) → n < names → order_as (slice_index_or orders.now n d) ≡ order_named T order n) → result ≡ first_name T order name }
    ensures within { result ≤ name }
{
    for earlier in 0..name {
        if is_same(orders[earlier], orders[name]) {
            return earlier;
        }
    }
    name
}
