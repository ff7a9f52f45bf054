// One axis of a path, and both together.
ghost use Rattle.std.specs.Prelude.{◌≡◌, ◌≢◌, ◌<◌, ◌≤◌, ◌++◌, ◌∷◌, [], ℕ, MatchOption, length};
ghost use Rattle.bp_base.specs.Path.{IsPairOf};
ghost use Rattle.bp_base.specs.Tree.{leaf_count, IsLeaf};
ghost use Rattle.bp_metric.specs.Chains.{HasPairsOf};
ghost use Rattle.bp_metric.specs.Coordinates.{IsLoop, IsCycleShown};
ghost use Rattle.bp_warm.specs.Links.{IsOrder, other};
ghost use Rattle.bp_warm.specs.Raising.{IsExact};
ghost use Rattle.bp_warm.specs.Warm.{pair_count};
ghost use Rattle.bp_warm.specs.Kept.{IsHalf, IsSameHalf};

use crate::growing::grow;
use crate::links::Links;
use crate::orders::Order;
use crate::work::Work;
use bp_base::{Axis, Chain, Claim, Least, Step, Tree};
use bp_metric::Metric;
use std::alloc::Global;

// A row of coordinates, and which leaves the path places after and before each.
#[derive(Drop)]
pub struct Half {
    pub row: Vec<u64>,
    pub after: Links,
    pub before: Links,
}

// The half of the step's axis for the longer path, or a cycle: then it is as it was.
fn grow_half(
    alloc: Global,
    metric: &Metric,
    steps: &[Step],
    step: Step,
    order: Order,
    old: &[u64],
    half: &mut Half,
    work: &mut Work,
) -> Option<Chain>
    requires pairs { HasPairsOf (leaf_count metric.now.tree) steps.now }
    requires pair { IsPairOf (leaf_count metric.now.tree) step.pair }
    requires order { IsOrder step.pair step.choice order.axis order.first order.second }
    requires first { IsLeaf metric.now.tree order.first }
    requires second { IsLeaf metric.now.tree order.second }
    requires differ { order.first ≢ order.second }
    requires half { IsHalf metric.now.tree steps.now order.axis half.old.row.items half.old.after half.old.before }
    requires same { half.old.row.items ≡ old.now }
    requires room { length steps.now < pair_count metric.now.tree }
    ensures none { MatchOption result (IsHalf metric.now.tree (steps.now ++ step ∷ []) order.axis half.new.row.items half.new.after half.new.before) (λ chain. IsLoop (leaf_count metric.now.tree) (steps.now ++ step ∷ []) order.axis chain) }
    ensures some { MatchOption result (1 ≤ 1) (λ chain. IsSameHalf half.old half.new) }
{
    let _leaves = metric.leaves();
    let cycle = grow(
        alloc,
        metric,
        steps,
        step,
        order.axis,
        &half.after,
        old,
        &mut half.row,
        work,
        order.first,
        order.second,
    );
    match cycle {
        None => {
            half.after.add(order.first, order.second);
            half.before.add(order.second, order.first);
            None
        }
        Some(chain) => Some(chain),
    }
}

// Both halves for the longer path, or a cycle: then they are as they were.
pub fn grow_both(
    alloc: Global,
    metric: &Metric,
    steps: &[Step],
    step: Step,
    order: Order,
    frame: &Least,
    x: &mut Half,
    y: &mut Half,
    work: &mut Work,
) -> Option<Claim>
    requires pairs { HasPairsOf (leaf_count metric.now.tree) steps.now }
    requires pair { IsPairOf (leaf_count metric.now.tree) step.pair }
    requires order { IsOrder step.pair step.choice order.axis order.first order.second }
    requires x { IsHalf metric.now.tree steps.now Axis.X x.old.row.items x.old.after x.old.before }
    requires y { IsHalf metric.now.tree steps.now Axis.Y y.old.row.items y.old.after y.old.before }
    requires same_x { x.old.row.items ≡ frame.now.xs }
    requires same_y { y.old.row.items ≡ frame.now.ys }
    requires room { length steps.now < pair_count metric.now.tree }
    ensures x { MatchOption result (IsHalf metric.now.tree (steps.now ++ step ∷ []) Axis.X x.new.row.items x.new.after x.new.before) (λ claim. IsSameHalf x.old x.new) }
    ensures y { MatchOption result (IsHalf metric.now.tree (steps.now ++ step ∷ []) Axis.Y y.new.row.items y.new.after y.new.before) (λ claim. IsSameHalf y.old y.new) }
    ensures cycle { MatchOption result (1 ≤ 1) (λ claim. IsCycleShown (leaf_count metric.now.tree) (steps.now ++ step ∷ []) claim) }
{
    let _leaves = metric.leaves();
    match order.axis {
        Axis::X => {
            let old = frame.xs.as_slice();
            match grow_half(alloc, metric, steps, step, order, old, x, work) {
                None => None,
                Some(chain) => Some(Claim::Cycle {
                    axis: Axis::X,
                    chain,
                }),
            }
        }
        Axis::Y => {
            let old = frame.ys.as_slice();
            match grow_half(alloc, metric, steps, step, order, old, y, work) {
                None => None,
                Some(chain) => Some(Claim::Cycle {
                    axis: Axis::Y,
                    chain,
                }),
            }
        }
    }
}

// Both halves for the path without its last step, whose frame this is.
pub fn shrink_both(
    _tree: &Tree,
    _steps: &[Step],
    _step: Step,
    order: Order,
    frame: &Least,
    x: &mut Half,
    y: &mut Half,
)
    requires pair { IsPairOf (leaf_count _tree.now) _step.pair }
    requires order { IsOrder _step.pair _step.choice order.axis order.first order.second }
    requires few { leaf_count _tree.now < 33 }
    requires x { IsHalf _tree.now (_steps.now ++ _step ∷ []) Axis.X x.old.row.items x.old.after x.old.before }
    requires y { IsHalf _tree.now (_steps.now ++ _step ∷ []) Axis.Y y.old.row.items y.old.after y.old.before }
    requires frame_x { IsExact _tree.now _steps.now Axis.X frame.now.xs }
    requires frame_y { IsExact _tree.now _steps.now Axis.Y frame.now.ys }
    ensures x { IsHalf _tree.now _steps.now Axis.X x.new.row.items x.new.after x.new.before }
    ensures y { IsHalf _tree.now _steps.now Axis.Y y.new.row.items y.new.after y.new.before }
    ensures row_x { x.new.row.items ≡ frame.now.xs }
    ensures row_y { y.new.row.items ≡ frame.now.ys }
{
    x.row.copy_from_slice(frame.xs.as_slice());
    y.row.copy_from_slice(frame.ys.as_slice());
    match order.axis {
        Axis::X => {
            x.after.remove(order.first);
            x.before.remove(order.second);
        }
        Axis::Y => {
            y.after.remove(order.first);
            y.before.remove(order.second);
        }
    }
}
