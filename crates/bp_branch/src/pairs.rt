// The next pair of a path, by its least coordinates.
ghost use Rattle.std.specs.Prelude.{◌≡◌, ◌+◌, ◌≤◌, ◌<◌, ◌↔◌, IsTrue, List, length};
ghost use Rattle.bp_base.specs.declared.path.Step.{Step};
ghost use Rattle.bp_base.specs.Tree.{leaf_count};
ghost use Rattle.bp_metric.specs.Coordinates.{IsLeast};
ghost use Rattle.bp_metric.specs.Next.{IsNext};
ghost use Rattle.bp_metric.specs.Valid.{IsPair};
ghost use Rattle.bp_branch.specs.Nearest.{AreNear, IsBest};

use bp_base::{Least, Pair};
use bp_metric::Metric;

/// The pair of greatest distance among those whose low points are nearer than their distance, of least number on ties; none
/// exactly where no pair is. The coordinates are the least ones of a path.
pub fn next_pair(metric: &Metric, least: &Least) -> Option<Pair>
    requires { (path : List Step) × IsLeast metric.now.tree metric.now.sheet path least.now }
    ensures { (path : List Step) → IsLeast metric.now.tree metric.now.sheet path least.now → IsNext metric.now.tree path result }
{
    farthest(metric, least.xs.as_slice(), least.ys.as_slice())
}

// The near pair of greatest distance.
fn farthest(metric: &Metric, xs: &[u64], ys: &[u64]) -> Option<Pair>
    requires xs { length xs.now ≡ leaf_count metric.now.tree }
    requires ys { length ys.now ≡ leaf_count metric.now.tree }
    ensures { IsBest metric.now.tree xs.now ys.now (leaf_count metric.now.tree) 0 result }
{
    let mut best = None;
    for i in 1..metric.leaves() {
        best = best_with(metric, xs, ys, i, best);
    }
    best
}

// The same, with the pairs that begin with leaf i.
fn best_with(metric: &Metric, xs: &[u64], ys: &[u64], i: u64, before: Option<Pair>) -> Option<Pair>
    requires xs { length xs.now ≡ leaf_count metric.now.tree }
    requires ys { length ys.now ≡ leaf_count metric.now.tree }
    requires leaf { (1 ≤ i) × (i < leaf_count metric.now.tree) }
    requires best { IsBest metric.now.tree xs.now ys.now i 0 before }
    ensures { IsBest metric.now.tree xs.now ys.now (i + 1) 0 result }
{
    let mut best = before;
    for j in i + 1..metric.leaves() + 1 {
        best = better(metric, xs, ys, Pair { i, j }, best);
    }
    best
}

// The pair, where it is near and farther than the best, or else the best.
fn better(metric: &Metric, xs: &[u64], ys: &[u64], pair: Pair, best: Option<Pair>) -> Option<Pair>
    requires xs { length xs.now ≡ leaf_count metric.now.tree }
    requires ys { length ys.now ≡ leaf_count metric.now.tree }
    requires pair { IsPair metric.now.tree pair.i pair.j }
    requires best { IsBest metric.now.tree xs.now ys.now pair.i pair.j best }
    ensures { IsBest metric.now.tree xs.now ys.now pair.i (pair.j + 1) result }
{
    match best {
        Some(p) if metric.dist(pair.i, pair.j) <= metric.dist(p.i, p.j) => best,
        _ if is_near(metric, xs, ys, pair) => Some(pair),
        _ => best,
    }
}

// Whether the leaves' points are nearer than their distance.
pub fn is_near(metric: &Metric, xs: &[u64], ys: &[u64], pair: Pair) -> bool
    requires xs { length xs.now ≡ leaf_count metric.now.tree }
    requires ys { length ys.now ≡ leaf_count metric.now.tree }
    requires pair { IsPair metric.now.tree pair.i pair.j }
    ensures { IsTrue result ↔ AreNear metric.now.tree xs.now ys.now pair.i pair.j }
{
    let i = pair.i as usize - 1;
    let j = pair.j as usize - 1;
    let gap = xs[i].abs_diff(xs[j]).max(ys[i].abs_diff(ys[j]));
    gap < metric.dist(pair.i, pair.j)
}
