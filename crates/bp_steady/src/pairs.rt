// The next pair, by a row of least coordinates.
ghost use Rattle.std.specs.Prelude.{◌≡◌, ◌+◌, ◌≤◌, ◌<◌, ◌↔◌, IsTrue};
ghost use Rattle.bp_base.specs.Tree.{leaf_count};
ghost use Rattle.bp_metric.specs.Valid.{IsPair};
ghost use Rattle.bp_steady.specs.Searching.{AreNear, IsBest};

use bp_base::Pair;
use bp_metric::Metric;

// The near pair of greatest distance, of least number on ties.
pub fn farthest(metric: &Metric, row: &[u64; 64]) -> Option<Pair>
    ensures { IsBest metric.now.tree row.now (leaf_count metric.now.tree) 0 result }
{
    let mut best = None;
    for i in 1..metric.leaves() {
        best = best_with(metric, row, i, best);
    }
    best
}

// The same, with the pairs that begin with leaf i.
fn best_with(metric: &Metric, row: &[u64; 64], i: u64, before: Option<Pair>) -> Option<Pair>
    requires leaf { (1 ≤ i) × (i < leaf_count metric.now.tree) }
    requires best { IsBest metric.now.tree row.now i 0 before }
    ensures { IsBest metric.now.tree row.now (i + 1) 0 result }
{
    let n = metric.leaves();
    let mut best = before;
    for j in i + 1..n + 1 {
        best = better(metric, row, Pair { i, j }, best);
    }
    best
}

// The pair, where it is near and farther than the best, or else the best.
fn better(metric: &Metric, row: &[u64; 64], pair: Pair, best: Option<Pair>) -> Option<Pair>
    requires pair { IsPair metric.now.tree pair.i pair.j }
    requires best { IsBest metric.now.tree row.now pair.i pair.j best }
    ensures { IsBest metric.now.tree row.now pair.i (pair.j + 1) result }
{
    match best {
        Some(p) if metric.dist(pair.i, pair.j) <= metric.dist(p.i, p.j) => best,
        _ if is_near(metric, row, pair) => Some(pair),
        _ => best,
    }
}

// Whether the leaves' points are nearer than their distance.
fn is_near(metric: &Metric, row: &[u64; 64], pair: Pair) -> bool
    requires { IsPair metric.now.tree pair.i pair.j }
    ensures { IsTrue result ↔ AreNear metric.now.tree row.now pair.i pair.j }
{
    let _leaves = metric.leaves();
    let i = 2 * (pair.i as usize - 1);
    let j = 2 * (pair.j as usize - 1);
    let gap = row[i].abs_diff(row[j]).max(row[i + 1].abs_diff(row[j + 1]));
    gap < metric.dist(pair.i, pair.j)
}
