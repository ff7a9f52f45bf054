ghost use Rattle.std.specs.Prelude.{◌≡◌, ◌+◌, ◌≤◌, ◌<◌, ℕ, MatchOption, IfOk, length, slice_index};
ghost use Rattle.bp_base.specs.Tree.{leaf_count, IsLeaf};
ghost use Rattle.bp_metric.specs.Chains.{HasPairsOf, Places};
ghost use Rattle.bp_metric.specs.Coordinates.{IsLeast, IsLoop, IsWalked};
ghost use Rattle.bp_metric.specs.Distance.{leaf_dist};
ghost use Rattle.bp_walks.specs.Lows.{IsLowTable, places};

use crate::judging::judge_greatest;
use crate::lows::lows_on;
use crate::shown::{greatest_leaf, shown_chain};
use bp_base::{Axis, Chain, Claim, Least, NoMemory, Path, Sequence, Walked};
use bp_metric::Metric;
use std::alloc::Global;

/// The least coordinates of the path, in grid units, with the side that it forces and the chain that is shown for it; or a
/// cycle, exactly where the path has one. A cycle begins with its least leaf, and lies on x where x has one. Each step of the
/// path is for a pair of leaves.
pub fn least(alloc: Global, metric: &Metric, path: &Path) -> Result<Walked, NoMemory>
    requires { HasPairsOf (leaf_count metric.now.tree) path.now }
    ensures { IfOk result (λ walked. IsWalked metric.now.tree metric.now.sheet path.now walked) }
{
    let _leaves = metric.leaves();
    let xs = match lows_on(alloc, metric, path, Axis::X) {
        Ok(xs) => xs,
        Err(chain) => return Ok(Walked::Cycle(cycle(Axis::X, chain))),
    };
    let ys = match lows_on(alloc, metric, path, Axis::Y) {
        Ok(ys) => ys,
        Err(chain) => return Ok(Walked::Cycle(cycle(Axis::Y, chain))),
    };
    Ok(Walked::Fine(fine(alloc, metric, path, &xs, &ys)?))
}

fn cycle(axis: Axis, chain: Chain) -> Claim
    ensures { result ≡ Claim.Cycle axis chain }
{
    Claim::Cycle { axis, chain }
}

/// A cycle of the path on the axis that begins with its least leaf, or none exactly where it has none: then there are
/// coordinates that meet every step on the axis.
pub fn cycle_on(alloc: Global, metric: &Metric, path: &Path, axis: Axis) -> Option<Chain>
    requires { HasPairsOf (leaf_count metric.now.tree) path.now }
    ensures none { MatchOption result ((f : ℕ → ℕ) × ((a b : ℕ) → Places path.now axis a b → f a + leaf_dist metric.now.tree a b ≤ f b)) (λ chain. 1 ≤ 1) }
    ensures some { MatchOption result (1 ≤ 1) (λ chain. IsLoop (leaf_count metric.now.tree) path.now axis chain) }
{
    match lows_on(alloc, metric, path, axis) {
        Ok(_) => None,
        Err(chain) => Some(chain),
    }
}

fn fine(
    alloc: Global,
    metric: &Metric,
    path: &Path,
    xs: &[u64],
    ys: &[u64],
) -> Result<Least, NoMemory>
    requires pairs { HasPairsOf (leaf_count metric.now.tree) path.now }
    requires xs { IsLowTable metric.now.tree path.now Axis.X xs.now }
    requires ys { IsLowTable metric.now.tree path.now Axis.Y ys.now }
    ensures { IfOk result (λ l. IsLeast metric.now.tree metric.now.sheet path.now l) }
{
    let n = metric.leaves();
    let end = n as usize + 1;
    let x = greatest_leaf(n, xs);
    let y = greatest_leaf(n, ys);
    let judged = judge_greatest(metric.sheet(), xs[x as usize], ys[y as usize]);
    let chain = match judged.axis {
        Axis::X => shown_chain(alloc, metric, path, judged.axis, xs, x),
        Axis::Y => shown_chain(alloc, metric, path, judged.axis, ys, y),
    };
    Ok(Least {
        xs: Sequence::from_vec(Vec::from_slice(alloc, &xs[1..end])?),
        ys: Sequence::from_vec(Vec::from_slice(alloc, &ys[1..end])?),
        forced: judged.forced,
        claim: Claim::Walk {
            axis: judged.axis,
            chain,
        },
    })
}
