// What is answered for each length of the path.
ghost use Rattle.std.specs.Prelude.{◌≡◌, ◌+◌, ◌≤◌, ◌<◌, ℕ, IfOk, length, All};
ghost use Rattle.bp_base.specs.Tree.{leaf_count};
ghost use Rattle.bp_metric.specs.Chains.{HasPairsOf};
ghost use Rattle.bp_warm.specs.Links.{AreLinks, reversed};
ghost use Rattle.bp_warm.specs.Raising.{IsExact};
ghost use Rattle.bp_warm.specs.Kept.{IsFrame, IsLong};

use crate::links::Links;
use crate::showing::{greatest_leaf, shown_chain};
use bp_base::{Axis, Chain, Claim, Least, NoMemory, Sequence, Step};
use bp_metric::Metric;
use bp_walks::judge_greatest;
use std::alloc::Global;

// A frame that says nothing yet.
fn blank(alloc: Global, n: u64) -> Result<Least, NoMemory>
    requires { n < 33 }
    ensures { IfOk result (λ l. (length l.xs ≡ n) × (length l.ys ≡ n)) }
{
    let zeros = [0; 33];
    let row = &zeros[..n as usize];
    let chain = match Chain::new(alloc, &[1]) {
        Some(chain) => chain,
        None => unreachable!(),
    };
    Ok(Least {
        xs: Sequence::from_vec(Vec::from_slice(alloc, row)?),
        ys: Sequence::from_vec(Vec::from_slice(alloc, row)?),
        forced: 0,
        claim: Claim::Walk {
            axis: Axis::X,
            chain,
        },
    })
}

// So many blank frames.
pub fn blanks(alloc: Global, n: u64, count: usize) -> Result<Vec<Least>, NoMemory>
    requires { n < 33 }
    ensures each { IfOk result (λ v. length v.items ≡ count) }
    ensures long { IfOk result (λ v. All (λ l. (length l.xs ≡ n) × (length l.ys ≡ n)) v.items) }
{
    let mut frames = Vec::with_capacity(alloc, count)?;
    for _ in 0..count {
        frames.push(blank(alloc, n)?)?;
    }
    Ok(frames)
}

// Writes what is answered for these rows into a frame.
pub fn fill(
    alloc: Global,
    metric: &Metric,
    steps: &[Step],
    xs: &[u64],
    ys: &[u64],
    x_before: &Links,
    y_before: &Links,
    frame: &mut Least,
)
    requires pairs { HasPairsOf (leaf_count metric.now.tree) steps.now }
    requires x { IsExact metric.now.tree steps.now Axis.X xs.now }
    requires y { IsExact metric.now.tree steps.now Axis.Y ys.now }
    requires links_x { AreLinks (reversed Axis.X) steps.now x_before.now }
    requires links_y { AreLinks (reversed Axis.Y) steps.now y_before.now }
    requires long { IsLong metric.now.tree frame.old }
    ensures frame { IsFrame metric.now.tree metric.now.sheet steps.now frame.new }
    ensures xs { frame.new.xs ≡ xs.now }
    ensures ys { frame.new.ys ≡ ys.now }
{
    let _leaves = metric.leaves();
    let x = greatest_leaf(xs);
    let y = greatest_leaf(ys);
    let judged = judge_greatest(metric.sheet(), xs[x as usize - 1], ys[y as usize - 1]);
    let chain = match judged.axis {
        Axis::X => shown_chain(alloc, metric, steps, Axis::X, x_before, xs, x),
        Axis::Y => shown_chain(alloc, metric, steps, Axis::Y, y_before, ys, y),
    };
    frame.xs.copy_from(xs);
    frame.ys.copy_from(ys);
    frame.forced = judged.forced;
    frame.claim = Claim::Walk {
        axis: judged.axis,
        chain,
    };
}
