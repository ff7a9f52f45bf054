// Lists that are chains or cycles of a path, and lists that aren't.
use bp_base::{Axis, Chain, Choice, Claim, Path};
use bp_chain::{claim_holds, weight};
use bp_metric::Metric;
use bp_samples::{step, tree};
use std::alloc::Global;
use std::test::Fail;

fn chain(alloc: Global, leaves: &[u64]) -> Result<Chain, Fail> {
    match Chain::new(alloc, leaves) {
        Some(chain) => Ok(chain),
        None => Err(Fail::from("no chain")),
    }
}

// Whether the list is a cycle.
fn is_cycle(alloc: Global, path: &Path, axis: Axis, leaves: &[u64]) -> Result<bool, Fail> {
    let chain = chain(alloc, leaves)?;
    Ok(claim_holds(path, 5, &Claim::Cycle { axis, chain }))
}

// The weight of the list where it is a chain.
fn weighed(
    alloc: Global,
    metric: &Metric,
    path: &Path,
    axis: Axis,
    leaves: &[u64],
) -> Result<Option<u64>, Fail> {
    let chain = chain(alloc, leaves)?;
    let walk = Claim::Walk { axis, chain };
    if !claim_holds(path, metric.leaves(), &walk) {
        return Ok(None);
    }
    match &walk {
        Claim::Walk { chain, .. } => Ok(Some(weight(metric, chain))),
        Claim::Cycle { .. } => Ok(None),
    }
}

#[test]
fn lists(rt: HostRuntime) -> Result<(), Fail> {
    let alloc = rt.alloc();
    let star = tree(alloc, &[0; 6], &[0, 2, 2, 2, 1, 1])?;
    let metric = Metric::of(alloc, &star)?;
    let mut path = Path::empty(alloc);
    path.push(step(1, 2, Choice::Left))?;
    path.push(step(2, 3, Choice::Left))?;
    path.push(step(1, 3, Choice::Right))?;
    path.push(step(3, 4, Choice::Below))?;
    path.push(step(2, 4, Choice::Above))?;
    let (x, y) = (Axis::X, Axis::Y);
    let rows: [(Axis, &[u64], Option<u64>, bool); 13] = [
        (x, &[1], Some(0), false),
        (x, &[1, 2], Some(4), false),
        (x, &[1, 2, 3], Some(8), true),
        (x, &[2, 3, 1], Some(8), true),
        (x, &[1, 3], None, false),
        (x, &[1, 2, 3, 1], None, false),
        (x, &[1, 1], None, false),
        (x, &[0], None, false),
        (x, &[6], None, false),
        (x, &[17, 1], None, false),
        (y, &[1, 2], None, false),
        (y, &[3, 4, 2], Some(6), false),
        (y, &[2, 4, 3], None, false),
    ];
    for (axis, leaves, wanted, closed) in rows {
        let found = weighed(alloc, &metric, &path, axis, leaves)?;
        assert_eq!(rt; found, wanted, "{leaves:?}");
        assert_eq!(rt; is_cycle(alloc, &path, axis, leaves)?, closed, "{leaves:?}");
    }
    Ok(())
}
