// Swaps of a star.

use bp_arrangement::*;
use bp_base::{Pair, Sequence, Tree};
use bp_metric::Metric;
use bp_samples::tree;
use std::alloc::Global;
use std::test::Fail;

// Seven leaves on one node: four of length 2, and three of length 1.
fn star(alloc: Global) -> Result<Tree, Fail> {
    Ok(tree(alloc, &[0; 8], &[0, 2, 2, 2, 2, 1, 1, 1])?)
}

#[test]
fn swaps(rt: HostRuntime) -> Result<(), Fail> {
    let alloc = rt.alloc();
    let metric = Metric::of(alloc, &star(alloc)?)?;
    let pairs = |swap: [(u64, u64); 2]| swap.map(|(i, j)| Pair { i, j });
    for (swap, wanted) in [
        ([(3, 4), (5, 6)], true),
        // both pairs the other way round
        ([(7, 5), (4, 3)], true),
        // leaves 1 and 2 are the corner
        ([(1, 3), (5, 6)], false),
        ([(5, 6), (3, 2)], false),
        // a leaf twice
        ([(3, 4), (4, 3)], false),
        ([(5, 5), (3, 4)], false),
        // other distances
        ([(3, 5), (6, 7)], false),
        // no leaf
        ([(3, 4), (5, 8)], false),
        ([(0, 3), (5, 6)], false),
    ] {
        assert!(rt;
            is_admissible(&metric, 1, 2, &pairs(swap)) == wanted,
            "{swap:?}"
        );
    }
    assert!(rt; !is_admissible(&metric, 1, 2, &[]));
    assert!(rt; head(&pairs([(7, 5), (4, 3)])) == Pair { i: 3, j: 4 });
    Ok(())
}

#[test]
fn lists_of_swaps(rt: HostRuntime) -> Result<(), Fail> {
    let alloc = rt.alloc();
    let metric = Metric::of(alloc, &star(alloc)?)?;
    law_of_arrangement(&metric);
    law_of_denials();
    law_of_codes();
    for ((a, b), wanted) in [
        ((1, 2), true),
        ((7, 5), true),
        ((3, 3), false),
        ((0, 1), false),
        ((1, 8), false),
    ] {
        assert!(rt; is_corner(&metric, a, b) == wanted);
    }
    let mut swaps = Vec::new(alloc);
    for (i, j) in [(3, 4), (6, 5), (5, 3)] {
        assert!(rt; first_inadmissible(&metric, 1, 2, &swaps).is_none());
        swaps.push(Sequence::from_vec(Vec::from_slice(alloc, &[Pair { i, j }])?))?;
    }
    assert!(rt; first_inadmissible(&metric, 1, 2, &swaps) == Some(3));
    assert!(rt; first_inadmissible(&metric, 1, 6, &swaps) == Some(2));
    Ok(())
}
