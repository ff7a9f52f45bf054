// Floors of worked trees.
ghost use Rattle.bp_metric.specs.Metric.{IsSheet};

use bp_base::{Floor, NoMemory, Sequence, Sheet, Tree};
use bp_floor::{floor, floor_holds, floor_within_opening, has_floor, law_of_floors, one_floor};
use bp_metric::Metric;
use bp_samples::tree;
use std::alloc::Global;
use std::process::Abort;
use std::test::Fail;

// The tree's floor on the sheet, and that no other side holds for its leaves.
fn is_floor(
    rt: &impl Abort,
    alloc: Global,
    tree: &Tree,
    sheet: Sheet,
    m: u64,
    side: u64,
    leaves: &[u64],
) -> Result<(), NoMemory>
    requires { IsSheet sheet }
{
    let metric = Metric::on(alloc, tree, sheet)?;
    let found = floor(alloc, &metric)?;
    assert_eq!(rt; found.m, m);
    assert_eq!(rt; found.side, side);
    assert_eq!(rt; found.leaves.as_slice(), leaves);
    assert!(rt; floor_holds(&metric, &found));
    let more = Floor {
        m: found.m,
        leaves: found.leaves,
        side: found.side + 1,
    };
    assert!(rt; !floor_holds(&metric, &more));
    law_of_floors(&metric);
    floor_within_opening(&metric);
    one_floor(&metric);
    has_floor(&metric);
    Ok(())
}

#[test]
fn floors(rt: HostRuntime) -> Result<(), Fail> {
    let alloc = rt.alloc();
    let four = tree(alloc, &[0, 0, 0, 0, 0], &[0, 1, 1, 1, 1])?;
    is_floor(&rt, alloc, &four, Sheet::Square, 2, 2, &[1, 2, 3, 4])?;
    is_floor(
        &rt,
        alloc,
        &four,
        Sheet::Strip { width: 0 },
        2,
        6,
        &[1, 2, 3, 4],
    )?;
    let three = tree(alloc, &[0, 0, 0, 0], &[0, 1, 1, 1])?;
    is_floor(
        &rt,
        alloc,
        &three,
        Sheet::Strip { width: 4 },
        2,
        0,
        &[1, 2, 3],
    )?;
    let uneven = tree(alloc, &[0, 0, 0, 0, 0, 0], &[0, 2, 2, 2, 1, 1])?;
    is_floor(&rt, alloc, &uneven, Sheet::Square, 2, 4, &[1, 2, 3, 4, 5])?;
    is_floor(
        &rt,
        alloc,
        &uneven,
        Sheet::Strip { width: 5 },
        4,
        4,
        &[1, 2, 3],
    )?;
    let twigs = tree(alloc, &[0, 0, 0, 1, 1, 2, 2], &[0, 2, 2, 1, 1, 1, 1])?;
    is_floor(&rt, alloc, &twigs, Sheet::Square, 6, 6, &[1, 3])?;
    Ok(())
}

#[test]
fn floors_from_outside(rt: HostRuntime) -> Result<(), Fail> {
    let alloc = rt.alloc();
    let four = tree(alloc, &[0, 0, 0, 0, 0], &[0, 1, 1, 1, 1])?;
    let metric = Metric::of(alloc, &four)?;
    let end = u64::MAX;
    for (m, side, leaves, holds) in [
        (2, 2, [1, 2], true),
        (1, 1, [3, 4], true),
        (end, 0, [1, 2], false),
        (3, 3, [1, 2], false),
        (0, 0, [1, 2], false),
        (2, 2, [2, 1], false),
        (2, 2, [1, 1], false),
        (2, 2, [0, 1], false),
        (2, 2, [1, 5], false),
        (2, 2, [1, end], false),
        (2, end, [1, 2], false),
    ] {
        let leaves = Sequence::from_vec(Vec::from_array(alloc, leaves)?);
        let given = Floor { m, leaves, side };
        assert_eq!(rt; floor_holds(&metric, &given), holds, "{m} {side}");
    }
    let one = Floor {
        m: end,
        leaves: Sequence::from_vec(Vec::from_array(alloc, [3])?),
        side: 0,
    };
    assert!(rt; floor_holds(&metric, &one));
    let none = Floor {
        m: 1,
        leaves: Sequence::new(alloc),
        side: 0,
    };
    assert!(rt; !floor_holds(&metric, &none));
    Ok(())
}
