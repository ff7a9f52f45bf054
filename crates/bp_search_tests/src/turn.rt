// The turns of a root: it is split while it has to beat more than it forces, and else closed.
ghost use Rattle.std.specs.Prelude.{◌≤◌};
ghost use Rattle.bp_base.specs.Limits.{most_number};

use bp_base::{NoMemory, Pair, Path, RecordKind, Sequence, Sheet, Task};
use bp_branch::law_of_branches;
use bp_metric::Metric;
use bp_samples::tree;
use bp_turn::{Examiner, Turn};
use std::alloc::Global;
use std::process::Abort;
use std::test::Fail;

// Examines the root for a hand that knows a side, and gives how many children it has.
fn root_turn(
    rt: &impl Abort,
    alloc: Global,
    metric: &Metric,
    bound: u64,
    known: u64,
) -> Result<usize, NoMemory>
    requires { bound ≤ most_number }
{
    law_of_branches(metric);
    let mut examiner = Examiner::open(alloc, metric)?;
    let mut children = Sequence::new(alloc);
    let path = Path::empty(alloc);
    let turn = examiner.examine(alloc, metric, Task { path, bound }, known, 5, &mut children)?;
    let Turn { record, placement } = turn;
    assert!(rt; placement.is_none());
    assert_eq!(rt; record.path.len(), 0);
    assert_eq!(rt; record.ticket, 5);
    assert_eq!(rt; record.given, bound);
    assert_eq!(rt; record.bound, bound.min(known));
    match record.kind {
        RecordKind::Split { pair } => {
            assert_eq!(rt; pair, Pair { i: 1, j: 2 });
            for child in children.as_slice() {
                assert_eq!(rt; child.bound, record.bound);
                assert_eq!(rt; child.path.len(), 1);
            }
        }
        RecordKind::Closed { .. } => assert_eq!(rt; record.bound, 0),
    }
    Ok(children.len())
}

#[test]
fn turns_of_roots(rt: HostRuntime) -> Result<(), Fail> {
    let alloc = rt.alloc();
    let two = tree(alloc, &[0, 0, 0], &[0, 3, 4])?;
    let square = Metric::of(alloc, &two)?;
    let strip = Metric::on(alloc, &two, Sheet::Strip { width: 9 })?;
    let rows = [
        (7, 7, 1, 2),
        (8, 6, 1, 2),
        (6, 8, 1, 2),
        (7, 0, 0, 0),
        (0, 7, 0, 0),
    ];
    for (bound, known, on_square, on_strip) in rows {
        assert_eq!(&rt; root_turn(&rt, alloc, &square, bound, known)?, on_square);
        assert_eq!(&rt; root_turn(&rt, alloc, &strip, bound, known)?, on_strip);
    }
    Ok(())
}
