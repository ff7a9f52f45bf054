// `design --steady`: the least list of coordinates, whatever the workers did.
use super::searches::{SPENT, STAR, WHOLE};
use super::{NONE, check, leave};
use std::process::Abort;
use std::test::Fail;
use std::thread::Threads;

const FIVE: &str = "c p 1\nc q 1\nc r 1\nc s 1\nc t 1\n";

const STEADY_FIVE: &str =
    "boxpleat 2\nsheet square\nedges 5\nedge c p 1\nedge c q 1\nedge c r 1\nedge c s 1\nedge c t 1\nside 4\nbound 4\npoint p 0 0\npoint q 0 2\npoint r 0 4\npoint s 2 0\npoint t 2 2\nfloor 2 4 1 2 3 4 5\nproof none\nend\n";

// The opening puts the second flap to the right of the first, at the same height.
const STEADY_STRIP: &str =
    "boxpleat 2\nsheet strip 5\nedges 5\nedge c p 2\nedge c q 2\nedge c r 2\nedge c s 1\nedge c t 1\nside 4\nbound 4\npoint p 0 0\npoint q 0 4\npoint r 4 0\npoint s 3 3\npoint t 5 3\nfloor 4 4 1 2 3\nproof none\nend\n";

// Where no search is needed the opening's points give way too; where one is, its points are the steady ones already.
#[test]
fn steady_points(rt: HostRuntime) -> Result<(), Fail> {
    let rows = [
        ("design --steady 10000000", FIVE, 0, STEADY_FIVE, ""),
        (
            "design --steady 10000000 --strip 5",
            STAR,
            0,
            STEADY_STRIP,
            "",
        ),
        ("design --steady 10000000 --workers 1", STAR, 0, WHOLE, ""),
        ("design --steady 10000000 --workers 4", STAR, 0, WHOLE, ""),
        ("design --steady 10000000 --workers 16", STAR, 0, WHOLE, ""),
        ("design --replay 5 --steady 10000000", STAR, 0, WHOLE, ""),
    ];
    check(&rt, rt.alloc(), &rows)
}

// With too little of either budget: of the search, and of the steady answer.
#[test]
fn steady_budgets(rt: HostRuntime) -> Result<(), Fail> {
    let gave_up = "gave up: side 5 bound 4\n";
    let rows = [
        ("design --budget 1 --steady 1", STAR, 3, SPENT, gave_up),
        ("design --steady 1", STAR, 9, "", "unsteady: budget 1\n"),
        (
            "design --steady 1 --fold f",
            FIVE,
            9,
            "",
            "unsteady: budget 1\n",
        ),
    ];
    check(&rt, rt.alloc(), &rows)
}

// The drawing is one function of the tree.
#[test]
fn steady_drawing(rt: HostRuntime) -> Result<(), Fail> {
    let alloc = rt.alloc();
    let tree = STAR.as_bytes();
    let line = "design --steady 10000000 --fold f --workers 1";
    let first = leave(&rt, alloc, line, tree, b"", NONE)?;
    assert_eq!(rt; first.number, 0);
    assert!(rt; !first.fold.is_empty());
    for line in [
        "design --steady 10000000 --fold f --workers 4",
        "design --steady 10000000 --fold f --workers 16",
    ] {
        let other = leave(&rt, alloc, line, tree, b"", NONE)?;
        assert_eq!(rt; other.fold.as_slice(), first.fold.as_slice());
    }
    Ok(())
}
