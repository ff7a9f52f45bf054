// Worked paths of stars, judged against bounds.
ghost use Rattle.std.specs.Prelude.{◌≤◌};
ghost use Rattle.bp_base.specs.Limits.{most_number};

use bp_base::{Choice, Claim, Outcome, Step};
use bp_branch::{
    PairOrder, examine, has_next, law_of_branches, law_of_children, law_of_solved, low_points,
    next_pair, one_next,
};
use bp_metric::Metric;
use bp_samples::{path_of, step, tree};
use std::alloc::Global;
use std::test::Fail;

// What is shown of an outcome: its kind, and the numbers that it names.
#[derive(Clone, Copy, Debug, PartialEq, Eq)]
enum Seen {
    Cyclic(u64),
    Closed(u64),
    Solved(u64),
    Split(u64, u64),
}

fn length(claim: &Claim) -> u64 {
    match claim {
        Claim::Walk { chain, .. } => chain.len(),
        Claim::Cycle { chain, .. } => chain.len(),
    }
}

fn told_of(outcome: &Outcome) -> Seen {
    match outcome {
        Outcome::Cyclic(claim) => Seen::Cyclic(length(claim)),
        Outcome::Closed(claim) => Seen::Closed(length(claim)),
        Outcome::Solved { side, .. } => Seen::Solved(*side),
        Outcome::Split(pair) => Seen::Split(pair.i, pair.j),
    }
}

fn judged(alloc: Global, metric: &Metric, steps: &[Step], bound: u64) -> Result<Seen, Fail>
    requires { bound ≤ most_number }
{
    let path = path_of(alloc, metric.leaves(), steps)?;
    let (outcome, least) = examine(alloc, metric, &path, bound)?;
    if let Some(found) = &least {
        let order = PairOrder::of(alloc, metric)?;
        if told_of(&order.judge(metric, found, bound)) != told_of(&outcome) {
            return Err(Fail::from("another outcome in order"));
        }
    }
    match (&least, &outcome) {
        (None, Outcome::Cyclic(_)) => Ok(told_of(&outcome)),
        (None, _) => Err(Fail::from("no coordinates")),
        (Some(found), Outcome::Split(pair)) => match next_pair(metric, found) {
            Some(next) if next == *pair => Ok(told_of(&outcome)),
            _ => Err(Fail::from("another pair")),
        },
        (Some(_), _) => Ok(told_of(&outcome)),
    }
}

#[test]
fn paths_of_a_star(rt: HostRuntime) -> Result<(), Fail> {
    let alloc = rt.alloc();
    let star = tree(alloc, &[0, 0, 0, 0], &[0, 2, 2, 1])?;
    let metric = Metric::of(alloc, &star)?;
    let (left, right, below) = (Choice::Left, Choice::Right, Choice::Below);
    let rows: [(&[Step], u64, Seen); 8] = [
        (&[], 5, Seen::Split(1, 2)),
        (&[], 0, Seen::Closed(1)),
        (&[step(1, 2, left)], 5, Seen::Split(1, 3)),
        (&[step(1, 2, left)], 4, Seen::Closed(2)),
        (&[step(1, 2, left), step(1, 3, below)], 5, Seen::Solved(4)),
        (&[step(1, 2, left), step(1, 3, left)], 5, Seen::Split(2, 3)),
        (&[step(1, 2, left), step(2, 3, left)], 7, Seen::Closed(3)),
        (
            &[step(1, 2, left), step(2, 3, left), step(1, 3, right)],
            9,
            Seen::Cyclic(3),
        ),
    ];
    for (steps, bound, wanted) in rows {
        assert_eq!(rt;
            judged(alloc, &metric, steps, bound)?,
            wanted,
            "{steps:?}, {bound}"
        );
    }
    Ok(())
}

// The low points of the path of these steps, as pairs of numbers.
fn points(alloc: Global, metric: &Metric, steps: &[Step]) -> Result<Vec<(u64, u64)>, Fail> {
    let path = path_of(alloc, metric.leaves(), steps)?;
    let (_, least) = examine(alloc, metric, &path, 0)?;
    let Some(found) = least else {
        return Err(Fail::from("a cycle"));
    };
    if found.xs.len() != found.ys.len() {
        return Err(Fail::from("no coordinates"));
    }
    let mut points = Vec::new(alloc);
    for point in low_points(alloc, &found)?.as_slice() {
        points.push((point.x, point.y))?;
    }
    Ok(points)
}

#[test]
fn points_of_a_star(rt: HostRuntime) -> Result<(), Fail> {
    let alloc = rt.alloc();
    let star = tree(alloc, &[0, 0, 0, 0], &[0, 2, 2, 1])?;
    let metric = Metric::of(alloc, &star)?;
    law_of_branches(&metric);
    law_of_children(&metric);
    law_of_solved(&metric);
    has_next(&metric);
    one_next(&metric);
    let steps = [step(1, 2, Choice::Left), step(1, 3, Choice::Below)];
    let found = points(alloc, &metric, &steps)?;
    assert_eq!(rt; found.as_slice(), [(0, 0), (4, 0), (0, 3)].as_slice());
    Ok(())
}
