// Documents that check, and documents that fail a condition.
ghost use Rattle.std.specs.Prelude.{IsTrue};
ghost use Rattle.bp_metric.specs.Metric.{IsSheet};

mod streams;

use bp_base::{
    Axis, Chain, Claim, Floor, NoMemory, Pair, Point, Refutation, Sequence, Sheet, Tree,
};
use bp_check::{
    CheckFault, Reason, Verdict, check, checks_without_reason, has_reason, law_of_checked_texts,
    law_of_checks, one_reason,
};
use bp_document::{DocFault, DocKind, Document, NodeKind, NodeLine};
use bp_metric::Metric;
use bp_samples::tree;
use sqlite_items::Items;
use std::alloc::Global;
use std::process::Abort;
use std::test::Fail;

// The word of a proof line behind the depth.
#[derive(Clone, Copy, PartialEq, Eq)]
enum Word {
    Split,
    Walk,
    Cycle,
    Open,
}

// A proof line: a pair, or a chain on an axis.
#[derive(Clone, Copy)]
struct Row<'a> {
    depth: u64,
    word: Word,
    axis: Axis,
    numbers: &'a [u64],
}

fn split<'a>(depth: u64, numbers: &'a [u64]) -> Row<'a> {
    Row {
        depth,
        word: Word::Split,
        axis: Axis::X,
        numbers,
    }
}

fn leaf<'a>(depth: u64, word: Word, axis: Axis, numbers: &'a [u64]) -> Row<'a> {
    Row {
        depth,
        word,
        axis,
        numbers,
    }
}

fn claim(alloc: Global, row: &Row) -> Result<Claim, Fail> {
    let axis = row.axis;
    match Chain::new(alloc, row.numbers) {
        None => Err(Fail::from("no chain")),
        Some(chain) => match row.word {
            Word::Cycle => Ok(Claim::Cycle { axis, chain }),
            _ => Ok(Claim::Walk { axis, chain }),
        },
    }
}

// A part of the proof, and the depth of its first line.
#[derive(Drop)]
struct Done {
    depth: u64,
    node: Refutation,
}

// The proof of these lines, which is made from the last line on.
fn proof(alloc: Global, rows: &[Row]) -> Result<Option<Refutation>, Fail> {
    let mut done = Vec::new(alloc);
    let result = first_part(alloc, &mut done, rows);
    // Dropped by a call, as other large values here: the proof of a drop in place goes through all that the value holds, branch by branch.
    drop(done);
    result
}

// Makes the parts of these lines, and takes the first of them.
fn first_part(
    alloc: Global,
    done: &mut Vec<Done>,
    rows: &[Row],
) -> Result<Option<Refutation>, Fail> {
    for k in 0..rows.len() {
        add_part(alloc, done, &rows[rows.len() - 1 - k])?;
    }
    match done.pop() {
        None => Ok(None),
        Some(last) => Ok(Some(last.node)),
    }
}

fn add_part(alloc: Global, done: &mut Vec<Done>, row: &Row) -> Result<(), Fail> {
    let depth = row.depth;
    let node = part(alloc, done, row)?;
    done.push(Done { depth, node })?;
    Ok(())
}

fn part(alloc: Global, done: &mut Vec<Done>, row: &Row) -> Result<Refutation, Fail> {
    match row.word {
        Word::Split => {
            let pair = pair(row.numbers)?;
            let children = children(alloc, done, row.depth)?;
            Ok(Refutation::Split { pair, children })
        }
        Word::Open => {
            let claim = claim(alloc, row)?;
            Ok(Refutation::Open { claim })
        }
        _ => {
            let claim = claim(alloc, row)?;
            Ok(Refutation::Closed { claim })
        }
    }
}

fn pair(numbers: &[u64]) -> Result<Pair, Fail> {
    if numbers.len() != 2 {
        return Err(Fail::from("no pair"));
    }
    Ok(Pair {
        i: numbers[0],
        j: numbers[1],
    })
}

// What is deeper, in order.
fn children(alloc: Global, done: &mut Vec<Done>, depth: u64) -> Result<Items<Refutation>, Fail> {
    let mut children = Items::new(alloc);
    let filled = take_deeper(&mut children, done, depth);
    kept(children, filled)
}

// The value, which is dropped where what filled it failed.
fn kept<T: Drop>(value: T, filled: Result<(), Fail>) -> Result<T, Fail> {
    filled?;
    Ok(value)
}

fn take_deeper(
    children: &mut Items<Refutation>,
    done: &mut Vec<Done>,
    depth: u64,
) -> Result<(), Fail> {
    for _ in 0..done.len() {
        if !is_last_deeper(done, depth) {
            return Ok(());
        }
        take_last(children, done)?;
    }
    Ok(())
}

fn is_last_deeper(done: &[Done], depth: u64) -> bool {
    match done.last() {
        None => false,
        Some(last) => last.depth > depth,
    }
}

fn take_last(children: &mut Items<Refutation>, done: &mut Vec<Done>) -> Result<(), Fail> {
    if let Some(last) = done.pop() {
        children.push(last.node)?;
    }
    Ok(())
}

// What a document says beside its tree.
#[derive(Clone, Copy)]
struct Sample<'a, 'b> {
    sheet: Sheet,
    side: u64,
    bound: u64,
    points: &'a [(u64, u64)],
    floor: (u64, u64),
    leaves: &'a [u64],
    proof: &'a [Row<'b>],
}

fn points(alloc: Global, sample: &Sample) -> Result<Sequence<Point>, Fail> {
    let mut points = Sequence::new(alloc);
    for (x, y) in sample.points {
        points.push(Point { x: *x, y: *y })?;
    }
    Ok(points)
}

fn floor(alloc: Global, sample: &Sample) -> Result<Floor, Fail> {
    let (m, side) = sample.floor;
    let leaves = Sequence::from_vec(Vec::from_slice(alloc, sample.leaves)?);
    Ok(Floor { m, leaves, side })
}

// What a document has of a tree and a sample, but for the proof.
#[derive(Drop)]
struct Held {
    tree: Tree,
    points: Sequence<Point>,
    floor: Floor,
}

fn held_of(alloc: Global, tree: &Tree, sample: &Sample) -> Result<Held, Fail> {
    let points = points(alloc, sample)?;
    let floor = floor(alloc, sample)?;
    let tree = tree.copy(alloc)?;
    Ok(Held {
        tree,
        points,
        floor,
    })
}

fn document(alloc: Global, tree: &Tree, sample: &Sample) -> Result<Document, Fail> {
    let proof = proof(alloc, sample.proof)?;
    match held_of(alloc, tree, sample) {
        Err(fail) => {
            drop(proof);
            Err(fail)
        }
        Ok(held) => Ok(Document {
            tree: held.tree,
            side: sample.side,
            bound: sample.bound,
            points: held.points,
            floor: held.floor,
            proof,
            sheet: sample.sheet,
        }),
    }
}

// The verdict of a document of one tree against another.
fn verdict(alloc: Global, own: &Tree, other: &Tree, sample: &Sample) -> Result<Verdict, Fail> {
    let document = document(alloc, own, sample)?;
    let verdict = verdict_of(alloc, other, &document);
    drop(document);
    verdict
}

fn verdict_of(alloc: Global, tree: &Tree, document: &Document) -> Result<Verdict, Fail> {
    let metric = Metric::of(alloc, &document.tree)?;
    let leaves = metric.leaves();
    drop(metric);
    if document.points.len() as u64 != leaves || !is_sheet(document.sheet) {
        return Err(Fail::from("no document"));
    }
    Ok(check(alloc, tree, document)?)
}

fn is_sheet(sheet: Sheet) -> bool
    ensures { IsTrue result → IsSheet sheet }
{
    match sheet {
        Sheet::Square => true,
        Sheet::Strip { width } => width <= 999_999,
    }
}

// The document of one tree is checked against another; without a reason it is right.
fn gives(
    rt: &impl Abort,
    alloc: Global,
    own: &Tree,
    other: &Tree,
    sample: &Sample,
    reason: Option<Reason>,
) -> Result<(), Fail> {
    let wanted = match reason {
        None => Verdict::Yes,
        Some(reason) => Verdict::No(reason),
    };
    assert_eq!(rt; verdict(alloc, own, other, sample)?, wanted);
    Ok(())
}

fn differs(rt: &impl Abort, alloc: Global, own: &Tree, sample: &Sample) -> Result<(), Fail> {
    let other = tree(alloc, &[0; 6], &[0, 1, 1, 1, 1, 1])?;
    let reason = Some(Reason::TreeDiffers);
    let result = gives(rt, alloc, own, &other, sample, reason);
    drop(other);
    result
}

// A star with three leaves at 2 and two at 1.
fn five(alloc: Global) -> Result<Tree, Fail> {
    Ok(tree(alloc, &[0; 6], &[0, 2, 2, 2, 1, 1])?)
}

fn on_star(rt: &impl Abort, alloc: Global, own: &Tree) -> Result<(), Fail> {
    let opened = [split(0, &[1, 2]), leaf(1, Word::Open, Axis::X, &[1, 2])];
    let turned = [split(0, &[2, 1]), leaf(1, Word::Open, Axis::X, &[1, 2])];
    let far = [split(0, &[1, 2]), leaf(1, Word::Open, Axis::X, &[1, 17])];
    let back = [split(0, &[1, 2]), leaf(1, Word::Open, Axis::X, &[2, 1])];
    let free = [(0, 0), (0, 4), (4, 0), (3, 3), (3, 5)];
    let near = [(0, 0), (0, 4), (4, 0), (3, 3), (3, 4)];
    let outside = [(0, 0), (0, 4), (4, 0), (3, 3), (3, 6)];
    let all = [1, 2, 3, 4, 5];
    let base = Sample {
        sheet: Sheet::Square,
        side: 5,
        bound: 4,
        points: &free,
        floor: (2, 4),
        leaves: &all,
        proof: &opened,
    };
    gives(rt, alloc, own, own, &base, None)?;
    differs(rt, alloc, own, &base)?;
    let rows = [
        (5, 5, &free, 4, &opened, Some(Reason::BoundNotShown)),
        (
            5,
            4,
            &near,
            4,
            &opened,
            Some(Reason::TooNear { i: 4, j: 5 }),
        ),
        (5, 4, &outside, 4, &opened, Some(Reason::Outside { i: 5 })),
        (5, 4, &free, 5, &opened, Some(Reason::BadFloor)),
        (5, 9, &free, 4, &turned, Some(Reason::BadSplit { node: 0 })),
        (5, 9, &free, 4, &far, Some(Reason::BadChain { node: 1 })),
        (5, 9, &free, 4, &back, Some(Reason::BadChain { node: 1 })),
        (999_999_999, 4, &free, 4, &opened, None),
    ];
    for (side, bound, points, floor, proof, reason) in rows {
        let sample = Sample {
            side,
            bound,
            points,
            floor: (2, floor),
            proof,
            ..base
        };
        gives(rt, alloc, own, own, &sample, reason)?;
    }
    Ok(())
}

#[test]
fn star(rt: HostRuntime) -> Result<(), Fail> {
    let alloc = rt.alloc();
    let own = five(alloc)?;
    let result = on_star(&rt, alloc, &own);
    drop(own);
    result
}

fn on_strips(rt: &impl Abort, alloc: Global, own: &Tree) -> Result<(), Fail> {
    let proof = [
        split(0, &[1, 2]),
        leaf(1, Word::Walk, Axis::X, &[1, 2]),
        leaf(1, Word::Walk, Axis::Y, &[1, 2]),
    ];
    let three = [1, 2, 3];
    let wide = Sample {
        sheet: Sheet::Strip { width: 4 },
        side: 5,
        bound: 4,
        points: &[(0, 0), (4, 0), (0, 4), (3, 3), (3, 5)],
        floor: (4, 4),
        leaves: &three,
        proof: &proof,
    };
    gives(rt, alloc, own, own, &wide, None)?;
    let square = Sample {
        sheet: Sheet::Square,
        ..wide
    };
    let bad_split = Some(Reason::BadSplit { node: 0 });
    gives(rt, alloc, own, own, &square, bad_split)?;
    // a walk on x counts with 0, or not at all where it is wider than the strip
    let low = Sample {
        floor: (1, 0),
        leaves: &three[..1],
        ..wide
    };
    let not_shown = Some(Reason::BoundNotShown);
    gives(rt, alloc, own, own, &low, not_shown)?;
    let narrow = Sample {
        sheet: Sheet::Strip { width: 3 },
        side: 9,
        points: &[(0, 0), (0, 4), (0, 8), (3, 2), (3, 6)],
        ..low
    };
    gives(rt, alloc, own, own, &narrow, None)
}

#[test]
fn strips(rt: HostRuntime) -> Result<(), Fail> {
    let alloc = rt.alloc();
    let own = five(alloc)?;
    let result = on_strips(&rt, alloc, &own);
    drop(own);
    result
}

fn on_corners(rt: &impl Abort, alloc: Global, own: &Tree) -> Result<(), Fail> {
    let sample = Sample {
        sheet: Sheet::Square,
        side: 4,
        bound: 3,
        points: &[(0, 4), (0, 0), (4, 4)],
        floor: (3, 3),
        leaves: &[1, 2],
        proof: &[],
    };
    gives(rt, alloc, own, own, &sample, None)?;
    let metric = Metric::of(alloc, own)?;
    law_of_checks(&metric);
    drop(metric);
    Ok(())
}

#[test]
fn two_corners(rt: HostRuntime) -> Result<(), Fail> {
    let alloc = rt.alloc();
    let own = tree(alloc, &[0, 0, 0, 1, 1], &[0, 1, 1, 1, 1])?;
    let result = on_corners(&rt, alloc, &own);
    drop(own);
    checks_without_reason();
    law_of_checked_texts();
    one_reason();
    has_reason();
    result
}

// How the nine proof lines end: with a walk, with a split that has a bad one below it, or with a child of the root too many.
#[derive(Clone, Copy)]
enum Ending {
    Walk,
    BadSplit,
    TooMany,
}

fn walk(depth: u64) -> Row<'static> {
    leaf(depth, Word::Walk, Axis::X, &[1, 2])
}

fn push_all(rows: &mut Vec<Row<'static>>, more: &[Row<'static>]) -> Result<(), Fail> {
    rows.extend_from_slice(more)?;
    Ok(())
}

fn push_last(rows: &mut Vec<Row<'static>>, ending: Ending) -> Result<(), Fail> {
    match ending {
        Ending::Walk => push_all(rows, &[walk(2)]),
        Ending::BadSplit => {
            let splits = [split(2, &[2, 3]), split(3, &[2, 3])];
            push_all(rows, &splits)?;
            push_all(rows, &[walk(3), walk(3), walk(3)])
        }
        Ending::TooMany => push_all(rows, &[walk(2), split(2, &[4, 1]), walk(1)]),
    }
}

fn push_first(rows: &mut Vec<Row<'static>>, right: bool, left_out: usize) -> Result<(), Fail> {
    let cycle: &'static [u64] = if right { &[1, 2, 3] } else { &[1, 3, 2] };
    let lines = [
        split(0, &[1, 2]),
        split(1, &[1, 3]),
        walk(2),
        split(2, &[2, 3]),
        leaf(3, Word::Cycle, Axis::X, cycle),
        walk(3),
        walk(3),
        walk(3),
    ];
    for k in 0..lines.len() {
        if left_out != k {
            rows.push(lines[k])?;
        }
    }
    Ok(())
}

// The nine proof lines of the star of three, with a wrong cycle as node 4, without one of them, or with another end.
fn nine(
    alloc: Global,
    right: bool,
    left_out: usize,
    end: Ending,
) -> Result<Vec<Row<'static>>, Fail> {
    let mut rows: Vec<Row<'static>> = Vec::new(alloc);
    push_first(&mut rows, right, left_out)?;
    push_last(&mut rows, end)?;
    Ok(rows)
}

fn nine_gives(
    rt: &impl Abort,
    alloc: Global,
    own: &Tree,
    bound: u64,
    proof: &[Row],
    reason: Option<Reason>,
) -> Result<(), Fail> {
    let sample = Sample {
        sheet: Sheet::Square,
        side: 2,
        bound,
        points: &[(0, 0), (0, 2), (2, 0)],
        floor: (2, 0),
        leaves: &[1],
        proof,
    };
    gives(rt, alloc, own, own, &sample, reason)
}

fn on_nine(rt: &impl Abort, alloc: Global, own: &Tree) -> Result<(), Fail> {
    let bad_split = |node| Some(Reason::BadSplit { node });
    let bad_chain = |node| Some(Reason::BadChain { node });
    let rows = [
        (2, true, 9, Ending::Walk, None),
        (3, true, 9, Ending::Walk, Some(Reason::BoundNotShown)),
        (2, true, 6, Ending::Walk, bad_split(3)),
        (2, false, 9, Ending::Walk, bad_chain(4)),
        (2, false, 9, Ending::BadSplit, bad_split(9)),
        (2, false, 9, Ending::TooMany, bad_split(0)),
    ];
    for (bound, right, left_out, end, reason) in rows {
        let proof = nine(alloc, right, left_out, end)?;
        let result = nine_gives(rt, alloc, own, bound, &proof, reason);
        drop(proof);
        result?;
    }
    Ok(())
}

#[test]
fn nine_proof_lines(rt: HostRuntime) -> Result<(), Fail> {
    let alloc = rt.alloc();
    let own = tree(alloc, &[0; 4], &[0, 1, 1, 1])?;
    let result = on_nine(&rt, alloc, &own);
    drop(own);
    result
}

#[test]
fn faults_are_told(rt: HostRuntime) -> Result<(), Fail> {
    let faults = [
        (
            CheckFault::Doc(DocFault {
                line: 3,
                kind: DocKind::BadForm,
            }),
            "line 3: BadForm",
        ),
        (CheckFault::Read, "a read failed"),
        (CheckFault::from(NoMemory), "no memory"),
    ];
    for (fault, text) in &faults {
        let told = format!(in rt.alloc(); "{fault}")?;
        assert_eq!(rt; told.as_str(), *text);
    }
    Ok(())
}
