// Small certificates by hand, and one of a star of five.
ghost use Rattle.std.specs.Prelude.{◌≡◌, ◌↔◌, IfOk, IsTrue, All};
ghost use Rattle.bp_replay.specs.Replays.{IsSmallCode};

use bp_arrangement::{Fact, Hint, first_inadmissible, is_corner};
use bp_base::{Axis, Name, Pair, Sequence, Tree};
use bp_metric::Metric;
use bp_replay::*;
use std::alloc::Global;
use std::process::Abort;
use std::test::Fail;

pub fn named(text: &[u8]) -> Result<Name, Fail>
    ensures { IfOk result (λ name. name ≡ text.now) }
{
    match Name::new(text) {
        Some(name) => Ok(name),
        None => Err(Fail::from("no name")),
    }
}

// Two leaves at distance 3.
fn two(alloc: Global) -> Result<Tree, Fail> {
    let names = [named(b"c")?, named(b"p")?, named(b"q")?];
    let parents = Vec::from_slice(alloc, &[0; 3])?;
    let lengths = Vec::from_slice(alloc, &[0, 1, 2])?;
    let names = Vec::from_slice(alloc, &names)?;
    Ok(Tree::of(parents, lengths, names))
}

// Five leaves on one node: three of length 2, and two of length 1.
fn star(alloc: Global) -> Result<Tree, Fail> {
    let names = [
        named(b"c")?,
        named(b"p")?,
        named(b"q")?,
        named(b"r")?,
        named(b"s")?,
        named(b"t")?,
    ];
    let parents = Vec::from_slice(alloc, &[0; 6])?;
    let lengths = Vec::from_slice(alloc, &[0, 2, 2, 2, 1, 1])?;
    let names = Vec::from_slice(alloc, &names)?;
    Ok(Tree::of(parents, lengths, names))
}

pub fn before(axis: Axis, first: u64, second: u64) -> Fact {
    Fact::Before {
        axis,
        first,
        second,
    }
}

pub fn not_before(axis: Axis, first: u64, second: u64) -> Fact {
    Fact::NotBefore {
        axis,
        first,
        second,
    }
}

pub fn least(axis: Axis, leaf: u64, code: u64) -> Fact {
    Fact::Least { axis, leaf, code }
}

pub fn below(axis: Axis, leaf: u64, code: u64) -> Fact {
    Fact::Below { axis, leaf, code }
}

pub fn pair(i: u64, j: u64) -> Hint {
    Hint::Pair {
        pair: Pair { i, j },
    }
}

pub fn lemma(number: u64) -> Hint {
    Hint::Lemma { number }
}

fn is_small(fact: Fact) -> bool
    ensures { IsTrue result ↔ IsSmallCode fact }
{
    match fact {
        Fact::Before { .. } => true,
        Fact::NotBefore { .. } => true,
        Fact::Least { code, .. } => code < 1 << 32,
        Fact::Below { code, .. } => code < 1 << 32,
    }
}

fn are_small(facts: &[Fact]) -> bool
    ensures { IsTrue result ↔ All IsSmallCode facts.now }
{
    facts.iter().all(|fact| is_small(*fact))
}

// A replay with its corner and swaps tested.
fn opened(
    alloc: Global,
    tree: &Tree,
    bound: u64,
    corner: Pair,
    swaps: &[Sequence<Pair>],
) -> Result<Replay, Fail> {
    let metric = Metric::of(alloc, tree)?;
    let replay = opened_on(alloc, &metric, bound, corner, swaps);
    // Dropped by a call, as other large values below: the proof of a drop in place goes through all that the value holds, branch by branch.
    drop(metric);
    replay
}

fn opened_on(
    alloc: Global,
    metric: &Metric,
    bound: u64,
    corner: Pair,
    swaps: &[Sequence<Pair>],
) -> Result<Replay, Fail> {
    if bound > 999_999_999 || !is_corner(metric, corner.i, corner.j) {
        return Err(Fail::from("no corner"));
    }
    match first_inadmissible(metric, corner.i, corner.j, swaps) {
        None => Ok(Replay::open(alloc, metric, bound, corner, swaps)?),
        Some(_) => Err(Fail::from("a swap")),
    }
}

pub fn fed(replay: &mut Replay, facts: &[Fact], hints: &[Hint]) -> Result<bool, Fail> {
    if !are_small(facts) {
        return Err(Fail::from("a code"));
    }
    Ok(replay.feed(facts, hints)?)
}

// Nothing is proved yet, and then a lemma stands or not.
fn feeds(
    rt: &impl Abort,
    replay: &mut Replay,
    facts: &[Fact],
    hints: &[Hint],
    stands: bool,
) -> Result<(), Fail> {
    assert!(rt; !replay.proved());
    let stood = fed(replay, facts, hints)?;
    assert!(rt; stood == stands, "{facts:?} {hints:?}");
    Ok(())
}

fn replay_of_two(alloc: Global) -> Result<Replay, Fail> {
    let tree = two(alloc)?;
    let replay = opened(alloc, &tree, 3, Pair { i: 1, j: 2 }, &[]);
    drop(tree);
    replay
}

fn two_refused(rt: &impl Abort, replay: &mut Replay) -> Result<(), Fail> {
    feeds(rt, replay, &[], &[], false)?;
    feeds(rt, replay, &[], &[lemma(1)], false)?;
    feeds(rt, replay, &[before(Axis::X, 1, 1)], &[pair(1, 2)], false)?;
    feeds(rt, replay, &[], &[pair(2, 1)], false)?;
    feeds(rt, replay, &[], &[pair(1, 3)], false)?;
    feeds(rt, replay, &[], &[pair(1, 2), lemma(1)], false)?;
    feeds(rt, replay, &[below(Axis::Y, 3, 2)], &[pair(1, 2)], false)?;
    Ok(())
}

fn two_closed(rt: &impl Abort, replay: &mut Replay) -> Result<(), Fail> {
    // x1 < 1 is not sure, and neither is y1 < 1
    feeds(
        rt,
        replay,
        &[below(Axis::X, 1, 2), below(Axis::Y, 1, 2)],
        &[pair(1, 2)],
        true,
    )?;
    feeds(rt, replay, &[], &[lemma(1), pair(1, 2)], false)?;
    // the root breaks, and then all that names what is there stands
    feeds(rt, replay, &[least(Axis::X, 1, 0)], &[pair(1, 2)], true)?;
    feeds(rt, replay, &[not_before(Axis::Y, 1, 2)], &[], true)?;
    feeds(rt, replay, &[not_before(Axis::Y, 2, 2)], &[], false)?;
    Ok(())
}

fn close(rt: &impl Abort, replay: &mut Replay) -> Result<(), Fail> {
    feeds(rt, replay, &[], &[], true)?;
    assert!(rt; replay.proved());
    Ok(())
}

fn on_two(rt: &impl Abort, replay: &mut Replay) -> Result<(), Fail> {
    two_refused(rt, replay)?;
    two_closed(rt, replay)?;
    close(rt, replay)
}

#[test]
fn two_leaves(rt: HostRuntime) -> Result<(), Fail> {
    let mut replay = replay_of_two(rt.alloc())?;
    let result = on_two(&rt, &mut replay);
    drop(replay);
    result
}

fn swap(alloc: Global, i: u64, j: u64) -> Result<Sequence<Pair>, Fail> {
    Ok(Sequence::from_vec(Vec::from_slice(alloc, &[Pair { i, j }])?))
}

fn swapped(alloc: Global, tree: &Tree) -> Result<Replay, Fail> {
    let swaps = [swap(alloc, 1, 2)?, swap(alloc, 2, 3)?];
    let replay = opened(alloc, tree, 5, Pair { i: 4, j: 5 }, &swaps);
    drop(swaps);
    replay
}

fn replay_of_star(alloc: Global) -> Result<Replay, Fail> {
    let tree = star(alloc)?;
    let replay = swapped(alloc, &tree);
    drop(tree);
    replay
}

fn star_begins(rt: &impl Abort, replay: &mut Replay) -> Result<(), Fail> {
    feeds(rt, replay, &[below(Axis::X, 5, 4)], &[pair(4, 5)], true)?;
    feeds(rt, replay, &[least(Axis::X, 4, 6)], &[pair(4, 5)], true)?;
    feeds(
        rt,
        replay,
        &[
            not_before(Axis::Y, 1, 4),
            below(Axis::X, 2, 6),
            not_before(Axis::Y, 4, 2),
        ],
        &[pair(1, 2), pair(2, 4), pair(1, 4), pair(2, 4), pair(1, 4)],
        true,
    )?;
    Ok(())
}

fn star_goes_on(rt: &impl Abort, replay: &mut Replay) -> Result<(), Fail> {
    feeds(
        rt,
        replay,
        &[before(Axis::Y, 2, 1)],
        &[
            pair(1, 2),
            pair(1, 2),
            lemma(3),
            pair(2, 3),
            pair(2, 3),
            pair(2, 5),
            pair(2, 3),
            pair(2, 5),
            pair(3, 5),
            pair(3, 5),
        ],
        true,
    )?;
    feeds(
        rt,
        replay,
        &[below(Axis::X, 2, 6)],
        &[
            pair(1, 2),
            pair(1, 2),
            pair(1, 2),
            pair(1, 2),
            pair(2, 4),
            pair(1, 4),
            pair(2, 4),
            pair(1, 4),
        ],
        true,
    )?;
    Ok(())
}

fn star_narrows(rt: &impl Abort, replay: &mut Replay) -> Result<(), Fail> {
    feeds(rt, replay, &[below(Axis::X, 3, 6)], &[pair(2, 3)], true)?;
    feeds(
        rt,
        replay,
        &[below(Axis::Y, 2, 6)],
        &[
            pair(2, 3),
            pair(2, 5),
            pair(2, 3),
            pair(2, 5),
            pair(3, 5),
            pair(3, 5),
        ],
        true,
    )?;
    feeds(
        rt,
        replay,
        &[not_before(Axis::Y, 3, 2)],
        &[pair(2, 3)],
        true,
    )?;
    Ok(())
}

fn star_ends(rt: &impl Abort, replay: &mut Replay) -> Result<(), Fail> {
    feeds(
        rt,
        replay,
        &[not_before(Axis::Y, 5, 2)],
        &[pair(2, 5)],
        true,
    )?;
    feeds(rt, replay, &[least(Axis::Y, 3, 2)], &[pair(2, 3)], true)?;
    feeds(rt, replay, &[least(Axis::Y, 5, 4)], &[pair(2, 5)], true)?;
    feeds(
        rt,
        replay,
        &[not_before(Axis::Y, 3, 5)],
        &[pair(3, 5)],
        true,
    )?;
    feeds(rt, replay, &[], &[pair(3, 5)], true)?;
    assert!(rt; replay.proved());
    Ok(())
}

fn on_star(rt: &impl Abort, replay: &mut Replay) -> Result<(), Fail> {
    star_begins(rt, replay)?;
    star_goes_on(rt, replay)?;
    star_narrows(rt, replay)?;
    star_ends(rt, replay)
}

fn last_alone(rt: &impl Abort, replay: &mut Replay) -> Result<(), Fail> {
    assert!(rt; !fed(replay, &[], &[pair(3, 5)])?);
    Ok(())
}

#[test]
fn star_of_five(rt: HostRuntime) -> Result<(), Fail> {
    let alloc = rt.alloc();
    let mut replay = replay_of_star(alloc)?;
    let result = on_star(&rt, &mut replay);
    drop(replay);
    result?;
    // the last lemma stands on those before it
    let mut alone = replay_of_star(alloc)?;
    let result = last_alone(&rt, &mut alone);
    drop(alone);
    result
}
