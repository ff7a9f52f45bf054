// Small certificates of symmetric designs, by hand: a star of six leaves, each two of which are 2 apart, with the pairs (1, 2) and
// (3, 4), and 5 and 6 on the line.
use crate::replay::{before, below, fed, least, lemma, named, not_before, pair};
use bp_arrangement::{Fact, Hint, first_inadmissible, is_corner};
use bp_base::{Axis, Pair, Sequence, Tree};
use bp_metric::Metric;
use bp_mirror::MirrorKind;
use bp_replay::*;
use std::alloc::Global;
use std::test::Fail;

fn star(alloc: Global) -> Result<Tree, Fail> {
    let names = [
        named(b"c")?,
        named(b"p")?,
        named(b"q")?,
        named(b"r")?,
        named(b"s")?,
        named(b"t")?,
        named(b"u")?,
    ];
    let parents = Vec::from_slice(alloc, &[0; 7])?;
    let lengths = Vec::from_slice(alloc, &[0, 1, 1, 1, 1, 1, 1])?;
    let names = Vec::from_slice(alloc, &names)?;
    Ok(Tree::of(parents, lengths, names))
}

// A replay with its mirror tested, as a swap that leaves 5 and 6 where they are.
fn opened(alloc: Global, kind: MirrorKind, bound: u64) -> Result<Replay, Fail> {
    let tree = star(alloc)?;
    let metric = Metric::of(alloc, &tree)?;
    let pairs = [Pair { i: 1, j: 2 }, Pair { i: 3, j: 4 }];
    let swaps = [Sequence::from_vec(Vec::from_slice(alloc, &pairs)?)];
    if bound > 999_999_999 || !is_corner(&metric, 5, 6) {
        return Err(Fail::from("a leaf"));
    }
    match first_inadmissible(&metric, 5, 6, &swaps) {
        None => Ok(Replay::open_mirrored(alloc, &metric, kind, swaps[0].as_slice(), bound, &[])?),
        Some(_) => Err(Fail::from("no mirror")),
    }
}

#[test]
fn book_least(rt: HostRuntime) -> Result<(), Fail> {
    let alloc = rt.alloc();
    // below 8 half units leaves 1, 5 and 6 lie above one another, and have no room for that
    for bound in 8..10 {
        let mut replay = opened(alloc, MirrorKind::Book, bound)?;
        let rows: [(&[Fact], &[Hint], bool); 3] = [
            (&[], &[pair(1, 5), pair(5, 6), pair(1, 6)], false),
            (
                &[before(Axis::Y, 1, 5)],
                &[pair(5, 6), pair(1, 6)],
                bound == 8,
            ),
            (&[], &[pair(1, 5), pair(5, 6), pair(1, 6)], bound == 8),
        ];
        for (facts, hints, stands) in rows {
            assert!(rt; !replay.proved());
            assert!(rt;
                fed(&mut replay, facts, hints)? == stands,
                "{facts:?} {hints:?}"
            );
        }
        assert!(rt; replay.proved() == (bound == 8));
    }
    Ok(())
}

#[test]
fn book_facts(rt: HostRuntime) -> Result<(), Fail> {
    let alloc = rt.alloc();
    let mut replay = opened(alloc, MirrorKind::Book, 30)?;
    let no_heights = [not_before(Axis::Y, 1, 4), not_before(Axis::Y, 3, 2)];
    let rows: [(&[Fact], &[Hint], bool); 22] = [
        // orders that no coordinates meet, and coordinates that aren't there
        (&[before(Axis::X, 2, 1), least(Axis::Y, 1, 0)], &[], true),
        (&[before(Axis::Y, 1, 2), least(Axis::Y, 1, 0)], &[], true),
        (&[before(Axis::X, 1, 2), least(Axis::Y, 1, 0)], &[], false),
        (&[below(Axis::X, 2, 0), below(Axis::Y, 1, 0)], &[], false),
        (&[below(Axis::X, 5, 0), below(Axis::Y, 1, 0)], &[], false),
        (&[below(Axis::X, 1, 0), below(Axis::Y, 1, 0)], &[], true),
        // facts that say the same
        (&[least(Axis::Y, 1, 6), below(Axis::Y, 2, 6)], &[], true),
        (&[least(Axis::Y, 1, 6), below(Axis::Y, 2, 7)], &[], false),
        (
            &[before(Axis::X, 1, 4), not_before(Axis::X, 3, 2)],
            &[],
            true,
        ),
        (
            &[before(Axis::X, 1, 3), not_before(Axis::X, 4, 2)],
            &[],
            true,
        ),
        (&[before(Axis::X, 1, 3), before(Axis::X, 2, 4)], &[], true),
        (
            &[before(Axis::X, 1, 5), not_before(Axis::X, 6, 2)],
            &[],
            true,
        ),
        (
            &[before(Axis::X, 1, 5), not_before(Axis::X, 1, 2)],
            &[],
            false,
        ),
        // to face the line, and another leaf
        (&[before(Axis::X, 1, 5), least(Axis::X, 1, 22)], &[], true),
        (&[before(Axis::X, 1, 5), least(Axis::X, 1, 21)], &[], false),
        (&[before(Axis::X, 1, 2), least(Axis::X, 1, 26)], &[], true),
        (&[before(Axis::X, 1, 2), least(Axis::X, 1, 25)], &[], false),
        (
            &[
                least(Axis::X, 1, 5),
                before(Axis::X, 3, 2),
                least(Axis::X, 3, 48),
            ],
            &[],
            true,
        ),
        (
            &[
                least(Axis::X, 1, 5),
                before(Axis::X, 3, 2),
                least(Axis::X, 3, 47),
            ],
            &[],
            false,
        ),
        // the bounds leave no room
        (
            &[
                no_heights[0],
                no_heights[1],
                least(Axis::X, 1, 26),
                least(Axis::X, 3, 26),
            ],
            &[pair(2, 3)],
            true,
        ),
        (
            &[
                no_heights[0],
                no_heights[1],
                least(Axis::X, 1, 26),
                least(Axis::X, 3, 25),
            ],
            &[pair(1, 4)],
            false,
        ),
        (
            &[no_heights[0], no_heights[1], least(Axis::X, 3, 27)],
            &[pair(1, 4), lemma(10)],
            false,
        ),
    ];
    for (facts, hints, stands) in rows {
        assert!(rt;
            fed(&mut replay, facts, hints)? == stands,
            "{facts:?} {hints:?}"
        );
        assert!(rt; !replay.proved());
    }
    Ok(())
}

#[test]
fn diagonal(rt: HostRuntime) -> Result<(), Fail> {
    let alloc = rt.alloc();
    // the order of a pair is the last that is left, and is taken
    let mut short = opened(alloc, MirrorKind::Diagonal, 2)?;
    assert!(rt; fed(&mut short, &[], &[pair(1, 2)])?);
    assert!(rt; short.proved());
    let mut replay = opened(alloc, MirrorKind::Diagonal, 3)?;
    let rows: [(&[Fact], &[Hint], bool); 12] = [
        (&[], &[pair(1, 2)], false),
        (&[least(Axis::X, 1, 2)], &[pair(1, 2)], true),
        (&[least(Axis::X, 2, 6), below(Axis::Y, 1, 6)], &[], true),
        (&[least(Axis::X, 5, 3), below(Axis::Y, 5, 3)], &[], true),
        // x is at most y
        (
            &[least(Axis::X, 3, 3), below(Axis::Y, 3, 3)],
            &[pair(3, 4)],
            true,
        ),
        (
            &[least(Axis::X, 3, 1), below(Axis::X, 4, 1)],
            &[pair(3, 4)],
            true,
        ),
        // on the line one of two orders is left where the other isn't so
        (
            &[least(Axis::Y, 5, 2), below(Axis::X, 5, 4)],
            &[pair(5, 6)],
            true,
        ),
        (
            &[least(Axis::Y, 5, 2), below(Axis::X, 5, 5)],
            &[pair(5, 6)],
            false,
        ),
        (
            &[least(Axis::Y, 5, 2), least(Axis::Y, 6, 1)],
            &[pair(5, 6)],
            false,
        ),
        (
            &[
                least(Axis::Y, 5, 2),
                below(Axis::X, 5, 5),
                least(Axis::Y, 6, 1),
            ],
            &[pair(5, 6)],
            true,
        ),
        (
            &[not_before(Axis::X, 5, 6), least(Axis::X, 6, 2)],
            &[pair(5, 6)],
            true,
        ),
        (
            &[not_before(Axis::Y, 5, 6), not_before(Axis::X, 6, 5)],
            &[pair(5, 6)],
            true,
        ),
    ];
    for (facts, hints, stands) in rows {
        assert!(rt;
            fed(&mut replay, facts, hints)? == stands,
            "{facts:?} {hints:?}"
        );
        assert!(rt; !replay.proved());
    }
    Ok(())
}
