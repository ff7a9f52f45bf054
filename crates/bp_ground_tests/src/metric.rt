ghost use Rattle.std.specs.Prelude.{◌≡◌, ◌<◌, ◌≤◌, IfOk};
ghost use Rattle.bp_base.specs.Tree.{IsLeaf, node_count};

use bp_base::{Name, Sheet, Tree};
use bp_metric::*;
use std::alloc::Global;
use std::test::Fail;

fn shares<T: Sync>(_: &T) {}

fn named(letter: &[u8]) -> Result<Name, Fail>
    ensures { IfOk result (λ name. name ≡ letter.now) }
{
    match Name::new(letter) {
        Some(name) => Ok(name),
        None => Err(Fail::from("no name")),
    }
}

fn checked(length: u64) -> Result<u64, Fail>
    ensures { IfOk result (λ same. (1 ≤ same) × (same ≤ 1000)) }
{
    if length < 1 || 1000 < length {
        return Err(Fail::from("no length"));
    }
    Ok(length)
}

// c p a/c q b/c r d/c s e/c t f/
fn star(alloc: Global, lengths: [u64; 5]) -> Result<Tree, Fail>
    ensures { IfOk result (λ tree. node_count tree ≡ 6) }
{
    let [a, b, d, e, f] = lengths;
    let lengths = [
        0,
        checked(a)?,
        checked(b)?,
        checked(d)?,
        checked(e)?,
        checked(f)?,
    ];
    let names = [
        named(b"c")?,
        named(b"p")?,
        named(b"q")?,
        named(b"r")?,
        named(b"s")?,
        named(b"t")?,
    ];
    let parents = Vec::from_slice(alloc, &[0; 6])?;
    let lengths = Vec::from_slice(alloc, &lengths)?;
    let names = Vec::from_slice(alloc, &names)?;
    Ok(Tree::of(parents, lengths, names))
}

// The distance of two leaves, the first one's radius at its own edge, and whether they are twins.
fn facts(metric: &Metric, i: u64, j: u64) -> (u64, u64, bool)
    requires i { IsLeaf metric.now.tree i }
    requires j { IsLeaf metric.now.tree j }
    requires edge { i < node_count metric.now.tree }
{
    let edge = metric.leaf_node(i);
    let radius = if edge == i && metric.below(i, i) && !metric.below(j, i) {
        metric.reach_radius(i, i)
    } else {
        0
    };
    (metric.dist(i, j), radius, metric.twins(i, j))
}

#[test]
fn sheets(rt: HostRuntime) -> Result<(), Fail> {
    let tree = star(rt.alloc(), [2, 2, 2, 1, 1])?;
    let square = Metric::of(rt.alloc(), &tree)?;
    shares(&square);
    assert_eq!(rt; square.sheet(), Sheet::Square);
    let mut strip = Metric::on(rt.alloc(), &tree, Sheet::Strip { width: 4 })?;
    assert_eq!(rt; strip.sheet(), Sheet::Strip { width: 4 });
    strip.set_sheet(Sheet::Strip { width: 0 });
    assert_eq!(rt; strip.sheet(), Sheet::Strip { width: 0 });
    triangle(&strip);
    leaves_apart(&strip);
    twins_alike(&strip);
    radii_apart(&strip);
    assert_eq!(rt; strip.into_tree().lengths(), tree.lengths());
    Ok(())
}

#[test]
fn star_of_five(rt: HostRuntime) -> Result<(), Fail> {
    let tree = star(rt.alloc(), [2, 2, 2, 1, 1])?;
    let metric = Metric::of(rt.alloc(), &tree)?;
    assert_eq!(rt; metric.leaves(), 5);
    let rows = [
        (1, 2, (4, 2, true)),
        (3, 4, (3, 2, false)),
        (4, 5, (2, 1, true)),
        (5, 1, (3, 1, false)),
    ];
    for (i, j, wanted) in rows {
        assert_eq!(rt; facts(&metric, i, j), wanted, "of {i} and {j}");
    }
    Ok(())
}
