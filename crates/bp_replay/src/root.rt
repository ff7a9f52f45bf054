// The first knowledge of a root.
ghost use Rattle.std.specs.Prelude.{◌≡◌, ◌<◌, ℕ, [], Some, length};
ghost use Rattle.std.specs.List.{list_any};
ghost use Rattle.bp_base.specs.declared.point.Axis.{Axis as AnyAxis};
ghost use Rattle.bp_base.specs.Tree.{leaf_count};
ghost use Rattle.bp_lemmas.specs.Knowledge.{first_knowledge};
ghost use Rattle.bp_lemmas.specs.Systems.{is_order};
ghost use Rattle.bp_replay.specs.Cells.{cell_of, places, rows};
ghost use Rattle.bp_replay.specs.Kept.{AreTwoLeaves, Keeps, has_at};
ghost use Rattle.bp_replay.specs.Leanings.{corner_of};
ghost use Rattle.bp_replay.specs.Replays.{IsTask};
ghost use Rattle.bp_replay.specs.Roots.{impossible, with_heads as with_heads_of};
ghost use Rattle.bp_replay.specs.Tasks.{system_of};

use crate::given::Given;
use crate::known::Known;
use crate::sets::with;
use bp_base::{Axis, Pair, Sheet};

// What is known at first.
pub fn first_known(given: &Given) -> Known
    requires task { IsTask given.now }
    ensures { Keeps given.now result (first_knowledge (system_of given.now)) }
{
    let root = with_heads(given);
    match given.corner() {
        Some(corner) => with_corner(given, root, corner),
        None => root,
    }
}

// And how the leaves of a corner lie.
fn with_corner(given: &Given, root: Known, corner: Pair) -> Known
    requires corner { corner_of given.now.ties ≡ Some corner }
    requires two { AreTwoLeaves given.now.tree corner.i corner.j }
    requires few { leaf_count given.now.tree < rows }
    requires kept { Keeps given.now root (with_heads_of given.now given.now.heads) }
    ensures { Keeps given.now result (first_knowledge (system_of given.now)) }
{
    let mut known = root;
    match given.sheet() {
        Sheet::Square => known.set_known(given, Axis::X, corner.i, corner.j),
        Sheet::Strip { width: _ } => {
            known.set_known_not(given, Axis::Y, corner.j, corner.i);
            known.set_known_not(given, Axis::X, corner.j, corner.i);
        }
    }
    known
}

// That no second leaf of a head lies before the first. The last head comes first.
fn with_heads(given: &Given) -> Known
    requires task { IsTask given.now }
    ensures { Keeps given.now result (with_heads_of given.now given.now.heads) }
{
    let mut root = blank(given);
    let count = given.heads();
    for k in 0..count {
        let head = given.head(count - 1 - k);
        root.set_known_not(given, Axis::X, head.j, head.i);
    }
    root
}

fn blank(given: &Given) -> Known
    requires task { IsTask given.now }
    ensures { Keeps given.now result (with_heads_of given.now []) }
{
    let mut upper = [0; 66];
    for at in 0..66 {
        upper[at] = given.first_upper(at);
    }
    let fails = none_fails(given);
    Known {
        lower: [0; 66],
        upper,
        holds: [0; 66],
        fails,
        broken: given.bound() == 0,
    }
}

// Of no order it is known that it doesn't hold, but of that which no coordinates meet: its cell is the first.
fn none_fails(given: &Given) -> [u64; 66]
    requires few { leaf_count given.now.tree < rows }
    ensures each { length result ≡ places }
    ensures kept { (axis : AnyAxis) (i j : ℕ) → AreTwoLeaves given.now.tree i j → has_at result (cell_of given.now axis i j) ≡ list_any (is_order ((system_of given.now).order axis i j)) (impossible given.now.ties) }
{
    let mut fails = [0; 66];
    match given.corner() {
        Some(_) => {}
        None => fails[0] = with(0, 0),
    }
    fails
}
