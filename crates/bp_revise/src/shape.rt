// Trees of one shape.
ghost use Rattle.std.specs.Prelude.{◌≡◌, ◌↔◌, IsTrue};
ghost use Rattle.bp_revise.specs.Keep.{AreOfOneShape};

use bp_base::{Name, Tree};

/// Whether two trees have the same nodes, parents and names. Their lengths may differ.
pub fn are_of_one_shape(tree: &Tree, other: &Tree) -> bool
    ensures { IsTrue result ↔ AreOfOneShape tree.now other.now }
{
    if tree.parents() != other.parents() {
        return false;
    }
    are_same_names(tree.names(), other.names())
}

fn are_same_names(names: &[Name], others: &[Name]) -> bool
    ensures { IsTrue result ↔ (others.now ≡ names.now) }
{
    if names.len() != others.len() {
        return false;
    }
    for k in 0..names.len() {
        if names[k].bytes() != others[k].bytes() {
            return false;
        }
    }
    true
}
