// Laws of the bytes of trees.
ghost use Rattle.std.specs.Prelude.{ℕ, List};
ghost use Rattle.bp_base.specs.Tree.{TreeValue, IsTree};
ghost use Rattle.bp_tree.specs.Faults.{HasOneAnswer};
ghost use Rattle.bp_tree.specs.Text.{TreeOf, tree_text};

/// Bytes are those of one tree, or have one first fault: never two of one kind, never both, and never neither.
pub fn law_of_one_answer()
    ensures { (bytes : List ℕ) → HasOneAnswer bytes }
{}

/// The canonical text of a tree is a text of this tree.
pub fn law_of_texts()
    ensures { (T : TreeValue) → IsTree T → TreeOf (tree_text T) T }
{}
