// The law of made trees.
ghost use Rattle.std.specs.Prelude.{◌≡◌, ◌≤◌, ℕ};
ghost use Rattle.bp_base.specs.Tree.{TreeValue, leaf_count};
ghost use Rattle.bp_made.specs.Made.{IsMade};

/// For each number of leaves from 2 on and each seed there is exactly one tree that the generator makes, and it has that many leaves.
pub fn law_of_made()
    ensures some { (leaves seed : ℕ) → 2 ≤ leaves → (T : TreeValue) × IsMade leaves seed T }
    ensures one { (leaves seed : ℕ) (T U : TreeValue) → IsMade leaves seed T → IsMade leaves seed U → T ≡ U }
    ensures leaves { (leaves seed : ℕ) (T : TreeValue) → 2 ≤ leaves → IsMade leaves seed T → leaf_count T ≡ leaves }
{}
