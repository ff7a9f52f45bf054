// How many children the root has, and how many nodes have none.
ghost use Rattle.std.specs.Prelude.{◌≡◌, ◌≤◌, ◌==◌, length, drop, count_by, not};
ghost use Rattle.std.specs.List.{list_any};
ghost use Rattle.bp_tree.specs.Edges.{leaves_of};

pub fn root_children(parents: &[u64]) -> u64
    requires { 1 ≤ length parents.now }
    ensures { result ≡ count_by (λ p. p == 0) (drop 1 parents.now) }
{
    parents[1..].iter().filter(|parent| **parent == 0).count() as u64
}

pub fn leaf_count(parents: &[u64]) -> u64
    requires { 1 ≤ length parents.now }
    ensures { result ≡ leaves_of parents.now }
{
    let mut leaves = 0;
    for node in 0..parents.len() as u64 {
        if is_leaf(parents, node) {
            leaves += 1;
        }
    }
    leaves
}

fn is_leaf(parents: &[u64], node: u64) -> bool
    requires { 1 ≤ length parents.now }
    ensures { result ≡ not (list_any (λ p. p == node) (drop 1 parents.now)) }
{
    !parents[1..].contains(&node)
}
