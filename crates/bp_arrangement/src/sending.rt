// Where a swap sends leaves, and its head.
ghost use Rattle.std.specs.Prelude.{◌≡◌, ◌≤◌, length, min};
ghost use Rattle.bp_arrangement.specs.Swaps.{head, least, sent};

use bp_base::Pair;

// Where a swap sends a leaf.
pub fn sent(swap: &[Pair], leaf: u64) -> u64
    ensures { result ≡ sent swap.now leaf }
{
    for pair in swap {
        if leaf == pair.i {
            return pair.j;
        }
        if leaf == pair.j {
            return pair.i;
        }
    }
    leaf
}

/// The head of a swap: the pair that holds the least leaf, that leaf first.
pub fn head(swap: &[Pair]) -> Pair
    requires some { 1 ≤ length swap.now }
    ensures head { result ≡ head swap.now }
{
    let first = least_leaf(swap);
    let second = sent(swap, first);
    Pair {
        i: first,
        j: second,
    }
}

// The least leaf that a swap exchanges.
fn least_leaf(swap: &[Pair]) -> u64
    requires { 1 ≤ length swap.now }
    ensures { result ≡ least swap.now }
{
    let mut leaf = lesser(swap[0]);
    for at in 1..swap.len() {
        leaf = leaf.min(lesser(swap[at]));
    }
    leaf
}

fn lesser(pair: Pair) -> u64
    ensures { result ≡ min pair.i pair.j }
{
    pair.i.min(pair.j)
}
