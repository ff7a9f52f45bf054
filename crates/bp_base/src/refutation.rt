use crate::{Claim, Pair};
use sqlite_items::Items;

/// Why no smaller sheet will do: a tree of branches. Its root stands for all placements, and each leaf has a claim of its path,
/// the choices on the way to it.
#[derive(Drop)]
pub enum Refutation {
    /// One child for each allowed choice of the pair, in order.
    Split {
        pair: Pair,
        children: Items<Refutation>,
    },
    /// A branch that was examined to its end.
    Closed {
        claim: Claim,
    },
    /// A branch that was left when the budget was spent. Its claim counts as that of a closed one does.
    Open {
        claim: Claim,
    },
}
