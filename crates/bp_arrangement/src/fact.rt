use bp_base::{Axis, Pair};

/// A fact of a placement on any finer grid; a code tells a bound (2K at K, 2K + 1 just behind it).
#[derive(Clone, Copy, PartialEq, Eq, Debug)]
pub enum Fact {
    /// The first leaf stands before the second on the axis, by at least their distance.
    Before { axis: Axis, first: u64, second: u64 },
    NotBefore { axis: Axis, first: u64, second: u64 },
    /// A lower bound of the leaf's coordinate: `>= K` has the code 2K, `> K` has 2K + 1.
    Least { axis: Axis, leaf: u64, code: u64 },
    /// An upper bound of the leaf's coordinate: `< K` has the code 2K, `<= K` has 2K + 1.
    Below { axis: Axis, leaf: u64, code: u64 },
}

/// What shows a lemma in part: a pair of leaves, or an earlier lemma by its number, from 1 on.
#[derive(Clone, Copy, PartialEq, Eq, Debug)]
pub enum Hint {
    Pair { pair: Pair },
    Lemma { number: u64 },
}
