ghost use Rattle.std.specs.Prelude.{◌≡◌};
ghost use Rattle.bp_tree.specs.Reading.{of_whole};

use thiserror::Error;

/// What is wrong with the bytes of a tree, in the order in which it is looked for: first in the whole, then in one line
/// (or element of `edges`) after another, then in what they make together.
#[derive(Clone, Copy, Debug, PartialEq, Eq)]
pub enum TreeKind {
    /// More than 65,536 bytes.
    TooLong,
    /// The bytes begin as a JSON value and are none.
    BadJson,
    /// The JSON value has no list `edges` of elements with two texts and a whole number.
    BadShape,
    /// Before its comment a line holds a byte that is neither a tab nor from 32 to 126.
    BadByte,
    /// The line hasn't three words.
    WordCount,
    /// One of the two names hasn't 1 to 32 letters, digits, `_` and `-`.
    BadName,
    /// The length is no number from 1 to 1000 in canonical decimal.
    BadLength,
    /// It isn't the first edge, and the upper name is none so far.
    UnknownParent,
    /// The lower name is there already, or equals the upper name of the first edge.
    RepeatedName,
    /// It would make a 65th node.
    TooManyNodes,
    /// There is no edge.
    Empty,
    /// The root has one child alone, so it is a leaf itself.
    RootIsLeaf,
    /// There are more than 32 leaves.
    TooManyLeaves,
}

/// A fault and its line, counted from 1, or 0 where it is a fault of the whole.
#[derive(Clone, Copy, Debug, PartialEq, Eq)]
pub struct TreeFault {
    pub line: u64,
    pub kind: TreeKind,
}

/// Why no tree was read.
#[derive(Debug, Drop, Error)]
pub enum ReadTree {
    #[error("line {}: {:?}", .0.line, .0.kind)]
    Fault(TreeFault),
    #[error("no memory")]
    NoMemory,
}

pub fn of_the_whole(kind: TreeKind) -> ReadTree
    ensures { result ≡ ReadTree.Fault (of_whole kind) }
{
    ReadTree::Fault(TreeFault { line: 0, kind })
}
