use thiserror::Error;

/// What is wrong with a line of a document, in the order in which it is looked for.
#[derive(Clone, Copy, Debug, PartialEq, Eq)]
pub enum DocKind {
    /// More than 134,217,728 bytes, in line 0.
    TooLong,
    /// Bytes behind the line `end`.
    Trailing,
    /// The input ends before the line or before its LF.
    Cut,
    /// It isn't of the form that stands at this place.
    BadForm,
    /// An edge's length or name, or with the last edge the tree, isn't allowed.
    BadTree,
    /// The point's name isn't that of the leaf at this place.
    BadPoint,
    /// The node's depth doesn't fit behind the node before.
    BadDepth,
}

/// The first fault and its line, counted from 1, or 0 where it is a fault of the whole.
#[derive(Clone, Copy, Debug, PartialEq, Eq)]
pub struct DocFault {
    pub line: u64,
    pub kind: DocKind,
}

/// Why no document was read.
#[derive(Debug, Drop, Error)]
pub enum ReadDoc {
    #[error("line {}: {:?}", .0.line, .0.kind)]
    Fault(DocFault),
    #[error("no memory")]
    NoMemory,
}
