ghost use Rattle.std.specs.Prelude.{◌∷◌};
ghost use Rattle.bp_document.specs.NodeWords.{ReadsNode, ReadsChain, ReadsPair, ReadsAxis, ReadsChainOn, ReadsOpen, ReadsClosed, ReadsKind};
ghost use Rattle.bp_document.specs.Words.{words_behind};

use crate::cut::{next_word, split_word};
use bp_base::{Axis, Chain, Claim, MOST_LEAVES, Pair};
use bp_text::number;
use smallvec::SmallVec;
use std::alloc::Global;

/// What a node line says of its node.
#[derive(Drop)]
pub enum NodeKind {
    Split { pair: Pair },
    Closed { claim: Claim },
    Open { claim: Claim },
}

/// A node line. The root has depth 0.
#[derive(Drop)]
pub struct NodeLine {
    pub depth: u64,
    pub kind: NodeKind,
}

/// The node of a line without its LF. None exactly where it is no node's.
pub fn read_node(alloc: Global, bytes: &[u8]) -> Option<NodeLine>
    ensures { ReadsNode bytes.now result }
{
    let (depth, rest) = split_word(bytes);
    let depth = number(depth)?;
    let kind = kind_of(alloc, rest)?;
    Some(NodeLine { depth, kind })
}

// The node of the words behind the depth.
fn kind_of(alloc: Global, bytes: &[u8]) -> Option<NodeKind>
    ensures { ReadsKind (words_behind bytes.now) result }
{
    let (word, rest) = next_word(bytes)?;
    if word == b"split".as_slice() {
        let pair = pair_of(rest)?;
        return Some(NodeKind::Split { pair });
    }
    if word == b"open".as_slice() {
        let claim = open_of(alloc, rest)?;
        return Some(NodeKind::Open { claim });
    }
    let claim = closed_of(alloc, word, rest)?;
    Some(NodeKind::Closed { claim })
}

// The claim of the word of its kind and the words behind it.
fn closed_of(alloc: Global, kind: &[u8], bytes: &[u8]) -> Option<Claim>
    ensures { ReadsClosed (kind.now ∷ words_behind bytes.now) result }
{
    if kind == b"walk".as_slice() {
        let (axis, chain) = chain_on(alloc, bytes)?;
        return Some(Claim::Walk { axis, chain });
    }
    if kind == b"cycle".as_slice() {
        let (axis, chain) = chain_on(alloc, bytes)?;
        return Some(Claim::Cycle { axis, chain });
    }
    None
}

// The claim of the words behind `open`.
fn open_of(alloc: Global, bytes: &[u8]) -> Option<Claim>
    ensures { ReadsOpen (words_behind bytes.now) result }
{
    let (word, rest) = next_word(bytes)?;
    if word == b"cycle".as_slice() {
        let (axis, chain) = chain_on(alloc, rest)?;
        return Some(Claim::Cycle { axis, chain });
    }
    let (axis, chain) = chain_on(alloc, bytes)?;
    Some(Claim::Walk { axis, chain })
}

fn chain_on(alloc: Global, bytes: &[u8]) -> Option<(Axis, Chain)>
    ensures { ReadsChainOn (words_behind bytes.now) result }
{
    let (axis, rest) = next_word(bytes)?;
    let axis = axis_of(axis)?;
    let chain = chain_of(alloc, rest)?;
    Some((axis, chain))
}

/// The axis of a word.
pub fn axis_of(word: &[u8]) -> Option<Axis>
    ensures { ReadsAxis word.now result }
{
    if word == b"x".as_slice() {
        return Some(Axis::X);
    }
    if word == b"y".as_slice() {
        return Some(Axis::Y);
    }
    None
}

/// The pair of two words behind the first space.
pub fn pair_of(bytes: &[u8]) -> Option<Pair>
    ensures { ReadsPair (words_behind bytes.now) result }
{
    let (i, rest) = next_word(bytes)?;
    let (j, rest) = next_word(rest)?;
    if next_word(rest).is_some() {
        return None;
    }
    let i = number(i)?;
    let j = number(j)?;
    Some(Pair { i, j })
}

/// The chain of the words behind the first space, which are numbers.
pub fn chain_of(alloc: Global, bytes: &[u8]) -> Option<Chain>
    ensures { ReadsChain (words_behind bytes.now) result }
{
    let mut numbers: SmallVec<u64, 32> = SmallVec::new(alloc);
    let mut rest = bytes;
    while let Some((word, more)) = next_word(rest) {
        let number = number(word)?;
        if numbers.len() as u64 == MOST_LEAVES {
            return None;
        }
        numbers.push_reserved(number);
        rest = more;
    }
    Chain::new(alloc, numbers.as_slice())
}
