ghost use Rattle.std.specs.Prelude.{ℕ, MatchOption};
ghost use Rattle.bp_text.specs.Numbers.{IsNumber};
ghost use Rattle.bp_tree.specs.Edges.{IsLength};
ghost use Rattle.bp_tree.specs.Calls.{ReadsEdge};

use crate::TreeKind;
use crate::words::{content, is_text, next_word};
use bp_base::{MOST_LENGTH, Name};
use bp_text::number;

/// An edge as a line gives it, with its length in grid units.
#[derive(Clone, Copy)]
pub struct Edge {
    pub upper: Name,
    pub lower: Name,
    pub length: u64,
}

/// The edge of a line, none where it has no words, or the first fault that the words have.
pub fn edge_of(line: &[u8]) -> Result<Option<Edge>, TreeKind>
    ensures { ReadsEdge line.now result }
{
    let line = content(line);
    let Some((upper, rest)) = next_word(line) else {
        return Ok(None);
    };
    if !is_text(line) {
        return Err(TreeKind::BadByte);
    }
    let Some((lower, rest)) = next_word(rest) else {
        return Err(TreeKind::WordCount);
    };
    let Some((length, rest)) = next_word(rest) else {
        return Err(TreeKind::WordCount);
    };
    if next_word(rest).is_some() {
        return Err(TreeKind::WordCount);
    }
    let Some(upper) = Name::new(upper) else {
        return Err(TreeKind::BadName);
    };
    let Some(lower) = Name::new(lower) else {
        return Err(TreeKind::BadName);
    };
    let Some(length) = length_of(length) else {
        return Err(TreeKind::BadLength);
    };
    Ok(Some(Edge {
        upper,
        lower,
        length,
    }))
}

// The number that the word is, from 1 to 1000.
fn length_of(word: &[u8]) -> Option<u64>
    ensures { MatchOption result ((n : ℕ) → IsNumber word.now n → IsLength n → ⊥) (λ n. IsNumber word.now n × IsLength n) }
{
    match number(word) {
        Some(length) if length >= 1 && length <= MOST_LENGTH => Some(length),
        _ => None,
    }
}
