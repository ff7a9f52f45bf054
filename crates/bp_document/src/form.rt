// The lines before the nodes, each by its words. A keyword comes first.
ghost use Rattle.std.specs.Prelude.{◌≤◌};
ghost use Rattle.bp_base.specs.Limits.{most_number};
ghost use Rattle.bp_document.specs.FormWords.{ReadsEdgeForm, ReadsField, ReadsFloorForm, ReadsNumber, ReadsPointForm, ReadsProofForm, ReadsSheet, ReadsSheetWords};
ghost use Rattle.bp_document.specs.Words.{words, words_behind};

use crate::cut::{next_word, split_word};
use crate::node_line::chain_of;
use bp_base::{Chain, MOST_PROOF_LINES, MOST_WIDTH, Name, Point, Sheet};
use bp_text::number;
use bp_tree::Edge;
use std::alloc::Global;

/// A point line.
#[derive(Clone, Copy)]
pub struct PointForm {
    pub name: Name,
    pub point: Point,
}

/// A floor line.
#[derive(Drop)]
pub struct FloorForm {
    pub m: u64,
    pub side: u64,
    pub leaves: Chain,
}

/// The number of the word, where it is within these bounds.
pub fn number_within(word: &[u8], least: u64, most: u64) -> Option<u64>
    requires { most ≤ most_number }
    ensures { ReadsNumber least most word.now result }
{
    match number(word) {
        Some(number) if number >= least && number <= most => Some(number),
        _ => None,
    }
}

/// The number behind a keyword, where it is within these bounds.
pub fn field_of(bytes: &[u8], keyword: &[u8], least: u64, most: u64) -> Option<u64>
    requires { most ≤ most_number }
    ensures { ReadsField keyword.now least most (words bytes.now) result }
{
    let (word, rest) = split_word(bytes);
    if word != keyword {
        return None;
    }
    let (word, rest) = next_word(rest)?;
    if next_word(rest).is_some() {
        return None;
    }
    number_within(word, least, most)
}

pub fn edge_form(bytes: &[u8]) -> Option<Edge>
    ensures { ReadsEdgeForm (words bytes.now) result }
{
    let (word, rest) = split_word(bytes);
    if word != b"edge".as_slice() {
        return None;
    }
    let (upper, rest) = next_word(rest)?;
    let (lower, rest) = next_word(rest)?;
    let (length, rest) = next_word(rest)?;
    if next_word(rest).is_some() {
        return None;
    }
    let upper = Name::new(upper)?;
    let lower = Name::new(lower)?;
    let length = number(length)?;
    Some(Edge {
        upper,
        lower,
        length,
    })
}

pub fn point_form(bytes: &[u8]) -> Option<PointForm>
    ensures { ReadsPointForm (words bytes.now) result }
{
    let (word, rest) = split_word(bytes);
    if word != b"point".as_slice() {
        return None;
    }
    let (name, rest) = next_word(rest)?;
    let (x, rest) = next_word(rest)?;
    let (y, rest) = next_word(rest)?;
    if next_word(rest).is_some() {
        return None;
    }
    let name = Name::new(name)?;
    let x = number(x)?;
    let y = number(y)?;
    Some(PointForm {
        name,
        point: Point { x, y },
    })
}

pub fn floor_form(alloc: Global, bytes: &[u8]) -> Option<FloorForm>
    ensures { ReadsFloorForm (words bytes.now) result }
{
    let (word, rest) = split_word(bytes);
    if word != b"floor".as_slice() {
        return None;
    }
    let (m, rest) = next_word(rest)?;
    let (side, rest) = next_word(rest)?;
    let m = number(m)?;
    let side = number(side)?;
    let leaves = chain_of(alloc, rest)?;
    Some(FloorForm { m, side, leaves })
}

pub fn sheet_form(bytes: &[u8]) -> Option<Sheet>
    ensures { ReadsSheet (words bytes.now) result }
{
    let (word, rest) = split_word(bytes);
    if word != b"sheet".as_slice() {
        return None;
    }
    sheet_of(rest)
}

// The sheet of the words behind `sheet`.
fn sheet_of(bytes: &[u8]) -> Option<Sheet>
    ensures { ReadsSheetWords (words_behind bytes.now) result }
{
    let (word, rest) = next_word(bytes)?;
    if word == b"square".as_slice() {
        return match next_word(rest) {
            Some(_) => None,
            None => Some(Sheet::Square),
        };
    }
    if word != b"strip".as_slice() {
        return None;
    }
    let (width, rest) = next_word(rest)?;
    if next_word(rest).is_some() {
        return None;
    }
    let width = number_within(width, 0, MOST_WIDTH)?;
    Some(Sheet::Strip { width })
}

/// How many node lines follow, or None for `proof none`.
pub fn proof_form(bytes: &[u8]) -> Option<Option<u64>>
    ensures { ReadsProofForm (words bytes.now) result }
{
    let (word, rest) = split_word(bytes);
    if word != b"proof".as_slice() {
        return None;
    }
    let (word, rest) = next_word(rest)?;
    if next_word(rest).is_some() {
        return None;
    }
    if word == b"none".as_slice() {
        return Some(None);
    }
    let count = number_within(word, 1, MOST_PROOF_LINES)?;
    Some(Some(count))
}
