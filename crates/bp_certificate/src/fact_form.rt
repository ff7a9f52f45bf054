// Facts and hints, each of its word.
ghost use Rattle.bp_base.specs.Limits.{most_number};
ghost use Rattle.bp_certificate.specs.Words.{ReadsBound, ReadsCoordinate, ReadsFact, ReadsHint, ReadsNotBefore, ReadsOrder, ReadsParts};

use crate::mark::{Mark, cut_before};
use bp_arrangement::{Fact, Hint};
use bp_base::{Axis, Pair};
use bp_document::axis_of;
use bp_text::number;

/// The fact of a word. None exactly where it is no fact's.
pub fn fact_of(word: &[u8]) -> Option<Fact>
    ensures { ReadsFact word.now result }
{
    let (front, behind) = cut_before(Mark::Sign, word);
    let (sign, back) = cut_before(Mark::Other, behind);
    fact_of_parts(front, sign, back)
}

// The fact of what stands before its sign, its sign, and what stands behind it.
fn fact_of_parts(front: &[u8], sign: &[u8], back: &[u8]) -> Option<Fact>
    ensures { ReadsParts front.now sign.now back.now result }
{
    if sign == b"<<".as_slice() {
        if !front.is_empty() && front[0] == b'!' {
            not_before_of(&front[1..], back)
        } else {
            before_of(front, back)
        }
    } else {
        bound_of(front, sign, back)
    }
}

fn before_of(front: &[u8], back: &[u8]) -> Option<Fact>
    ensures { ReadsOrder front.now back.now result }
{
    let (axis, first) = coordinate_of(front)?;
    let (other, second) = coordinate_of(back)?;
    if axis == other {
        Some(Fact::Before {
            axis,
            first,
            second,
        })
    } else {
        None
    }
}

fn not_before_of(front: &[u8], back: &[u8]) -> Option<Fact>
    ensures { ReadsNotBefore front.now back.now result }
{
    let (axis, first) = coordinate_of(front)?;
    let (other, second) = coordinate_of(back)?;
    if axis == other {
        Some(Fact::NotBefore {
            axis,
            first,
            second,
        })
    } else {
        None
    }
}

// The bound of a coordinate by a sign and a number.
fn bound_of(front: &[u8], sign: &[u8], back: &[u8]) -> Option<Fact>
    ensures { ReadsBound front.now sign.now back.now result }
{
    let (axis, leaf) = coordinate_of(front)?;
    let limit = number(back)?;
    if sign == b">=".as_slice() {
        let code = 2 * limit;
        return Some(Fact::Least { axis, leaf, code });
    }
    if sign == b">".as_slice() {
        let code = 2 * limit + 1;
        return Some(Fact::Least { axis, leaf, code });
    }
    if sign == b"<".as_slice() {
        let code = 2 * limit;
        return Some(Fact::Below { axis, leaf, code });
    }
    if sign == b"<=".as_slice() {
        let code = 2 * limit + 1;
        return Some(Fact::Below { axis, leaf, code });
    }
    None
}

// A leaf's coordinate on an axis.
fn coordinate_of(bytes: &[u8]) -> Option<(Axis, u64)>
    ensures { ReadsCoordinate bytes.now result }
{
    if bytes.is_empty() {
        return None;
    }
    let axis = axis_of(&bytes[..1])?;
    let leaf = number(&bytes[1..])?;
    Some((axis, leaf))
}

/// The hint of a word. None exactly where it is no hint's.
pub fn hint_of(word: &[u8]) -> Option<Hint>
    ensures { ReadsHint word.now result }
{
    let (front, back) = cut_before(Mark::Dash, word);
    let first = number(front)?;
    if back.is_empty() {
        return Some(Hint::Lemma { number: first });
    }
    let second = number(&back[1..])?;
    let pair = Pair {
        i: first,
        j: second,
    };
    Some(Hint::Pair { pair })
}
