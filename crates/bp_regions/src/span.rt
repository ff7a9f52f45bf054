// Where the balls of each edge stand that aren't empty.
ghost use Rattle.std.specs.Prelude.{◌≡◌, ◌+◌, ◌<◌, ◌≤◌, ℕ, length, slice_index_or, IfOk};
ghost use Rattle.bp_regions.specs.Balls.{AreSpans, IsSpan, no_ball};

use crate::ball::Ball;
use bp_base::NoMemory;
use std::alloc::Global;

// Some of the balls.
#[derive(Clone, Copy)]
pub struct Span {
    pub start: usize,
    pub count: usize,
}

// For each edge a part of its balls that leaves only empty ones out. Each edge has so many balls.
pub fn spans_of(alloc: Global, balls: &[Ball], each: usize) -> Result<Vec<Span>, NoMemory>
    requires { 0 < each }
    ensures { IfOk result (λ v. AreSpans balls.now each v.items) }
{
    let mut spans = Vec::new(alloc);
    let mut start = 0;
    while each <= balls.len() - start {
        spans.push(span_of(balls, start, each))?;
        start += each;
    }
    Ok(spans)
}

fn span_of(balls: &[Ball], start: usize, each: usize) -> Span
    requires { start + each ≤ length balls.now }
    ensures { IsSpan balls.now start each result }
{
    let end = start + each;
    let first = first_from(balls, start, end);
    let last = last_before(balls, first, end);
    Span {
        start: first,
        count: last - first,
    }
}

// The place of the first ball from the start on that isn't empty, or else the end.
fn first_from(balls: &[Ball], start: usize, end: usize) -> usize
    requires { (start ≤ end) × (end ≤ length balls.now) }
    ensures within { (start ≤ result) × (result ≤ end) }
    ensures empty { (k : ℕ) → start ≤ k → k < result → (slice_index_or balls.now k no_ball).radius ≡ 0 }
{
    for at in start..end {
        if balls[at].radius > 0 {
            return at;
        }
    }
    end
}

// The place after the last ball before the end that isn't empty, or else the start.
fn last_before(balls: &[Ball], start: usize, end: usize) -> usize
    requires { (start ≤ end) × (end ≤ length balls.now) }
    ensures within { (start ≤ result) × (result ≤ end) }
    ensures empty { (k : ℕ) → result ≤ k → k < end → (slice_index_or balls.now k no_ball).radius ≡ 0 }
{
    let mut at = end;
    while at > start {
        if balls[at - 1].radius > 0 {
            return at;
        }
        at -= 1;
    }
    at
}
