// The lemmas that were learned, in flat lists.
use crate::facts::{Fact, Hint, Stop, packed, unpacked};
use std::alloc::Global;

const MOST: usize = 268_435_456;

// No lemma has this number.
pub const NO_LEMMA: u32 = 4_294_967_295;

// Where a lemma's part of a list stands.
#[derive(Clone, Copy)]
pub struct Span {
    pub start: u32,
    pub end: u32,
}

#[derive(Clone, Copy)]
pub struct Lemma {
    pub facts: Span,
    pub hints: Span,
    // the earlier lemmas that it stands on beside those of its hints
    pub needs: Span,
    // the number of conflicts when it last served
    pub used: u64,
    // how many levels its facts were of
    pub levels: u32,
    // whether it is watched
    pub kept: bool,
}

#[derive(Drop)]
pub struct Lemmas {
    list: Vec<Lemma>,
    facts: Vec<Fact>,
    // packed
    hints: Vec<u32>,
    needs: Vec<u32>,
}

fn full<T>(pushed: Result<(), T>) -> Result<(), Stop>
where
    T: Drop,
{
    match pushed {
        Ok(()) => Ok(()),
        Err(_) => Err(Stop::Full),
    }
}

// Adds the items to the list, and gives where they stand.
fn add_all<T: Copy>(list: &mut Vec<T>, items: &[T]) -> Result<Span, Stop> {
    let start = list.len();
    if start > MOST || items.len() > MOST {
        return Err(Stop::Full);
    }
    match list.extend_from_slice(items) {
        Ok(()) => Ok(Span {
            start: start as u32,
            end: (start + items.len()) as u32,
        }),
        Err(_) => Err(Stop::Full),
    }
}

fn add_hints(list: &mut Vec<u32>, hints: &[Hint]) -> Result<Span, Stop> {
    let start = list.len();
    if start > MOST || hints.len() > MOST {
        return Err(Stop::Full);
    }
    for hint in hints {
        full(list.push(packed(*hint)))?;
    }
    Ok(Span {
        start: start as u32,
        end: (start + hints.len()) as u32,
    })
}

// Moves a part of a list down to a place, and gives where it stands then.
fn move_down<T: Copy>(list: &mut [T], part: Span, to: u32) -> Span {
    let mut end = to;
    for at in part.start..part.end {
        let item = match list.get(at as usize) {
            Some(item) => *item,
            None => break,
        };
        if let Some(slot) = list.get_mut(end as usize) {
            *slot = item;
        }
        end = end.saturating_add(1);
    }
    Span { start: to, end }
}

/// The number that a lemma has got; none where it was dropped.
pub fn renumbered(numbers: &[u32], number: u32) -> u32 {
    match numbers.get(number as usize) {
        Some(number) => *number,
        None => NO_LEMMA,
    }
}

// New numbers in the same order; what isn't needed has none.
fn numbers_of(alloc: Global, needed: &[bool]) -> Result<Vec<u32>, Stop> {
    let mut numbers = Vec::new(alloc);
    let mut next = 0u32;
    for is_needed in needed {
        if *is_needed {
            full(numbers.push(next))?;
            next = next.saturating_add(1);
        } else {
            full(numbers.push(NO_LEMMA))?;
        }
    }
    Ok(numbers)
}

// The part of a list; none of it where it isn't there.
fn part<T>(list: &[T], span: Span) -> &[T] {
    let (start, end) = (span.start as usize, span.end as usize);
    if start <= end && end <= list.len() {
        &list[start..end]
    } else {
        &list[..0]
    }
}

impl Lemmas {
    pub fn new(alloc: Global) -> Lemmas {
        Lemmas {
            list: Vec::new(alloc),
            facts: Vec::new(alloc),
            hints: Vec::new(alloc),
            needs: Vec::new(alloc),
        }
    }

    /// How many there are.
    pub fn len(&self) -> usize {
        self.list.len()
    }

    pub fn get(&self, number: u32) -> Option<&Lemma> {
        self.list.get(number as usize)
    }

    pub fn get_mut(&mut self, number: u32) -> Option<&mut Lemma> {
        self.list.get_mut(number as usize)
    }

    /// The facts of a lemma that can't all hold; none where there is no such lemma.
    pub fn facts_of(&self, number: u32) -> &[Fact] {
        match self.list.get(number as usize) {
            Some(lemma) => part(&self.facts, lemma.facts),
            None => &self.facts[..0],
        }
    }

    /// The hints of a lemma, packed.
    pub fn hints_of(&self, number: u32) -> &[u32] {
        match self.list.get(number as usize) {
            Some(lemma) => part(&self.hints, lemma.hints),
            None => &self.hints[..0],
        }
    }

    pub fn needs_of(&self, number: u32) -> &[u32] {
        match self.list.get(number as usize) {
            Some(lemma) => part(&self.needs, lemma.needs),
            None => &self.needs[..0],
        }
    }

    // The facts of a lemma that is still watched, to be exchanged.
    pub fn watched(&mut self, number: u32) -> Option<&mut [Fact]> {
        let lemma = self.list.get(number as usize)?;
        let (start, end) = (lemma.facts.start as usize, lemma.facts.end as usize);
        if !lemma.kept || start >= end || end > self.facts.len() {
            return None;
        }
        Some(&mut self.facts[start..end])
    }

    /// Adds a lemma, and gives its number.
    pub fn add(
        &mut self,
        facts: &[Fact],
        hints: &[Hint],
        needs: &[u32],
        levels: u32,
        used: u64,
    ) -> Result<u32, Stop> {
        let number = self.list.len();
        if number > MOST {
            return Err(Stop::Full);
        }
        let lemma = Lemma {
            facts: add_all(&mut self.facts, facts)?,
            hints: add_hints(&mut self.hints, hints)?,
            needs: add_all(&mut self.needs, needs)?,
            used,
            levels,
            kept: facts.len() > 1,
        };
        full(self.list.push(lemma))?;
        Ok(number as u32)
    }

    /// Marks the lemmas that are watched.
    pub fn mark_kept(&self, needed: &mut Vec<bool>) {
        for at in 0..self.list.len() {
            if let Some(lemma) = self.list.get(at) {
                if lemma.kept && at < needed.len() {
                    needed[at] = true;
                }
            }
        }
    }

    /// Marks what the marked lemmas stand on, and what these do in turn.
    pub fn mark_needs(&self, needed: &mut Vec<bool>) {
        let count = self.list.len();
        for back in 0..count {
            let number = count - 1 - back;
            if number < 4_294_967_296 && needed.get(number) == Some(&true) {
                self.mark_needs_of(number as u32, needed);
                self.mark_hints_of(number as u32, needed);
            }
        }
    }

    fn mark_needs_of(&self, number: u32, needed: &mut Vec<bool>) {
        for need in self.needs_of(number) {
            if let Some(is_needed) = needed.get_mut(*need as usize) {
                *is_needed = true;
            }
        }
    }

    fn mark_hints_of(&self, number: u32, needed: &mut Vec<bool>) {
        for hint in self.hints_of(number) {
            if let Hint::Lemma(lemma) = unpacked(*hint) {
                if let Some(is_needed) = needed.get_mut(lemma as usize) {
                    *is_needed = true;
                }
            }
        }
    }

    /// Drops the lemmas that aren't needed, and gives the numbers that the others have got.
    pub fn drop_others(&mut self, alloc: Global, needed: &[bool]) -> Result<Vec<u32>, Stop> {
        let numbers = numbers_of(alloc, needed)?;
        for need in self.needs.iter_mut() {
            *need = renumbered(&numbers, *need);
        }
        for hint in self.hints.iter_mut() {
            if let Hint::Lemma(number) = unpacked(*hint) {
                *hint = packed(Hint::Lemma(renumbered(&numbers, number)));
            }
        }
        self.close_up(&numbers);
        Ok(numbers)
    }

    // Moves the lemmas that have got a number down to their places.
    fn close_up(&mut self, numbers: &[u32]) {
        let mut count = 0u32;
        let (mut facts, mut hints, mut needs) = (0u32, 0u32, 0u32);
        for at in 0..self.list.len() {
            let lemma = match self.list.get(at) {
                Some(lemma) => *lemma,
                None => break,
            };
            if numbers.get(at) == Some(&NO_LEMMA) {
                continue;
            }
            let moved = Lemma {
                facts: move_down(&mut self.facts, lemma.facts, facts),
                hints: move_down(&mut self.hints, lemma.hints, hints),
                needs: move_down(&mut self.needs, lemma.needs, needs),
                ..lemma
            };
            facts = moved.facts.end;
            hints = moved.hints.end;
            needs = moved.needs.end;
            if let Some(slot) = self.list.get_mut(count as usize) {
                *slot = moved;
            }
            count = count.saturating_add(1);
        }
        self.list.truncate(count as usize);
        self.facts.truncate(facts as usize);
        self.hints.truncate(hints as usize);
        self.needs.truncate(needs as usize);
    }
}
