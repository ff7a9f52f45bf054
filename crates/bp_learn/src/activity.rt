// Which bounds and groups the latest conflicts met most, and which bound is decided next.
use crate::facts::{Fact, Stop, Truth};
use crate::knowledge::Knowledge;
use crate::problem::MOST_GROUPS;
use std::alloc::Global;
use std::collections::HashMap;

// A bound's place in the heap where it is in none, and where it was taken out at a level that is still open.
const ABSENT: u32 = 4_294_967_295;

const TAKEN: u32 = 4_294_967_294;

const MOST_BOUNDS: usize = 16_777_216;

// By how much less an earlier conflict counts than the next one, and how much is too much to count on.
const DECAY: f64 = 0.98;

const MUCH: f64 = 1e100;

const LITTLE: f64 = 1e-100;

/// A lower bound of a coordinate, or its denial.
#[derive(Clone, Copy, PartialEq, Eq, Hash)]
pub struct Bound {
    pub coordinate: u8,
    pub code: u32,
}

#[derive(Clone, Copy)]
struct Taken {
    number: u32,
    level: u32,
}

#[derive(Drop)]
pub struct Activity {
    // by the number of a bound
    bounds: Vec<Bound>,
    activity: Vec<f64>,
    place: Vec<u32>,
    // the numbers of the bounds that may be decided, none less active than those below it
    heap: Vec<u32>,
    numbers: HashMap<Bound, u32>,
    taken: Vec<Taken>,
    step: f64,
    groups: [f64; MOST_GROUPS],
}

fn value(list: &[f64], number: u32) -> f64 {
    match list.get(number as usize) {
        Some(value) => *value,
        None => 0.0,
    }
}

impl Activity {
    pub fn new(alloc: Global) -> Activity {
        Activity {
            bounds: Vec::new(alloc),
            activity: Vec::new(alloc),
            place: Vec::new(alloc),
            heap: Vec::new(alloc),
            numbers: HashMap::new(alloc),
            taken: Vec::new(alloc),
            step: 1.0,
            groups: [0.0; MOST_GROUPS],
        }
    }

    pub fn group(&self, group: u16) -> f64 {
        self.groups[group as usize % MOST_GROUPS]
    }

    // Writes a number into the heap.
    fn put(&mut self, at: usize, number: u32) {
        if at >= MOST_BOUNDS {
            return;
        }
        if let Some(slot) = self.heap.get_mut(at) {
            *slot = number;
        }
        if let Some(place) = self.place.get_mut(number as usize) {
            *place = at as u32;
        }
    }

    fn at(&self, at: usize) -> u32 {
        match self.heap.get(at) {
            Some(number) => *number,
            None => ABSENT,
        }
    }

    fn up(&mut self, from: usize) {
        let number = self.at(from);
        let active = value(&self.activity, number);
        let mut at = from;
        for _ in 0..32 {
            if at == 0 {
                break;
            }
            let above = (at - 1) / 2;
            let other = self.at(above);
            if active <= value(&self.activity, other) {
                break;
            }
            self.put(at, other);
            at = above;
        }
        self.put(at, number);
    }

    // The more active of the two below a place of the heap, or none.
    fn below(&self, at: usize) -> Option<usize> {
        let left = at.checked_mul(2)?.checked_add(1)?;
        if left >= self.heap.len() {
            return None;
        }
        let right = left.checked_add(1)?;
        if right < self.heap.len()
            && value(&self.activity, self.at(right)) > value(&self.activity, self.at(left))
        {
            Some(right)
        } else {
            Some(left)
        }
    }

    fn down(&mut self, from: usize) {
        let number = self.at(from);
        let active = value(&self.activity, number);
        let mut at = from;
        for _ in 0..32 {
            match self.below(at) {
                Some(next) if value(&self.activity, self.at(next)) > active => {
                    self.put(at, self.at(next));
                    at = next;
                }
                _ => break,
            }
        }
        self.put(at, number);
    }

    fn place_of(&self, number: u32) -> u32 {
        match self.place.get(number as usize) {
            Some(place) => *place,
            None => ABSENT,
        }
    }

    fn set_place(&mut self, number: u32, at: u32) {
        if let Some(place) = self.place.get_mut(number as usize) {
            *place = at;
        }
    }

    fn insert(&mut self, number: u32) -> Result<(), Stop> {
        let at = self.heap.len();
        if self.heap.push(number).is_err() {
            return Err(Stop::Full);
        }
        self.up(at);
        Ok(())
    }

    fn pop(&mut self) -> Option<u32> {
        let first = *self.heap.first()?;
        let last = self.heap.pop()?;
        self.set_place(first, ABSENT);
        if !self.heap.is_empty() {
            self.put(0, last);
            self.down(0);
        }
        Some(first)
    }

    // The number of a bound, which gets one where it has none.
    fn number_of(&mut self, bound: Bound) -> Result<u32, Stop> {
        if let Some(number) = self.numbers.get(&bound) {
            return Ok(*number);
        }
        let number = self.bounds.len();
        if number >= MOST_BOUNDS {
            return Err(Stop::Full);
        }
        if self.bounds.push(bound).is_err()
            || self.activity.push(0.0).is_err()
            || self.place.push(ABSENT).is_err()
            || self.numbers.insert(bound, number as u32).is_err()
        {
            return Err(Stop::Full);
        }
        Ok(number as u32)
    }

    /// A fact was met in a conflict.
    pub fn meet(&mut self, known: &Knowledge, fact: Fact) -> Result<(), Stop> {
        match fact {
            Fact::Low(coordinate, code) | Fact::High(coordinate, code) => {
                self.meet_bound(Bound { coordinate, code })
            }
            Fact::Order(order) | Fact::NotOrder(order) => {
                let group = known.problem.order(order).group as usize % MOST_GROUPS;
                self.groups[group] += self.step;
                Ok(())
            }
        }
    }

    fn meet_bound(&mut self, bound: Bound) -> Result<(), Stop> {
        let number = self.number_of(bound)?;
        if let Some(active) = self.activity.get_mut(number as usize) {
            *active += self.step;
        }
        match self.place_of(number) {
            TAKEN => Ok(()),
            ABSENT => self.insert(number),
            at => {
                self.up(at as usize);
                Ok(())
            }
        }
    }

    /// From now on a conflict counts more.
    pub fn decay(&mut self) {
        self.step /= DECAY;
        if self.step > MUCH {
            for active in self.activity.iter_mut() {
                *active *= LITTLE;
            }
            for active in self.groups.iter_mut() {
                *active *= LITTLE;
            }
            self.step *= LITTLE;
        }
    }

    /// The most active bound that isn't determined yet; taken out till the level that it is decided at is left.
    pub fn next(&mut self, known: &Knowledge) -> Result<Option<Bound>, Stop> {
        for _ in 0..self.heap.len() {
            let number = match self.pop() {
                Some(number) => number,
                None => return Ok(None),
            };
            let bound = match self.bounds.get(number as usize) {
                Some(bound) => *bound,
                None => return Ok(None),
            };
            let fact = Fact::Low(bound.coordinate, bound.code);
            let is_open = known.truth_of(fact) == Truth::Open;
            let level = known.level.saturating_add(is_open as u32);
            if level > 0 {
                if self.taken.push(Taken { number, level }).is_err() {
                    return Err(Stop::Full);
                }
                self.set_place(number, TAKEN);
            }
            if is_open {
                return Ok(Some(bound));
            }
        }
        Ok(None)
    }

    /// Bounds that were taken out above this level may be decided again.
    pub fn go_back(&mut self, level: u32) -> Result<(), Stop> {
        for _ in 0..self.taken.len() {
            match self.taken.last() {
                Some(last) if last.level > level => {
                    let number = last.number;
                    self.taken.pop();
                    self.insert(number)?;
                }
                _ => return Ok(()),
            }
        }
        Ok(())
    }
}
