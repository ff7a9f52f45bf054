// The lemmas that the last one needs, renumbered, in terms of leaves.
ghost use Rattle.std.specs.Prelude.{◌≡◌};

use crate::facts::{Fact as Known, Hint as Reason, Stop, unpacked};
use crate::lemmas::Lemmas;
use crate::problem::Problem;
use crate::search::Search;
use bp_arrangement::{Fact, Hint};
use bp_base::{Axis, Pair};
use std::alloc::Global;

/// Lemmas of which the last has no facts: they show that no placement is below the bound.
#[derive(Drop)]
pub struct Proof {
    /// In grid units.
    pub bound: u64,
    facts: Vec<Fact>,
    hints: Vec<Hint>,
    // where the facts and the hints of each lemma end
    ends: Vec<(usize, usize)>,
}

fn full<T: Drop>(pushed: Result<(), T>) -> Result<(), Stop> {
    match pushed {
        Ok(()) => Ok(()),
        Err(_) => Err(Stop::Full),
    }
}

// The axis and the leaf, from 1 on, of a coordinate.
fn leaf_of(u: u8) -> (Axis, u64) {
    if u % 64 < 32 {
        (Axis::X, u64::from(u % 32) + 1)
    } else {
        (Axis::Y, u64::from(u % 32) + 1)
    }
}

fn fact_of(problem: &Problem, fact: Known) -> Fact {
    match fact {
        Known::Order(order) => {
            let it = problem.order(order);
            let (axis, first) = leaf_of(it.first);
            let (_, second) = leaf_of(it.second);
            Fact::Before {
                axis,
                first,
                second,
            }
        }
        Known::NotOrder(order) => {
            let it = problem.order(order);
            let (axis, first) = leaf_of(it.first);
            let (_, second) = leaf_of(it.second);
            Fact::NotBefore {
                axis,
                first,
                second,
            }
        }
        Known::Low(u, code) => {
            let (axis, leaf) = leaf_of(u);
            Fact::Least {
                axis,
                leaf,
                code: u64::from(code),
            }
        }
        Known::High(u, code) => {
            let (axis, leaf) = leaf_of(u);
            Fact::Below {
                axis,
                leaf,
                code: u64::from(code),
            }
        }
    }
}

// The pair of leaves of a group.
fn pair_of(problem: &Problem, group: u16) -> Pair {
    let it = problem.order(problem.group(group)[0]);
    let (_, first) = leaf_of(it.first);
    let (_, second) = leaf_of(it.second);
    Pair {
        i: first.min(second),
        j: first.max(second),
    }
}

// Which lemmas the last one needs, itself among them.
fn needed(alloc: Global, lemmas: &Lemmas) -> Result<Vec<bool>, Stop> {
    let count = lemmas.len();
    let mut needed = Vec::new(alloc);
    for at in 0..count {
        full(needed.push(at + 1 == count))?;
    }
    lemmas.mark_needs(&mut needed);
    Ok(needed)
}

impl Proof {
    /// How many lemmas there are.
    pub fn len(&self) -> usize {
        self.ends.len()
    }

    fn end(&self, number: usize) -> (usize, usize) {
        match self.ends.get(number) {
            Some(end) => *end,
            None => (0, 0),
        }
    }

    fn start(&self, number: usize) -> (usize, usize) {
        match number.checked_sub(1) {
            Some(before) => self.end(before),
            None => (0, 0),
        }
    }

    /// The facts of the lemma at this place, from 0.
    pub fn facts(&self, number: usize) -> &[Fact] {
        let (start, end) = (self.start(number).0, self.end(number).0);
        if start <= end && end <= self.facts.len() {
            &self.facts[start..end]
        } else {
            &self.facts[..0]
        }
    }

    /// The hints of the lemma at this place, from 0.
    pub fn hints(&self, number: usize) -> &[Hint] {
        let (start, end) = (self.start(number).1, self.end(number).1);
        if start <= end && end <= self.hints.len() {
            &self.hints[start..end]
        } else {
            &self.hints[..0]
        }
    }

    /// The proof of a search that has refuted its limit.
    pub fn of(alloc: Global, search: &Search, bound: u64) -> Result<Proof, Stop> {
        let lemmas = &search.lemmas;
        let needed = needed(alloc, lemmas)?;
        let mut numbers = Vec::new(alloc);
        let mut proof = Proof {
            bound,
            facts: Vec::new(alloc),
            hints: Vec::new(alloc),
            ends: Vec::new(alloc),
        };
        for number in 0..needed.len() {
            if number >= 4_294_967_296 {
                return Err(Stop::Full);
            }
            if needed[number] {
                proof.add(search, number as u32, &numbers)?;
            }
            full(numbers.push(proof.ends.len() as u64))?;
        }
        Ok(proof)
    }

    // Adds a lemma; the numbers that earlier ones have in the proof are known.
    fn add(&mut self, search: &Search, number: u32, numbers: &[u64]) -> Result<(), Stop> {
        let problem = &search.known.problem;
        for fact in search.lemmas.facts_of(number) {
            full(self.facts.push(fact_of(problem, *fact)))?;
        }
        for hint in search.lemmas.hints_of(number) {
            let hint = match unpacked(*hint) {
                Reason::Group(group) => Hint::Pair {
                    pair: pair_of(problem, group),
                },
                Reason::Lemma(lemma) => Hint::Lemma {
                    number: match numbers.get(lemma as usize) {
                        Some(number) => *number,
                        None => 0,
                    },
                },
            };
            full(self.hints.push(hint))?;
        }
        full(self.ends.push((self.facts.len(), self.hints.len())))
    }
}
