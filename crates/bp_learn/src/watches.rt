// Which lemmas are to be visited when a fact comes to hold.
ghost use Rattle.std.specs.Prelude.{◌≡◌, ◌<◌, length};

use crate::facts::{Fact, Stop, code_of};
use crate::lemmas::{NO_LEMMA, renumbered};
use crate::problem::{MOST_COORDINATES, MOST_ORDERS};
use std::alloc::Global;
use std::mem;

const ROWS: usize = 4224;

#[derive(Clone, Copy)]
pub struct Watch {
    pub lemma: u32,
    // a lemma on a bound is of interest once the bound is this
    pub code: u32,
    // another fact of the lemma: where it is denied there is nothing to do
    pub blocker: Fact,
}

#[derive(Drop)]
pub struct Watches {
    alloc: Global,
    rows: Vec<Vec<Watch>>,
    ghost each: { length rows.items ≡ 4224 },
}

// The row of a fact.
pub fn row_of(fact: Fact) -> usize
    ensures { result < 4224 }
{
    match fact {
        Fact::Order(order) => order as usize % MOST_ORDERS,
        Fact::NotOrder(order) => MOST_ORDERS + order as usize % MOST_ORDERS,
        Fact::Low(u, _) => 2 * MOST_ORDERS + u as usize % MOST_COORDINATES,
        Fact::High(u, _) => 2 * MOST_ORDERS + MOST_COORDINATES + u as usize % MOST_COORDINATES,
    }
}

fn renumber_row(list: &mut Vec<Watch>, numbers: &[u32]) {
    let mut kept = 0usize;
    for at in 0..list.len() {
        let watch = match list.get(at) {
            Some(watch) => *watch,
            None => break,
        };
        let lemma = renumbered(numbers, watch.lemma);
        if lemma == NO_LEMMA {
            continue;
        }
        if let Some(slot) = list.get_mut(kept) {
            *slot = Watch { lemma, ..watch };
        }
        kept = kept.saturating_add(1);
    }
    list.truncate(kept);
}

impl Watches {
    pub fn open(alloc: Global) -> Result<Watches, Stop> {
        let mut rows = match Vec::with_capacity(alloc, ROWS) {
            Ok(rows) => rows,
            Err(_) => return Err(Stop::Full),
        };
        for _ in 0..ROWS {
            if rows.push(Vec::new(alloc)).is_err() {
                return Err(Stop::Full);
            }
        }
        Ok(Watches { alloc, rows })
    }

    pub fn add(&mut self, fact: Fact, lemma: u32, blocker: Fact) -> Result<(), Stop> {
        let watch = Watch {
            lemma,
            code: code_of(fact),
            blocker,
        };
        match self.rows[row_of(fact)].push(watch) {
            Ok(()) => Ok(()),
            Err(_) => Err(Stop::Full),
        }
    }

    /// Lemmas have got these numbers; those that were dropped are watched no more.
    pub fn renumber(&mut self, numbers: &[u32]) {
        for row in 0..ROWS {
            let mut list = self.take(row);
            renumber_row(&mut list, numbers);
            self.put(row, list);
        }
    }

    // Takes a row out.
    pub fn take(&mut self, row: usize) -> Vec<Watch>
        requires { row < 4224 }
    {
        mem::replace(&mut self.rows[row], Vec::new(self.alloc))
    }

    // Puts it back.
    pub fn put(&mut self, row: usize, list: Vec<Watch>)
        requires { row < 4224 }
    {
        self.rows[row] = list;
    }
}
