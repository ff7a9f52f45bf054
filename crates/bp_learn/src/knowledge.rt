// Bounds of coordinates and truths of orders, with the trail of what was written.
use crate::facts::{Entry, Fact, Stop, Truth, Why};
use crate::problem::{MOST_COORDINATES, MOST_ORDERS, Problem, place};
use std::alloc::Global;

// No entry of the trail has this number.
pub const NO_ENTRY: u32 = 4_294_967_295;

const MOST_ENTRIES: usize = 16_777_216;

#[derive(Drop)]
pub struct Knowledge {
    pub problem: Problem,
    lows: [u32; MOST_COORDINATES],
    highs: [u32; MOST_COORDINATES],
    truths: [Truth; MOST_ORDERS],
    low_at: [u32; MOST_COORDINATES],
    high_at: [u32; MOST_COORDINATES],
    truth_at: [u32; MOST_ORDERS],
    // the orders that hold, in rows by their earlier and by their later coordinate
    after: [u16; 2048],
    after_count: [u8; MOST_COORDINATES],
    before: [u16; 2048],
    before_count: [u8; MOST_COORDINATES],
    pub trail: Vec<Entry>,
    // the length of the trail where each level begins
    levels: Vec<u32>,
    pub level: u32,
    pub head: usize,
}

impl Knowledge {
    pub fn new(alloc: Global, problem: Problem) -> Knowledge {
        let mut highs = [0; MOST_COORDINATES];
        for u in 0..64u8 {
            highs[u as usize] = problem.high(u);
        }
        Knowledge {
            problem,
            lows: [0; MOST_COORDINATES],
            highs,
            truths: [Truth::Open; MOST_ORDERS],
            low_at: [NO_ENTRY; MOST_COORDINATES],
            high_at: [NO_ENTRY; MOST_COORDINATES],
            truth_at: [NO_ENTRY; MOST_ORDERS],
            after: [0; 2048],
            after_count: [0; MOST_COORDINATES],
            before: [0; 2048],
            before_count: [0; MOST_COORDINATES],
            trail: Vec::new(alloc),
            levels: Vec::new(alloc),
            level: 0,
            head: 0,
        }
    }

    pub fn low(&self, u: u8) -> u32 {
        self.lows[u as usize % MOST_COORDINATES]
    }

    pub fn high(&self, u: u8) -> u32 {
        self.highs[u as usize % MOST_COORDINATES]
    }

    pub fn low_at(&self, u: u8) -> u32 {
        self.low_at[u as usize % MOST_COORDINATES]
    }

    pub fn high_at(&self, u: u8) -> u32 {
        self.high_at[u as usize % MOST_COORDINATES]
    }

    pub fn truth(&self, order: u16) -> Truth {
        self.truths[order as usize % MOST_ORDERS]
    }

    pub fn truth_at(&self, order: u16) -> u32 {
        self.truth_at[order as usize % MOST_ORDERS]
    }

    pub fn after_count(&self, u: u8) -> u8 {
        self.after_count[u as usize % MOST_COORDINATES]
    }

    pub fn after_at(&self, u: u8, at: u8) -> u16 {
        self.after[place(u, at)]
    }

    pub fn before_count(&self, u: u8) -> u8 {
        self.before_count[u as usize % MOST_COORDINATES]
    }

    pub fn before_at(&self, u: u8, at: u8) -> u16 {
        self.before[place(u, at)]
    }

    pub fn truth_of(&self, fact: Fact) -> Truth {
        match fact {
            Fact::Order(order) => self.truth(order),
            Fact::NotOrder(order) => match self.truth(order) {
                Truth::Open => Truth::Open,
                Truth::Holds => Truth::Fails,
                Truth::Fails => Truth::Holds,
            },
            Fact::Low(u, code) => {
                if self.low(u) >= code {
                    Truth::Holds
                } else if self.high(u) <= code {
                    Truth::Fails
                } else {
                    Truth::Open
                }
            }
            Fact::High(u, code) => {
                if self.high(u) <= code {
                    Truth::Holds
                } else if self.low(u) >= code {
                    Truth::Fails
                } else {
                    Truth::Open
                }
            }
        }
    }

    // Adds an entry, and gives its number.
    fn note(&mut self, fact: Fact, old: u32, previous: u32, why: Why) -> Result<u32, Stop> {
        let number = self.trail.len();
        if number >= MOST_ENTRIES {
            return Err(Stop::Full);
        }
        let entry = Entry {
            fact,
            old,
            previous,
            why,
            level: self.level,
        };
        match self.trail.push(entry) {
            Ok(()) => Ok(number as u32),
            Err(_) => Err(Stop::Full),
        }
    }

    // Writes a lower bound, where it is greater; whether the bounds exclude each other now.
    pub fn raise(&mut self, u: u8, low: u32, why: Why) -> Result<bool, Stop> {
        let at = u as usize % MOST_COORDINATES;
        if low > self.lows[at] {
            let number = self.note(Fact::Low(u, low), self.lows[at], self.low_at[at], why)?;
            self.lows[at] = low;
            self.low_at[at] = number;
        }
        Ok(self.lows[at] >= self.highs[at])
    }

    // Writes an upper bound, where it is less; whether the bounds exclude each other now.
    pub fn lower(&mut self, u: u8, high: u32, why: Why) -> Result<bool, Stop> {
        let at = u as usize % MOST_COORDINATES;
        if high < self.highs[at] {
            let number = self.note(Fact::High(u, high), self.highs[at], self.high_at[at], why)?;
            self.highs[at] = high;
            self.high_at[at] = number;
        }
        Ok(self.lows[at] >= self.highs[at])
    }

    // Writes that an order doesn't hold.
    pub fn refute(&mut self, order: u16, why: Why) -> Result<(), Stop> {
        let number = self.note(Fact::NotOrder(order), 0, NO_ENTRY, why)?;
        let at = order as usize % MOST_ORDERS;
        self.truths[at] = Truth::Fails;
        self.truth_at[at] = number;
        Ok(())
    }

    // Writes that an order holds.
    pub fn hold(&mut self, order: u16, why: Why) -> Result<(), Stop> {
        let number = self.note(Fact::Order(order), 0, NO_ENTRY, why)?;
        let at = order as usize % MOST_ORDERS;
        self.truths[at] = Truth::Holds;
        self.truth_at[at] = number;
        let it = self.problem.order(order);
        let u = it.first as usize % MOST_COORDINATES;
        let count = self.after_count[u];
        self.after[place(it.first, count)] = order;
        self.after_count[u] = count.wrapping_add(1);
        let v = it.second as usize % MOST_COORDINATES;
        let count = self.before_count[v];
        self.before[place(it.second, count)] = order;
        self.before_count[v] = count.wrapping_add(1);
        Ok(())
    }

    // An order is known to hold at first.
    pub fn know(&mut self, order: u16) -> Result<(), Stop> {
        self.hold(order, Why::Limit)
    }

    // An order is known not to hold at first.
    pub fn know_not(&mut self, order: u16) -> Result<(), Stop> {
        if self.truth(order) != Truth::Open {
            return Ok(());
        }
        self.refute(order, Why::Limit)
    }

    // Begins a level.
    pub fn begin(&mut self) -> Result<(), Stop> {
        let number = self.trail.len();
        if number >= MOST_ENTRIES {
            return Err(Stop::Full);
        }
        match self.levels.push(number as u32) {
            Ok(()) => {
                self.level = self.level.wrapping_add(1);
                Ok(())
            }
            Err(_) => Err(Stop::Full),
        }
    }

    fn undo(&mut self, entry: Entry) {
        match entry.fact {
            Fact::Order(order) => {
                self.truths[order as usize % MOST_ORDERS] = Truth::Open;
                let it = self.problem.order(order);
                let u = it.first as usize % MOST_COORDINATES;
                self.after_count[u] = self.after_count[u].wrapping_sub(1);
                let v = it.second as usize % MOST_COORDINATES;
                self.before_count[v] = self.before_count[v].wrapping_sub(1);
            }
            Fact::NotOrder(order) => self.truths[order as usize % MOST_ORDERS] = Truth::Open,
            Fact::Low(u, _) => {
                self.lows[u as usize % MOST_COORDINATES] = entry.old;
                self.low_at[u as usize % MOST_COORDINATES] = entry.previous;
            }
            Fact::High(u, _) => {
                self.highs[u as usize % MOST_COORDINATES] = entry.old;
                self.high_at[u as usize % MOST_COORDINATES] = entry.previous;
            }
        }
    }

    // Goes back to a level.
    pub fn go_back(&mut self, level: u32) {
        if level >= self.level || level as usize >= self.levels.len() {
            return;
        }
        let kept = self.levels[level as usize] as usize;
        for _ in kept..self.trail.len() {
            match self.trail.pop() {
                Some(entry) => self.undo(entry),
                None => return,
            }
        }
        self.levels.truncate(level as usize);
        self.level = level;
        self.head = kept;
    }
}
