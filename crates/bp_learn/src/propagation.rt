// What follows from what is known, orders and bounds alone.
use crate::facts::{Conflict, Fact, Stop, Truth, Why};
use crate::knowledge::Knowledge;

// A conflict, where the coordinate's bounds exclude each other.
fn unless_crossed(u: u8, crossed: bool) -> Result<(), Stop> {
    if crossed {
        Err(Stop::Conflict(Conflict::Crossed(u)))
    } else {
        Ok(())
    }
}

impl Knowledge {
    // A lower bound, and a conflict where the bounds then exclude each other.
    pub fn raise_to(&mut self, u: u8, low: u32, why: Why) -> Result<(), Stop> {
        let crossed = self.raise(u, low, why)?;
        unless_crossed(u, crossed)
    }

    pub fn lower_to(&mut self, u: u8, high: u32, why: Why) -> Result<(), Stop> {
        let crossed = self.lower(u, high, why)?;
        unless_crossed(u, crossed)
    }

    fn push_low(&mut self, order: u16) -> Result<(), Stop> {
        let it = self.problem.order(order);
        let low = self.low(it.first).saturating_add(it.weight);
        self.raise_to(it.second, low, Why::Push(order))
    }

    fn push_high(&mut self, order: u16) -> Result<(), Stop> {
        let it = self.problem.order(order);
        let high = self.high(it.second).saturating_sub(it.weight);
        self.lower_to(it.first, high, Why::Push(order))
    }

    // Where one order of the group is left it holds.
    pub fn look_at_group(&mut self, group: u16) -> Result<(), Stop> {
        let mut left = 0;
        let mut count = 0u8;
        for order in self.problem.group(group) {
            match self.truth(order) {
                Truth::Holds => return Ok(()),
                Truth::Open => {
                    count = count.wrapping_add(1);
                    left = order;
                }
                Truth::Fails => {}
            }
        }
        match count {
            0 => Err(Stop::Conflict(Conflict::Group(group))),
            1 => self.hold(left, Why::Group(group)),
            _ => Ok(()),
        }
    }

    fn refute_by_bounds(&mut self, order: u16) -> Result<(), Stop> {
        if self.truth(order) != Truth::Open {
            return Ok(());
        }
        let it = self.problem.order(order);
        if self.low(it.first).saturating_add(it.weight) >= self.high(it.second) {
            self.refute(order, Why::Bounds)?;
            self.look_at_group(it.group)?;
        }
        Ok(())
    }

    fn push_lows(&mut self, u: u8) -> Result<(), Stop> {
        for at in 0..self.after_count(u) {
            self.push_low(self.after_at(u, at))?;
        }
        for at in 0..self.problem.rising_count(u) {
            let rise = self.problem.rising_at(u, at);
            self.raise_to(rise.second, self.low(u), Why::Arranged(rise))?;
        }
        Ok(())
    }

    fn after_low(&mut self, u: u8) -> Result<(), Stop> {
        self.push_lows(u)?;
        for at in 0..self.problem.first_count(u) {
            let order = self.problem.first_at(u, at);
            self.refute_by_bounds(order)?;
        }
        Ok(())
    }

    fn push_highs(&mut self, v: u8) -> Result<(), Stop> {
        for at in 0..self.before_count(v) {
            self.push_high(self.before_at(v, at))?;
        }
        for at in 0..self.problem.falling_count(v) {
            let rise = self.problem.falling_at(v, at);
            self.lower_to(rise.first, self.high(v), Why::Arranged(rise))?;
        }
        Ok(())
    }

    fn after_high(&mut self, v: u8) -> Result<(), Stop> {
        self.push_highs(v)?;
        for at in 0..self.problem.second_count(v) {
            let order = self.problem.second_at(v, at);
            self.refute_by_bounds(order)?;
        }
        Ok(())
    }

    // What follows of an entry; of several entries of one bound only the newest is of interest. Whether it was the newest.
    pub fn after_fact(&mut self, fact: Fact) -> Result<bool, Stop> {
        match fact {
            Fact::Order(order) => {
                self.push_low(order)?;
                self.push_high(order)?;
                Ok(true)
            }
            Fact::NotOrder(_) => Ok(true),
            Fact::Low(u, low) => {
                if low < self.low(u) {
                    return Ok(false);
                }
                self.after_low(u)?;
                Ok(true)
            }
            Fact::High(u, high) => {
                if high > self.high(u) {
                    return Ok(false);
                }
                self.after_high(u)?;
                Ok(true)
            }
        }
    }

    // Writes that a fact doesn't hold.
    pub fn deny(&mut self, fact: Fact, why: Why) -> Result<(), Stop> {
        match fact {
            Fact::Order(order) => {
                if self.truth(order) != Truth::Open {
                    return Ok(());
                }
                self.refute(order, why)?;
                let group = self.problem.order(order).group;
                self.look_at_group(group)
            }
            Fact::NotOrder(order) => {
                if self.truth(order) != Truth::Open {
                    return Ok(());
                }
                self.hold(order, why)
            }
            Fact::Low(u, code) => self.lower_to(u, code, why),
            Fact::High(u, code) => self.raise_to(u, code, why),
        }
    }
}
