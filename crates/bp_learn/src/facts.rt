// Facts of a search, and why they hold.
use crate::problem::Rise;

/// A fact of the coordinates that are searched for. Bounds are codes: a lower bound K is 2K, and just above K is 2K + 1; an upper bound
/// below K is 2K, and at most K is 2K + 1.
#[derive(Clone, Copy, PartialEq, Eq, Debug)]
pub enum Fact {
    /// The order of this number holds.
    Order(u16),
    /// It doesn't.
    NotOrder(u16),
    /// The coordinate of this number has this lower bound.
    Low(u8, u32),
    /// It has this upper bound.
    High(u8, u32),
}

/// Why a lemma's facts can't all hold, step by step.
#[derive(Clone, Copy, PartialEq, Eq, Debug)]
pub enum Hint {
    /// By the group of this number, of which one order must hold.
    Group(u16),
    /// By the lemma of this number, from 0.
    Lemma(u32),
}

/// A hint in one number.
pub fn packed(hint: Hint) -> u32 {
    match hint {
        Hint::Group(group) => u32::from(group).saturating_mul(2),
        Hint::Lemma(lemma) => lemma.saturating_mul(2).saturating_add(1),
    }
}

/// The hint that a number stands for.
pub fn unpacked(number: u32) -> Hint {
    if number % 2 == 0 {
        Hint::Group((number / 2 % 65536) as u16)
    } else {
        Hint::Lemma(number / 2)
    }
}

#[derive(Clone, Copy, PartialEq, Eq)]
pub enum Truth {
    Open,
    Holds,
    Fails,
}

// Why an entry of the trail holds.
#[derive(Clone, Copy, PartialEq, Eq)]
pub enum Why {
    Decision,
    // the limit itself, or what is known at first
    Limit,
    // an order that two bounds refute
    Bounds,
    // the last order left of a group
    Group(u16),
    // the last fact left of a lemma, denied
    Lemma(u32),
    // a bound handed on along an order that holds
    Push(u16),
    // a bound handed on along the arrangement
    Arranged(Rise),
}

#[derive(Clone, Copy)]
pub struct Entry {
    pub fact: Fact,
    // the bound before, and the entry that made it
    pub old: u32,
    pub previous: u32,
    pub why: Why,
    pub level: u32,
}

#[derive(Clone, Copy, PartialEq, Eq)]
pub enum Conflict {
    // the coordinate's bounds exclude each other, by the newest entry
    Crossed(u8),
    // no order of the group is left
    Group(u16),
    // all facts of the lemma hold
    Lemma(u32),
}

// Why a step of the search ends early.
#[derive(Clone, Copy, PartialEq, Eq)]
pub enum Stop {
    Conflict(Conflict),
    // want of memory, or a table's limit
    Full,
}

/// The fact that holds exactly where this one doesn't.
pub fn denial(fact: Fact) -> Fact {
    match fact {
        Fact::Order(order) => Fact::NotOrder(order),
        Fact::NotOrder(order) => Fact::Order(order),
        Fact::Low(u, code) => Fact::High(u, code),
        Fact::High(u, code) => Fact::Low(u, code),
    }
}

// The code of a bound; 0 for an order.
pub fn code_of(fact: Fact) -> u32 {
    match fact {
        Fact::Order(_) | Fact::NotOrder(_) => 0,
        Fact::Low(_, code) | Fact::High(_, code) => code,
    }
}
