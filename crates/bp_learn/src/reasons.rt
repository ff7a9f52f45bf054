// From which facts an entry of the trail follows.
use crate::facts::{Entry, Fact, Hint, Stop, Why, code_of, denial};
use crate::knowledge::{Knowledge, NO_ENTRY};
use crate::lemmas::Lemmas;

pub fn add(list: &mut Vec<Fact>, fact: Fact) -> Result<(), Stop> {
    match list.push(fact) {
        Ok(()) => Ok(()),
        Err(_) => Err(Stop::Full),
    }
}

// The bound that an entry tells, so far as it is needed.
pub fn needed(fact: Fact, code: u32) -> Fact {
    match fact {
        Fact::Low(u, _) => Fact::Low(u, code),
        Fact::High(u, _) => Fact::High(u, code),
        order => order,
    }
}

impl Knowledge {
    fn low_entry(&self, start: u32, code: u32) -> Option<u32> {
        let mut at = start;
        for _ in 0..self.trail.len() {
            let entry = self.trail.get(at as usize)?;
            if entry.old < code {
                return Some(at);
            }
            at = entry.previous;
        }
        None
    }

    fn high_entry(&self, start: u32, code: u32) -> Option<u32> {
        let mut at = start;
        for _ in 0..self.trail.len() {
            let entry = self.trail.get(at as usize)?;
            if entry.old > code {
                return Some(at);
            }
            at = entry.previous;
        }
        None
    }

    // The entry by which a fact that holds came to hold. None where it holds from the beginning.
    pub fn entry_of(&self, fact: Fact) -> Option<u32> {
        match fact {
            Fact::Order(order) | Fact::NotOrder(order) => match self.truth_at(order) {
                NO_ENTRY => None,
                number => Some(number),
            },
            Fact::Low(u, code) => {
                if code == 0 {
                    None
                } else {
                    self.low_entry(self.low_at(u), code)
                }
            }
            Fact::High(u, code) => {
                if code >= self.problem.high(u) {
                    None
                } else {
                    self.high_entry(self.high_at(u), code)
                }
            }
        }
    }

    // The coordinate's lower code before an entry was made.
    fn low_before(&self, u: u8, number: u32) -> u32 {
        let mut at = self.low_at(u);
        let mut low = self.low(u);
        for _ in 0..self.trail.len() {
            if at < number || at == NO_ENTRY {
                return low;
            }
            match self.trail.get(at as usize) {
                None => return low,
                Some(entry) => {
                    low = entry.old;
                    at = entry.previous;
                }
            }
        }
        low
    }

    fn high_before(&self, v: u8, number: u32) -> u32 {
        let mut at = self.high_at(v);
        let mut high = self.high(v);
        for _ in 0..self.trail.len() {
            if at < number || at == NO_ENTRY {
                return high;
            }
            match self.trail.get(at as usize) {
                None => return high,
                Some(entry) => {
                    high = entry.old;
                    at = entry.previous;
                }
            }
        }
        high
    }

    // Two bounds before an entry, by which an order of this weight can't hold (or, with weight 0, a coordinate has no room). What they
    // say beyond that is taken off the earlier one, which makes it as weak as it may be, and only then off the later one.
    pub fn refuting(&self, u: u8, v: u8, weight: u32, number: u32) -> (Fact, Fact) {
        let (low, high) = (self.low_before(u, number), self.high_before(v, number));
        let slack = low.saturating_add(weight).saturating_sub(high);
        let low_place = self.entry_of(Fact::Low(u, low));
        let high_place = self.entry_of(Fact::High(v, high));
        if comes_before(low_place, high_place) {
            let taken = slack.min(low);
            let left = slack.saturating_sub(taken);
            (
                Fact::Low(u, low.saturating_sub(taken)),
                Fact::High(v, high.saturating_add(left)),
            )
        } else {
            let weak = high.saturating_add(slack).min(self.problem.high(v));
            let left = slack.saturating_sub(weak.saturating_sub(high));
            (Fact::Low(u, low.saturating_sub(left)), Fact::High(v, weak))
        }
    }

    // What refutes all orders of the group but this fact's.
    fn add_group(&self, group: u16, but: Fact, list: &mut Vec<Fact>) -> Result<(), Stop> {
        for order in self.problem.group(group) {
            if but != Fact::Order(order) {
                add(list, Fact::NotOrder(order))?;
            }
        }
        Ok(())
    }

    pub fn add_whole_group(&self, group: u16, list: &mut Vec<Fact>) -> Result<(), Stop> {
        for order in self.problem.group(group) {
            add(list, Fact::NotOrder(order))?;
        }
        Ok(())
    }

    fn add_bounds(&self, number: u32, fact: Fact, list: &mut Vec<Fact>) -> Result<(), Stop> {
        match fact {
            Fact::NotOrder(order) => {
                let it = self.problem.order(order);
                let (low, high) = self.refuting(it.first, it.second, it.weight, number);
                add(list, low)?;
                add(list, high)
            }
            _ => Ok(()),
        }
    }

    fn add_push(
        &self,
        order: u16,
        fact: Fact,
        need: u32,
        list: &mut Vec<Fact>,
    ) -> Result<Hint, Stop> {
        let it = self.problem.order(order);
        add(list, Fact::Order(order))?;
        match fact {
            Fact::Low(_, _) => add(list, Fact::Low(it.first, need.saturating_sub(it.weight)))?,
            _ => add(list, Fact::High(it.second, need.saturating_add(it.weight)))?,
        }
        Ok(Hint::Group(it.group))
    }

    // Adds the facts from which what is needed of an entry follows, and gives the hint.
    pub fn add_reason(
        &self,
        lemmas: &Lemmas,
        number: u32,
        entry: Entry,
        need: u32,
        list: &mut Vec<Fact>,
    ) -> Result<Option<Hint>, Stop> {
        match entry.why {
            Why::Decision | Why::Limit => Ok(None),
            Why::Bounds => {
                self.add_bounds(number, entry.fact, list)?;
                Ok(None)
            }
            Why::Group(group) => {
                self.add_group(group, entry.fact, list)?;
                Ok(Some(Hint::Group(group)))
            }
            Why::Lemma(lemma) => {
                add_lemma(lemmas, lemma, denial(entry.fact), list)?;
                Ok(Some(Hint::Lemma(lemma)))
            }
            Why::Push(order) => {
                let hint = self.add_push(order, entry.fact, need, list)?;
                Ok(Some(hint))
            }
            Why::Arranged(rise) => {
                match entry.fact {
                    Fact::Low(_, _) => add(list, Fact::Low(rise.first, need))?,
                    _ => add(list, Fact::High(rise.second, need))?,
                }
                Ok(Some(Hint::Group(rise.group)))
            }
        }
    }
}

// Whether the first of two entries came earlier; what holds from the beginning came before all entries.
fn comes_before(first: Option<u32>, second: Option<u32>) -> bool {
    match (first, second) {
        (Some(a), Some(b)) => a < b,
        (None, Some(_)) => true,
        _ => false,
    }
}

// The facts of a lemma but this one. A bound of the lemma may differ from the one that was denied: it is taken by its own coordinate and
// sense.
fn add_lemma(lemmas: &Lemmas, lemma: u32, own: Fact, list: &mut Vec<Fact>) -> Result<(), Stop> {
    for fact in lemmas.facts_of(lemma) {
        if *fact != own {
            add(list, *fact)?;
        }
    }
    Ok(())
}

pub fn add_facts(lemmas: &Lemmas, lemma: u32, list: &mut Vec<Fact>) -> Result<(), Stop> {
    for fact in lemmas.facts_of(lemma) {
        add(list, *fact)?;
    }
    Ok(())
}

// The bound of an entry as it was written.
pub fn need_of(entry: Entry) -> u32 {
    code_of(entry.fact)
}
