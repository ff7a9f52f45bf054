// The search: propagation with lemmas, decisions, restarts.
ghost use Rattle.std.specs.Prelude.{◌≡◌, ◌≤◌, length};

use crate::activity::Activity;
use crate::analysis::Analysis;
use crate::facts::{Conflict, Fact, Stop, Truth, Why};
use crate::knowledge::Knowledge;
use crate::lemmas::{Lemmas, renumbered};
use crate::problem::{MOST_COORDINATES, Problem};
use crate::watches::{Watch, Watches, row_of};
use bp_base::NoMemory;
use std::alloc::Global;

// So many conflicts, times a number of Luby's sequence, are between two restarts.
const RESTART: u64 = 60;

// So many lemmas are kept before the first are let go, so many more each time, and it is looked at after so many conflicts.
const KEEP: usize = 2000;

const KEEP_MORE: usize = 100;

pub const REDUCE: u64 = 1000;

// So many lemmas are there at least before those are dropped that serve no more.
const MANY: usize = 50_000;

/// What a search has come to.
#[derive(Clone, Copy, PartialEq, Eq, Debug)]
pub enum Outcome {
    /// A placement below the limit: the coordinates of `placement`.
    Found,
    /// There is none, by the last lemma.
    Refuted,
    /// So many conflicts were met.
    Spent,
}

#[derive(Drop)]
pub struct Search {
    alloc: Global,
    pub known: Knowledge,
    pub lemmas: Lemmas,
    pub activity: Activity,
    watches: Watches,
    // how many lemmas are watched, and how many may be
    kept: usize,
    keep: usize,
    // from how many lemmas on those are dropped that serve no more
    many: usize,
    // the lemma of one fact that tells what an entry of the root tells
    pub root_lemmas: Vec<u32>,
    pub conflicts: u64,
    restarts: u64,
    pub refuted: bool,
    // the coordinates of the best placement so far
    best: [u32; MOST_COORDINATES],
}

// The number at this place of Luby's sequence 1, 1, 2, 1, 1, 2, 4, .., counted from 1.
fn luby(place: u64) -> u64 {
    let mut left = place;
    for _ in 0..64 {
        let mut block = 1u64;
        for _ in 0..63 {
            if block.saturating_mul(2).saturating_sub(1) >= left {
                break;
            }
            block = block.saturating_mul(2);
        }
        if block.saturating_mul(2).saturating_sub(1) == left {
            return block;
        }
        left = left.saturating_sub(block.saturating_sub(1));
    }
    1
}

impl Search {
    /// A search for a placement of the problem; `best` is where some placement has each coordinate, which its decisions follow.
    pub fn open(
        alloc: Global,
        problem: Problem,
        best: [u32; MOST_COORDINATES],
    ) -> Result<Search, NoMemory> {
        let watches = match Watches::open(alloc) {
            Ok(watches) => watches,
            Err(_) => return Err(NoMemory),
        };
        Ok(Search {
            alloc,
            known: Knowledge::new(alloc, problem),
            lemmas: Lemmas::new(alloc),
            activity: Activity::new(alloc),
            watches,
            kept: 0,
            keep: KEEP,
            many: MANY,
            root_lemmas: Vec::new(alloc),
            conflicts: 0,
            restarts: 0,
            refuted: false,
            best,
        })
    }

    pub fn go_back(&mut self, level: u32) -> Result<(), Stop> {
        self.known.go_back(level);
        self.activity.go_back(level)
    }

    /// Keeps a lemma, which is watched where it has two facts or more; gives its number.
    pub fn keep_lemma(&mut self, analysis: &mut Analysis, levels: u32) -> Result<u32, Stop> {
        analysis.sort_needs();
        let facts = analysis.lemma();
        let number = self.lemmas.add(
            facts,
            analysis.hints(),
            analysis.needs(),
            levels,
            self.conflicts,
        )?;
        if facts.len() > 1 {
            self.watches.add(facts[0], number, facts[1])?;
            self.watches.add(facts[1], number, facts[0])?;
            self.kept = self.kept.saturating_add(1);
        }
        Ok(number)
    }

    // A watched fact of the lemma has come to hold; whether it stays watched.
    fn visit(&mut self, lemma: u32, fact: Fact) -> Result<bool, Stop> {
        let facts = match self.lemmas.watched(lemma) {
            Some(facts) => facts,
            None => return Ok(false),
        };
        if facts.len() < 2 {
            return Ok(false);
        }
        if facts[0] == fact {
            facts.swap(0, 1);
        }
        if facts[1] != fact {
            return Ok(false);
        }
        let other = facts[0];
        let truth = self.known.truth_of(other);
        if truth == Truth::Fails {
            return Ok(true);
        }
        for at in 2..facts.len() {
            let next = facts[at];
            if self.known.truth_of(next) != Truth::Holds {
                facts.swap(1, at);
                self.watches.add(next, lemma, other)?;
                return Ok(false);
            }
        }
        if truth == Truth::Holds {
            return Err(Stop::Conflict(Conflict::Lemma(lemma)));
        }
        self.known.deny(other, Why::Lemma(lemma))?;
        Ok(true)
    }

    // The watched fact as the lemma has it, where it holds.
    fn watched(&self, fact: Fact, code: u32) -> Option<Fact> {
        match fact {
            Fact::Order(_) | Fact::NotOrder(_) => Some(fact),
            Fact::Low(u, _) => {
                if self.known.low(u) < code {
                    None
                } else {
                    Some(Fact::Low(u, code))
                }
            }
            Fact::High(u, _) => {
                if self.known.high(u) > code {
                    None
                } else {
                    Some(Fact::High(u, code))
                }
            }
        }
    }

    // Visits the lemma of a watch; whether it stays.
    fn meet(&mut self, watch: Watch, fact: Fact) -> Result<bool, Stop> {
        match self.watched(fact, watch.code) {
            None => Ok(true),
            Some(fact) => {
                if self.known.truth_of(watch.blocker) == Truth::Fails {
                    return Ok(true);
                }
                self.visit(watch.lemma, fact)
            }
        }
    }

    fn meet_all(&mut self, list: &mut Vec<Watch>, fact: Fact) -> Result<(), Stop> {
        let mut kept = 0;
        let mut answer = Ok(());
        for at in 0..list.len() {
            let watch = list[at];
            let stays = if answer.is_err() {
                true
            } else {
                match self.meet(watch, fact) {
                    Ok(stays) => stays,
                    Err(stop) => {
                        answer = Err(stop);
                        true
                    }
                }
            };
            if stays {
                list[kept] = watch;
                kept += 1;
            }
        }
        list.truncate(kept);
        answer
    }

    fn meet_row(&mut self, fact: Fact) -> Result<(), Stop> {
        let row = row_of(fact);
        let mut list = self.watches.take(row);
        let answer = self.meet_all(&mut list, fact);
        self.watches.put(row, list);
        answer
    }

    fn propagate(&mut self) -> Result<(), Stop> {
        for _ in 0..u64::MAX {
            if self.known.head >= self.known.trail.len() {
                return Ok(());
            }
            let fact = self.known.trail[self.known.head].fact;
            self.known.head += 1;
            if self.known.after_fact(fact)? {
                self.meet_row(fact)?;
            }
        }
        Ok(())
    }

    /// Lowers the limit of the coordinates that it bounds to this code, at the root.
    pub fn set_limit(&mut self, analysis: &mut Analysis, limit: u32) -> Result<(), Stop> {
        self.go_back(0)?;
        self.known.problem.set_limit(limit);
        for u in 0..64u8 {
            if self.known.problem.is_limited(u) {
                match self.known.lower_to(u, limit, Why::Limit) {
                    Ok(()) => {}
                    Err(Stop::Conflict(conflict)) => return analysis.learn(self, conflict),
                    Err(Stop::Full) => return Err(Stop::Full),
                }
            }
        }
        Ok(())
    }

    /// Where the coordinate of this number lies at least, in grid units.
    pub fn low_point(&self, u: u8) -> u32 {
        self.known.low(u).saturating_add(1) / 2
    }

    // Whether some order of the group holds of the low points.
    fn is_apart(&self, group: u16) -> bool {
        for order in self.known.problem.group(group) {
            let it = self.known.problem.order(order);
            let first = self.low_point(it.first).saturating_mul(2);
            if first.saturating_add(it.weight) <= self.low_point(it.second).saturating_mul(2) {
                return true;
            }
        }
        false
    }

    // The most active of the groups of which no order holds of the low points.
    fn near_group(&self) -> Option<u16> {
        let mut best = None;
        let mut most = -1.0;
        for group in 0..self.known.problem.group_count() {
            if self.activity.group(group) > most && !self.is_apart(group) {
                most = self.activity.group(group);
                best = Some(group);
            }
        }
        best
    }

    fn decide_bound(&mut self, u: u8, code: u32) -> Result<(), Stop> {
        self.known.begin()?;
        if self.best[u as usize % MOST_COORDINATES].saturating_mul(2) >= code {
            self.known.raise(u, code, Why::Decision)?;
        } else {
            self.known.lower(u, code, Why::Decision)?;
        }
        Ok(())
    }

    // How far an order is from being refuted, and whether it holds of the best placement.
    fn room_of(&self, order: u16) -> (bool, i64) {
        let it = self.known.problem.order(order);
        let first = self.best[it.first as usize % MOST_COORDINATES].saturating_mul(2);
        let second = self.best[it.second as usize % MOST_COORDINATES].saturating_mul(2);
        let room = i64::from(self.known.high(it.second))
            - i64::from(self.known.low(it.first))
            - i64::from(it.weight);
        (first.saturating_add(it.weight) <= second, room)
    }

    // The open order of a group that holds of the best placement, or has the most room.
    fn roomiest(&self, group: u16) -> Option<u16> {
        let mut best = None;
        let mut most = (false, i64::MIN);
        for order in self.known.problem.group(group) {
            if self.known.truth(order) == Truth::Open {
                let room = self.room_of(order);
                if room.0 > most.0 || room.0 == most.0 && room.1 >= most.1 {
                    most = room;
                    best = Some(order);
                }
            }
        }
        best
    }

    // Decides the most active bound in the best placement's sense, or else an order of the group that is too near.
    fn decide(&mut self, near: u16) -> Result<(), Stop> {
        if let Some(bound) = self.activity.next(&self.known)? {
            return self.decide_bound(bound.coordinate, bound.code);
        }
        match self.roomiest(near) {
            Some(order) => {
                self.known.begin()?;
                self.known.hold(order, Why::Decision)
            }
            None => Err(Stop::Full),
        }
    }

    fn take_low_points(&mut self) {
        for u in 0..64u8 {
            self.best[u as usize] = self.low_point(u);
        }
    }

    // Decides on, unless the low points are a placement.
    fn go_on(&mut self) -> Result<Option<Outcome>, Stop> {
        match self.near_group() {
            None => {
                self.take_low_points();
                Ok(Some(Outcome::Found))
            }
            Some(group) => {
                self.decide(group)?;
                Ok(None)
            }
        }
    }

    fn next_restart(&self) -> u64 {
        RESTART
            .saturating_mul(luby(self.restarts.saturating_add(1)))
            .saturating_add(self.conflicts)
    }

    // Goes back to the root where it is time for it, and gives when it is next.
    fn restart(&mut self, at: u64) -> Result<u64, Stop> {
        if self.conflicts < at {
            return Ok(at);
        }
        self.go_back(0)?;
        self.restarts = self.restarts.saturating_add(1);
        Ok(self.next_restart())
    }

    // Propagates, and learns from a conflict; whether there was none.
    fn settle(&mut self, analysis: &mut Analysis) -> Result<bool, Stop> {
        match self.propagate() {
            Ok(()) => {}
            Err(Stop::Conflict(conflict)) => {
                analysis.learn(self, conflict)?;
                return Ok(false);
            }
            Err(Stop::Full) => return Err(Stop::Full),
        }
        if self.known.level == 0 {
            analysis.note_root(self)?;
        }
        Ok(true)
    }

    fn steps(&mut self, analysis: &mut Analysis, most: u64) -> Result<Outcome, Stop> {
        let end = self.conflicts.saturating_add(most);
        let mut restart = self.next_restart();
        for _ in 0..u64::MAX {
            if self.refuted {
                return Ok(Outcome::Refuted);
            }
            if !self.settle(analysis)? {
                continue;
            }
            if self.conflicts >= end {
                self.go_back(0)?;
                return Ok(Outcome::Spent);
            }
            restart = self.restart(restart)?;
            if let Some(outcome) = self.go_on()? {
                return Ok(outcome);
            }
        }
        Ok(Outcome::Spent)
    }

    /// Searches on until a placement below the limit, its refutation, or so many conflicts more.
    pub fn search(&mut self, analysis: &mut Analysis, most: u64) -> Result<Outcome, NoMemory> {
        match self.steps(analysis, most) {
            Ok(outcome) => Ok(outcome),
            Err(_) => Err(NoMemory),
        }
    }

    /// The coordinates of the best placement, in grid units.
    pub fn placement(&self) -> &[u32; MOST_COORDINATES] {
        &self.best
    }

    pub fn set_placement(&mut self, best: [u32; MOST_COORDINATES]) {
        self.best = best;
    }

    // Whether each lemma is the reason of an entry of the trail.
    fn reasons(&self) -> Result<Vec<bool>, Stop> {
        let mut reasons = Vec::new(self.alloc);
        for _ in 0..self.lemmas.len() {
            if reasons.push(false).is_err() {
                return Err(Stop::Full);
            }
        }
        for entry in self.known.trail.iter() {
            if let Why::Lemma(lemma) = entry.why {
                if let Some(is_reason) = reasons.get_mut(lemma as usize) {
                    *is_reason = true;
                }
            }
        }
        Ok(reasons)
    }

    // A lemma may be let go where it is long, of many levels, hasn't served lately, and is no reason.
    fn weighed(&self, number: u32, is_reason: bool) -> Option<Weighed> {
        let lemma = self.lemmas.get(number)?;
        let facts = self.lemmas.facts_of(number).len();
        let is_late = lemma.levels <= 6 && lemma.used.saturating_add(REDUCE) > self.conflicts;
        if !lemma.kept || facts <= 2 || lemma.levels <= 2 || is_late || is_reason {
            return None;
        }
        Some(Weighed {
            levels: lemma.levels,
            facts,
            number,
        })
    }

    fn forgettable(&self) -> Result<Vec<Weighed>, Stop> {
        let reasons = self.reasons()?;
        let mut list = Vec::new(self.alloc);
        for number in 0..reasons.len() {
            if number > 4_294_967_295 {
                return Err(Stop::Full);
            }
            if let Some(weighed) = self.weighed(number as u32, reasons[number]) {
                if list.push(weighed).is_err() {
                    return Err(Stop::Full);
                }
            }
        }
        Ok(list)
    }

    /// Lets half of the long lemmas go, where it is time for it and more are kept than may be.
    pub fn forget(&mut self) -> Result<(), Stop> {
        if self.conflicts % REDUCE != 0 || self.kept <= self.keep {
            return Ok(());
        }
        self.keep = self.keep.saturating_add(KEEP_MORE);
        let mut worst = self.forgettable()?;
        worst.sort_unstable_by(|a, b| {
            (b.levels, b.facts, a.number).cmp(&(a.levels, a.facts, b.number))
        });
        worst.truncate(worst.len() / 2);
        for weighed in worst.iter() {
            if let Some(lemma) = self.lemmas.get_mut(weighed.number) {
                lemma.kept = false;
                self.kept = self.kept.saturating_sub(1);
            }
        }
        self.drop_idle()
    }

    // Which lemmas may still serve: what is watched, tells the root or is a reason, and what that stands on.
    fn needed(&self) -> Result<Vec<bool>, Stop> {
        let mut needed = self.reasons()?;
        for lemma in self.root_lemmas.iter() {
            if let Some(is_needed) = needed.get_mut(*lemma as usize) {
                *is_needed = true;
            }
        }
        self.lemmas.mark_kept(&mut needed);
        self.lemmas.mark_needs(&mut needed);
        Ok(needed)
    }

    // Drops the lemmas that serve no more, where there are many. The others keep their order, so the search goes on as it would.
    fn drop_idle(&mut self) -> Result<(), Stop> {
        if self.lemmas.len() < self.many {
            return Ok(());
        }
        let needed = self.needed()?;
        let numbers = self.lemmas.drop_others(self.alloc, &needed)?;
        self.watches.renumber(&numbers);
        for entry in self.known.trail.iter_mut() {
            if let Why::Lemma(lemma) = entry.why {
                entry.why = Why::Lemma(renumbered(&numbers, lemma));
            }
        }
        for lemma in self.root_lemmas.iter_mut() {
            *lemma = renumbered(&numbers, *lemma);
        }
        let left = self.lemmas.len();
        self.many = left.saturating_add(left / 4).max(MANY);
        Ok(())
    }
}

// How much a lemma is worth to be let go.
#[derive(Clone, Copy)]
struct Weighed {
    levels: u32,
    facts: usize,
    number: u32,
}
