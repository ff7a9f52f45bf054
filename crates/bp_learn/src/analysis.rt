// The lemma of a conflict: back over the reasons to one entry of the newest level.
use crate::facts::{Conflict, Entry, Fact, Hint, Stop, Why, code_of, denial};
use crate::knowledge::Knowledge;
use crate::lemmas::NO_LEMMA;
use crate::reasons::{add, add_facts, needed};
use crate::search::Search;
use std::alloc::Global;

// How far back it is looked whether a fact of a lemma follows from the others.
const DEPTH: u32 = 13;

const MOST_ENTRIES: usize = 16_777_216;

// Whether an entry of the trail is marked, and the bound that is needed of it.
#[derive(Clone, Copy)]
struct Mark {
    marked: bool,
    need: u32,
}

// The hint of an entry.
#[derive(Clone, Copy)]
struct Used {
    number: u32,
    hint: Hint,
}

/// What an analysis writes into, kept from conflict to conflict.
#[derive(Drop)]
pub struct Analysis {
    marks: Vec<Mark>,
    queue: Vec<Fact>,
    // how many entries of the newest level are marked
    here: u64,
    // the marked entries, the newest first
    marked: Vec<u32>,
    // the hints of facts that were left out, since they follow from the others
    used: Vec<Used>,
    lemma: Vec<Fact>,
    levels: Vec<u32>,
    hints: Vec<Hint>,
    needs: Vec<u32>,
    back: u32,
}

fn stop<T: Drop>(pushed: Result<(), T>) -> Result<(), Stop> {
    match pushed {
        Ok(()) => Ok(()),
        Err(_) => Err(Stop::Full),
    }
}

impl Analysis {
    pub fn new(alloc: Global) -> Analysis {
        Analysis {
            marks: Vec::new(alloc),
            queue: Vec::new(alloc),
            here: 0,
            marked: Vec::new(alloc),
            used: Vec::new(alloc),
            lemma: Vec::new(alloc),
            levels: Vec::new(alloc),
            hints: Vec::new(alloc),
            needs: Vec::new(alloc),
            back: 0,
        }
    }

    pub fn lemma(&self) -> &[Fact] {
        &self.lemma
    }

    pub fn hints(&self) -> &[Hint] {
        &self.hints
    }

    pub fn needs(&self) -> &[u32] {
        &self.needs
    }

    // Each once, in rising order.
    pub fn sort_needs(&mut self) {
        self.needs.sort_unstable();
        self.needs.dedup();
    }

    fn clear(&mut self, entries: usize) -> Result<(), Stop> {
        for _ in self.marks.len()..entries {
            stop(
                self.marks.push(Mark {
                    marked: false,
                    need: 0,
                }),
            )?;
        }
        self.queue.clear();
        self.here = 0;
        self.marked.clear();
        self.used.clear();
        self.lemma.clear();
        self.levels.clear();
        self.hints.clear();
        self.needs.clear();
        self.back = 0;
        Ok(())
    }

    fn is_marked(&self, number: usize) -> bool {
        match self.marks.get(number) {
            Some(mark) => mark.marked,
            None => false,
        }
    }

    fn need(&self, number: usize) -> u32 {
        match self.marks.get(number) {
            Some(mark) => mark.need,
            None => 0,
        }
    }

    fn set_marked(&mut self, number: usize, marked: bool) {
        if let Some(mark) = self.marks.get_mut(number) {
            mark.marked = marked;
        }
    }

    // The lemma of one fact that an entry of the root stands on is needed; an order that bounds refute stands on those of its bounds.
    fn need_root(&mut self, search: &Search, number: u32) -> Result<(), Stop> {
        let entry = match search.known.trail.get(number as usize) {
            Some(entry) => *entry,
            None => return Ok(()),
        };
        match (entry.why, entry.fact) {
            (Why::Limit, _) => Ok(()),
            (Why::Bounds, Fact::NotOrder(order)) => {
                let it = search.known.problem.order(order);
                let (low, high) = search
                    .known
                    .refuting(it.first, it.second, it.weight, number);
                self.need_bound(search, low)?;
                self.need_bound(search, high)
            }
            _ => self.need_noted(search, number),
        }
    }

    fn need_bound(&mut self, search: &Search, bound: Fact) -> Result<(), Stop> {
        match search.known.entry_of(bound) {
            Some(number) => match search.known.trail.get(number as usize) {
                Some(entry) if entry.why != Why::Limit => self.need_noted(search, number),
                _ => Ok(()),
            },
            None => Ok(()),
        }
    }

    fn need_noted(&mut self, search: &Search, number: u32) -> Result<(), Stop> {
        match search.root_lemmas.get(number as usize) {
            Some(lemma) if *lemma != NO_LEMMA => stop(self.needs.push(*lemma)),
            _ => Ok(()),
        }
    }

    fn mark_entry(&mut self, number: usize, entry: Entry, fact: Fact, level: u32) {
        let mark = match self.marks.get_mut(number) {
            Some(mark) => mark,
            None => return,
        };
        let code = code_of(fact);
        if !mark.marked {
            *mark = Mark {
                marked: true,
                need: code,
            };
            if entry.level == level {
                self.here = self.here.wrapping_add(1);
            }
            return;
        }
        mark.need = match fact {
            Fact::Low(_, _) => mark.need.max(code),
            _ => mark.need.min(code),
        };
    }

    // The entry by which the fact came to hold is needed.
    fn mark(&mut self, search: &mut Search, fact: Fact) -> Result<(), Stop> {
        let number = match search.known.entry_of(fact) {
            Some(number) => number,
            None => return Ok(()),
        };
        let entry = match search.known.trail.get(number as usize) {
            Some(entry) => *entry,
            None => return Ok(()),
        };
        if entry.level == 0 {
            return self.need_root(search, number);
        }
        search.activity.meet(&search.known, fact)?;
        self.mark_entry(number as usize, entry, fact, search.known.level);
        Ok(())
    }

    fn mark_queue(&mut self, search: &mut Search) -> Result<(), Stop> {
        for at in 0..self.queue.len() {
            match self.queue.get(at) {
                Some(fact) => {
                    let fact = *fact;
                    self.mark(search, fact)?;
                }
                None => return Ok(()),
            }
        }
        self.queue.clear();
        Ok(())
    }

    // Puts the facts into the queue from which what is needed of an entry follows, and its hint behind the hints.
    fn add_reason(
        &mut self,
        search: &Search,
        number: u32,
        entry: Entry,
        need: u32,
    ) -> Result<(), Stop> {
        let known = &search.known;
        match known.add_reason(&search.lemmas, number, entry, need, &mut self.queue)? {
            Some(hint) => stop(self.hints.push(hint)),
            None => Ok(()),
        }
    }

    // A coordinate's bounds exclude each other: that says nothing by itself, so the newest entry is resolved at once.
    fn add_crossing(&mut self, search: &Search, u: u8) -> Result<(), Stop> {
        let entries = search.known.trail.len();
        if entries == 0 || entries > MOST_ENTRIES {
            return Ok(());
        }
        let newest = search.known.trail[entries - 1];
        let (low, high) = search.known.refuting(u, u, 0, entries as u32);
        let (own, other) = match newest.fact {
            Fact::Low(_, _) => (low, high),
            _ => (high, low),
        };
        add(&mut self.queue, other)?;
        self.add_reason(search, (entries - 1) as u32, newest, code_of(own))
    }

    fn add_conflict(&mut self, search: &Search, conflict: Conflict) -> Result<(), Stop> {
        match conflict {
            Conflict::Crossed(u) => self.add_crossing(search, u),
            Conflict::Group(group) => {
                search.known.add_whole_group(group, &mut self.queue)?;
                stop(self.hints.push(Hint::Group(group)))
            }
            Conflict::Lemma(lemma) => {
                add_facts(&search.lemmas, lemma, &mut self.queue)?;
                stop(self.hints.push(Hint::Lemma(lemma)))
            }
        }
    }

    // Goes back over the trail until one marked entry of the newest level is left, and gives its number.
    fn resolve(&mut self, search: &mut Search) -> Result<usize, Stop> {
        let entries = search.known.trail.len();
        if entries > MOST_ENTRIES {
            return Err(Stop::Full);
        }
        for back in 0..entries {
            let number = entries - 1 - back;
            if !self.is_marked(number) {
                continue;
            }
            if self.here <= 1 {
                return Ok(number);
            }
            self.set_marked(number, false);
            self.here = self.here.saturating_sub(1);
            let need = self.need(number);
            if let Some(entry) = search.known.trail.get(number) {
                let entry = *entry;
                self.add_reason(search, number as u32, entry, need)?;
                self.mark_queue(search)?;
            }
        }
        Ok(0)
    }

    // The lemmas of the hints serve.
    fn use_lemmas(&mut self, search: &mut Search) {
        for hint in self.hints.iter() {
            if let Hint::Lemma(lemma) = hint {
                if let Some(lemma) = search.lemmas.get_mut(*lemma) {
                    lemma.used = search.conflicts;
                }
            }
        }
    }

    fn list_marked(&mut self, last: usize) -> Result<(), Stop> {
        if last >= MOST_ENTRIES {
            return Err(Stop::Full);
        }
        for back in 0..last + 1 {
            let number = last - back;
            if self.is_marked(number) {
                stop(self.marked.push(number as u32))?;
            }
        }
        Ok(())
    }

    // Whether a fact follows from marked entries and the root, looking so many steps back.
    #[cycle(following)]
    fn is_implied(&mut self, search: &Search, fact: Fact, depth: u32) -> Result<bool, Stop> {
        let number = match search.known.entry_of(fact) {
            Some(number) => number,
            None => return Ok(true),
        };
        let entry = match search.known.trail.get(number as usize) {
            Some(entry) => *entry,
            None => return Ok(true),
        };
        if entry.level == 0 {
            self.need_root(search, number)?;
            return Ok(true);
        }
        let code = code_of(fact);
        if self.is_marked(number as usize) {
            let need = self.need(number as usize);
            let suffices = match fact {
                Fact::Low(_, _) => need >= code,
                Fact::High(_, _) => need <= code,
                _ => true,
            };
            if suffices {
                return Ok(true);
            }
        }
        if depth == 0 || entry.why == Why::Decision {
            return Ok(false);
        }
        self.follows(search, number, entry, code, depth - 1)
    }

    // Whether what is needed of an entry follows from marked entries and the root; the hints on the way.
    #[cycle(following)]
    fn follows(
        &mut self,
        search: &Search,
        number: u32,
        entry: Entry,
        need: u32,
        depth: u32,
    ) -> Result<bool, Stop> {
        let start = self.queue.len();
        let known = &search.known;
        let hint = known.add_reason(&search.lemmas, number, entry, need, &mut self.queue)?;
        let mut implied = true;
        for at in start..self.queue.len() {
            if implied {
                if let Some(fact) = self.queue.get(at) {
                    let fact = *fact;
                    implied = self.is_implied(search, fact, depth)?;
                }
            }
        }
        self.queue.truncate(start);
        if let (true, Some(hint)) = (implied, hint) {
            stop(self.used.push(Used { number, hint }))?;
        }
        Ok(implied)
    }

    // Takes a marked entry out where it follows from the others.
    fn shorten_by(&mut self, search: &Search, number: u32) -> Result<(), Stop> {
        let entry = match search.known.trail.get(number as usize) {
            Some(entry) => *entry,
            None => return Ok(()),
        };
        if entry.why == Why::Decision {
            return Ok(());
        }
        let (used, needs) = (self.used.len(), self.needs.len());
        self.set_marked(number as usize, false);
        let need = self.need(number as usize);
        if !self.follows(search, number, entry, need, DEPTH)? {
            self.set_marked(number as usize, true);
            self.used.truncate(used);
            self.needs.truncate(needs);
        }
        Ok(())
    }

    // All but the newest of the marked entries are tried.
    fn shorten(&mut self, search: &Search) -> Result<(), Stop> {
        for at in 1..self.marked.len() {
            match self.marked.get(at) {
                Some(number) => {
                    let number = *number;
                    self.shorten_by(search, number)?;
                }
                None => return Ok(()),
            }
        }
        Ok(())
    }

    // Of two bounds of one coordinate the newer one is the stronger.
    fn has_stronger(&self, fact: Fact) -> bool {
        for other in self.lemma.iter() {
            match (fact, *other) {
                (Fact::Low(u, _), Fact::Low(v, _)) | (Fact::High(u, _), Fact::High(v, _)) => {
                    if u == v {
                        return true;
                    }
                }
                _ => {}
            }
        }
        false
    }

    fn add_marked(&mut self, known: &Knowledge, number: u32) -> Result<(), Stop> {
        let entry = match known.trail.get(number as usize) {
            Some(entry) => *entry,
            None => return Ok(()),
        };
        let fact = needed(entry.fact, self.need(number as usize));
        if self.has_stronger(fact) {
            return Ok(());
        }
        add(&mut self.lemma, fact)?;
        stop(self.levels.push(entry.level))
    }

    // Takes what is still marked as the lemma, the newest first, and clears the marks.
    fn collect(&mut self, known: &Knowledge) -> Result<(), Stop> {
        for at in 0..self.marked.len() {
            if let Some(number) = self.marked.get(at) {
                let number = *number;
                if self.is_marked(number as usize) {
                    self.add_marked(known, number)?;
                }
            }
        }
        for at in 0..self.marked.len() {
            if let Some(number) = self.marked.get(at) {
                let number = *number;
                self.set_marked(number as usize, false);
            }
        }
        Ok(())
    }

    // Brings a fact of the newest level below the first one to the second place: there the search goes back to.
    fn choose_second(&mut self) {
        let mut best = 0;
        let mut newest = 0;
        for at in 1..self.levels.len() {
            if self.levels[at] >= newest {
                best = at;
                newest = self.levels[at];
            }
        }
        if best > 0 && best < self.lemma.len() && best < self.levels.len() {
            self.back = newest;
            self.lemma.swap(1, best);
            self.levels.swap(1, best);
        }
    }

    // The hints of what was left out come first, in the order of the trail, then those of the resolution from its end.
    fn order_hints(&mut self) -> Result<(), Stop> {
        self.used.sort_unstable_by(|a, b| a.number.cmp(&b.number));
        let count = self.hints.len();
        let mut last = None;
        for used in self.used.iter() {
            if last != Some(used.number) {
                stop(self.hints.push(used.hint))?;
            }
            last = Some(used.number);
        }
        let behind = self.hints.len().saturating_sub(count);
        self.hints.reverse();
        if behind <= self.hints.len() {
            self.hints[..behind].reverse();
        }
        Ok(())
    }

    // How many levels the lemma's facts are of.
    fn count_levels(&mut self) -> u32 {
        self.levels.sort_unstable();
        self.levels.dedup();
        let count = self.levels.len();
        if count < 4_294_967_295 {
            count as u32
        } else {
            4_294_967_295
        }
    }

    fn analyze(&mut self, search: &mut Search, conflict: Conflict) -> Result<(), Stop> {
        self.clear(search.known.trail.len())?;
        self.add_conflict(search, conflict)?;
        self.mark_queue(search)?;
        let last = if search.known.level > 0 {
            self.resolve(search)?
        } else {
            0
        };
        self.use_lemmas(search);
        self.list_marked(last)?;
        self.shorten(search)?;
        self.collect(&search.known)?;
        self.choose_second();
        self.order_hints()
    }

    // The lemma of one fact that tells what an entry of the root tells, where it is none yet.
    fn root_lemma(&mut self, search: &mut Search, number: u32, entry: Entry) -> Result<u32, Stop> {
        match entry.why {
            Why::Limit | Why::Bounds => return Ok(NO_LEMMA),
            Why::Lemma(lemma) if search.lemmas.facts_of(lemma).len() == 1 => return Ok(lemma),
            _ => {}
        }
        self.clear(0)?;
        self.add_reason(search, number, entry, code_of(entry.fact))?;
        self.mark_queue(search)?;
        add(&mut self.lemma, denial(entry.fact))?;
        search.keep_lemma(self, 0)
    }

    /// Makes a lemma of one fact for each new entry of the root that is none yet.
    pub fn note_root(&mut self, search: &mut Search) -> Result<(), Stop> {
        for at in search.root_lemmas.len()..search.known.trail.len() {
            if at > MOST_ENTRIES {
                return Err(Stop::Full);
            }
            let entry = match search.known.trail.get(at) {
                Some(entry) => *entry,
                None => return Ok(()),
            };
            let lemma = self.root_lemma(search, at as u32, entry)?;
            stop(search.root_lemmas.push(lemma))?;
        }
        Ok(())
    }

    // Learns from a conflict, and gives the one that the lemma makes at once.
    fn learn_one(
        &mut self,
        search: &mut Search,
        conflict: Conflict,
    ) -> Result<Option<Conflict>, Stop> {
        if search.known.level == 0 {
            self.note_root(search)?;
            self.analyze(search, conflict)?;
            search.keep_lemma(self, 0)?;
            search.refuted = true;
            return Ok(None);
        }
        search.conflicts = search.conflicts.saturating_add(1);
        search.activity.decay();
        self.analyze(search, conflict)?;
        let levels = self.count_levels();
        search.go_back(self.back)?;
        let number = search.keep_lemma(self, levels)?;
        let first = match self.lemma.first() {
            Some(fact) => *fact,
            None => {
                search.refuted = true;
                return Ok(None);
            }
        };
        match search.known.deny(first, Why::Lemma(number)) {
            Ok(()) => Ok(None),
            Err(Stop::Conflict(next)) => Ok(Some(next)),
            Err(Stop::Full) => Err(Stop::Full),
        }
    }

    /// Learns from a conflict, and from those that the lemma makes at once.
    pub fn learn(&mut self, search: &mut Search, conflict: Conflict) -> Result<(), Stop> {
        let mut conflict = conflict;
        for _ in 0..u64::MAX {
            match self.learn_one(search, conflict)? {
                Some(next) => conflict = next,
                None => return search.forget(),
            }
        }
        Ok(())
    }
}
