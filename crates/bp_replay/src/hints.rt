// Hints, taken by a knowledge.
ghost use Rattle.std.specs.Prelude.{◌≡◌, ◌<◌, ◌↔◌, [], ◌∷◌, All, length, true, false, IsTrue};
ghost use Rattle.bp_base.specs.Tree.{leaf_count};
ghost use Rattle.bp_metric.specs.Valid.{IsPair};
ghost use Rattle.bp_lemmas.specs.Knowledge.{Knowledge, unsure as unsure_of, with_facts};
ghost use Rattle.bp_lemmas.specs.Hints.{Closes, after, bad, by_last, knows_order as order_known, leant_by, open_orders as orders_left, pair_pushed, pair_settled, with_last};
ghost use Rattle.bp_lemmas.specs.Standing.{IsHint, IsNamed};
ghost use Rattle.bp_lemmas.specs.Systems.{group};
ghost use Rattle.bp_lemmas.specs.Trees.{corner_lasting, is_corner_pair, lies_no_farther};
ghost use Rattle.bp_mirror.specs.declared.kind.MirrorKind.TheVariants.{Diagonal};
ghost use Rattle.bp_mirror.specs.Systems.{are_both, pair_lasting};
ghost use Rattle.bp_replay.specs.Cells.{places, rows};
ghost use Rattle.bp_replay.specs.Leanings.{LeansWithin, at_corner, at_head, at_pairs, corner_of, lasting_of, lastings, leaning_pairs};
ghost use Rattle.bp_replay.specs.Tasks.{Task, system_of};
ghost use Rattle.bp_replay.specs.Kept.{AreOpen, Comes, IsCornerWithin, IsLeft, IsNamedOne, Keeps, NamesTwo};
ghost use Rattle.bp_replay.specs.Stored.{facts_in};

use crate::cell::place;
use crate::given::Given;
use crate::known::Known;
use crate::lean::Lean;
use crate::packed::{Packed, unpacked};
use crate::store::Store;
use crate::unsure::{Open, Unsure, denied};
use bp_arrangement::{Fact, Hint};
use bp_base::{Axis, Pair, Sheet};

impl Known {
    // The facts that aren't sure: none, one, or more.
    fn unsure(&self, given: &Given, facts: &[Packed]) -> Unsure
        requires named { All (IsNamed (system_of given.now)) (facts_in facts.now) }
        requires few { leaf_count given.now.tree < rows }
        ensures left { (K : Knowledge) → Keeps given.now self.now K → self.now.broken ≡ false → IsLeft result (unsure_of (system_of given.now) K (facts_in facts.now)) }
        ensures named { IsNamedOne given.now result }
    {
        let mut left = Unsure::Nothing;
        for k in 0..facts.len() {
            let fact = unpacked(facts[k]);
            left = left.counted(self.is_sure(given, fact), fact);
        }
        left
    }

    // Takes the hint of an earlier lemma. It is bad where two of the facts aren't sure.
    pub fn take_lemma(&mut self, given: &Given, facts: &[Packed]) -> bool
        requires named { All (IsNamed (system_of given.now)) (facts_in facts.now) }
        requires few { leaf_count given.now.tree < rows }
        requires whole { self.old.broken ≡ false }
        ensures { (K : Knowledge) → Keeps given.now self.old K → Comes result given.now self.new (by_last (system_of given.now) K bad (unsure_of (system_of given.now) K (facts_in facts.now))) }
    {
        match self.unsure(given, facts) {
            Unsure::Nothing => {
                self.broken = true;
                true
            }
            Unsure::Single { fact } => {
                self.add(given, denied(fact));
                true
            }
            Unsure::More => false,
        }
    }

    // Takes the hint of a pair, which is never bad.
    pub fn take_pair(&mut self, given: &Given, pair: Pair)
        requires pair { IsPair given.now.tree pair.i pair.j }
        requires few { leaf_count given.now.tree < rows }
        requires corner { IsCornerWithin given.now.ties }
        ensures { (K : Knowledge) → Keeps given.now self.old K → Comes true given.now self.new (pair_settled (system_of given.now) (pair_pushed (system_of given.now) K pair.i pair.j) pair.i pair.j) }
    {
        self.push_pair(given, pair);
        if self.broken {
            return;
        }
        if self.knows_order(given, pair) {
            return;
        }
        self.settle(given, pair);
    }

    // Pushes each order of the pair that is known, and takes up those that hold for good.
    fn push_pair(&mut self, given: &Given, pair: Pair)
        requires pair { IsPair given.now.tree pair.i pair.j }
        requires few { leaf_count given.now.tree < rows }
        requires corner { IsCornerWithin given.now.ties }
        ensures { (K : Knowledge) → Keeps given.now self.old K → Keeps given.now self.new (pair_pushed (system_of given.now) K pair.i pair.j) }
    {
        self.push_known(given, Axis::X, pair.i, pair.j);
        self.push_known(given, Axis::X, pair.j, pair.i);
        self.push_known(given, Axis::Y, pair.i, pair.j);
        self.push_known(given, Axis::Y, pair.j, pair.i);
        self.lean_at_corner(given, pair);
        self.lean_at_pairs(given, pair);
        self.lean_at_head(given, pair);
    }

    #[inline]
    fn lean_at_corner(&mut self, given: &Given, pair: Pair)
        requires corner { IsCornerWithin given.now.ties }
        ensures { (K : Knowledge) → Keeps given.now self.old K → Keeps given.now self.new (leant_by K (at_corner (corner_of given.now.ties) given.now.sheet pair.i pair.j)) }
    {
        if let Some(corner) = given.corner() {
            if are_corner(corner, pair) {
                self.lean_corner(given.sheet(), corner);
            }
        }
    }

    fn lean_corner(&mut self, sheet: Sheet, corner: Pair)
        requires i { corner.i < rows }
        requires j { corner.j < rows }
        ensures { (t : Task) (K : Knowledge) → Keeps t self.old K → Keeps t self.new (leant_by K (corner_lasting sheet corner.i corner.j)) }
    {
        if let Sheet::Strip { width: _ } = sheet {
            self.lean(between(Axis::X, corner));
        }
        self.lean(between(Axis::Y, corner));
    }

    // Takes up that of a pair of the diagonal x is at most y.
    fn lean_at_pairs(&mut self, given: &Given, pair: Pair)
        ensures { (K : Knowledge) → Keeps given.now self.old K → Keeps given.now self.new (leant_by K (at_pairs (leaning_pairs given.now.ties) pair.i pair.j)) }
    {
        for k in 0..given.leaning_pairs() {
            self.lean_at_pair(given.leaning_pair(k), pair);
        }
    }

    fn lean_at_pair(&mut self, tied: Pair, pair: Pair)
        requires { tied.i < rows }
        ensures { (t : Task) (K : Knowledge) → Keeps t self.old K → Keeps t self.new (leant_by K (pair_lasting Diagonal pair.i pair.j tied)) }
    {
        if are_both_of(tied, pair) {
            self.lean(Lean {
                earlier: place(Axis::X, tied.i),
                later: place(Axis::Y, tied.i),
            });
        }
    }

    #[inline]
    fn lean_at_head(&mut self, given: &Given, pair: Pair)
        requires i { pair.i < rows }
        requires j { pair.j < rows }
        ensures { (K : Knowledge) → Keeps given.now self.old K → Keeps given.now self.new (leant_by K (at_head given.now.ties given.now.heads pair.i pair.j)) }
    {
        if given.is_head(pair) {
            self.lean_by(given.lean_of_head(pair));
        }
    }

    fn lean_by(&mut self, lean: Option<Lean>)
        requires { LeansWithin lean }
        ensures { (t : Task) (K : Knowledge) → Keeps t self.old K → Keeps t self.new (leant_by K (lastings lean)) }
    {
        if let Some(order) = lean {
            self.lean(order);
        }
    }

    // Whether some order of the pair is known.
    fn knows_order(&self, given: &Given, pair: Pair) -> bool
        requires pair { IsPair given.now.tree pair.i pair.j }
        requires few { leaf_count given.now.tree < rows }
        ensures { (K : Knowledge) → Keeps given.now self.now K → self.now.broken ≡ false → result ≡ order_known (system_of given.now) K pair.i pair.j }
    {
        if self.is_known(given, Axis::X, pair.i, pair.j) {
            return true;
        }
        if self.is_known(given, Axis::X, pair.j, pair.i) {
            return true;
        }
        if self.is_known(given, Axis::Y, pair.i, pair.j) {
            return true;
        }
        self.is_known(given, Axis::Y, pair.j, pair.i)
    }

    // Takes the one order of the pair that is left, where just one is.
    fn settle(&mut self, given: &Given, pair: Pair)
        requires pair { IsPair given.now.tree pair.i pair.j }
        requires few { leaf_count given.now.tree < rows }
        requires whole { self.old.broken ≡ false }
        ensures { (K : Knowledge) → Keeps given.now self.old K → Comes true given.now self.new (with_last (system_of given.now) K (orders_left (system_of given.now) K (group (system_of given.now) pair.i pair.j))) }
    {
        match self.open_orders(given, pair) {
            Open::None => self.broken = true,
            Open::One {
                axis,
                first,
                second,
            } => self.add_order(given, axis, first, second),
            Open::Several => {}
        }
    }

    // Of the orders of a pair on an axis those that may hold, each once.
    fn open_on(&self, given: &Given, axis: Axis, pair: Pair) -> Open
        requires pair { IsPair given.now.tree pair.i pair.j }
        requires few { leaf_count given.now.tree < rows }
        ensures open { (K : Knowledge) → Keeps given.now self.now K → self.now.broken ≡ false → AreOpen (system_of given.now) result (orders_left (system_of given.now) K ((system_of given.now).order axis pair.i pair.j ∷ (system_of given.now).order axis pair.j pair.i ∷ [])) }
        ensures named { NamesTwo given.now.tree result }
    {
        let last = Open::None.with(
            self.is_sure_not(given, axis, pair.j, pair.i),
            axis,
            pair.j,
            pair.i,
        );
        let again = given.is_one(axis, pair.i, pair.j, axis, pair.j, pair.i);
        last.with(
            again || self.is_sure_not(given, axis, pair.i, pair.j),
            axis,
            pair.i,
            pair.j,
        )
    }

    // The orders of a pair that may hold, each once, from the last to the first.
    fn open_orders(&self, given: &Given, pair: Pair) -> Open
        requires pair { IsPair given.now.tree pair.i pair.j }
        requires few { leaf_count given.now.tree < rows }
        ensures open { (K : Knowledge) → Keeps given.now self.now K → self.now.broken ≡ false → AreOpen (system_of given.now) result (orders_left (system_of given.now) K (group (system_of given.now) pair.i pair.j)) }
        ensures named { NamesTwo given.now.tree result }
    {
        let i = pair.i;
        let j = pair.j;
        let on_y = self.open_on(given, Axis::Y, pair);
        let back_again = given.is_one(Axis::X, j, i, Axis::Y, i, j)
            || given.is_one(Axis::X, j, i, Axis::Y, j, i);
        let back = on_y.with(
            back_again || self.is_sure_not(given, Axis::X, j, i),
            Axis::X,
            j,
            i,
        );
        let again = given.is_one(Axis::X, i, j, Axis::X, j, i)
            || given.is_one(Axis::X, i, j, Axis::Y, i, j)
            || given.is_one(Axis::X, i, j, Axis::Y, j, i);
        back.with(
            again || self.is_sure_not(given, Axis::X, i, j),
            Axis::X,
            i,
            j,
        )
    }

    // Takes a hint; false where it is bad.
    fn take(&mut self, given: &Given, store: &Store, hint: Hint) -> bool
        requires named { IsHint (system_of given.now) (length store.now) hint }
        requires stored { All (All (IsNamed (system_of given.now))) store.now }
        requires few { leaf_count given.now.tree < rows }
        requires corner { IsCornerWithin given.now.ties }
        requires whole { self.old.broken ≡ false }
        ensures { (K : Knowledge) → Keeps given.now self.old K → Comes result given.now self.new (after (system_of given.now) store.now K hint) }
    {
        match hint {
            Hint::Pair { pair } => {
                self.take_pair(given, pair);
                true
            }
            Hint::Lemma { number } => self.take_lemma(given, store.facts(number)),
        }
    }

    // Whether the hints, taken in order, break the knowledge before one of them is bad.
    pub fn closes(&mut self, given: &Given, store: &Store, hints: &[Hint]) -> bool
        requires named { All (IsHint (system_of given.now) (length store.now)) hints.now }
        requires stored { All (All (IsNamed (system_of given.now))) store.now }
        requires few { leaf_count given.now.tree < rows }
        requires corner { IsCornerWithin given.now.ties }
        ensures { (K : Knowledge) → Keeps given.now self.old K → IsTrue result ↔ Closes (system_of given.now) store.now hints.now K }
    {
        for k in 0..hints.len() {
            if self.broken {
                return true;
            }
            if !self.take(given, store, hints[k]) {
                return false;
            }
        }
        self.broken
    }

    // Adds facts in order.
    pub fn add_all(&mut self, given: &Given, facts: &[Fact])
        requires named { All (IsNamed (system_of given.now)) facts.now }
        requires few { leaf_count given.now.tree < rows }
        ensures { (K : Knowledge) → Keeps given.now self.old K → Keeps given.now self.new (with_facts (system_of given.now) K facts.now) }
    {
        for k in 0..facts.len() {
            self.add(given, facts[k]);
        }
    }
}

// Whether the two are the leaves of the corner.
#[inline]
fn are_corner(corner: Pair, pair: Pair) -> bool
    ensures { result ≡ is_corner_pair corner.i corner.j pair.i pair.j }
{
    corner.i == pair.i && corner.j == pair.j || corner.i == pair.j && corner.j == pair.i
}

// Whether the two are the leaves of a pair of a mirror.
#[inline]
fn are_both_of(tied: Pair, pair: Pair) -> bool
    ensures { result ≡ are_both pair.i pair.j tied }
{
    tied.i == pair.i && tied.j == pair.j || tied.i == pair.j && tied.j == pair.i
}

// That the first leaf lies no farther than the second.
#[inline]
fn between(axis: Axis, pair: Pair) -> Lean
    requires i { pair.i < rows }
    requires j { pair.j < rows }
    ensures value { lasting_of result ≡ lies_no_farther axis pair.i pair.j }
    ensures earlier { result.earlier < places }
    ensures later { result.later < places }
{
    Lean {
        earlier: place(axis, pair.i),
        later: place(axis, pair.j),
    }
}
