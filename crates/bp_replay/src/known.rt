// A knowledge as it is kept: a lower and an upper code for each coordinate, and for each order a bit in the row of its cell where it is
// known to hold, or known not to. It is small, so each lemma begins with a copy of the root's.
ghost use Rattle.std.specs.Prelude.{◌≡◌, ◌<◌, ◌||◌, false};
ghost use Rattle.bp_base.specs.Tree.{leaf_count};
ghost use Rattle.bp_lemmas.specs.Knowledge.{Knowledge, is_refuted as is_refuted_by, is_sure as is_sure_of, lowered, pushed, raised, with_fact, with_order, without_order};
ghost use Rattle.bp_lemmas.specs.Standing.{IsNamed};
ghost use Rattle.bp_lemmas.specs.Systems.{apart, facing};
ghost use Rattle.bp_lemmas.specs.Hints.{leant, push_known as pushed_known};
ghost use Rattle.bp_replay.specs.Cells.{places, rows};
ghost use Rattle.bp_replay.specs.Leanings.{lasting_of};
ghost use Rattle.bp_replay.specs.Readings.{Fits, order_as};
ghost use Rattle.bp_replay.specs.Tasks.{Task, system_of};
ghost use Rattle.bp_replay.specs.Kept.{AreTwoLeaves, Keeps};

use crate::given::Given;
use crate::lean::Lean;
use crate::relation::Relation;
use crate::sets::{has, with};
use bp_arrangement::Fact;
use bp_base::Axis;

#[derive(Clone, Copy)]
pub struct Known {
    pub lower: [u64; 66],
    pub upper: [u64; 66],
    pub holds: [u64; 66],
    pub fails: [u64; 66],
    // nothing is shown by the tables of a broken knowledge
    pub broken: bool,
}

impl Known {
    // Whether the first leaf is known to lie before the second.
    #[inline]
    pub fn is_known(&self, given: &Given, axis: Axis, first: u64, second: u64) -> bool
        requires two { AreTwoLeaves given.now.tree first second }
        requires few { leaf_count given.now.tree < rows }
        ensures { (K : Knowledge) → Keeps given.now self.now K → self.now.broken ≡ false → result ≡ K.holds ((system_of given.now).order axis first second) }
    {
        let cell = given.cell(axis, first, second);
        has(self.holds[cell.row], cell.column)
    }

    // Whether the first leaf is known not to lie before the second.
    #[inline]
    pub fn is_known_not(&self, given: &Given, axis: Axis, first: u64, second: u64) -> bool
        requires two { AreTwoLeaves given.now.tree first second }
        requires few { leaf_count given.now.tree < rows }
        ensures { (K : Knowledge) → Keeps given.now self.now K → self.now.broken ≡ false → result ≡ K.fails ((system_of given.now).order axis first second) }
    {
        let cell = given.cell(axis, first, second);
        has(self.fails[cell.row], cell.column)
    }

    #[inline]
    pub fn raise(&mut self, at: usize, code: u64)
        requires { at < places }
        ensures { (t : Task) (K : Knowledge) → Keeps t self.old K → Keeps t self.new (raised K at code) }
    {
        if self.broken {
            return;
        }
        if code <= self.lower[at] {
            return;
        }
        if self.upper[at] <= code {
            self.broken = true;
        } else {
            self.lower[at] = code;
        }
    }

    #[inline]
    pub fn lessen(&mut self, at: usize, code: u64)
        requires { at < places }
        ensures { (t : Task) (K : Knowledge) → Keeps t self.old K → Keeps t self.new (lowered K at code) }
    {
        if self.broken {
            return;
        }
        if self.upper[at] <= code {
            return;
        }
        if code <= self.lower[at] {
            self.broken = true;
        } else {
            self.upper[at] = code;
        }
    }

    // Adds that the first leaf lies before the second, without pushing it.
    #[inline]
    pub fn set_known(&mut self, given: &Given, axis: Axis, first: u64, second: u64)
        requires two { AreTwoLeaves given.now.tree first second }
        requires few { leaf_count given.now.tree < rows }
        ensures { (K : Knowledge) → Keeps given.now self.old K → Keeps given.now self.new (with_order K ((system_of given.now).order axis first second)) }
    {
        if self.broken {
            return;
        }
        if self.is_known_not(given, axis, first, second) {
            self.broken = true;
            return;
        }
        if self.is_known(given, axis, second, first) {
            self.broken = true;
            return;
        }
        let cell = given.cell(axis, first, second);
        self.holds[cell.row] = with(self.holds[cell.row], cell.column);
    }

    // Adds that the first leaf doesn't lie before the second.
    #[inline]
    pub fn set_known_not(&mut self, given: &Given, axis: Axis, first: u64, second: u64)
        requires two { AreTwoLeaves given.now.tree first second }
        requires few { leaf_count given.now.tree < rows }
        ensures { (K : Knowledge) → Keeps given.now self.old K → Keeps given.now self.new (without_order K ((system_of given.now).order axis first second)) }
    {
        if self.broken {
            return;
        }
        if self.is_known(given, axis, first, second) {
            self.broken = true;
            return;
        }
        let cell = given.cell(axis, first, second);
        self.fails[cell.row] = with(self.fails[cell.row], cell.column);
    }

    // Gives the coordinates of two leaves the bounds that follow where the first lies before the second.
    #[inline]
    pub fn push(&mut self, given: &Given, axis: Axis, first: u64, second: u64)
        requires two { AreTwoLeaves given.now.tree first second }
        requires few { leaf_count given.now.tree < rows }
        ensures { (K : Knowledge) → Keeps given.now self.old K → Keeps given.now self.new (pushed (system_of given.now) K ((system_of given.now).order axis first second)) }
    {
        if self.broken {
            return;
        }
        match given.relation(axis, first, second) {
            Relation::Apart { u, v, w } => self.push_apart(u, v, w),
            Relation::Facing { u, v, w } => self.push_facing(given, u, v, w),
            Relation::FacingItself { u, w } => self.lessen(
                u,
                (given.bound().saturating_sub(w) + 1) / 2 * 2,
            ),
            Relation::Never => {}
        }
    }

    #[inline]
    fn push_apart(&mut self, u: usize, v: usize, w: u64)
        requires fits { Fits (apart u v w) }
        requires whole { self.old.broken ≡ false }
        ensures { (t : Task) (K : Knowledge) → Keeps t self.old K → Keeps t self.new (pushed (system_of t) K (apart u v w)) }
    {
        let low = self.lower[u].saturating_add(2 * w);
        let high = self.upper[v].saturating_sub(2 * w);
        self.raise(v, low);
        self.lessen(u, high);
    }

    fn push_facing(&mut self, given: &Given, u: usize, v: usize, w: u64)
        requires fits { Fits (facing u v w) }
        requires whole { self.old.broken ≡ false }
        ensures { (K : Knowledge) → Keeps given.now self.old K → Keeps given.now self.new (pushed (system_of given.now) K (facing u v w)) }
    {
        let bound = given.bound();
        let first = bound.saturating_sub(self.lower[v] / 2 + w);
        let second = bound.saturating_sub(self.lower[u] / 2 + w);
        self.lessen(u, 2 * first);
        self.lessen(v, 2 * second);
    }

    // Adds a fact.
    pub fn add(&mut self, given: &Given, fact: Fact)
        requires named { IsNamed (system_of given.now) fact }
        requires few { leaf_count given.now.tree < rows }
        ensures { (K : Knowledge) → Keeps given.now self.old K → Keeps given.now self.new (with_fact (system_of given.now) K fact) }
    {
        match fact {
            Fact::Before {
                axis,
                first,
                second,
            } => self.add_order(given, axis, first, second),
            Fact::NotBefore {
                axis,
                first,
                second,
            } => self.set_known_not(given, axis, first, second),
            Fact::Least { axis, leaf, code } => self.raise(given.place(axis, leaf), code),
            Fact::Below { axis, leaf, code } => self.lessen(given.place(axis, leaf), code),
        }
    }

    // Adds that the first leaf lies before the second.
    pub fn add_order(&mut self, given: &Given, axis: Axis, first: u64, second: u64)
        requires two { AreTwoLeaves given.now.tree first second }
        requires few { leaf_count given.now.tree < rows }
        ensures { (K : Knowledge) → Keeps given.now self.old K → Keeps given.now self.new (pushed (system_of given.now) (with_order K ((system_of given.now).order axis first second)) ((system_of given.now).order axis first second)) }
    {
        self.set_known(given, axis, first, second);
        self.push(given, axis, first, second);
    }

    // Whether a fact is sure of a knowledge that isn't broken.
    pub fn is_sure(&self, given: &Given, fact: Fact) -> bool
        requires named { IsNamed (system_of given.now) fact }
        requires few { leaf_count given.now.tree < rows }
        ensures { (K : Knowledge) → Keeps given.now self.now K → self.now.broken ≡ false → result ≡ is_sure_of (system_of given.now) K fact }
    {
        match fact {
            Fact::Before {
                axis,
                first,
                second,
            } => self.is_known(given, axis, first, second),
            Fact::NotBefore {
                axis,
                first,
                second,
            } => self.is_sure_not(given, axis, first, second),
            Fact::Least { axis, leaf, code } => code <= self.lower[given.place(axis, leaf)],
            Fact::Below { axis, leaf, code } => self.upper[given.place(axis, leaf)] <= code,
        }
    }

    // Whether the first leaf is known not to lie before the second, or the bounds leave no room for it.
    #[inline]
    pub fn is_sure_not(&self, given: &Given, axis: Axis, first: u64, second: u64) -> bool
        requires two { AreTwoLeaves given.now.tree first second }
        requires few { leaf_count given.now.tree < rows }
        ensures { (K : Knowledge) → Keeps given.now self.now K → self.now.broken ≡ false → result ≡ (K.fails ((system_of given.now).order axis first second) || is_refuted_by (system_of given.now) K ((system_of given.now).order axis first second)) }
    {
        let known = self.is_known_not(given, axis, first, second);
        known || self.is_refuted(given, given.relation(axis, first, second))
    }

    // Whether the bounds leave no room for an order.
    #[inline]
    fn is_refuted(&self, given: &Given, order: Relation) -> bool
        requires { Fits (order_as order) }
        ensures { (K : Knowledge) → Keeps given.now self.now K → self.now.broken ≡ false → result ≡ is_refuted_by (system_of given.now) K (order_as order) }
    {
        match order {
            Relation::Apart { u, v, w } => self.upper[v] <= self.lower[u].saturating_add(2 * w),
            Relation::Facing { u, v, w } => given.bound()
                <= (self.lower[u] / 2 + self.lower[v] / 2).saturating_add(w),
            Relation::FacingItself { u, w } => given.bound()
                <= (self.lower[u] / 2 + self.lower[u] / 2).saturating_add(w),
            Relation::Never => true,
        }
    }

    // Pushes the order of two leaves where it is known.
    #[inline]
    pub fn push_known(&mut self, given: &Given, axis: Axis, first: u64, second: u64)
        requires two { AreTwoLeaves given.now.tree first second }
        requires few { leaf_count given.now.tree < rows }
        ensures { (K : Knowledge) → Keeps given.now self.old K → Keeps given.now self.new (pushed_known (system_of given.now) K ((system_of given.now).order axis first second)) }
    {
        if self.broken {
            return;
        }
        if self.is_known(given, axis, first, second) {
            self.push(given, axis, first, second);
        }
    }

    // Takes up an order that holds for good.
    #[inline]
    pub fn lean(&mut self, lean: Lean)
        requires earlier { lean.earlier < places }
        requires later { lean.later < places }
        ensures { (t : Task) (K : Knowledge) → Keeps t self.old K → Keeps t self.new (leant K (lasting_of lean)) }
    {
        if self.broken {
            return;
        }
        let low = self.lower[lean.earlier];
        let high = self.upper[lean.later];
        self.raise(lean.later, low);
        self.lessen(lean.earlier, high);
    }
}
