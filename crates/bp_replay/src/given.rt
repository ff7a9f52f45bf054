ghost use Rattle.std.specs.Prelude.{◌≡◌, ◌<◌, ◌≤◌, ◌↔◌, All, IsTrue, length, slice_index_or};
ghost use Rattle.std.specs.List.{list_any};
ghost use Rattle.bp_base.specs.Limits.{most_number};
ghost use Rattle.bp_base.specs.Tree.{IsTree, leaf_count};
ghost use Rattle.bp_metric.specs.Metric.{IsSheet};
ghost use Rattle.bp_lemmas.specs.Trees.{are_two_leaves, axis_of, first_upper as first_upper_of, is_head as is_head_of, is_leaf as is_leaf_of, is_pair as is_pair_of};
ghost use Rattle.bp_lemmas.specs.Standing.{IsHint, IsNamed};
ghost use Rattle.bp_lemmas.specs.Systems.{is_order};
ghost use Rattle.bp_base.specs.declared.path.Pair.{Pair as AnyPair};
ghost use Rattle.bp_replay.specs.Cells.{cell_of, places, rows};
ghost use Rattle.bp_replay.specs.Kept.{AreTwoLeaves};
ghost use Rattle.bp_replay.specs.Leanings.{LeansWithin, corner_of, lastings, leaning_pairs, of_head};
ghost use Rattle.bp_replay.specs.Readings.{Fits, order_as};
ghost use Rattle.bp_replay.specs.Tasks.{system_of};

use crate::cell::{Cell, cell_of as cell_by, name, place};
use crate::lean::Lean;
use crate::reading::lean_of;
use crate::relation::Relation;
use crate::ties::Ties;
use bp_arrangement::{Fact, Hint};
use bp_base::{Axis, Pair, Sheet};
use bp_metric::Metric;
use bp_mirror::MirrorKind;
use std::marker::Model;

// What lemmas are to prove.
#[derive(Drop)]
pub struct Given {
    pub metric: Metric,
    pub bound: u64,
    pub ties: Ties,
    pub heads: Vec<Pair>,
}

impl Model for Given {
    ghost use Rattle.bp_replay.specs.Tasks.{Task};
    ghost use Rattle.std.specs.Prelude.{◌≤◌};
    ghost use Rattle.bp_base.specs.Limits.{most_number};
    ghost use Rattle.bp_replay.specs.Tables.{HaveTables, ties_of};

    ghost Value = { Task };

    ghost view = { λ g. record { tree = g.metric.tree; sheet = g.metric.sheet; bound = g.bound; ties = ties_of g.ties; heads = g.heads.items } };

    ghost invariant = { λ g. (g.bound ≤ most_number) × HaveTables g.metric.tree g.ties };
}

impl Given {
    #[inline]
    pub fn is_leaf(&self, leaf: u64) -> bool
        ensures value { result ≡ is_leaf_of self.now.tree leaf }
        ensures tree { IsTree self.now.tree }
    {
        let leaves = self.metric.leaves();
        leaf >= 1 && leaf <= leaves
    }

    #[inline]
    pub fn sheet(&self) -> Sheet
        ensures { result ≡ self.now.sheet }
    {
        self.metric.sheet()
    }

    // Whether the pair is the head of a swap.
    pub fn is_head(&self, pair: Pair) -> bool
        ensures { result ≡ list_any (is_head_of pair.i pair.j) self.now.heads }
    {
        self.heads
            .iter()
            .any(|head| head.i == pair.i && head.j == pair.j)
    }

    // The leaves of the corner, where there is one.
    #[inline]
    pub fn corner(&self) -> Option<Pair>
        ensures { result ≡ corner_of self.now.ties }
    {
        match &self.ties {
            Ties::Corner { corner } => Some(*corner),
            Ties::Mirror { .. } => None,
        }
    }

    // The first upper code of a coordinate.
    pub fn first_upper(&self, at: usize) -> u64
        requires sheet { IsSheet self.now.sheet }
        ensures { result ≡ (system_of self.now).upper at }
    {
        match &self.ties {
            Ties::Corner { .. } => first_upper_on(self.sheet(), self.bound, at),
            Ties::Mirror { .. } => 2 * self.bound,
        }
    }

    #[inline]
    pub fn bound(&self) -> u64
        ensures value { result ≡ self.now.bound }
        ensures small { result ≤ most_number }
    {
        self.bound
    }

    // How many heads of swaps there are.
    pub fn heads(&self) -> usize
        ensures { result ≡ length self.now.heads }
    {
        self.heads.len()
    }

    pub fn head(&self, at: usize) -> Pair
        requires { at < length self.now.heads }
        ensures { (d : AnyPair) → result ≡ slice_index_or self.now.heads at d }
    {
        self.heads[at]
    }

    #[inline]
    pub fn are_two(&self, i: u64, j: u64) -> bool
        ensures { result ≡ are_two_leaves self.now.tree i j }
    {
        self.is_leaf(i) && self.is_leaf(j) && i != j
    }

    #[inline]
    pub fn is_pair(&self, pair: Pair) -> bool
        ensures { result ≡ is_pair_of self.now.tree pair.i pair.j }
    {
        let leaves = self.metric.leaves();
        pair.i >= 1 && pair.i < pair.j && pair.j <= leaves
    }

    // The place of a coordinate that bounds can speak of.
    #[inline]
    pub fn place(&self, axis: Axis, leaf: u64) -> usize
        requires there { IsTrue ((system_of self.now).has_coordinate axis leaf) }
        requires few { leaf_count self.now.tree < rows }
        ensures value { result ≡ (system_of self.now).coordinate axis leaf }
        ensures within { result < places }
    {
        match &self.ties {
            Ties::Corner { .. } => place(axis, leaf),
            Ties::Mirror { readings, first: _ } => readings.at(axis, leaf).variable(),
        }
    }

    // Where it is kept what is known of an order.
    #[inline]
    pub fn cell(&self, axis: Axis, first: u64, second: u64) -> Cell
        requires two { AreTwoLeaves self.now.tree first second }
        requires few { leaf_count self.now.tree < rows }
        ensures value { result ≡ cell_of self.now axis first second }
        ensures row { result.row < places }
        ensures column { result.column < rows }
        ensures tree { IsTree self.now.tree }
    {
        let _leaves = self.metric.leaves();
        match &self.ties {
            Ties::Corner { .. } => Cell {
                row: place(axis, first),
                column: second,
            },
            Ties::Mirror {
                readings: _,
                first: names,
            } => cell_by(names[name(axis, first, second)] as usize),
        }
    }

    // What an order says.
    #[inline]
    pub fn relation(&self, axis: Axis, first: u64, second: u64) -> Relation
        requires two { AreTwoLeaves self.now.tree first second }
        requires few { leaf_count self.now.tree < rows }
        ensures order { order_as result ≡ (system_of self.now).order axis first second }
        ensures fits { Fits (order_as result) }
    {
        match &self.ties {
            Ties::Corner { .. } => Relation::Apart {
                u: place(axis, first),
                v: place(axis, second),
                w: self.metric.dist(first, second),
            },
            Ties::Mirror { readings, first: _ } => {
                readings.relation(&self.metric, axis, first, second)
            }
        }
    }

    // Whether two names are of one order.
    #[inline]
    pub fn is_one(&self, axis: Axis, i: u64, j: u64, other: Axis, k: u64, l: u64) -> bool
        requires first { AreTwoLeaves self.now.tree i j }
        requires second { AreTwoLeaves self.now.tree k l }
        requires few { leaf_count self.now.tree < rows }
        ensures { result ≡ is_order ((system_of self.now).order axis i j) ((system_of self.now).order other k l) }
    {
        let one = self.cell(axis, i, j);
        let two = self.cell(other, k, l);
        one.row == two.row && one.column == two.column
    }

    // How many pairs of leaves lean on one another.
    pub fn leaning_pairs(&self) -> usize
        ensures { result ≡ length (leaning_pairs self.now.ties) }
    {
        match &self.ties {
            Ties::Corner { .. } => 0,
            Ties::Mirror { readings, first: _ } => match readings.kind() {
                MirrorKind::Book => 0,
                MirrorKind::Diagonal => readings.len(),
            },
        }
    }

    pub fn leaning_pair(&self, at: usize) -> Pair
        requires { at < length (leaning_pairs self.now.ties) }
        ensures value { (d : AnyPair) → result ≡ slice_index_or (leaning_pairs self.now.ties) at d }
        ensures i { result.i < rows }
        ensures j { result.j < rows }
    {
        match &self.ties {
            Ties::Corner { .. } => Pair { i: 0, j: 0 },
            Ties::Mirror { readings, first: _ } => readings.pair(at),
        }
    }

    // The order that holds for good between the leaves of a head.
    pub fn lean_of_head(&self, pair: Pair) -> Option<Lean>
        requires i { pair.i < rows }
        requires j { pair.j < rows }
        ensures value { lastings result ≡ of_head self.now.ties pair.i pair.j }
        ensures within { LeansWithin result }
    {
        match &self.ties {
            Ties::Corner { .. } => Some(Lean {
                earlier: place(Axis::X, pair.i),
                later: place(Axis::X, pair.j),
            }),
            Ties::Mirror { readings, first: _ } => {
                lean_of(readings.at(Axis::X, pair.i), readings.at(Axis::X, pair.j))
            }
        }
    }

    // Whether bounds can speak of the coordinate of a leaf.
    pub fn has_coordinate(&self, axis: Axis, leaf: u64) -> bool
        ensures { result ≡ (system_of self.now).has_coordinate axis leaf }
    {
        match &self.ties {
            Ties::Corner { .. } => self.is_leaf(leaf),
            Ties::Mirror { readings, first: _ } => {
                self.is_leaf(leaf) && readings.at(axis, leaf).is_variable()
            }
        }
    }

    // Whether the fact names what is there.
    pub fn names(&self, fact: Fact) -> bool
        ensures { IsTrue result ↔ IsNamed (system_of self.now) fact }
    {
        match fact {
            Fact::Before {
                axis: _,
                first,
                second,
            } => self.are_two(first, second),
            Fact::NotBefore {
                axis: _,
                first,
                second,
            } => self.are_two(first, second),
            Fact::Least {
                axis,
                leaf,
                code: _,
            } => self.has_coordinate(axis, leaf),
            Fact::Below {
                axis,
                leaf,
                code: _,
            } => self.has_coordinate(axis, leaf),
        }
    }

    // Whether the hint names a pair that is there, or one of so many earlier lemmas.
    pub fn names_hint(&self, count: u64, hint: Hint) -> bool
        ensures { IsTrue result ↔ IsHint (system_of self.now) count hint }
    {
        match hint {
            Hint::Pair { pair } => self.is_pair(pair),
            Hint::Lemma { number } => number >= 1 && number <= count,
        }
    }

    pub fn names_all(&self, facts: &[Fact]) -> bool
        ensures { IsTrue result ↔ All (IsNamed (system_of self.now)) facts.now }
    {
        facts.iter().all(|fact| self.names(*fact))
    }

    pub fn names_hints(&self, count: u64, hints: &[Hint]) -> bool
        ensures { IsTrue result ↔ All (IsHint (system_of self.now) count) hints.now }
    {
        hints.iter().all(|hint| self.names_hint(count, *hint))
    }
}

// The first upper code of a coordinate on a sheet.
#[tactic(auto, unfolding(bp_lemmas::specs::Trees::axis_of))]
fn first_upper_on(sheet: Sheet, bound: u64, at: usize) -> u64
    requires sheet { IsSheet sheet }
    requires bound { bound ≤ most_number }
    ensures { result ≡ first_upper_of sheet bound (axis_of at) }
{
    match sheet {
        Sheet::Square => 2 * bound,
        Sheet::Strip { width } => {
            if at % 2 == 0 {
                2 * width + 1
            } else {
                2 * bound
            }
        }
    }
}
