// How the coordinates of a symmetric placement read.
ghost use Rattle.std.specs.Prelude.{◌≡◌, ◌<◌, IfOk, length, slice_index_or};
ghost use Rattle.bp_base.specs.Tree.{leaf_count};
ghost use Rattle.bp_base.specs.declared.path.Pair.{Pair as AnyPair};
ghost use Rattle.bp_lemmas.specs.Trees.{axis_of, leaf_of};
ghost use Rattle.bp_mirror.specs.declared.kind.MirrorKind.TheVariants.{Book, Diagonal};
ghost use Rattle.bp_mirror.specs.Readings.{part_of as part_in, reading as reading_in, reading_of};
ghost use Rattle.bp_mirror.specs.Systems.{is_variable as is_variable_read, lasting_by, mirror_order, variable_of};
ghost use Rattle.bp_replay.specs.Cells.{places, rows};
ghost use Rattle.bp_replay.specs.Kept.{AreTwoLeaves};
ghost use Rattle.bp_replay.specs.Leanings.{LeansWithin, lastings};
ghost use Rattle.bp_replay.specs.Readings.{AreReadings, Fits, HavePlaces, IsPartWithin, order_as, part_as, reading_as};

use crate::cell::{axis_at, leaf_at, place};
use crate::lean::Lean;
use crate::relation::{Relation, order_by};
use bp_base::{Axis, NoMemory, Pair};
use bp_metric::Metric;
use bp_mirror::MirrorKind;
use std::alloc::Global;
use std::marker::Model;

// A variable, the side minus a variable, or half the side.
#[derive(Clone, Copy)]
pub enum Reading {
    Plain { variable: usize },
    Turned { variable: usize },
    Half,
}

impl Reading {
    // The variable by which it reads, where there is one.
    #[inline]
    pub fn variable(self) -> usize
        ensures { result ≡ variable_of (reading_as self) }
    {
        match self {
            Reading::Plain { variable } => variable,
            Reading::Turned { variable } => variable,
            Reading::Half => 0,
        }
    }

    #[inline]
    pub fn is_variable(self) -> bool
        ensures { result ≡ is_variable_read (reading_as self) }
    {
        match self {
            Reading::Plain { .. } => true,
            Reading::Turned { .. } => false,
            Reading::Half => false,
        }
    }
}

// What reads so is at most the other, where both read alike.
pub fn lean_of(first: Reading, second: Reading) -> Option<Lean>
    requires first { variable_of (reading_as first) < places }
    requires second { variable_of (reading_as second) < places }
    ensures value { lastings result ≡ lasting_by (reading_as first) (reading_as second) }
    ensures within { LeansWithin result }
{
    match first {
        Reading::Plain { variable: u } => match second {
            Reading::Plain { variable: v } => Some(Lean {
                earlier: u,
                later: v,
            }),
            _ => None,
        },
        Reading::Turned { variable: u } => match second {
            Reading::Turned { variable: v } => Some(Lean {
                earlier: v,
                later: u,
            }),
            _ => None,
        },
        Reading::Half => None,
    }
}

// A left leaf, the right leaf of one, or a leaf on the line.
#[derive(Clone, Copy)]
pub enum Part {
    Left,
    Right { left: u64 },
    Middle,
}

// A mirror, and how the coordinate at each place reads.
#[derive(Drop)]
pub struct Readings {
    kind: MirrorKind,
    pairs: Vec<Pair>,
    table: Vec<Reading>,
}

impl Model for Readings {
    ghost use Rattle.bp_replay.specs.Readings.{AreReadings, MirrorValue};

    ghost Value = { MirrorValue };

    ghost view = { λ r. record { kind = r.kind; pairs = r.pairs.items } };

    ghost invariant = { λ r. AreReadings r.kind r.pairs.items r.table.items };
}

impl Readings {
    pub fn of(alloc: Global, kind: MirrorKind, mirror: &[Pair]) -> Result<Readings, NoMemory>
        requires { HavePlaces mirror.now }
        ensures { IfOk result (λ r. r ≡ record { kind = kind; pairs = mirror.now }) }
    {
        let pairs = Vec::from_slice(alloc, mirror)?;
        let table = readings_of(alloc, kind, mirror)?;
        Ok(Readings { kind, pairs, table })
    }

    #[inline]
    pub fn kind(&self) -> MirrorKind
        ensures { result ≡ self.now.kind }
    {
        self.kind
    }

    #[inline]
    pub fn len(&self) -> usize
        ensures { result ≡ length self.now.pairs }
    {
        self.pairs.len()
    }

    #[inline]
    pub fn pair(&self, at: usize) -> Pair
        requires { at < length self.now.pairs }
        ensures value { (d : AnyPair) → result ≡ slice_index_or self.now.pairs at d }
        ensures within { (result.i < rows) × (result.j < rows) }
    {
        self.pairs[at]
    }

    #[inline]
    pub fn at(&self, axis: Axis, leaf: u64) -> Reading
        requires { leaf < rows }
        ensures value { reading_as result ≡ reading_in self.now.kind self.now.pairs axis leaf }
        ensures within { variable_of (reading_as result) < places }
    {
        self.table[place(axis, leaf)]
    }

    // The order by which a leaf lies before another.
    #[inline]
    #[tactic(auto, unfolding(bp_mirror::specs::Systems::mirror_order))]
    pub fn relation(&self, metric: &Metric, axis: Axis, first: u64, second: u64) -> Relation
        requires two { AreTwoLeaves metric.now.tree first second }
        requires few { leaf_count metric.now.tree < rows }
        ensures order { order_as result ≡ mirror_order metric.now.tree self.now.kind self.now.pairs axis first second }
        ensures fits { Fits (order_as result) }
    {
        let weight = self.kind().units() * metric.dist(first, second);
        order_by(self.at(axis, first), self.at(axis, second), weight)
    }
}

fn readings_of(alloc: Global, kind: MirrorKind, mirror: &[Pair]) -> Result<Vec<Reading>, NoMemory>
    requires { HavePlaces mirror.now }
    ensures { IfOk result (λ table. AreReadings kind mirror.now table.items) }
{
    let mut table = Vec::with_capacity(alloc, 66)?;
    for at in 0..66 {
        table.push(reading_at(kind, mirror, at))?;
    }
    Ok(table)
}

// How the coordinate at a place reads.
fn reading_at(kind: MirrorKind, mirror: &[Pair], at: usize) -> Reading
    requires few { HavePlaces mirror.now }
    requires within { at < places }
    ensures value { reading_as result ≡ reading_in kind mirror.now (axis_of at) (leaf_of at) }
    ensures within { variable_of (reading_as result) < places }
{
    let leaf = leaf_at(at);
    let axis = axis_at(at);
    let part = part_of(mirror, leaf);
    match kind {
        MirrorKind::Book => book_reading(axis, leaf, part),
        MirrorKind::Diagonal => diagonal_reading(axis, leaf, part),
    }
}

fn part_of(mirror: &[Pair], leaf: u64) -> Part
    requires { HavePlaces mirror.now }
    ensures value { part_as result ≡ part_in mirror.now leaf }
    ensures within { IsPartWithin result }
{
    for k in 0..mirror.len() {
        let pair = mirror[k];
        if leaf == pair.i {
            return Part::Left;
        }
        if leaf == pair.j {
            return Part::Right { left: pair.i };
        }
    }
    Part::Middle
}

fn book_reading(axis: Axis, leaf: u64, part: Part) -> Reading
    requires leaf { leaf < rows }
    requires part { IsPartWithin part }
    ensures value { reading_as result ≡ reading_of Book axis leaf (part_as part) }
    ensures within { variable_of (reading_as result) < places }
{
    match part {
        Part::Left => Reading::Plain {
            variable: place(axis, leaf),
        },
        Part::Right { left } => match axis {
            Axis::X => Reading::Turned {
                variable: place(Axis::X, left),
            },
            Axis::Y => Reading::Plain {
                variable: place(Axis::Y, left),
            },
        },
        Part::Middle => match axis {
            Axis::X => Reading::Half,
            Axis::Y => Reading::Plain {
                variable: place(Axis::Y, leaf),
            },
        },
    }
}

fn diagonal_reading(axis: Axis, leaf: u64, part: Part) -> Reading
    requires leaf { leaf < rows }
    requires part { IsPartWithin part }
    ensures value { reading_as result ≡ reading_of Diagonal axis leaf (part_as part) }
    ensures within { variable_of (reading_as result) < places }
{
    let variable = match part {
        Part::Left => place(axis, leaf),
        Part::Right { left } => match axis {
            Axis::X => place(Axis::Y, left),
            Axis::Y => place(Axis::X, left),
        },
        Part::Middle => place(Axis::X, leaf),
    };
    Reading::Plain { variable }
}
