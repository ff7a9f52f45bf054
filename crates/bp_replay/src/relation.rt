// What an order says.
ghost use Rattle.std.specs.Prelude.{◌≡◌, ◌<◌, ◌≤◌, ◌*◌};
ghost use Rattle.bp_metric.specs.Distance.{most_distance};
ghost use Rattle.bp_lemmas.specs.Systems.{is_order};
ghost use Rattle.bp_mirror.specs.Systems.{order_by as order_by_readings, variable_before as order_before, variable_of, variables_face as order_facing};
ghost use Rattle.bp_replay.specs.Cells.{places};
ghost use Rattle.bp_replay.specs.Readings.{Fits, most_weight, order_as, reading_as};

use crate::reading::Reading;

#[derive(Clone, Copy)]
pub enum Relation {
    Apart { u: usize, v: usize, w: u64 },
    Facing { u: usize, v: usize, w: u64 },
    FacingItself { u: usize, w: u64 },
    Never,
}

// Whether two are the same order.
pub fn is_same(first: Relation, second: Relation) -> bool
    ensures { result ≡ is_order (order_as first) (order_as second) }
{
    match first {
        Relation::Apart { u, v, w } => match second {
            Relation::Apart { u: a, v: b, w: d } => u == a && v == b && w == d,
            _ => false,
        },
        Relation::Facing { u, v, w } => match second {
            Relation::Facing { u: a, v: b, w: d } => u == a && v == b && w == d,
            _ => false,
        },
        Relation::FacingItself { u, w } => match second {
            Relation::FacingItself { u: a, w: d } => u == a && w == d,
            _ => false,
        },
        Relation::Never => match second {
            Relation::Never => true,
            _ => false,
        },
    }
}

// What reads so lies before the other by a weight.
pub fn order_by(first: Reading, second: Reading, weight: u64) -> Relation
    requires first { variable_of (reading_as first) < places }
    requires second { variable_of (reading_as second) < places }
    requires weight { weight ≤ 2 * most_distance }
    ensures order { order_as result ≡ order_by_readings (reading_as first) (reading_as second) weight }
    ensures fits { Fits (order_as result) }
{
    match first {
        Reading::Plain { variable: u } => match second {
            Reading::Plain { variable: v } => variable_before(u, v, weight),
            Reading::Turned { variable: v } => variables_face(u, v, weight),
            Reading::Half => Relation::FacingItself { u, w: 2 * weight },
        },
        Reading::Turned { variable: u } => match second {
            Reading::Plain { .. } => Relation::Never,
            Reading::Turned { variable: v } => variable_before(v, u, weight),
            Reading::Half => Relation::Never,
        },
        Reading::Half => match second {
            Reading::Plain { .. } => Relation::Never,
            Reading::Turned { variable: v } => Relation::FacingItself {
                u: v,
                w: 2 * weight,
            },
            Reading::Half => Relation::Never,
        },
    }
}

#[tactic(auto, unfolding(bp_mirror::specs::Systems::variable_before, bp_lemmas::specs::Trees::leaf_of))]
fn variable_before(u: usize, v: usize, w: u64) -> Relation
    requires first { u < places }
    requires second { v < places }
    requires weight { w ≤ most_weight }
    ensures order { order_as result ≡ order_before u v w }
    ensures fits { Fits (order_as result) }
{
    if u / 2 == v / 2 && v <= u {
        return Relation::Never;
    }
    Relation::Apart { u, v, w }
}

#[tactic(auto, unfolding(bp_mirror::specs::Systems::variables_face))]
fn variables_face(u: usize, v: usize, w: u64) -> Relation
    requires first { u < places }
    requires second { v < places }
    requires weight { w ≤ most_weight }
    ensures order { order_as result ≡ order_facing u v w }
    ensures fits { Fits (order_as result) }
{
    if u == v {
        return Relation::FacingItself { u, w };
    }
    if u < v {
        return Relation::Facing { u, v, w };
    }
    Relation::Facing { u: v, v: u, w }
}
