ghost use Rattle.std.specs.Prelude.{◌≡◌, ◌<◌, ◌≤◌, ◌↔◌, ◌-◌, ℕ, length, slice_index, Option, Some, None, IsTrue, IfOk};
ghost use Rattle.std.specs.List.Sorted.{IsStrictlyIncreasing};
ghost use Rattle.bp_base.specs.declared.point.Sheet.TheVariants.{Square};
ghost use Rattle.bp_base.specs.Limits.{most_number};
ghost use Rattle.bp_base.specs.Tree.{IsEdge};
ghost use Rattle.bp_metric.specs.Valid.{Valid};
ghost use Rattle.bp_regions.specs.Cells.{IsCell, Own, Owner, Reach};
ghost use Rattle.bp_regions.specs.Cuts.{AreCuts};
ghost use Rattle.bp_regions.specs.Regions.{AreRegions};

use crate::ball::{Ball, balls_of, holds_any, part};
use crate::cuts::cuts_of;
use crate::span::{Span, spans_of};
use bp_base::{Axis, NoMemory, Placement, Point, Tree};
use bp_metric::Metric;
use std::alloc::Global;
use std::marker::Model;

/// The regions of a valid placement on a square: sets of unit cells, each named by its lower left corner in grid units.
#[derive(Drop)]
pub struct Regions {
    tree: Tree,
    side: u64,
    points: Vec<Point>,
    // for each edge the balls of all leaves, so that an edge is asked about a cell without the tree
    balls: Vec<Ball>,
    spans: Vec<Span>,
    xs: Vec<u64>,
    ys: Vec<u64>,
}

impl Model for Regions {
    ghost use Rattle.std.specs.Prelude.{◌≡◌, length};
    ghost use Rattle.bp_base.specs.declared.point.Axis.TheVariants.{X, Y};
    ghost use Rattle.bp_regions.specs.Balls.{balls_of, AreEnds, AreSpans};
    ghost use Rattle.bp_regions.specs.Regions.{RegionsValue, ArePlaced};

    ghost Value = { RegionsValue };

    ghost view = { λ r. record { tree = r.tree; side = r.side; points = r.points.items } };

    ghost invariant = { λ r. ArePlaced r.tree r.side r.points.items × (r.balls.items ≡ balls_of r.tree r.points.items) × AreEnds r.side X r.balls.items r.xs.items × AreEnds r.side Y r.balls.items r.ys.items × AreSpans r.balls.items (length r.points.items) r.spans.items };
}

impl Regions {
    /// The regions of a placement of the metric's tree on a square, which is valid at its side.
    pub fn of(alloc: Global, metric: &Metric, placement: &Placement) -> Result<Regions, NoMemory>
        requires sheet { metric.now.sheet ≡ Square }
        requires side { placement.now.side ≤ most_number }
        requires valid { Valid metric.now.tree Square 1 placement.now.side placement.now.points }
        ensures value { IfOk result (λ r. r ≡ record { tree = metric.now.tree; side = placement.now.side; points = placement.now.points }) }
        ensures regions { IfOk result (λ r. AreRegions r) }
    {
        let tree = metric.tree().copy(alloc)?;
        let side = placement.side;
        let points = Vec::from_slice(alloc, placement.points.as_slice())?;
        let balls = balls_of(alloc, metric, &points)?;
        let spans = spans_of(alloc, &balls, points.len())?;
        let xs = cuts_of(alloc, side, &balls, Axis::X)?;
        let ys = cuts_of(alloc, side, &balls, Axis::Y)?;
        Ok(Regions {
            tree,
            side,
            points,
            balls,
            spans,
            xs,
            ys,
        })
    }

    /// The tree.
    pub fn tree(&self) -> &Tree
        ensures tree { result.now ≡ self.now.tree }
        ensures regions { AreRegions self.now }
    {
        let _tree = self.tree.parents();
        &self.tree
    }

    /// Whether Reach of the edge holds the cell.
    pub fn reach(&self, edge: u64, x: u64, y: u64) -> bool
        requires edge { IsEdge self.now.tree edge }
        requires cell { IsCell self.now.side x y }
        ensures reach { IsTrue result ↔ Reach self.now.tree self.now.side self.now.points edge x y }
        ensures regions { AreRegions self.now }
    {
        let _tree = self.tree.parents();
        let span = self.spans[edge as usize - 1];
        holds_any(part(&self.balls, span.start, span.count), x, y)
    }

    /// Whether Own of the edge holds the cell.
    pub fn own(&self, edge: u64, x: u64, y: u64) -> bool
        requires edge { IsEdge self.now.tree edge }
        requires cell { IsCell self.now.side x y }
        ensures own { IsTrue result ↔ Own self.now.tree self.now.side self.now.points edge x y }
    {
        self.owner(x, y) == Some(edge)
    }

    /// The edge whose Own holds the cell, or none.
    pub fn owner(&self, x: u64, y: u64) -> Option<u64>
        requires cell { IsCell self.now.side x y }
        ensures owner { Owner self.now.tree self.now.side self.now.points x y result }
        ensures only { (o : Option ℕ) → Owner self.now.tree self.now.side self.now.points x y o → o ≡ result }
        ensures regions { AreRegions self.now }
    {
        let mut edge = self.tree.parents().len() as u64;
        // below an edge stand edges of greater numbers
        while edge > 1 {
            edge -= 1;
            if self.reach(edge, x, y) {
                return Some(edge);
            }
        }
        None
    }

    /// A rising list from 0 to the side. Two cells that lie between the same neighbouring cuts on both axes have equal answers of
    /// `reach`, `own` and `owner`.
    pub fn cuts(&self, axis: Axis) -> &[u64]
        ensures rising { IsStrictlyIncreasing result.now }
        ensures first { slice_index result.now 0 ≡ 0 }
        ensures last { slice_index result.now (length result.now - 1) ≡ self.now.side }
        ensures alike { AreCuts self.now.tree self.now.side self.now.points axis result.now }
        ensures regions { AreRegions self.now }
    {
        let _tree = self.tree.parents();
        match axis {
            Axis::X => &self.xs,
            Axis::Y => &self.ys,
        }
    }
}
