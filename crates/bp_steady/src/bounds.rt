// A low and a high number for each coordinate.
ghost use Rattle.std.specs.Prelude.{◌≡◌, ◌<◌, ◌*◌, length, slice_index, slice_set, replicate, IfOk};
ghost use Rattle.bp_base.specs.Tree.{leaf_count};
ghost use Rattle.bp_steady.specs.Questions.{end_of, ends};

use bp_base::{Axis, NoMemory, Sheet};
use bp_metric::Metric;
use std::alloc::Global;
use std::marker::Model;

/// Bounds on the coordinates `x_1`, `y_1`, `x_2`, `y_2`, .. of all leaves.
#[derive(Drop)]
pub struct Bounds {
    low: Vec<u64>,
    high: Vec<u64>,
}

impl Model for Bounds {
    ghost use Rattle.bp_steady.specs.Bounds.{BoundsValue};

    ghost Value = { BoundsValue };

    ghost view = { λ b. record { low = b.low.items; high = b.high.items } };
}

// Where the coordinates on x end.
fn width_of(sheet: Sheet, side: u64) -> u64
    ensures { result ≡ end_of sheet side Axis.X }
{
    match sheet {
        Sheet::Square => side,
        Sheet::Strip { width } => width,
    }
}

impl Bounds {
    // The whole sheet of this side.
    pub fn whole(alloc: Global, metric: &Metric, side: u64) -> Result<Bounds, NoMemory>
        ensures low { IfOk result (λ b. b.low ≡ replicate (2 * leaf_count metric.now.tree) 0) }
        ensures high { IfOk result (λ b. b.high ≡ ends metric.now.sheet side (leaf_count metric.now.tree)) }
    {
        let n = metric.leaves();
        let width = width_of(metric.sheet(), side);
        let low = Vec::from_elem(alloc, 0, 2 * n as usize)?;
        let mut high = Vec::with_capacity(alloc, 2 * n as usize)?;
        for _ in 0..n {
            high.push(width)?;
            high.push(side)?;
        }
        Ok(Bounds { low, high })
    }

    pub fn low(&self, at: usize) -> u64
        requires { at < length self.now.low }
        ensures { result ≡ slice_index self.now.low at }
    {
        self.low[at]
    }

    pub fn high(&self, at: usize) -> u64
        requires { at < length self.now.high }
        ensures { result ≡ slice_index self.now.high at }
    {
        self.high[at]
    }

    pub fn set_high(&mut self, at: usize, value: u64)
        requires { at < length self.old.high }
        ensures { self.new ≡ record { low = self.old.low; high = slice_set self.old.high at value } }
    {
        self.high[at] = value;
    }

    // The coordinate is this number.
    pub fn fix(&mut self, at: usize, value: u64)
        requires low { at < length self.old.low }
        requires high { at < length self.old.high }
        ensures { self.new ≡ record { low = slice_set self.old.low at value; high = slice_set self.old.high at value } }
    {
        self.low[at] = value;
        self.high[at] = value;
    }
}
