// The distances of a figure's leaves, in tables that a search asks fast. Here leaves are numbered from 0.
ghost use Rattle.std.specs.Prelude.{◌<◌, ◌≤◌};
ghost use Rattle.bp_base.specs.Tree.{IsLeaf, leaf_count};

use bp_base::Sheet;
use bp_metric::Metric;

pub const MOST_LEAVES: usize = 32;

const PLACES: usize = 1024;

/// The distances, which leaves are twins, and the width of a strip.
#[derive(Clone, Copy)]
pub struct Figure {
    pub leaves: u8,
    pub width: Option<u32>,
    distances: [u32; PLACES],
    twins: [bool; PLACES],
}

fn place(i: u8, j: u8) -> usize
    ensures { result < 1024 }
{
    i as usize % MOST_LEAVES * MOST_LEAVES + j as usize % MOST_LEAVES
}

impl Figure {
    pub fn of(metric: &Metric) -> Figure {
        let leaves = metric.leaves();
        let mut figure = Figure {
            leaves: (leaves % 64) as u8,
            width: match metric.sheet() {
                Sheet::Square => None,
                Sheet::Strip { width } => Some((width % 4_294_967_296) as u32),
            },
            distances: [0; PLACES],
            twins: [false; PLACES],
        };
        for i in 1..leaves + 1 {
            figure.read_row(metric, i);
        }
        figure
    }

    fn read_row(&mut self, metric: &Metric, i: u64)
        requires { IsLeaf metric.now.tree i }
    {
        for j in 1..metric.leaves() + 1 {
            let spot = (i as usize - 1) % MOST_LEAVES * MOST_LEAVES
                + (j as usize - 1) % MOST_LEAVES;
            self.distances[spot] = (metric.dist(i, j) % 4_294_967_296) as u32;
            self.twins[spot] = metric.twins(i, j);
        }
    }

    pub fn distance(&self, i: u8, j: u8) -> u32 {
        self.distances[place(i, j)]
    }

    pub fn are_twins(&self, i: u8, j: u8) -> bool {
        self.twins[place(i, j)]
    }

    /// How many leaves have the leaf's parent and length, itself among them.
    fn class_of(&self, i: u8) -> u32 {
        let mut count = 0u32;
        for j in 0..self.leaves {
            if i == j || self.are_twins(i, j) {
                count = count.wrapping_add(1);
            }
        }
        count
    }

    /// The two leaves of the smallest classes of twins that are farthest apart, the lesser first.
    pub fn corner(&self) -> (u8, u8) {
        let mut best = (0, 1);
        let mut least = (u32::MAX, 0);
        for i in 0..self.leaves {
            let (j, key) = self.corner_with(i, least);
            if key.0 < least.0 || key.0 == least.0 && key.1 > least.1 {
                least = key;
                best = (i, j);
            }
        }
        best
    }

    // The second leaf that makes the best corner with this one, and how good it is, where it is better than `least`.
    fn corner_with(&self, i: u8, least: (u32, u32)) -> (u8, (u32, u32)) {
        let mut best = (0, least);
        for j in i.saturating_add(1)..self.leaves {
            let size = self.class_of(i).saturating_add(self.class_of(j));
            let apart = self.distance(i, j);
            if size < best.1.0 || size == best.1.0 && apart > best.1.1 {
                best = (j, (size, apart));
            }
        }
        best
    }
}
