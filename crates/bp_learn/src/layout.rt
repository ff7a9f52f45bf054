// Where the leaves lie: first placements, and what arranges one.
use crate::facts::Stop;
use crate::figure::{Figure, MOST_LEAVES};
use crate::swaps::Swaps;
use std::alloc::Global;

/// Where each leaf lies, in grid units, and the side: of a square, or the height of a strip.
#[derive(Clone, Copy)]
pub struct Layout {
    pub side: u32,
    xs: [u32; MOST_LEAVES],
    ys: [u32; MOST_LEAVES],
}

fn gap(a: u32, b: u32) -> u32 {
    if a < b {
        b.saturating_sub(a)
    } else {
        a.saturating_sub(b)
    }
}

impl Layout {
    pub fn new() -> Layout {
        Layout {
            side: 0,
            xs: [0; MOST_LEAVES],
            ys: [0; MOST_LEAVES],
        }
    }

    pub fn x(&self, leaf: u8) -> u32 {
        self.xs[leaf as usize % MOST_LEAVES]
    }

    pub fn y(&self, leaf: u8) -> u32 {
        self.ys[leaf as usize % MOST_LEAVES]
    }

    pub fn set(&mut self, leaf: u8, x: u32, y: u32) {
        self.xs[leaf as usize % MOST_LEAVES] = x;
        self.ys[leaf as usize % MOST_LEAVES] = y;
    }

    /// The side that its points need.
    pub fn side_on(&self, figure: &Figure) -> u32 {
        let mut side = 0;
        for leaf in 0..figure.leaves {
            side = side.max(self.y(leaf));
            if figure.width.is_none() {
                side = side.max(self.x(leaf));
            }
        }
        side
    }

    fn exchange_axes(&mut self) {
        let xs = self.xs;
        self.xs = self.ys;
        self.ys = xs;
    }

    fn turn_x(&mut self, width: u32) {
        for leaf in 0..MOST_LEAVES {
            self.xs[leaf] = width.saturating_sub(self.xs[leaf]);
        }
    }

    fn turn_y(&mut self) {
        for leaf in 0..MOST_LEAVES {
            self.ys[leaf] = self.side.saturating_sub(self.ys[leaf]);
        }
    }

    fn exchange(&mut self, i: u8, j: u8) {
        let (x, y) = (self.x(i), self.y(i));
        self.set(i, self.x(j), self.y(j));
        self.set(j, x, y);
    }

    // Exchanges the leaves of the first swap whose head isn't in order; whether there was one.
    fn swap_once(&mut self, swaps: &Swaps) -> bool {
        for number in 0..swaps.len() {
            let (i, j) = swaps.head(number);
            if self.x(i) > self.x(j) {
                for at in 0..swaps.pair_count(number) {
                    let (k, l) = swaps.pair(number, at);
                    self.exchange(k, l);
                }
                return true;
            }
        }
        false
    }

    /// The placement turned so that the corner lies as it should, and swapped until each head is in order.
    pub fn arranged(&self, figure: &Figure, corner: (u8, u8), swaps: &Swaps) -> Layout {
        let (a, b) = corner;
        let mut layout = *self;
        let near = gap(layout.x(a), layout.x(b)) < figure.distance(a, b);
        if figure.width.is_none() && near {
            layout.exchange_axes();
        }
        if layout.x(a) > layout.x(b) {
            layout.turn_x(figure.width.unwrap_or(self.side));
        }
        if layout.y(a) > layout.y(b) {
            layout.turn_y();
        }
        for _ in 0..10_000u32 {
            if !layout.swap_once(swaps) {
                return layout;
            }
        }
        layout
    }

    /// Whether all leaves are far enough apart.
    pub fn is_valid(&self, figure: &Figure) -> bool {
        for i in 0..figure.leaves {
            if !self.is_far(figure, i) {
                return false;
            }
        }
        match figure.width {
            None => true,
            Some(width) => self.is_within(figure, width),
        }
    }

    fn is_far(&self, figure: &Figure, i: u8) -> bool {
        for j in 0..i {
            if gap(self.x(i), self.x(j)).max(gap(self.y(i), self.y(j))) < figure.distance(i, j) {
                return false;
            }
        }
        true
    }

    fn is_within(&self, figure: &Figure, width: u32) -> bool {
        for leaf in 0..figure.leaves {
            if self.x(leaf) > width {
                return false;
            }
        }
        true
    }

    // Whether a point is far enough from these leaves for this one.
    fn is_free(&self, figure: &Figure, placed: &[u8], leaf: u8, x: u32, y: u32) -> bool {
        for other in placed {
            let far = gap(x, self.x(*other)).max(gap(y, self.y(*other)));
            if far < figure.distance(*other, leaf) {
                return false;
            }
        }
        true
    }
}

// Rising places on an axis, where a leaf may lie against these leaves: the border, and behind each of them.
fn places(
    figure: &Figure,
    layout: &Layout,
    placed: &[u8],
    leaf: u8,
    on_x: bool,
    list: &mut Vec<u32>,
) -> Result<(), Stop> {
    list.clear();
    if list.push(0).is_err() {
        return Err(Stop::Full);
    }
    for other in placed {
        let at = if on_x {
            layout.x(*other)
        } else {
            layout.y(*other)
        };
        if list
            .push(at.saturating_add(figure.distance(*other, leaf)))
            .is_err()
        {
            return Err(Stop::Full);
        }
    }
    list.sort_unstable();
    list.dedup();
    Ok(())
}

/// First placements of a figure: leaves put one after the other at the first free point.
#[derive(Drop)]
pub struct Packing {
    alloc: Global,
    xs: Vec<u32>,
    ys: Vec<u32>,
}

#[derive(Clone, Copy, PartialEq, Eq, PartialOrd, Ord)]
struct Spot {
    reach: u32,
    x: u32,
    y: u32,
}

impl Packing {
    pub fn new(alloc: Global) -> Packing {
        Packing {
            alloc,
            xs: Vec::new(alloc),
            ys: Vec::new(alloc),
        }
    }

    // The first free point of a square by its greater coordinate, then x, then y.
    fn on_square(&self, figure: &Figure, layout: &Layout, placed: &[u8], leaf: u8) -> Spot {
        let mut best = Spot {
            reach: u32::MAX,
            x: 0,
            y: 0,
        };
        for x in self.xs.iter() {
            if *x >= best.reach {
                return best;
            }
            best = self.in_column(figure, layout, placed, leaf, *x, best);
        }
        best
    }

    fn in_column(
        &self,
        figure: &Figure,
        layout: &Layout,
        placed: &[u8],
        leaf: u8,
        x: u32,
        best: Spot,
    ) -> Spot {
        for y in self.ys.iter() {
            let spot = Spot {
                reach: x.max(*y),
                x,
                y: *y,
            };
            if (spot.reach, spot.x, spot.y) >= (best.reach, best.x, best.y) {
                if *y > x {
                    return best;
                }
                continue;
            }
            if layout.is_free(figure, placed, leaf, x, *y) {
                return spot;
            }
        }
        best
    }

    // The first free point of a strip by y, then x.
    fn on_strip(
        &self,
        figure: &Figure,
        layout: &Layout,
        placed: &[u8],
        leaf: u8,
        width: u32,
    ) -> Spot {
        for y in self.ys.iter() {
            for x in self.xs.iter() {
                if *x <= width && layout.is_free(figure, placed, leaf, *x, *y) {
                    return Spot {
                        reach: *y,
                        x: *x,
                        y: *y,
                    };
                }
            }
        }
        Spot {
            reach: u32::MAX,
            x: 0,
            y: 0,
        }
    }

    /// The placement of the leaves in this order; none where its side would not be below the limit.
    pub fn pack(
        &mut self,
        figure: &Figure,
        order: &[u8],
        limit: u32,
    ) -> Result<Option<Layout>, Stop> {
        let mut layout = Layout::new();
        for at in 0..order.len() {
            let (leaf, placed) = (order[at], &order[..at]);
            places(figure, &layout, placed, leaf, true, &mut self.xs)?;
            places(figure, &layout, placed, leaf, false, &mut self.ys)?;
            let spot = match figure.width {
                None => self.on_square(figure, &layout, placed, leaf),
                Some(width) => self.on_strip(figure, &layout, placed, leaf, width),
            };
            layout.set(leaf, spot.x, spot.y);
            layout.side = layout.side.max(spot.reach);
            if layout.side >= limit {
                return Ok(None);
            }
        }
        Ok(Some(layout))
    }

    // The leaves by how far their farthest leaf is, the farthest first.
    fn first_order(&self, figure: &Figure) -> Result<Vec<u8>, Stop> {
        let mut order = Vec::new(self.alloc);
        for leaf in 0..figure.leaves {
            if order.push(leaf).is_err() {
                return Err(Stop::Full);
            }
        }
        order.sort_unstable_by(|a, b| {
            (reach_of(figure, *b), *a).cmp(&(reach_of(figure, *a), *b))
        });
        Ok(order)
    }

    /// The best placement of so many tries: the leaves in their own order, and then in orders that differ a little from the best so far.
    pub fn best_of(&mut self, figure: &Figure, tries: u64) -> Result<Layout, Stop> {
        let mut order = Vec::new(self.alloc);
        for leaf in 0..figure.leaves {
            if order.push(leaf).is_err() {
                return Err(Stop::Full);
            }
        }
        let mut best = match self.pack(figure, &order, u32::MAX)? {
            Some(layout) => layout,
            None => return Err(Stop::Full),
        };
        let mut order = self.first_order(figure)?;
        let mut draws = Draws { state: 7 };
        for number in 0..tries {
            let mut other = Vec::new(self.alloc);
            if other.extend_from_slice(&order).is_err() {
                return Err(Stop::Full);
            }
            if number > 0 {
                draws.change(&mut other);
            }
            if let Some(layout) = self.pack(figure, &other, best.side.saturating_add(1))? {
                best = layout;
                order = other;
            }
        }
        Ok(best)
    }
}

fn reach_of(figure: &Figure, i: u8) -> u32 {
    let mut reach = 0;
    for j in 0..figure.leaves {
        reach = reach.max(figure.distance(i, j));
    }
    reach
}

// Numbers drawn by a linear congruential generator, so that each run draws the same.
#[derive(Drop)]
struct Draws {
    state: u64,
}

impl Draws {
    fn next(&mut self) -> u64 {
        self.state = (self.state % 2147483648 * 1103515245 + 12345) % 2147483648;
        self.state / 65536
    }

    // Exchanges two leaves of the order, or puts one at another place.
    fn change(&mut self, order: &mut Vec<u8>) {
        let count = order.len();
        if count == 0 {
            return;
        }
        let i = self.next() as usize % count;
        let j = self.next() as usize % count;
        if self.next() % 2 == 0 {
            order.swap(i, j);
        } else if i < j {
            order[i..j + 1].rotate_left(1);
        } else {
            order[j..i + 1].rotate_right(1);
        }
    }
}
