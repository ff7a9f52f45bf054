// The run over a search: slices of conflicts go in turn to the search below the best side and to one below a limit between bound and side.
ghost use Rattle.std.specs.Prelude.{IsFalse, IfOk, OnOk};
ghost use Rattle.bp_learn.specs.Ended.{HasEnded};

use crate::analysis::Analysis;
use crate::facts::Stop;
use crate::figure::Figure;
use crate::knowledge::Knowledge;
use crate::layout::{Layout, Packing};
use crate::problem::{MOST_COORDINATES, Problem, Rise};
use crate::proof::Proof;
use crate::search::{Outcome, Search};
use crate::swaps::Swaps;
use bp_base::NoMemory;
use bp_metric::Metric;
use std::alloc::Global;

// In how many orders of the leaves the first placement is tried.
const TRIES: u64 = 200;

// So many conflicts the first slice has, and so many are searched at a time.
const SLICE: u64 = 6000;

const PART: u64 = 500;

// What a run has found: the best layout, and the greatest bound that it has lemmas for. Leaves are numbered from 0.
#[derive(Drop)]
pub struct Run {
    pub figure: Figure,
    pub layout: Layout,
    // in grid units
    pub bound: u64,
    pub corner: (u8, u8),
    pub swaps: Swaps,
    pub proof: Option<Proof>,
    pub conflicts: u64,
}

// The coordinate of a leaf on y.
fn on_y(leaf: u8) -> u8 {
    leaf % 32 + 32
}

// A group's number is that of its pair of leaves in rising order.
fn pair_group(leaves: u8, i: u8, j: u8) -> u16 {
    let (n, i, j) = (u16::from(leaves % 64), u16::from(i % 64), u16::from(j % 64));
    let before = (i * n).saturating_sub(i * (i + 1) / 2);
    before.saturating_add(j).saturating_sub(i + 1)
}

fn rise(leaves: u8, first: u8, second: u8, base: u8) -> Rise {
    Rise {
        first: base.saturating_add(first % 32),
        second: base.saturating_add(second % 32),
        group: pair_group(leaves, first.min(second), first.max(second)),
    }
}

// The four orders of a pair of leaves on both axes.
fn add_pair(problem: &mut Problem, figure: &Figure, i: u8, j: u8) {
    let weight = figure.distance(i, j).saturating_mul(2);
    let orders = [(i, j), (j, i), (on_y(i), on_y(j)), (on_y(j), on_y(i))];
    let _numbers = problem.add_group(orders, weight);
}

fn add_pairs(problem: &mut Problem, figure: &Figure, i: u8) {
    for j in i.saturating_add(1)..figure.leaves {
        add_pair(problem, figure, i, j);
    }
}

// What is searched for: a placement of the figure, arranged for the corner and the swaps, below the limit.
fn problem_of(figure: &Figure, corner: (u8, u8), swaps: &Swaps, limit: u32) -> Problem {
    let mut problem = Problem::new(64, limit.saturating_mul(2));
    for i in 0..figure.leaves {
        add_pairs(&mut problem, figure, i);
    }
    let (a, b) = corner;
    problem.arrange(rise(figure.leaves, a, b, 32));
    if let Some(width) = figure.width {
        problem.arrange(rise(figure.leaves, a, b, 0));
        for leaf in 0..figure.leaves {
            problem.fix_high(leaf, width.saturating_mul(2).saturating_add(1));
        }
    }
    for number in 0..swaps.len() {
        let (i, j) = swaps.head(number);
        problem.arrange(rise(figure.leaves, i, j, 0));
    }
    problem
}

// The orders of a pair of leaves, i less than j: i before j and back on x, then on y.
fn order_of(problem: &Problem, leaves: u8, i: u8, j: u8, place: usize) -> u16 {
    let orders = problem.group(pair_group(leaves, i.min(j), i.max(j)));
    let turned = if i < j { place } else { place ^ 1 };
    orders[turned % 4]
}

// What is known of an arranged placement at first.
fn know_arrangement(
    known: &mut Knowledge,
    figure: &Figure,
    corner: (u8, u8),
    swaps: &Swaps,
) -> Result<(), Stop> {
    let (a, b) = corner;
    for number in 0..swaps.len() {
        let (i, j) = swaps.head(number);
        let order = order_of(&known.problem, figure.leaves, j, i, 0);
        known.know_not(order)?;
    }
    if figure.width.is_none() {
        let order = order_of(&known.problem, figure.leaves, a, b, 0);
        return known.know(order);
    }
    let order = order_of(&known.problem, figure.leaves, b, a, 0);
    known.know_not(order)?;
    let order = order_of(&known.problem, figure.leaves, b, a, 2);
    known.know_not(order)
}

fn coordinates_of(figure: &Figure, layout: &Layout) -> [u32; MOST_COORDINATES] {
    let mut coordinates = [0; MOST_COORDINATES];
    for leaf in 0..figure.leaves {
        coordinates[leaf as usize % 32] = layout.x(leaf);
        coordinates[32 + leaf as usize % 32] = layout.y(leaf);
    }
    coordinates
}

fn layout_of(figure: &Figure, coordinates: &[u32; MOST_COORDINATES]) -> Layout {
    let mut layout = Layout::new();
    for leaf in 0..figure.leaves {
        let at = leaf as usize % 32;
        layout.set(leaf, coordinates[at], coordinates[32 + at]);
    }
    layout.side = layout.side_on(figure);
    layout
}

// A search and what its analyses write into. The search's tables are large: they stay in one place, as each move would touch new memory.
#[derive(Drop)]
struct Try {
    search: Box<Search>,
    analysis: Analysis,
    limit: u32,
}

impl Try {
    fn open(alloc: Global, run: &Run, limit: u32) -> Result<Try, Stop> {
        let problem = problem_of(&run.figure, run.corner, &run.swaps, limit);
        let arranged = run.layout.arranged(&run.figure, run.corner, &run.swaps);
        let mut search = match Search::open(
            alloc,
            problem,
            coordinates_of(&run.figure, &arranged),
        ) {
            Ok(search) => search,
            Err(NoMemory) => return Err(Stop::Full),
        };
        know_arrangement(&mut search.known, &run.figure, run.corner, &run.swaps)?;
        match Box::new(alloc, search) {
            Ok(search) => Ok(Try {
                search,
                analysis: Analysis::new(alloc),
                limit,
            }),
            Err(_) => Err(Stop::Full),
        }
    }

    fn go_on(&mut self, most: u64) -> Result<Outcome, Stop> {
        match self.search.search(&mut self.analysis, most) {
            Ok(outcome) => Ok(outcome),
            Err(NoMemory) => Err(Stop::Full),
        }
    }
}

impl Run {
    // Whether the search goes on: the bound is below the side, and the budget is not spent.
    fn is_open(&self, budget: u64) -> bool
        ensures { IsFalse result → HasEnded self.now.bound self.now.layout.side self.now.conflicts budget }
    {
        self.bound < u64::from(self.layout.side) && self.conflicts < budget
    }

    // Takes the placement that a search has found, where it is one and better; whether it was.
    fn take(&mut self, search: &Search) -> bool {
        let layout = layout_of(&self.figure, search.placement());
        if layout.side >= self.layout.side || !layout.is_valid(&self.figure) {
            return false;
        }
        self.layout = layout;
        true
    }

    // The side becomes the limit of the search below it, which goes on from the new placement.
    fn lower(&self, top: &mut Try) -> Result<(), Stop> {
        let arranged = self.layout.arranged(&self.figure, self.corner, &self.swaps);
        top.search
            .set_placement(coordinates_of(&self.figure, &arranged));
        top.limit = self.layout.side;
        if self.bound >= u64::from(self.layout.side) {
            return Ok(());
        }
        top.search
            .set_limit(&mut top.analysis, self.layout.side.saturating_mul(2))
    }

    // Searches below the best side.
    fn search_top(
        &mut self,
        alloc: Global,
        top: &mut Try,
        slice: u64,
        budget: u64,
    ) -> Result<(), Stop> {
        let mut left = slice.min(budget.saturating_sub(self.conflicts));
        for _ in 0..u64::MAX {
            if left == 0 || !self.is_open(budget) {
                return Ok(());
            }
            let before = top.search.conflicts;
            let outcome = top.go_on(left.min(PART))?;
            let used = top.search.conflicts.saturating_sub(before);
            self.conflicts = self.conflicts.saturating_add(used);
            left = left.saturating_sub(used);
            match outcome {
                Outcome::Found => {
                    if !self.take(&*top.search) {
                        return Err(Stop::Full);
                    }
                    self.lower(top)?;
                }
                Outcome::Refuted => {
                    self.bound = u64::from(top.limit);
                    self.proof = Some(Proof::of(alloc, &*top.search, self.bound)?);
                }
                Outcome::Spent => {}
            }
        }
        Ok(())
    }

    // The limit half way between the bound and the least limit that was too hard, or the side.
    fn half_way(&self, hard: u32) -> Option<u32> {
        let goal = hard.min(self.layout.side);
        let bound = (self.bound % 4_294_967_296) as u32;
        if goal <= bound.saturating_add(1) {
            return None;
        }
        Some(bound.saturating_add(goal.saturating_sub(bound).saturating_add(1) / 2))
    }

    // Goes on with the search below a limit, and gives what is left of the slice; the search is gone where it has ended.
    fn search_half(
        &mut self,
        alloc: Global,
        half: &mut Option<Try>,
        top: &mut Try,
        goal: u32,
        left: u64,
    ) -> Result<u64, Stop> {
        let mut it = match half.take() {
            Some(it) if it.limit == goal => it,
            _ => Try::open(alloc, self, goal)?,
        };
        let before = it.search.conflicts;
        let outcome = it.go_on(left.min(PART))?;
        let used = it.search.conflicts.saturating_sub(before);
        self.conflicts = self.conflicts.saturating_add(used);
        match outcome {
            Outcome::Found => {
                if !self.take(&*it.search) {
                    return Err(Stop::Full);
                }
                self.lower(top)?;
            }
            Outcome::Refuted => {
                self.bound = u64::from(goal);
                self.proof = Some(Proof::of(alloc, &*it.search, self.bound)?);
            }
            Outcome::Spent => *half = Some(it),
        }
        Ok(left.saturating_sub(used))
    }

    // Searches below limits half way, and gives the least one that was too hard.
    fn search_between(
        &mut self,
        alloc: Global,
        top: &mut Try,
        half: &mut Option<Try>,
        slice: u64,
        budget: u64,
        hard: u32,
    ) -> Result<u32, Stop> {
        let mut left = slice.min(budget.saturating_sub(self.conflicts));
        let mut hard = hard;
        for _ in 0..u64::MAX {
            if left == 0 || !self.is_open(budget) {
                return Ok(hard);
            }
            let goal = match self.half_way(hard) {
                Some(goal) => goal,
                None => return Ok(hard),
            };
            left = self.search_half(alloc, half, top, goal, left)?;
            if left == 0 && self.is_open(u64::MAX) {
                hard = goal;
                *half = None;
            }
        }
        Ok(hard)
    }

    fn go(&mut self, alloc: Global, budget: u64) -> Result<(), Stop>
        ensures { OnOk result (HasEnded self.new.bound self.new.layout.side self.new.conflicts budget) }
    {
        let mut top = Try::open(alloc, self, self.layout.side)?;
        let mut half = None;
        let mut slice = SLICE;
        let mut hard = u32::MAX;
        for _ in 0..u64::MAX {
            if !self.is_open(budget) {
                return Ok(());
            }
            self.search_top(alloc, &mut top, slice, budget)?;
            hard = self.search_between(alloc, &mut top, &mut half, slice / 3, budget, hard)?;
            slice = slice.saturating_mul(2);
            if u64::from(hard) <= self.bound.saturating_add(1) {
                hard = u32::MAX;
            }
        }
        Err(Stop::Full)
    }
}

// Searches from a bound that holds, till the side is met or so many lemmas were learned.
pub fn search_all(alloc: Global, metric: &Metric, floor: u64, budget: u64) -> Result<Run, Stop>
    ensures { IfOk result (λ r. HasEnded r.bound r.layout.side r.conflicts budget) }
{
    let figure = Figure::of(metric);
    let corner = figure.corner();
    let swaps = Swaps::of(alloc, metric.tree(), corner)?;
    let layout = Packing::new(alloc).best_of(&figure, TRIES)?;
    let mut run = Run {
        figure,
        layout,
        bound: floor,
        corner,
        swaps,
        proof: None,
        conflicts: 0,
    };
    run.go(alloc, budget)?;
    Ok(run)
}
