// The search under bounds: is there a valid placement whose coordinates keep to them?
ghost use Rattle.std.specs.Prelude.{◌≡◌, ◌<◌, ◌*◌, [], List, IfOk, IsTrue, length, slice_index};
ghost use Rattle.bp_base.specs.Tree.{leaf_count};
ghost use Rattle.bp_metric.specs.Chains.{HasPairsOf};
ghost use Rattle.bp_steady.specs.Searching.{AreBounds, AreUnder, IsAnswered, IsRising, IsRow};
ghost use Rattle.bp_steady.specs.Stack.{IsGuide, IsKept, IsLed, IsOpen, IsWalked};
ghost use Rattle.bp_steady.specs.declared.searching.Walked.TheVariants.{Reached};

use crate::bounds::Bounds;
use crate::pairs::farthest;
use crate::path::Path;
use crate::rising::raise;
use bp_base::NoMemory;
use bp_metric::Metric;

// Whether there is such a placement, or Spent where the budget doesn't reach.
#[derive(Clone, Copy)]
pub enum Answer {
    Yes,
    No,
    Spent,
}

// Reached: the path has a row. Closed: no path is left.
#[derive(Clone, Copy)]
pub enum Walked {
    Reached,
    Closed,
    Spent,
}

// Examines the empty path, and what is below it. Each path examined takes one from what is left of the budget.
pub fn ask(
    metric: &Metric,
    bounds: &Bounds,
    path: &mut Path,
    left: &mut u64,
) -> Result<Answer, NoMemory>
    requires bounds { AreBounds metric.now.tree bounds.now }
    requires guide { IsGuide metric.now.tree bounds.now path.old.guide.items }
    ensures guide { IfOk result (IsKept metric.now.tree bounds.now path.old.guide.items path.new.guide.items) }
    ensures answer { IfOk result (IsAnswered (AreUnder metric.now.tree bounds.now []) metric.now.tree bounds.now [] left.old left.new) }
{
    let budget = *left;
    if budget == 0 {
        return Ok(Answer::Spent);
    }
    *left -= 1;
    let _leaves = metric.leaves();
    path.clear();
    let mut row = lows(metric, bounds);
    while let Some(pair) = farthest(metric, &row) {
        path.push(pair, &row)?;
        match walk(metric, bounds, path, &mut row, left, budget) {
            Walked::Reached => {}
            Walked::Closed => return Ok(Answer::No),
            Walked::Spent => return Ok(Answer::Spent),
        }
    }
    path.keep();
    Ok(Answer::Yes)
}

// The row of the empty path.
fn lows(metric: &Metric, bounds: &Bounds) -> [u64; 64]
    requires { AreBounds metric.now.tree bounds.now }
    ensures { IsRow metric.now.tree [] bounds.now result }
{
    let mut row = [0; 64];
    for at in 0..2 * metric.leaves() as usize {
        row[at] = bounds.low(at);
    }
    row
}

// Examines the path, whose row is raised from that before its last step, and, as long as the path has no row, the next one.
fn walk(
    metric: &Metric,
    bounds: &Bounds,
    path: &mut Path,
    row: &mut [u64; 64],
    left: &mut u64,
    _budget: u64,
) -> Walked
    requires bounds { AreBounds metric.now.tree bounds.now }
    requires opened { IsOpen metric.now.tree bounds.now _budget path.old.steps.items path.old.rows.items left.old }
    requires led { IsLed path.old.led path.old.steps.items path.old.guide.items }
    requires rising { IsRising metric.now.tree path.old.steps.items bounds.now row.old }
    ensures led { IsLed path.new.led path.new.steps.items path.new.guide.items }
    ensures guide { path.new.guide.items ≡ path.old.guide.items }
    ensures fewer { result ≡ Reached → left.new < left.old }
    ensures walked { IsWalked metric.now.tree bounds.now _budget path.new.steps.items path.new.rows.items row.new left.new result }
{
    let _leaves = metric.leaves();
    loop {
        if *left == 0 {
            return Walked::Spent;
        }
        *left -= 1;
        if raise(metric, bounds, &path.steps, row) {
            return Walked::Reached;
        }
        if !path.turn() {
            return Walked::Closed;
        }
        *row = path.last_row();
    }
}
