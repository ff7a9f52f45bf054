ghost use Rattle.std.specs.Prelude.{◌≡◌, ◌<◌, ◌≤◌, ◌++◌, ◌∷◌, [], ℕ, IfOk, MatchOption, Some, length, slice_get, take};
ghost use Rattle.bp_base.specs.declared.path.Step.{Step as AnyStep};
ghost use Rattle.bp_base.specs.Path.{IsPairOf};
ghost use Rattle.bp_base.specs.Tree.{leaf_count};
ghost use Rattle.bp_metric.specs.Coordinates.{IsCycleShown, IsLeast};
ghost use Rattle.bp_warm.specs.Warm.{pair_count};
ghost use Rattle.bp_warm.specs.Kept.{IsHalf};

use crate::frames::{blanks, fill};
use crate::going::in_common;
use crate::halves::{Half, grow_both, shrink_both};
use crate::links::Links;
use crate::orders::order_of;
use crate::work::Work;
use bp_base::{Axis, Claim, Least, NoMemory, Path, Sheet, Step, Tree};
use bp_metric::Metric;
use std::alloc::Global;
use std::marker::Model;

/// The least coordinates of a path, kept while steps are added at its end and taken off.
#[derive(Drop)]
pub struct Warm {
    alloc: Global,
    tree: Tree,
    sheet: Sheet,
    steps: Vec<Step>,
    x: Half,
    y: Half,
    work: Work,
    // what is answered for each length of the path
    frames: Vec<Least>,
}

impl Model for Warm {
    ghost use Rattle.std.specs.Vec.{vec_capacity};
    ghost use Rattle.bp_warm.specs.Warm.{WarmValue};
    ghost use Rattle.bp_warm.specs.Kept.{IsWarm};

    ghost Value = { WarmValue };

    ghost view = { λ w. record { metric = record { tree = w.tree; sheet = w.sheet }; path = w.steps.items } };

    ghost invariant = { λ w. IsWarm w.tree w.sheet w.steps.items (vec_capacity w.steps) w.x.row.items w.y.row.items w.x.after w.x.before w.y.after w.y.before w.frames.items };
}

// One axis of the path without steps.
fn half(alloc: Global, metric: &Metric, room: usize) -> Result<Half, NoMemory>
    requires { room ≡ pair_count metric.now.tree }
    ensures x { IfOk result (λ h. IsHalf metric.now.tree [] Axis.X h.row.items h.after h.before) }
    ensures y { IfOk result (λ h. IsHalf metric.now.tree [] Axis.Y h.row.items h.after h.before) }
{
    let row = Vec::from_elem(alloc, 0, metric.leaves() as usize)?;
    let after = Links::open(alloc, room)?;
    let before = Links::open(alloc, room)?;
    Ok(Half { row, after, before })
}

impl Warm {
    ghost use Rattle.bp_metric.specs.Chains.{HasCycle};

    /// The path without steps on this metric. It takes all the memory that adding steps needs.
    pub fn open(alloc: Global, metric: &Metric) -> Result<Warm, NoMemory>
        ensures { IfOk result (λ w. w ≡ record { metric = metric.now; path = [] }) }
    {
        let n = metric.leaves();
        let tree = metric.tree().copy(alloc)?;
        let sheet = metric.sheet();
        let room = n as usize * (n as usize - 1) / 2;
        let x = half(alloc, metric, room)?;
        let y = half(alloc, metric, room)?;
        let steps = Vec::with_capacity(alloc, room)?;
        let work = Work::open(alloc)?;
        let mut frames = blanks(alloc, n, room + 1)?;
        fill(
            alloc,
            metric,
            &steps,
            &x.row,
            &y.row,
            &x.before,
            &y.before,
            &mut frames[0],
        );
        Ok(Warm {
            alloc,
            tree,
            sheet,
            steps,
            x,
            y,
            work,
            frames,
        })
    }

    /// Adds a step at the path's end. Where the longer path has a cycle, nothing changed, and the answer is a cycle that begins
    /// with its least leaf, on x where x has one. The metric is that of `open`, and the path is shorter than the number of pairs.
    pub fn extend(&mut self, metric: &Metric, step: Step) -> Option<Claim>
        requires metric { metric.now ≡ self.old.metric }
        requires room { length self.old.path < pair_count self.old.metric.tree }
        requires pair { IsPairOf (leaf_count self.old.metric.tree) step.pair }
        ensures added { MatchOption result (self.new ≡ record { metric = self.old.metric; path = self.old.path ++ step ∷ [] }) (λ claim. self.new ≡ self.old) }
        ensures fine { MatchOption result (HasCycle (leaf_count self.old.metric.tree) (self.old.path ++ step ∷ []) → ⊥) (λ claim. 1 ≤ 1) }
        ensures cycle { MatchOption result (1 ≤ 1) (λ claim. IsCycleShown (leaf_count self.old.metric.tree) (self.old.path ++ step ∷ []) claim) }
    {
        let order = order_of(step);
        let now = self.steps.len();
        let cycle = grow_both(
            self.alloc,
            metric,
            &self.steps,
            step,
            order,
            &self.frames[now],
            &mut self.x,
            &mut self.y,
            &mut self.work,
        );
        match cycle {
            Some(claim) => Some(claim),
            None => {
                match self.steps.push(step) {
                    Ok(()) => {}
                    Err(_) => unreachable!(),
                }
                fill(
                    self.alloc,
                    metric,
                    &self.steps,
                    &self.x.row,
                    &self.y.row,
                    &self.x.before,
                    &self.y.before,
                    &mut self.frames[now + 1],
                );
                None
            }
        }
    }

    /// Takes the last step off.
    pub fn retract(&mut self)
        requires { 0 < length self.old.path }
        ensures metric { self.new.metric ≡ self.old.metric }
        ensures path { (step : Step) × (self.old.path ≡ self.new.path ++ step ∷ []) }
    {
        let step = match self.steps.pop() {
            Some(step) => step,
            None => unreachable!(),
        };
        let shorter = self.steps.len();
        shrink_both(
            &self.tree,
            &self.steps,
            step,
            order_of(step),
            &self.frames[shorter],
            &mut self.x,
            &mut self.y,
        );
    }

    /// How many steps the path has.
    pub fn len(&self) -> u64
        ensures { result ≡ length self.now.path }
    {
        self.steps.len() as u64
    }

    /// How many steps at their beginnings this path and the other have in common.
    pub fn common(&self, path: &Path) -> u64
        ensures within { (result ≤ length self.now.path) × (result ≤ length path.now) }
        ensures same { take result self.now.path ≡ take result path.now }
        ensures most { (s : AnyStep) → slice_get self.now.path result ≡ Some s → slice_get path.now result ≡ Some s → ⊥ }
    {
        in_common(&self.steps, path)
    }

    pub(crate) fn allocator(&self) -> Global {
        self.alloc
    }

    /// The least coordinates of the path, in grid units, with the side that it forces and the chain that is shown for it.
    pub fn least(&self) -> &Least
        ensures { IsLeast self.now.metric.tree self.now.metric.sheet self.now.path result.now }
    {
        &self.frames[self.steps.len()]
    }
}
