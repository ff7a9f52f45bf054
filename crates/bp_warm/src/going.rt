// Going from one path to another.
ghost use Rattle.std.specs.Prelude.{◌≡◌, ◌<◌, ◌≤◌, ℕ, MatchOption, Some, length, slice_get, take};
ghost use Rattle.bp_base.specs.declared.path.Step.{Step as AnyStep};
ghost use Rattle.bp_base.specs.Tree.{leaf_count};
ghost use Rattle.bp_metric.specs.Chains.{HasCycle, HasPairsOf};
ghost use Rattle.bp_metric.specs.Coordinates.{IsCycleShown};
ghost use Rattle.bp_warm.specs.Warm.{StoppedAt, pair_count};

use crate::Warm;
use bp_base::{Axis, Chain, Claim, Path, Step};
use bp_metric::Metric;
use bp_walks::cycle_on;
use std::alloc::Global;

// How many steps at their beginnings the steps and the path have in common.
pub fn in_common(steps: &[Step], path: &Path) -> u64
    ensures within { (result ≤ length steps.now) × (result ≤ length path.now) }
    ensures same { take result steps.now ≡ take result path.now }
    ensures most { (s : AnyStep) → slice_get steps.now result ≡ Some s → slice_get path.now result ≡ Some s → ⊥ }
{
    let shorter = path.len().min(steps.len() as u64);
    for k in 0..shorter {
        if steps[k as usize] != path.at(k) {
            return k;
        }
    }
    shorter
}

// Takes steps off, until so many are left.
fn back_to(warm: &mut Warm, steps: u64)
    requires { steps ≤ length warm.old.path }
    ensures metric { warm.new.metric ≡ warm.old.metric }
    ensures path { warm.new.path ≡ take steps warm.old.path }
{
    while warm.len() > steps {
        warm.retract();
    }
}

fn loop_on(axis: Axis, chain: Chain) -> Claim
    ensures { result ≡ Claim.Cycle axis chain }
{
    Claim::Cycle { axis, chain }
}

// What is shown for a path where a cycle of some beginning of it is: that cycle, unless it lies on y and the path has one on x.
fn shown_for(alloc: Global, metric: &Metric, path: &Path, cycle: Claim) -> Claim
    requires pairs { HasPairsOf (leaf_count metric.now.tree) path.now }
    requires cycle { (k : ℕ) × IsCycleShown (leaf_count metric.now.tree) (take k path.now) cycle }
    ensures { IsCycleShown (leaf_count metric.now.tree) path.now result }
{
    let _leaves = metric.leaves();
    match cycle {
        Claim::Cycle {
            axis: Axis::X,
            chain: on_x,
        } => loop_on(Axis::X, on_x),
        Claim::Cycle {
            axis: Axis::Y,
            chain: on_y,
        } => match cycle_on(alloc, metric, path, Axis::X) {
            Some(on_x) => loop_on(Axis::X, on_x),
            None => loop_on(Axis::Y, on_y),
        },
        Claim::Walk { .. } => unreachable!(),
    }
}

// Adds the other steps of a path that it is a beginning of, or finds a cycle of the path.
fn on_to(warm: &mut Warm, metric: &Metric, path: &Path) -> Option<Claim>
    requires metric { metric.now ≡ warm.old.metric }
    requires begins { (length warm.old.path ≤ length path.now) × (warm.old.path ≡ take (length warm.old.path) path.now) }
    requires pairs { HasPairsOf (leaf_count warm.old.metric.tree) path.now }
    requires short { length path.now ≤ pair_count warm.old.metric.tree }
    ensures metric { warm.new.metric ≡ warm.old.metric }
    ensures path { MatchOption result (warm.new.path ≡ path.now) (λ claim. HasCycle (leaf_count warm.old.metric.tree) path.now) }
    ensures cycle { MatchOption result (1 ≤ 1) (λ claim. IsCycleShown (leaf_count warm.old.metric.tree) path.now claim) }
    ensures stays { MatchOption result (1 ≤ 1) (λ claim. StoppedAt warm.old.metric.tree path.now warm.new.path) }
{
    for k in warm.len()..path.len() {
        if let Some(claim) = warm.extend(metric, path.at(k)) {
            return Some(shown_for(warm.allocator(), metric, path, claim));
        }
    }
    None
}

impl Warm {
    /// Goes to another path, from the steps on that both have in common. Where that path has a cycle, the answer is one of it that
    /// begins with its least leaf, on x where x has one, and the value stays at the longest beginning of it without a cycle. The path
    /// has at most one step for each pair of leaves.
    pub fn go_to(&mut self, metric: &Metric, path: &Path) -> Option<Claim>
        requires metric { metric.now ≡ self.old.metric }
        requires pairs { HasPairsOf (leaf_count self.old.metric.tree) path.now }
        requires short { length path.now ≤ pair_count self.old.metric.tree }
        ensures metric { self.new.metric ≡ self.old.metric }
        ensures path { MatchOption result (self.new.path ≡ path.now) (λ claim. HasCycle (leaf_count self.old.metric.tree) path.now) }
        ensures cycle { MatchOption result (1 ≤ 1) (λ claim. IsCycleShown (leaf_count self.old.metric.tree) path.now claim) }
        ensures stays { MatchOption result (1 ≤ 1) (λ claim. StoppedAt self.old.metric.tree path.now self.new.path) }
    {
        let common = self.common(path);
        self.go_from(metric, path, common)
    }

    /// The same, where so many steps at their beginnings are known to be the same.
    pub fn go_from(&mut self, metric: &Metric, path: &Path, common: u64) -> Option<Claim>
        requires metric { metric.now ≡ self.old.metric }
        requires pairs { HasPairsOf (leaf_count self.old.metric.tree) path.now }
        requires short { length path.now ≤ pair_count self.old.metric.tree }
        requires within { (common ≤ length self.old.path) × (common ≤ length path.now) }
        requires same { take common self.old.path ≡ take common path.now }
        ensures metric { self.new.metric ≡ self.old.metric }
        ensures path { MatchOption result (self.new.path ≡ path.now) (λ claim. HasCycle (leaf_count self.old.metric.tree) path.now) }
        ensures cycle { MatchOption result (1 ≤ 1) (λ claim. IsCycleShown (leaf_count self.old.metric.tree) path.now claim) }
        ensures stays { MatchOption result (1 ≤ 1) (λ claim. StoppedAt self.old.metric.tree path.now self.new.path) }
    {
        back_to(self, common);
        on_to(self, metric, path)
    }
}
