// Examining tasks, one after the other.
ghost use Rattle.std.specs.Prelude.{◌≡◌, ◌≢◌, ◌<◌, ◌≤◌, [], ℕ, length, min, take, AllPairs, IfOk, MatchOption, OnErr};
ghost use Rattle.bp_base.specs.declared.path.Pair.{Pair as AnyPair};
ghost use Rattle.bp_base.specs.Limits.{most_leaves, most_number, most_steps};
ghost use Rattle.bp_base.specs.Tree.{leaf_count};
ghost use Rattle.bp_metric.specs.Chains.{HasPairsOf};
ghost use Rattle.bp_metric.specs.Coordinates.{IsCycleShown, IsLeast};
ghost use Rattle.bp_metric.specs.Metric.{MetricValue};
ghost use Rattle.bp_metric.specs.Next.{IsNextPair};
ghost use Rattle.bp_metric.specs.Valid.{Valid};
ghost use Rattle.bp_branch.specs.Branches.{IsBranch};
ghost use Rattle.bp_branch.specs.Orders.{IsPairOrder};
ghost use Rattle.bp_branch.specs.Outcomes.{IsCyclic, IsOutcome};
ghost use Rattle.bp_warm.specs.Warm.{WarmValue, pair_count};
ghost use Rattle.bp_turn.specs.Turns.{IsFound, IsFoundOrCyclic, IsTurn, tasks_of};

use crate::children::make_children;
use bp_base::{
    Claim, Least, NoMemory, Outcome, Path, Placement, Record, RecordKind, Sequence, Task,
};
use bp_branch::{PairOrder, low_points};
use bp_metric::Metric;
use bp_pairs::allowed;
use bp_warm::Warm;
use std::alloc::Global;
use std::marker::Model;

/// What examining a task gives: its record, and its placement where it is solved.
#[derive(Drop)]
pub struct Turn {
    pub record: Record,
    pub placement: Option<Placement>,
}

/// What a hand keeps from one task to the next: the least coordinates of the last task's path. Contracts see its metric.
#[derive(Drop)]
pub struct Examiner {
    order: PairOrder,
    warm: Warm,
    // a beginning of the warm path, which compares faster
    at: Path,
}

impl Model for Examiner {
    ghost use Rattle.std.specs.Prelude.{◌≡◌, ◌≤◌, length, take};
    ghost use Rattle.bp_metric.specs.Metric.{MetricValue};
    ghost use Rattle.bp_branch.specs.Orders.{IsPairOrder};

    ghost Value = { MetricValue };

    ghost view = { λ e. e.warm.metric };

    ghost invariant = { λ e. IsPairOrder e.warm.metric.tree e.order × (length e.at ≤ length e.warm.path) × (e.at ≡ take (length e.at) e.warm.path) };
}

impl Examiner {
    /// It has examined nothing yet. It takes most of the memory that examining needs.
    pub fn open(alloc: Global, metric: &Metric) -> Result<Examiner, NoMemory>
        ensures { IfOk result (λ e. e ≡ metric.now) }
    {
        let order = PairOrder::of(alloc, metric)?;
        let warm = Warm::open(alloc, metric)?;
        let at = Path::empty(alloc);
        Ok(Examiner { order, warm, at })
    }

    /// Judges the path against the bound, in grid units, and gives the kind of its record and its placement where it is solved. The
    /// children of a split are put into `children`, which is empty before, and after NoMemory too. The metric is that of `open`.
    pub fn judge(
        &mut self,
        alloc: Global,
        metric: &Metric,
        path: &Path,
        bound: u64,
        children: &mut Sequence<Task>,
    ) -> Result<(RecordKind, Option<Placement>), NoMemory>
        requires metric { metric.now ≡ self.old }
        requires branch { IsBranch metric.now.tree path.now }
        requires bound { bound ≤ most_number }
        requires empty { children.old ≡ [] }
        ensures metric { self.new ≡ self.old }
        ensures found { IfOk result (λ r. IsFound metric.now.tree metric.now.sheet path.now bound r.0 r.1) }
        ensures children { IfOk result (λ r. children.new ≡ tasks_of metric.now.tree metric.now.sheet path.now bound r.0) }
        ensures valid { IfOk result (λ r. MatchOption r.1 (1 ≤ 1) (λ p. Valid metric.now.tree metric.now.sheet 1 p.side p.points)) }
        ensures err { OnErr result (children.new ≡ []) }
    {
        let _leaves = metric.leaves();
        go_to(&mut self.warm, &mut self.at, metric, path)?;
        let least = self.warm.least();
        let outcome = self.order.judge(metric, least, bound);
        found(alloc, metric, least, path, bound, outcome, children)
    }

    /// The same for any path of different pairs of leaves: where it has a cycle, that closes it.
    pub fn judge_any(
        &mut self,
        alloc: Global,
        metric: &Metric,
        path: &Path,
        bound: u64,
        children: &mut Sequence<Task>,
    ) -> Result<(RecordKind, Option<Placement>), NoMemory>
        requires metric { metric.now ≡ self.old }
        requires pairs { HasPairsOf (leaf_count metric.now.tree) path.now }
        requires differ { AllPairs (λ s t. s.pair ≢ t.pair) path.now }
        requires bound { bound ≤ most_number }
        requires empty { children.old ≡ [] }
        ensures metric { self.new ≡ self.old }
        ensures found { IfOk result (λ r. IsFoundOrCyclic metric.now.tree metric.now.sheet path.now bound r.0 r.1) }
        ensures children { IfOk result (λ r. children.new ≡ tasks_of metric.now.tree metric.now.sheet path.now bound r.0) }
        ensures valid { IfOk result (λ r. MatchOption r.1 (1 ≤ 1) (λ p. Valid metric.now.tree metric.now.sheet 1 p.side p.points)) }
        ensures err { OnErr result (children.new ≡ []) }
    {
        let _leaves = metric.leaves();
        if let Some(claim) = go_or_stop(&mut self.warm, &mut self.at, metric, path)? {
            return Ok((RecordKind::Closed { claim }, None));
        }
        let least = self.warm.least();
        let outcome = self.order.judge(metric, least, bound);
        found_of_pairs(alloc, metric, least, path, bound, outcome, children)
    }

    /// Examines the task against the lesser of its bound and the known side, which are in grid units. Its record has the ticket; the
    /// children of a split are put into `children`, which is empty before, and after NoMemory too. The metric is that of `open`.
    pub fn examine(
        &mut self,
        alloc: Global,
        metric: &Metric,
        task: Task,
        known: u64,
        ticket: u64,
        children: &mut Sequence<Task>,
    ) -> Result<Turn, NoMemory>
        requires metric { metric.now ≡ self.old }
        requires branch { IsBranch metric.now.tree task.path }
        requires bound { task.bound ≤ most_number }
        requires empty { children.old ≡ [] }
        ensures metric { self.new ≡ self.old }
        ensures turn { IfOk result (λ turn. IsTurn metric.now.tree metric.now.sheet task known ticket children.new turn) }
        ensures valid { IfOk result (λ turn. MatchOption turn.placement (1 ≤ 1) (λ p. Valid metric.now.tree metric.now.sheet 1 p.side p.points)) }
        ensures err { OnErr result (children.new ≡ []) }
    {
        let Task { path, bound: given } = task;
        let bound = known.min(given);
        let (kind, placement) = self.judge(alloc, metric, &path, bound, children)?;
        let record = Record {
            path,
            kind,
            ticket,
            given,
            bound,
        };
        Ok(Turn { record, placement })
    }
}

// Goes to a branch, from the steps on that it has in common with the last one.
fn go_to(warm: &mut Warm, at: &mut Path, metric: &Metric, path: &Path) -> Result<(), NoMemory>
    requires metric { metric.now ≡ warm.old.metric }
    requires branch { IsBranch metric.now.tree path.now }
    requires beginning { (length at.old ≤ length warm.old.path) × (at.old ≡ take (length at.old) warm.old.path) }
    ensures warm { warm.new ≡ record { metric = metric.now; path = path.now } }
    ensures beginning { (length at.new ≤ length path.now) × (at.new ≡ take (length at.new) path.now) }
{
    let _leaves = metric.leaves();
    let common = at.common(path);
    cut(at, common);
    match warm.go_from(metric, path, common) {
        Some(_) => unreachable!(),
        None => keep_up(at, path),
    }
}

// Goes to a path in the same way, or finds a cycle of it.
fn go_or_stop(
    warm: &mut Warm,
    at: &mut Path,
    metric: &Metric,
    path: &Path,
) -> Result<Option<Claim>, NoMemory>
    requires metric { metric.now ≡ warm.old.metric }
    requires pairs { HasPairsOf (leaf_count metric.now.tree) path.now }
    requires differ { AllPairs (λ s t. s.pair ≢ t.pair) path.now }
    requires beginning { (length at.old ≤ length warm.old.path) × (at.old ≡ take (length at.old) warm.old.path) }
    ensures metric { warm.new.metric ≡ metric.now }
    ensures path { IfOk result (λ r. MatchOption r (warm.new.path ≡ path.now) (λ claim. IsCycleShown (leaf_count metric.now.tree) path.now claim)) }
    ensures beginning { (length at.new ≤ length warm.new.path) × (at.new ≡ take (length at.new) warm.new.path) }
{
    let _leaves = metric.leaves();
    let common = at.common(path);
    cut(at, common);
    if let Some(claim) = warm.go_from(metric, path, common) {
        cut(at, 0);
        return Ok(Some(claim));
    }
    keep_up(at, path)?;
    Ok(None)
}

// Takes steps off the end, until so many are left.
fn cut(at: &mut Path, steps: u64)
    requires { steps ≤ length at.old }
    ensures { at.new ≡ take steps at.old }
{
    while at.len() > steps {
        let _step = at.pop();
    }
}

// Adds the rest of a path to a beginning of it.
fn keep_up(at: &mut Path, path: &Path) -> Result<(), NoMemory>
    requires { (length at.old ≤ length path.now) × (at.old ≡ take (length at.old) path.now) }
    ensures { (length at.new ≤ length path.now) × (at.new ≡ take (length at.new) path.now) }
{
    for k in at.len()..path.len() {
        at.push(path.at(k))?;
    }
    Ok(())
}

// What an outcome gives for a path of different pairs of leaves.
fn found_of_pairs(
    alloc: Global,
    metric: &Metric,
    least: &Least,
    path: &Path,
    bound: u64,
    outcome: Outcome,
    children: &mut Sequence<Task>,
) -> Result<(RecordKind, Option<Placement>), NoMemory>
    requires least { IsLeast metric.now.tree metric.now.sheet path.now least.now }
    requires outcome { IsOutcome metric.now.tree metric.now.sheet path.now bound outcome }
    requires no_cycle { IsCyclic outcome → ⊥ }
    requires pairs { HasPairsOf (leaf_count metric.now.tree) path.now }
    requires differ { AllPairs (λ s t. s.pair ≢ t.pair) path.now }
    requires bound { bound ≤ most_number }
    requires empty { children.old ≡ [] }
    ensures found { IfOk result (λ r. IsFound metric.now.tree metric.now.sheet path.now bound r.0 r.1) }
    ensures children { IfOk result (λ r. children.new ≡ tasks_of metric.now.tree metric.now.sheet path.now bound r.0) }
    ensures valid { IfOk result (λ r. MatchOption r.1 (1 ≤ 1) (λ p. Valid metric.now.tree metric.now.sheet 1 p.side p.points)) }
    ensures err { OnErr result (children.new ≡ []) }
{
    let _leaves = metric.leaves();
    found(alloc, metric, least, path, bound, outcome, children)
}

// What an outcome gives for the path of these least coordinates. A branch has no cycle.
fn found(
    alloc: Global,
    metric: &Metric,
    least: &Least,
    path: &Path,
    bound: u64,
    outcome: Outcome,
    children: &mut Sequence<Task>,
) -> Result<(RecordKind, Option<Placement>), NoMemory>
    requires least { IsLeast metric.now.tree metric.now.sheet path.now least.now }
    requires outcome { IsOutcome metric.now.tree metric.now.sheet path.now bound outcome }
    requires no_cycle { IsCyclic outcome → ⊥ }
    requires few { leaf_count metric.now.tree ≤ most_leaves }
    requires room { (p : AnyPair) → IsNextPair metric.now.tree path.now p → length path.now < most_steps }
    requires bound { bound ≤ most_number }
    requires empty { children.old ≡ [] }
    ensures found { IfOk result (λ r. IsFound metric.now.tree metric.now.sheet path.now bound r.0 r.1) }
    ensures children { IfOk result (λ r. children.new ≡ tasks_of metric.now.tree metric.now.sheet path.now bound r.0) }
    ensures valid { IfOk result (λ r. MatchOption r.1 (1 ≤ 1) (λ p. Valid metric.now.tree metric.now.sheet 1 p.side p.points)) }
    ensures err { OnErr result (children.new ≡ []) }
{
    match outcome {
        Outcome::Cyclic(_) => unreachable!(),
        Outcome::Closed(claim) => Ok((RecordKind::Closed { claim }, None)),
        Outcome::Solved { side, claim } => {
            let points = low_points(alloc, least)?;
            Ok((
                RecordKind::Closed { claim },
                Some(Placement { side, points }),
            ))
        }
        Outcome::Split(pair) => {
            let choices = allowed(metric, pair);
            make_children(alloc, children, path, bound, pair, choices)?;
            Ok((RecordKind::Split { pair }, None))
        }
    }
}
