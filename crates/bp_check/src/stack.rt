// The stack of open splits, which both calls feed with the nodes of a proof in preorder.
ghost use Rattle.std.specs.Prelude.{◌≡◌, ◌<◌, ◌+◌, ◌-◌, ◌^◌, ◌++◌, ◌∷◌, [], List, length, not, ◌&&◌, None, Some, IsTrue, IfOk};
ghost use Rattle.bp_base.specs.Path.{IsPairOf};
ghost use Rattle.bp_base.specs.Tree.{TreeValue, leaf_count};
ghost use Rattle.bp_base.specs.declared.point.Sheet.{Sheet as AnySheet};
ghost use Rattle.bp_base.specs.declared.refutation.Refutation.{Refutation as AnyRefutation};
ghost use Rattle.bp_document.specs.declared.node_line.NodeLine.{NodeLine as AnyLine};
ghost use Rattle.bp_document.specs.declared.node_line.NodeKind.TheVariants.{Closed as ClosedKind, Split as SplitKind};
ghost use Rattle.bp_check.specs.Found.{found_claim};
ghost use Rattle.bp_check.specs.Stack.{HasTaken, IsStack, KeepsWithin, closed, empty_stack, entered, fed, found_count, is_wrong, joined_claim, opened, stack_of, step_of, with_child, with_claim, with_split};
ghost use Rattle.bp_document.specs.Told.{node_list};
ghost use Rattle.bp_check.specs.Verdicts.{IsFoundOf};
ghost use Rattle.bp_check.specs.Tests.{may_split, stands_on};

use crate::depths::Depths;
use crate::found::{Found, joined};
use bp_base::{Choice, Claim, NoMemory, Pair, Step};
use bp_chain::{Steps, claim_holds, counted};
use bp_document::{NodeKind, NodeLine};
use bp_metric::Metric;
use bp_pairs::allowed;
use std::alloc::Global;

/// A split that is not closed yet: its pair, its number among the nodes, and the children seen so far.
#[derive(Clone, Copy, Debug)]
pub struct OpenSplit {
    pub pair: Pair,
    pub node: u64,
    pub seen: u64,
}

/// The open splits above the next node of a proof, the path to the last child of the last of them, the number of nodes so far, and what
/// was found of them. Once a split is bad no further one is opened, since no path is defined below it.
#[derive(Drop)]
pub struct Stack {
    pub path: Depths<Step>,
    pub splits: Depths<OpenSplit>,
    pub count: u64,
    pub found: Found,
}

impl Stack {
    /// The stack before the first node, with the memory for all that it will hold.
    pub fn empty(alloc: Global) -> Result<Stack, NoMemory>
        ensures empty { IfOk result (λ s. s ≡ empty_stack) }
        ensures taken { IfOk result (λ s. (T : TreeValue) (G : AnySheet) → HasTaken T G s []) }
        ensures kept { IfOk result (λ s. (T : TreeValue) (G : AnySheet) → IsStack T G s) }
    {
        let path = Depths::new(alloc)?;
        let splits = Depths::new(alloc)?;
        Ok(Stack {
            path,
            splits,
            count: 0,
            found: Found::Sound { weight: None },
        })
    }

    /// Takes the next node of a proof, by its line.
    pub fn feed(&mut self, metric: &Metric, line: &NodeLine)
        requires kept { IsStack metric.now.tree metric.now.sheet self.old }
        requires room { self.old.count + 1 < 2 ^ 64 }
        ensures kept { IsStack metric.now.tree metric.now.sheet self.new }
        ensures taken { (lines : List AnyLine) → HasTaken metric.now.tree metric.now.sheet self.old lines → HasTaken metric.now.tree metric.now.sheet self.new (lines ++ line.now ∷ []) }
    {
        match &line.kind {
            NodeKind::Split { pair } => self.feed_split(metric, line.depth, *pair),
            NodeKind::Closed { claim } => self.feed_claim(metric, line.depth, claim),
            NodeKind::Open { claim } => self.feed_claim(metric, line.depth, claim),
        }
    }

    /// Takes the next node, a split.
    pub fn feed_split(&mut self, metric: &Metric, depth: u64, pair: Pair)
        requires kept { IsStack metric.now.tree metric.now.sheet self.old }
        requires room { self.old.count + 1 < 2 ^ 64 }
        ensures fed { self.new ≡ fed metric.now.tree metric.now.sheet self.old (record { depth = depth; kind = SplitKind pair }) }
        ensures kept { IsStack metric.now.tree metric.now.sheet self.new }
    {
        self.close(metric, depth);
        self.enter(metric, depth);
        self.add_split(metric, pair);
    }

    /// Takes the next node, a proof leaf, by its claim.
    pub fn feed_claim(&mut self, metric: &Metric, depth: u64, claim: &Claim)
        requires kept { IsStack metric.now.tree metric.now.sheet self.old }
        requires room { self.old.count + 1 < 2 ^ 64 }
        ensures fed { self.new ≡ fed metric.now.tree metric.now.sheet self.old (record { depth = depth; kind = ClosedKind claim.now }) }
        ensures kept { IsStack metric.now.tree metric.now.sheet self.new }
    {
        self.close(metric, depth);
        self.enter(metric, depth);
        self.add_claim(metric, claim);
    }

    /// What was found of the nodes, once the lines of a whole proof are fed, or nothing where there is none.
    pub fn finish(&mut self, metric: &Metric) -> Found
        requires kept { IsStack metric.now.tree metric.now.sheet self.old }
        ensures closed { result ≡ (closed metric.now.tree metric.now.sheet 0 self.old).found }
        ensures proof { (r : AnyRefutation) → HasTaken metric.now.tree metric.now.sheet self.old (node_list r 0) → IsFoundOf metric.now.tree metric.now.sheet (Some r) result }
        ensures none { HasTaken metric.now.tree metric.now.sheet self.old [] → IsFoundOf metric.now.tree metric.now.sheet None result }
    {
        self.close(metric, 0);
        self.found
    }

    // Closes the splits of this depth and deeper ones.
    fn close(&mut self, metric: &Metric, depth: u64)
        requires kept { IsStack metric.now.tree metric.now.sheet self.old }
        ensures closed { self.new ≡ closed metric.now.tree metric.now.sheet depth self.old }
        ensures kept { IsStack metric.now.tree metric.now.sheet self.new }
        ensures count { self.new.count ≡ self.old.count }
    {
        while depth < self.splits.len() {
            self.close_last(metric);
        }
    }

    fn close_last(&mut self, metric: &Metric)
        requires kept { IsStack metric.now.tree metric.now.sheet self.old }
        requires some { 0 < length self.old.splits }
        ensures closed { self.new ≡ closed metric.now.tree metric.now.sheet (length self.old.splits - 1) self.old }
        ensures kept { IsStack metric.now.tree metric.now.sheet self.new }
        ensures count { self.new.count ≡ self.old.count }
        ensures less { length self.new.splits < length self.old.splits }
    {
        if let Some(split) = self.splits.pop() {
            let _step = self.path.take_last();
            self.found = joined(self.found, found_count(metric, split));
        }
    }

    // The next node is a child of the last split where its depth is that of such a child.
    fn enter(&mut self, metric: &Metric, depth: u64)
        requires kept { IsStack metric.now.tree metric.now.sheet self.old }
        requires room { self.old.count + 1 < 2 ^ 64 }
        ensures entered { self.new ≡ entered metric.now.tree metric.now.sheet depth self.old }
        ensures kept { KeepsWithin metric.now.tree metric.now.sheet (self.old.count + 1) self.new }
        ensures count { self.new.count ≡ self.old.count }
    {
        if self.splits.len() == depth {
            self.enter_last(metric);
        }
    }

    // The last split has one more child.
    fn enter_last(&mut self, metric: &Metric)
        requires kept { IsStack metric.now.tree metric.now.sheet self.old }
        requires room { self.old.count + 1 < 2 ^ 64 }
        ensures entered { self.new ≡ stack_of metric.now.tree metric.now.sheet (with_child self.old.splits) self.old.count self.old.found }
        ensures kept { KeepsWithin metric.now.tree metric.now.sheet (self.old.count + 1) self.new }
    {
        let _leaves = metric.leaves();
        if let Some(split) = self.splits.pop() {
            let _step = self.path.take_last();
            let next = OpenSplit {
                pair: split.pair,
                node: split.node,
                seen: split.seen + 1,
            };
            self.path.push(step_of(metric, next));
            self.splits.push(next);
        }
    }

    // The next node is a split. It is opened where it is good so far.
    fn add_split(&mut self, metric: &Metric, pair: Pair)
        requires kept { KeepsWithin metric.now.tree metric.now.sheet (self.old.count + 1) self.old }
        requires room { self.old.count + 1 < 2 ^ 64 }
        ensures split { self.new ≡ with_split metric.now.tree metric.now.sheet pair self.old }
        ensures kept { IsStack metric.now.tree metric.now.sheet self.new }
    {
        if self.may_open(metric, pair) {
            self.open_split(metric, pair);
            return;
        }
        self.found = joined(self.found, Found::WrongSplit { node: self.count });
        self.count += 1;
    }

    fn may_open(&self, metric: &Metric, pair: Pair) -> bool
        ensures { result ≡ (not (is_wrong self.now.found) && may_split (leaf_count metric.now.tree) self.now.path pair) }
    {
        !is_wrong(self.found) && may_split(metric.leaves(), &self.path, pair)
    }

    fn open_split(&mut self, metric: &Metric, pair: Pair)
        requires kept { KeepsWithin metric.now.tree metric.now.sheet (self.old.count + 1) self.old }
        requires room { self.old.count + 1 < 2 ^ 64 }
        requires good { IsTrue (may_split (leaf_count metric.now.tree) self.old.path pair) }
        ensures split { self.new ≡ stack_of metric.now.tree metric.now.sheet (self.old.splits ++ opened self.old.count pair ∷ []) (self.old.count + 1) self.old.found }
        ensures kept { IsStack metric.now.tree metric.now.sheet self.new }
    {
        let _leaves = metric.leaves();
        let split = OpenSplit {
            pair,
            node: self.count,
            seen: 0,
        };
        self.path.push(step_of(metric, split));
        self.splits.push(split);
        self.count += 1;
    }

    // The next node has a claim.
    fn add_claim(&mut self, metric: &Metric, claim: &Claim)
        requires kept { KeepsWithin metric.now.tree metric.now.sheet (self.old.count + 1) self.old }
        requires room { self.old.count + 1 < 2 ^ 64 }
        ensures claim { self.new ≡ with_claim metric.now.tree metric.now.sheet claim.now self.old }
        ensures kept { IsStack metric.now.tree metric.now.sheet self.new }
    {
        self.found = joined_claim(metric, self.found, self.count, &self.path, claim);
        self.count += 1;
    }
}

// What is found with the claim of a node at the end of the path. It isn't looked at where a split is bad.
fn joined_claim(
    metric: &Metric,
    found: Found,
    node: u64,
    path: &Depths<Step>,
    claim: &Claim,
) -> Found
    ensures { result ≡ joined_claim metric.now.tree metric.now.sheet found node path.now claim.now }
{
    if is_wrong(found) {
        return found;
    }
    joined(found, found_claim(metric, node, path, claim))
}

fn is_wrong(found: Found) -> bool
    ensures { result ≡ is_wrong found }
{
    matches!(found, Found::WrongSplit { .. })
}

// The step to the split's last child, or to its first where it has none yet. A child beyond the allowed choices, which makes the split
// bad, lies to the left.
#[tactic(auto, unfolding(crate::specs::Stack::step_of))]
fn step_of(metric: &Metric, split: OpenSplit) -> Step
    requires { IsPairOf (leaf_count metric.now.tree) split.pair }
    ensures { result ≡ step_of metric.now.tree metric.now.sheet split }
{
    let choices = allowed(metric, split.pair);
    let place = split.seen.saturating_sub(1);
    let choice = if place < choices.count() {
        choices.at(place)
    } else {
        Choice::Left
    };
    Step {
        pair: split.pair,
        choice,
    }
}

// What is found of a split once its children are counted.
#[tactic(auto, unfolding(crate::specs::Stack::found_count))]
fn found_count(metric: &Metric, split: OpenSplit) -> Found
    requires { IsPairOf (leaf_count metric.now.tree) split.pair }
    ensures { result ≡ found_count metric.now.tree metric.now.sheet split }
{
    if split.seen == allowed(metric, split.pair).count() {
        Found::Sound { weight: None }
    } else {
        Found::WrongSplit { node: split.node }
    }
}

// What is found of the claim of a node at the end of the path.
fn found_claim(metric: &Metric, node: u64, path: &Depths<Step>, claim: &Claim) -> Found
    ensures { result ≡ found_claim metric.now.tree metric.now.sheet node path.now claim.now }
{
    if claim_holds(path, metric.leaves(), claim) {
        Found::Sound {
            weight: counted(metric, claim),
        }
    } else {
        Found::WrongChain { node }
    }
}

// Whether the pair is one of n leaves that isn't on the path.
#[tactic(auto, unfolding(crate::specs::Tests::may_split))]
fn may_split(n: u64, path: &Depths<Step>, pair: Pair) -> bool
    ensures { result ≡ may_split n path.now pair }
{
    1 <= pair.i && pair.i < pair.j && pair.j <= n && !stands_on(path, pair)
}

fn stands_on(path: &Depths<Step>, pair: Pair) -> bool
    ensures { result ≡ stands_on path.now pair }
{
    for k in 0..path.len() {
        let step = path.at(k);
        if step.pair == pair {
            return true;
        }
    }
    false
}
