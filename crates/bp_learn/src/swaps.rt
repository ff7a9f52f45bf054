// Exchanges of equal branches, which keep all distances.
use crate::facts::Stop;
use bp_base::Tree;
use std::alloc::Global;

/// Swaps of leaves, numbered from 0, each a list of pairs with the least leaf in the first one.
#[derive(Drop)]
pub struct Swaps {
    pairs: Vec<(u8, u8)>,
    // where the pairs of each swap end
    ends: Vec<usize>,
}

// A branch: what it looks like, and its leaves in an order that fits those of a branch that looks the same.
#[derive(Drop)]
struct Branch {
    length: u64,
    // the classes of the branches below it, rising
    below: Vec<u32>,
    class: u32,
    leaves: Vec<u8>,
}

fn full<T: Drop>(pushed: Result<(), T>) -> Result<(), Stop> {
    match pushed {
        Ok(()) => Ok(()),
        Err(_) => Err(Stop::Full),
    }
}

impl Swaps {
    pub fn len(&self) -> usize {
        self.ends.len()
    }

    // Where the pairs of a swap stand.
    fn span(&self, number: usize) -> (usize, usize) {
        let start = match number.checked_sub(1) {
            None => 0,
            Some(before) => match self.ends.get(before) {
                Some(end) => *end,
                None => 0,
            },
        };
        match self.ends.get(number) {
            Some(end) if start <= *end => (start, *end),
            _ => (0, 0),
        }
    }

    pub fn pair_count(&self, number: usize) -> usize {
        let (start, end) = self.span(number);
        end.saturating_sub(start)
    }

    /// A pair of a swap.
    pub fn pair(&self, number: usize, at: usize) -> (u8, u8) {
        let (start, _) = self.span(number);
        match self.pairs.get(start.saturating_add(at)) {
            Some(pair) => *pair,
            None => (0, 0),
        }
    }

    /// The pair with the least leaf.
    pub fn head(&self, number: usize) -> (u8, u8) {
        self.pair(number, 0)
    }

    /// The exchanges of equal branches of one node that hold neither leaf of the corner, each branch with the next equal one.
    pub fn of(alloc: Global, tree: &Tree, corner: (u8, u8)) -> Result<Swaps, Stop> {
        let branches = branches_of(alloc, tree)?;
        let mut swaps = Swaps {
            pairs: Vec::new(alloc),
            ends: Vec::new(alloc),
        };
        for first in 1..branches.len() {
            if let Some(second) = next_equal(tree, &branches, first, corner) {
                if let (Some(one), Some(other)) = (branches.get(first), branches.get(second)) {
                    swaps.add(&one.leaves, &other.leaves)?;
                }
            }
        }
        Ok(swaps)
    }

    fn add(&mut self, first: &[u8], second: &[u8]) -> Result<(), Stop> {
        let start = self.pairs.len();
        for at in 0..first.len().min(second.len()) {
            let (i, j) = (first[at], second[at]);
            full(self.pairs.push((i.min(j), i.max(j))))?;
        }
        if start <= self.pairs.len() {
            self.pairs[start..].sort_unstable();
        }
        full(self.ends.push(self.pairs.len()))
    }
}

fn holds_corner(branch: &Branch, corner: (u8, u8)) -> bool {
    for leaf in branch.leaves.iter() {
        if *leaf == corner.0 || *leaf == corner.1 {
            return true;
        }
    }
    false
}

// The next branch of the same node that looks the same as this one; none of both holds a leaf of the corner.
fn next_equal(tree: &Tree, branches: &[Branch], first: usize, corner: (u8, u8)) -> Option<usize> {
    let parents = tree.parents();
    let one = branches.get(first)?;
    if holds_corner(one, corner) {
        return None;
    }
    for second in first.checked_add(1)?..branches.len().min(parents.len()) {
        let other = &branches[second];
        let same_node = parents.get(first)? == parents.get(second)?;
        if same_node && one.class == other.class && !holds_corner(other, corner) {
            return Some(second);
        }
    }
    None
}

// The branches that end in each node; a node's children have greater numbers.
fn branches_of(alloc: Global, tree: &Tree) -> Result<Vec<Branch>, Stop> {
    let count = tree.parents().len();
    let mut turned = Vec::new(alloc);
    let mut leaf = leaf_total(tree);
    for back in 0..count {
        let node = count - 1 - back;
        let branch = branch_of(alloc, tree, &turned, node, &mut leaf)?;
        full(turned.push(branch))?;
    }
    turned.reverse();
    Ok(turned)
}

fn is_leaf(tree: &Tree, node: usize) -> bool {
    for parent in tree.parents().iter().skip(1) {
        if *parent as usize == node {
            return false;
        }
    }
    true
}

fn leaf_total(tree: &Tree) -> u8 {
    let mut count = 0u8;
    for node in 0..tree.parents().len() {
        if is_leaf(tree, node) {
            count = count.wrapping_add(1);
        }
    }
    count
}

// The branch that ends in a node, where those of all greater nodes are known, the greatest first.
fn branch_of(
    alloc: Global,
    tree: &Tree,
    turned: &[Branch],
    node: usize,
    leaf: &mut u8,
) -> Result<Branch, Stop> {
    let mut branch = Branch {
        length: match tree.lengths().get(node) {
            Some(length) => *length,
            None => 0,
        },
        below: Vec::new(alloc),
        class: 0,
        leaves: Vec::new(alloc),
    };
    if is_leaf(tree, node) {
        *leaf = leaf.wrapping_sub(1);
        full(branch.leaves.push(*leaf))?;
    } else {
        add_below(alloc, tree, turned, node, &mut branch)?;
    }
    branch.class = class_of(turned, &branch);
    Ok(branch)
}

// The branches below a node by their class, and their leaves in that order.
fn add_below(
    alloc: Global,
    tree: &Tree,
    turned: &[Branch],
    node: usize,
    branch: &mut Branch,
) -> Result<(), Stop> {
    let count = tree.parents().len();
    let mut children = Vec::new(alloc);
    for at in 0..turned.len() {
        let below = count.saturating_sub(at.saturating_add(1));
        if below > node && tree.parents().get(below) == Some(&(node as u64)) {
            full(children.push((turned[at].class, below, at)))?;
        }
    }
    children.sort_unstable();
    for child in children.iter() {
        full(branch.below.push(child.0))?;
        if let Some(it) = turned.get(child.2) {
            for leaf in it.leaves.iter() {
                full(branch.leaves.push(*leaf))?;
            }
        }
    }
    Ok(())
}

// The class of branches that look the same: the number of the first one known.
fn class_of(turned: &[Branch], branch: &Branch) -> u32 {
    for other in turned {
        let (one, two): (&[u32], &[u32]) = (&branch.below, &other.below);
        if other.length == branch.length && one == two {
            return other.class;
        }
    }
    (turned.len() % 4_294_967_296) as u32
}
