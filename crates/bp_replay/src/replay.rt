ghost use Rattle.std.specs.Prelude.{◌≡◌, ◌≤◌, ◌↔◌, [], ◌∷◌, ◌++◌, All, IsTrue, IfOk, OnErr, length, map, if◌then◌else◌};
ghost use Rattle.bp_base.specs.Limits.{most_number};
ghost use Rattle.bp_base.specs.declared.point.Sheet.TheVariants.{Square};
ghost use Rattle.bp_arrangement.specs.Swaps.{IsAdmissible, IsCorner, head as head_of};
ghost use Rattle.bp_lemmas.specs.Standing.{EndsEmpty, Stands};
ghost use Rattle.bp_mirror.specs.Mirror.{IsMirror};
ghost use Rattle.bp_mirror.specs.Swaps.{IsMirrorSwap};
ghost use Rattle.bp_replay.specs.Replays.{IsSmallCode, IsTask};
ghost use Rattle.bp_replay.specs.Tasks.{IsBelowShown, cornered, mirrored, system_of};

use crate::given::Given;
use crate::known::Known;
use crate::reading::Readings;
use crate::root::first_known;
use crate::store::Store;
use crate::ties::{Ties, first_names};
use crate::unsure::denied;
use bp_arrangement::{Fact, Hint, head};
use bp_base::{NoMemory, Pair, Sequence};
use bp_metric::Metric;
use bp_mirror::MirrorKind;
use std::alloc::Global;
use std::marker::Model;

/// Lemmas that are fed one by one, and stand each on those before it.
#[derive(Drop)]
pub struct Replay {
    alloc: Global,
    given: Given,
    root: Known,
    store: Store,
}

impl Model for Replay {
    ghost use Rattle.bp_replay.specs.Replays.{IsReplay, ReplayValue};

    ghost Value = { ReplayValue };

    ghost view = { λ r. record { task = r.given; lemmas = r.store } };

    ghost invariant = { λ r. IsReplay r.given r.root r.store };
}

impl Replay {
    /// A replay of lemmas that are to prove that no side below the bound serves the tree on the sheet. The corner is two different
    /// leaves, and all swaps are admissible. The bound, in grid units, is at most 999,999,999.
    pub fn open(
        alloc: Global,
        metric: &Metric,
        bound: u64,
        corner: Pair,
        swaps: &[Sequence<Pair>],
    ) -> Result<Replay, NoMemory>
        requires bound { bound ≤ most_number }
        requires corner { IsCorner metric.now.tree corner.i corner.j }
        requires swaps { All (IsAdmissible metric.now.tree corner.i corner.j) swaps.now }
        ensures { IfOk result (λ r. r ≡ record { task = record { tree = metric.now.tree; sheet = metric.now.sheet; bound = bound; ties = cornered corner; heads = map head_of swaps.now }; lemmas = [] }) }
    {
        let heads = heads_of(alloc, swaps)?;
        let copy = Metric::on(alloc, metric.tree(), metric.sheet())?;
        Ok(begun(
            alloc,
            Given {
                metric: copy,
                bound,
                ties: Ties::Corner { corner },
                heads,
            },
        ))
    }

    /// A replay of lemmas that are to prove that no side below the bound serves a placement on the square that is symmetric by the
    /// mirror. The sheet is a square, the mirror is one of the tree's, and all swaps keep it. The bound, in the units of the kind, is at
    /// most 999,999,999.
    pub fn open_mirrored(
        alloc: Global,
        metric: &Metric,
        kind: MirrorKind,
        mirror: &[Pair],
        bound: u64,
        swaps: &[Sequence<Pair>],
    ) -> Result<Replay, NoMemory>
        requires bound { bound ≤ most_number }
        requires sheet { metric.now.sheet ≡ Square }
        requires is_mirror { IsMirror metric.now.tree mirror.now }
        requires swaps { All (IsMirrorSwap metric.now.tree mirror.now) swaps.now }
        ensures { IfOk result (λ r. r ≡ record { task = record { tree = metric.now.tree; sheet = metric.now.sheet; bound = bound; ties = mirrored kind mirror.now; heads = map head_of swaps.now }; lemmas = [] }) }
    {
        let heads = heads_of(alloc, swaps)?;
        let copy = Metric::on(alloc, metric.tree(), metric.sheet())?;
        let _leaves = copy.leaves();
        let readings = Readings::of(alloc, kind, mirror)?;
        let first = first_names(alloc, &copy, &readings)?;
        Ok(begun(
            alloc,
            Given {
                metric: copy,
                bound,
                ties: Ties::Mirror { readings, first },
                heads,
            },
        ))
    }

    /// Whether a lemma stands on those before it. One that doesn't, and NoMemory, leave the replay as it was. Facts and hints may
    /// name any leaves, pairs and lemmas, there or not; codes of bounds are below 2 to the 32nd.
    pub fn feed(&mut self, facts: &[Fact], hints: &[Hint]) -> Result<bool, NoMemory>
        requires codes { All IsSmallCode facts.now }
        ensures stands { IfOk result (λ stood. IsTrue stood ↔ Stands (system_of self.old.task) self.old.lemmas (record { facts = facts.now; hints = hints.now })) }
        ensures kept { IfOk result (λ stood. self.new ≡ (if stood then record { task = self.old.task; lemmas = self.old.lemmas ++ facts.now ∷ [] } else self.old)) }
        ensures err { OnErr result (self.new ≡ self.old) }
    {
        if !self.given.names_all(facts) {
            return Ok(false);
        }
        if !self.given.names_hints(self.store.len(), hints) {
            return Ok(false);
        }
        let mut known = self.root;
        known.add_all(&self.given, facts);
        if !known.closes(&self.given, &self.store, hints) {
            return Ok(false);
        }
        self.store.push(self.alloc, facts)?;
        if facts.len() == 1 {
            self.root.add(&self.given, denied(facts[0]));
        }
        Ok(true)
    }

    /// Whether the last lemma has no facts. Then no side below the bound holds a valid placement, or of a mirror a symmetric one, on any
    /// finer grid either.
    pub fn proved(&self) -> bool
        ensures exact { IsTrue result ↔ EndsEmpty self.now.lemmas }
        ensures law { IsTrue result → IsBelowShown self.now.task }
    {
        let count = self.store.len();
        count >= 1 && self.store.facts(count).is_empty()
    }
}

// A replay of no lemmas.
fn begun(alloc: Global, given: Given) -> Replay
    requires { IsTask given }
    ensures { result ≡ record { task = given; lemmas = [] } }
{
    let root = first_known(&given);
    Replay {
        alloc,
        given,
        root,
        store: Store::new(alloc),
    }
}

fn heads_of(alloc: Global, swaps: &[Sequence<Pair>]) -> Result<Vec<Pair>, NoMemory>
    requires { All (λ swap. 1 ≤ length swap) swaps.now }
    ensures { IfOk result (λ heads. heads.items ≡ map head_of swaps.now) }
{
    let mut heads = Vec::with_capacity(alloc, swaps.len())?;
    for swap in swaps {
        heads.push(head(swap.as_slice()))?;
    }
    Ok(heads)
}
